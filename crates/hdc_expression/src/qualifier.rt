//! Qualifiers.

ghost use Rattle.std.specs.Prelude.{◌≡◌, []};
ghost use Rattle.hdc_syntax.specs.Parser as parser;
ghost use Rattle.hdc_syntax.specs.Results.{Reads};
ghost use Rattle.hdc_expression.specs.ExpressionReader as reader;
ghost use Rattle.hdc_expression.specs.Nested.{nested};
ghost use Rattle.hdc_expression.specs.Nests.{Nests};

use crate::grammar::Grammar;
use hdc_base::{At, Key};
use hdc_syntax::{Cursor, Stop};
use hdc_tree::{Alts, Block, CommaQual, Expression, Op, Operand, Pat, Qual, Sign};
use sqlite_items::{Boxed, Items};

/// The beginning of a qualifier, up to where it shows which it is.
#[derive(Drop)]
pub enum QualHead {
    /// A pattern and `<-`.
    Source(Pat, At),
    /// An expression.
    Condition(Expression),
}

/// The next token ends a qualifier.
fn ends_qual(tokens: &Cursor<'_>) -> bool
    ensures { result ≡ reader.ends_qual (parser.head tokens.now.rest.now) }
{
    tokens.sees(Key::KComma) || tokens.sees(Key::KCloseBracket)
}

impl<
    E: Fn(&mut Cursor<'_>, usize, usize, bool, Sign) -> Result<(Expression, Option<Op>), Stop>,
    B: Fn(&mut Cursor<'_>, usize, usize) -> Result<Block, Stop>,
    A: Fn(&mut Cursor<'_>, usize, usize) -> Result<Alts, Stop>,
> Grammar<E, B, A> {
    #[tactic(auto, unfolding(crate::specs::ExpressionReader::generator))]
    fn generator(&self, tokens: &mut Cursor<'_>) -> Result<QualHead, Stop>
        ensures { Reads (reader.generator self.now.turns (nested self.now.turns self.now.depth) tokens.old.rest.now) result tokens.new.rest.now }
    {
        let pat = self.pat(tokens)?;
        let arrow = tokens.key(Key::KLeftArrow)?;
        Ok(QualHead::Source(pat, arrow))
    }

    #[tactic(auto, unfolding(crate::specs::ExpressionReader::condition))]
    fn condition(&self, tokens: &mut Cursor<'_>) -> Result<QualHead, Stop>
        requires { Nests self.now.turns self.now.depth (E.pre self.now.exp) (E.post self.now.exp) (B.pre self.now.block) (B.post self.now.block) (A.pre self.now.alts) (A.post self.now.alts) }
        ensures { Reads (reader.condition self.now.turns (nested self.now.turns self.now.depth) tokens.old.rest.now) result tokens.new.rest.now }
    {
        let exp = self.whole(tokens)?;
        if ends_qual(tokens) {
            return Ok(QualHead::Condition(exp));
        }
        Err(tokens.refuse())
    }

    /// The generator, or else the condition; of two refusals the one that stands further on.
    fn qual_head(&self, tokens: &mut Cursor<'_>) -> Result<QualHead, Stop>
        requires { Nests self.now.turns self.now.depth (E.pre self.now.exp) (E.post self.now.exp) (B.pre self.now.block) (B.post self.now.block) (A.pre self.now.alts) (A.post self.now.alts) }
        ensures { Reads (reader.qual_head self.now.turns (nested self.now.turns self.now.depth) tokens.old.rest.now) result tokens.new.rest.now }
    {
        let start = *tokens;
        match self.generator(tokens) {
            Err(Stop::Syntax(left)) => {
                *tokens = start;
                match self.condition(tokens) {
                    Err(Stop::Syntax(other)) => Err(Stop::Syntax(left.min(other))),
                    found => found,
                }
            }
            found => found,
        }
    }

    fn qual_behind(&self, tokens: &mut Cursor<'_>, head: QualHead) -> Result<Qual, Stop>
        requires { Nests self.now.turns self.now.depth (E.pre self.now.exp) (E.post self.now.exp) (B.pre self.now.block) (B.post self.now.block) (A.pre self.now.alts) (A.post self.now.alts) }
        ensures { Reads (reader.qual_behind self.now.turns (nested self.now.turns self.now.depth) head tokens.old.rest.now) result tokens.new.rest.now }
    {
        match head {
            QualHead::Source(pat, arrow) => {
                let exp = Boxed::new(tokens.alloc, self.whole(tokens)?)?;
                Ok(Qual::Generator(pat, arrow, exp))
            }
            QualHead::Condition(exp) => Ok(Qual::Condition(Boxed::new(tokens.alloc, exp)?)),
        }
    }

    fn let_exp(&self, tokens: &mut Cursor<'_>, at: At, decls: Block) -> Result<Qual, Stop>
        requires { Nests self.now.turns self.now.depth (E.pre self.now.exp) (E.post self.now.exp) (B.pre self.now.block) (B.post self.now.block) (A.pre self.now.alts) (A.post self.now.alts) }
        ensures { Reads (reader.let_exp self.now.turns (nested self.now.turns self.now.depth) at decls tokens.old.rest.now) result tokens.new.rest.now }
    {
        let in_at = tokens.key(Key::KIn)?;
        let exp = Boxed::new(tokens.alloc, self.whole(tokens)?)?;
        let whole = Expression {
            links: Items::new(tokens.alloc),
            sign: Sign::Absent,
            last: Operand::Let(at, decls, in_at, exp),
        };
        Ok(Qual::Condition(Boxed::new(tokens.alloc, whole)?))
    }

    /// `let` and declarations, alone or before `in`.
    #[tactic(auto, unfolding(crate::specs::ExpressionReader::let_qual))]
    fn let_qual(&self, tokens: &mut Cursor<'_>) -> Result<Qual, Stop>
        requires { Nests self.now.turns self.now.depth (E.pre self.now.exp) (E.post self.now.exp) (B.pre self.now.block) (B.post self.now.block) (A.pre self.now.alts) (A.post self.now.alts) }
        ensures { Reads (reader.let_qual self.now.turns (nested self.now.turns self.now.depth) tokens.old.rest.now) result tokens.new.rest.now }
    {
        let at = tokens.key(Key::KLet)?;
        let decls = self.inner_block(tokens)?;
        if tokens.sees(Key::KIn) {
            return self.let_exp(tokens, at, decls);
        }
        Ok(Qual::Local(at, decls))
    }

    /// A qualifier.
    #[tactic(auto, unfolding(crate::specs::ExpressionReader::qual))]
    pub(crate) fn qual(&self, tokens: &mut Cursor<'_>) -> Result<Qual, Stop>
        requires { Nests self.now.turns self.now.depth (E.pre self.now.exp) (E.post self.now.exp) (B.pre self.now.block) (B.post self.now.block) (A.pre self.now.alts) (A.post self.now.alts) }
        ensures { Reads (reader.qual self.now.turns (nested self.now.turns self.now.depth) tokens.old.rest.now) result tokens.new.rest.now }
    {
        if tokens.sees(Key::KLet) {
            return self.let_qual(tokens);
        }
        let head = self.qual_head(tokens)?;
        self.qual_behind(tokens, head)
    }

    #[tactic(auto, unfolding(crate::specs::ExpressionReader::comma_qual))]
    fn comma_qual(&self, tokens: &mut Cursor<'_>) -> Result<CommaQual, Stop>
        requires { Nests self.now.turns self.now.depth (E.pre self.now.exp) (E.post self.now.exp) (B.pre self.now.block) (B.post self.now.block) (A.pre self.now.alts) (A.post self.now.alts) }
        ensures { Reads (reader.comma_qual self.now.turns (nested self.now.turns self.now.depth) tokens.old.rest.now) result tokens.new.rest.now }
    {
        let comma = tokens.key(Key::KComma)?;
        let qual = self.qual(tokens)?;
        Ok(CommaQual { comma, qual })
    }

    /// Qualifiers with `,` before each, as many as there are.
    pub(crate) fn comma_quals(&self, tokens: &mut Cursor<'_>) -> Result<Items<CommaQual>, Stop>
        requires { Nests self.now.turns self.now.depth (E.pre self.now.exp) (E.post self.now.exp) (B.pre self.now.block) (B.post self.now.block) (A.pre self.now.alts) (A.post self.now.alts) }
        ensures { Reads (reader.comma_quals self.now.turns (nested self.now.turns self.now.depth) tokens.old.rest.now) result tokens.new.rest.now }
    {
        let mut found = Items::new(tokens.alloc);
        for _turn in 0..self.turns {
            if !tokens.sees(Key::KComma) {
                return Ok(found);
            }
            found.push(self.comma_qual(tokens)?)?;
        }
        Err(Stop::Deep)
    }
}
