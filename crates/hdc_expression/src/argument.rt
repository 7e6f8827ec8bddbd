//! Expressions that may be arguments, and functions with their arguments.

ghost use Rattle.std.specs.Prelude.{◌≡◌};
ghost use Rattle.hdc_syntax.specs.Parser as parser;
ghost use Rattle.hdc_syntax.specs.Results.{Reads};
ghost use Rattle.hdc_expression.specs.ExpressionReader as reader;
ghost use Rattle.hdc_expression.specs.Nested.{nested};
ghost use Rattle.hdc_expression.specs.Nests.{Nests};

use crate::grammar::Grammar;
use hdc_base::Key;
use hdc_syntax::{Cursor, Stop};
use hdc_tree::{Aexp, Alts, Apply, Block, Expression, Op, Sign, Var};
use sqlite_items::Items;

/// The next token begins an expression that may be an argument.
fn sees_aexp(tokens: &Cursor<'_>) -> bool
    ensures { result ≡ reader.starts_aexp (parser.head tokens.now.rest.now) }
{
    tokens.sees_small()
        || tokens.sees_capital()
        || tokens.sees_literal()
        || tokens.sees(Key::KOpenParen)
        || tokens.sees(Key::KOpenBracket)
}

impl<
    E: Fn(&mut Cursor<'_>, usize, usize, bool, Sign) -> Result<(Expression, Option<Op>), Stop>,
    B: Fn(&mut Cursor<'_>, usize, usize) -> Result<Block, Stop>,
    A: Fn(&mut Cursor<'_>, usize, usize) -> Result<Alts, Stop>,
> Grammar<E, B, A> {
    #[tactic(auto, unfolding(crate::specs::ExpressionReader::aexp))]
    fn aexp(&self, tokens: &mut Cursor<'_>) -> Result<Aexp, Stop>
        requires { Nests self.now.turns self.now.depth (E.pre self.now.exp) (E.post self.now.exp) (B.pre self.now.block) (B.post self.now.block) (A.pre self.now.alts) (A.post self.now.alts) }
        ensures { Reads (reader.aexp self.now.turns (nested self.now.turns self.now.depth) tokens.old.rest.now) result tokens.new.rest.now }
    {
        if tokens.sees_small() {
            return Ok(Aexp::Var(Var::Plain(tokens.small()?)));
        }
        if tokens.sees_capital() {
            return Ok(Aexp::Con(tokens.capital()?));
        }
        if tokens.sees_literal() {
            let (at, literal) = tokens.literal()?;
            return Ok(Aexp::Literal(at, literal));
        }
        if tokens.sees(Key::KOpenParen) {
            return self.parens(tokens);
        }
        if tokens.sees(Key::KOpenBracket) {
            return self.brackets(tokens);
        }
        Err(tokens.refuse())
    }

    /// Arguments, as many as there are.
    fn aexps(&self, tokens: &mut Cursor<'_>) -> Result<Items<Aexp>, Stop>
        requires { Nests self.now.turns self.now.depth (E.pre self.now.exp) (E.post self.now.exp) (B.pre self.now.block) (B.post self.now.block) (A.pre self.now.alts) (A.post self.now.alts) }
        ensures { Reads (reader.aexps self.now.turns (nested self.now.turns self.now.depth) tokens.old.rest.now) result tokens.new.rest.now }
    {
        let mut found = Items::new(tokens.alloc);
        for _turn in 0..self.turns {
            if !sees_aexp(tokens) {
                return Ok(found);
            }
            found.push(self.aexp(tokens)?)?;
        }
        Err(Stop::Deep)
    }

    /// A function and its arguments, or one expression alone.
    #[tactic(auto, unfolding(crate::specs::ExpressionReader::apply))]
    pub(crate) fn apply(&self, tokens: &mut Cursor<'_>) -> Result<Apply, Stop>
        requires { Nests self.now.turns self.now.depth (E.pre self.now.exp) (E.post self.now.exp) (B.pre self.now.block) (B.post self.now.block) (A.pre self.now.alts) (A.post self.now.alts) }
        ensures { Reads (reader.apply self.now.turns (nested self.now.turns self.now.depth) tokens.old.rest.now) result tokens.new.rest.now }
    {
        let head = self.aexp(tokens)?;
        let args = self.aexps(tokens)?;
        Ok(Apply { head, args })
    }
}
