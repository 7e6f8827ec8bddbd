//! What stands in brackets.

ghost use Rattle.hdc_syntax.specs.Results.{Reads};
ghost use Rattle.hdc_expression.specs.ExpressionReader as reader;
ghost use Rattle.hdc_expression.specs.Nested.{nested};
ghost use Rattle.hdc_expression.specs.Nests.{Nests};

use crate::grammar::Grammar;
use hdc_base::{At, Key};
use hdc_syntax::{Cursor, Stop};
use hdc_tree::{Aexp, Alts, Block, Expression, ListExp, Op, Sign};
use sqlite_items::Boxed;

impl<
    E: Fn(&mut Cursor<'_>, usize, usize, bool, Sign) -> Result<(Expression, Option<Op>), Stop>,
    B: Fn(&mut Cursor<'_>, usize, usize) -> Result<Block, Stop>,
    A: Fn(&mut Cursor<'_>, usize, usize) -> Result<Alts, Stop>,
> Grammar<E, B, A> {
    #[tactic(auto, unfolding(crate::specs::ExpressionReader::range))]
    fn range(
        &self,
        tokens: &mut Cursor<'_>,
        open_at: At,
        low: Boxed<Expression>,
    ) -> Result<Aexp, Stop>
        requires { Nests self.now.turns self.now.depth (E.pre self.now.exp) (E.post self.now.exp) (B.pre self.now.block) (B.post self.now.block) (A.pre self.now.alts) (A.post self.now.alts) }
        ensures { Reads (reader.range self.now.turns (nested self.now.turns self.now.depth) open_at low tokens.old.rest.now) result tokens.new.rest.now }
    {
        let dots = tokens.key(Key::KDots)?;
        let high = Boxed::new(tokens.alloc, self.whole(tokens)?)?;
        let close_at = tokens.key(Key::KCloseBracket)?;
        Ok(Aexp::List(ListExp::Range(open_at, low, dots, high, close_at)))
    }

    #[tactic(auto, unfolding(crate::specs::ExpressionReader::comprehension))]
    fn comprehension(
        &self,
        tokens: &mut Cursor<'_>,
        open_at: At,
        exp: Boxed<Expression>,
    ) -> Result<Aexp, Stop>
        requires { Nests self.now.turns self.now.depth (E.pre self.now.exp) (E.post self.now.exp) (B.pre self.now.block) (B.post self.now.block) (A.pre self.now.alts) (A.post self.now.alts) }
        ensures { Reads (reader.comprehension self.now.turns (nested self.now.turns self.now.depth) open_at exp tokens.old.rest.now) result tokens.new.rest.now }
    {
        let bar = tokens.key(Key::KBar)?;
        let first = self.qual(tokens)?;
        let rest = self.comma_quals(tokens)?;
        let close_at = tokens.key(Key::KCloseBracket)?;
        Ok(Aexp::List(ListExp::Comprehension(open_at, exp, bar, first, rest, close_at)))
    }

    #[tactic(auto, unfolding(crate::specs::ExpressionReader::members))]
    fn members(
        &self,
        tokens: &mut Cursor<'_>,
        open_at: At,
        first: Boxed<Expression>,
    ) -> Result<Aexp, Stop>
        requires { Nests self.now.turns self.now.depth (E.pre self.now.exp) (E.post self.now.exp) (B.pre self.now.block) (B.post self.now.block) (A.pre self.now.alts) (A.post self.now.alts) }
        ensures { Reads (reader.members self.now.turns (nested self.now.turns self.now.depth) open_at first tokens.old.rest.now) result tokens.new.rest.now }
    {
        let rest = self.comma_exps(tokens)?;
        let close_at = tokens.key(Key::KCloseBracket)?;
        Ok(Aexp::List(ListExp::Members(open_at, first, rest, close_at)))
    }

    /// What stands behind the first expression.
    fn brackets_behind(
        &self,
        tokens: &mut Cursor<'_>,
        open_at: At,
        first: Boxed<Expression>,
    ) -> Result<Aexp, Stop>
        requires { Nests self.now.turns self.now.depth (E.pre self.now.exp) (E.post self.now.exp) (B.pre self.now.block) (B.post self.now.block) (A.pre self.now.alts) (A.post self.now.alts) }
        ensures { Reads (reader.brackets_behind self.now.turns (nested self.now.turns self.now.depth) open_at first tokens.old.rest.now) result tokens.new.rest.now }
    {
        if tokens.sees(Key::KDots) {
            return self.range(tokens, open_at, first);
        }
        if tokens.sees(Key::KBar) {
            return self.comprehension(tokens, open_at, first);
        }
        self.members(tokens, open_at, first)
    }

    /// A list in brackets.
    #[tactic(auto, unfolding(crate::specs::ExpressionReader::brackets))]
    pub(crate) fn brackets(&self, tokens: &mut Cursor<'_>) -> Result<Aexp, Stop>
        requires { Nests self.now.turns self.now.depth (E.pre self.now.exp) (E.post self.now.exp) (B.pre self.now.block) (B.post self.now.block) (A.pre self.now.alts) (A.post self.now.alts) }
        ensures { Reads (reader.brackets self.now.turns (nested self.now.turns self.now.depth) tokens.old.rest.now) result tokens.new.rest.now }
    {
        let open_at = tokens.key(Key::KOpenBracket)?;
        if tokens.sees(Key::KCloseBracket) {
            let close_at = tokens.key(Key::KCloseBracket)?;
            return Ok(Aexp::Nil(open_at, close_at));
        }
        let first = Boxed::new(tokens.alloc, self.whole(tokens)?)?;
        self.brackets_behind(tokens, open_at, first)
    }
}
