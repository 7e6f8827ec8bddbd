//! Operands that stand last in their chain. What ends in an expression ends as that does.

ghost use Rattle.std.specs.Prelude.{[]};
ghost use Rattle.hdc_syntax.specs.Results.{Reads};
ghost use Rattle.hdc_expression.specs.ExpressionReader as reader;
ghost use Rattle.hdc_expression.specs.Nested.{nested};
ghost use Rattle.hdc_expression.specs.Nests.{Nests};

use crate::grammar::Grammar;
use hdc_base::Key;
use hdc_syntax::{Cursor, Stop};
use hdc_tree::{Alts, Block, Expression, Link, Op, Operand, Sign};
use sqlite_items::{Boxed, Items};

impl<
    E: Fn(&mut Cursor<'_>, usize, usize, bool, Sign) -> Result<(Expression, Option<Op>), Stop>,
    B: Fn(&mut Cursor<'_>, usize, usize) -> Result<Block, Stop>,
    A: Fn(&mut Cursor<'_>, usize, usize) -> Result<Alts, Stop>,
> Grammar<E, B, A> {
    /// `\`, patterns, `->` and an expression, behind the links of its chain.
    #[tactic(auto, unfolding(crate::specs::ExpressionReader::lambda))]
    pub(crate) fn lambda(
        &self,
        tokens: &mut Cursor<'_>,
        section: bool,
        links: Items<Link>,
        sign: Sign,
    ) -> Result<(Expression, Option<Op>), Stop>
        requires { Nests self.now.turns self.now.depth (E.pre self.now.exp) (E.post self.now.exp) (B.pre self.now.block) (B.post self.now.block) (A.pre self.now.alts) (A.post self.now.alts) }
        ensures { Reads (reader.lambda self.now.turns (nested self.now.turns self.now.depth) section links sign tokens.old.rest.now) result tokens.new.rest.now }
    {
        let at = tokens.key(Key::KBackslash)?;
        let first = self.apat(tokens)?;
        let rest = self.apats(tokens)?;
        let arrow = tokens.key(Key::KRightArrow)?;
        let (exp, end) = self.exp(tokens, section, Sign::Absent)?;
        let last = Operand::Lambda(at, first, rest, arrow, Boxed::new(tokens.alloc, exp)?);
        Ok((Expression { links, sign, last }, end))
    }

    /// `let`, declarations, `in` and an expression, behind the links of its chain.
    #[tactic(auto, unfolding(crate::specs::ExpressionReader::let_in))]
    pub(crate) fn let_in(
        &self,
        tokens: &mut Cursor<'_>,
        section: bool,
        links: Items<Link>,
        sign: Sign,
    ) -> Result<(Expression, Option<Op>), Stop>
        requires { Nests self.now.turns self.now.depth (E.pre self.now.exp) (E.post self.now.exp) (B.pre self.now.block) (B.post self.now.block) (A.pre self.now.alts) (A.post self.now.alts) }
        ensures { Reads (reader.let_in self.now.turns (nested self.now.turns self.now.depth) section links sign tokens.old.rest.now) result tokens.new.rest.now }
    {
        let at = tokens.key(Key::KLet)?;
        let decls = self.inner_block(tokens)?;
        let in_at = tokens.key(Key::KIn)?;
        let (exp, end) = self.exp(tokens, section, Sign::Absent)?;
        let last = Operand::Let(at, decls, in_at, Boxed::new(tokens.alloc, exp)?);
        Ok((Expression { links, sign, last }, end))
    }

    /// `if`, `then` and `else`, each with an expression, behind the links of its chain.
    #[tactic(auto, unfolding(crate::specs::ExpressionReader::choice))]
    pub(crate) fn choice(
        &self,
        tokens: &mut Cursor<'_>,
        section: bool,
        links: Items<Link>,
        sign: Sign,
    ) -> Result<(Expression, Option<Op>), Stop>
        requires { Nests self.now.turns self.now.depth (E.pre self.now.exp) (E.post self.now.exp) (B.pre self.now.block) (B.post self.now.block) (A.pre self.now.alts) (A.post self.now.alts) }
        ensures { Reads (reader.choice self.now.turns (nested self.now.turns self.now.depth) section links sign tokens.old.rest.now) result tokens.new.rest.now }
    {
        let at = tokens.key(Key::KIf)?;
        let condition = Boxed::new(tokens.alloc, self.whole(tokens)?)?;
        let then_at = tokens.key(Key::KThen)?;
        let first = Boxed::new(tokens.alloc, self.whole(tokens)?)?;
        let else_at = tokens.key(Key::KElse)?;
        let (exp, end) = self.exp(tokens, section, Sign::Absent)?;
        let second = Boxed::new(tokens.alloc, exp)?;
        let last = Operand::If(at, condition, then_at, first, else_at, second);
        Ok((Expression { links, sign, last }, end))
    }

    /// An operator that ends a section, where one may.
    fn last_op(&self, tokens: &mut Cursor<'_>, section: bool) -> Result<Option<Op>, Stop>
        ensures { Reads (reader.last_op self.now.turns (nested self.now.turns self.now.depth) section tokens.old.rest.now) result tokens.new.rest.now }
    {
        if section && tokens.sees_op() {
            return Ok(Some(tokens.op()?));
        }
        Ok(None)
    }

    /// `case`, an expression, `of` and alternatives, behind the links of its chain.
    #[tactic(auto, unfolding(crate::specs::ExpressionReader::cases))]
    pub(crate) fn cases(
        &self,
        tokens: &mut Cursor<'_>,
        section: bool,
        links: Items<Link>,
        sign: Sign,
    ) -> Result<(Expression, Option<Op>), Stop>
        requires { Nests self.now.turns self.now.depth (E.pre self.now.exp) (E.post self.now.exp) (B.pre self.now.block) (B.post self.now.block) (A.pre self.now.alts) (A.post self.now.alts) }
        ensures { Reads (reader.cases self.now.turns (nested self.now.turns self.now.depth) section links sign tokens.old.rest.now) result tokens.new.rest.now }
    {
        let at = tokens.key(Key::KCase)?;
        let subject = Boxed::new(tokens.alloc, self.whole(tokens)?)?;
        let of_at = tokens.key(Key::KOf)?;
        let alts = self.inner_alts(tokens)?;
        let end = self.last_op(tokens, section)?;
        let last = Operand::Case(at, subject, of_at, alts);
        Ok((Expression { links, sign, last }, end))
    }
}
