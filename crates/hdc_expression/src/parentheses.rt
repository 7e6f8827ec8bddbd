//! What stands in parentheses.

ghost use Rattle.std.specs.Prelude.{[], ◌∷◌};
ghost use Rattle.hdc_base.specs.declared.token.Key.TheVariants as key;
ghost use Rattle.hdc_syntax.specs.Parser as parser;
ghost use Rattle.hdc_syntax.specs.Words as words;
ghost use Rattle.hdc_syntax.specs.Results.{Reads};
ghost use Rattle.hdc_expression.specs.ExpressionReader as reader;
ghost use Rattle.hdc_expression.specs.Nested.{nested};
ghost use Rattle.hdc_expression.specs.Nests.{Nests};

use crate::grammar::Grammar;
use hdc_base::{At, Key};
use hdc_syntax::{Cursor, Stop};
use hdc_tree::{Aexp, Alts, Block, CommaExp, Expression, Op, Sign, Var, VarOp};
use sqlite_items::{Boxed, Items};

impl<
    E: Fn(&mut Cursor<'_>, usize, usize, bool, Sign) -> Result<(Expression, Option<Op>), Stop>,
    B: Fn(&mut Cursor<'_>, usize, usize) -> Result<Block, Stop>,
    A: Fn(&mut Cursor<'_>, usize, usize) -> Result<Alts, Stop>,
> Grammar<E, B, A> {
    /// `,` and an expression.
    #[tactic(auto, unfolding(crate::specs::ExpressionReader::comma_exp))]
    pub(crate) fn comma_exp(&self, tokens: &mut Cursor<'_>) -> Result<CommaExp, Stop>
        requires { Nests self.now.turns self.now.depth (E.pre self.now.exp) (E.post self.now.exp) (B.pre self.now.block) (B.post self.now.block) (A.pre self.now.alts) (A.post self.now.alts) }
        ensures { Reads (reader.comma_exp self.now.turns (nested self.now.turns self.now.depth) tokens.old.rest.now) result tokens.new.rest.now }
    {
        let comma = tokens.key(Key::KComma)?;
        let exp = self.whole(tokens)?;
        Ok(CommaExp { comma, exp })
    }

    /// Expressions with `,` before each, as many as there are.
    pub(crate) fn comma_exps(&self, tokens: &mut Cursor<'_>) -> Result<Items<CommaExp>, Stop>
        requires { Nests self.now.turns self.now.depth (E.pre self.now.exp) (E.post self.now.exp) (B.pre self.now.block) (B.post self.now.block) (A.pre self.now.alts) (A.post self.now.alts) }
        ensures { Reads (reader.comma_exps self.now.turns (nested self.now.turns self.now.depth) tokens.old.rest.now) result tokens.new.rest.now }
    {
        let mut found = Items::new(tokens.alloc);
        for _turn in 0..self.turns {
            if !tokens.sees(Key::KComma) {
                return Ok(found);
            }
            found.push(self.comma_exp(tokens)?)?;
        }
        Err(Stop::Deep)
    }

    /// A second member, and five more at most.
    fn tuple_members(
        &self,
        tokens: &mut Cursor<'_>,
        second: CommaExp,
    ) -> Result<Items<CommaExp>, Stop>
        requires { Nests self.now.turns self.now.depth (E.pre self.now.exp) (E.post self.now.exp) (B.pre self.now.block) (B.post self.now.block) (A.pre self.now.alts) (A.post self.now.alts) }
        ensures { Reads (parser.at_most_from (words.is key.KComma) (reader.comma_exp self.now.turns (nested self.now.turns self.now.depth)) 5 (second ∷ []) tokens.old.rest.now) result tokens.new.rest.now }
    {
        let mut found = Items::new(tokens.alloc);
        found.push(second)?;
        for _turn in 0..5_usize {
            if !tokens.sees(Key::KComma) {
                return Ok(found);
            }
            found.push(self.comma_exp(tokens)?)?;
        }
        Ok(found)
    }

    #[tactic(auto, unfolding(crate::specs::ExpressionReader::tuple_exp))]
    fn tuple_exp(
        &self,
        tokens: &mut Cursor<'_>,
        open_at: At,
        first: Boxed<Expression>,
    ) -> Result<Aexp, Stop>
        requires { Nests self.now.turns self.now.depth (E.pre self.now.exp) (E.post self.now.exp) (B.pre self.now.block) (B.post self.now.block) (A.pre self.now.alts) (A.post self.now.alts) }
        ensures { Reads (reader.tuple_exp self.now.turns (nested self.now.turns self.now.depth) open_at first tokens.old.rest.now) result tokens.new.rest.now }
    {
        let second = self.comma_exp(tokens)?;
        let rest = self.tuple_members(tokens, second)?;
        let close_at = tokens.key(Key::KCloseParen)?;
        Ok(Aexp::Tuple(open_at, first, rest, close_at))
    }

    /// What stands behind the first expression and the operator that ends it.
    fn parens_behind(
        &self,
        tokens: &mut Cursor<'_>,
        open_at: At,
        first: Boxed<Expression>,
        end: Option<Op>,
    ) -> Result<Aexp, Stop>
        requires { Nests self.now.turns self.now.depth (E.pre self.now.exp) (E.post self.now.exp) (B.pre self.now.block) (B.post self.now.block) (A.pre self.now.alts) (A.post self.now.alts) }
        ensures { Reads (reader.parens_behind self.now.turns (nested self.now.turns self.now.depth) open_at first end tokens.old.rest.now) result tokens.new.rest.now }
    {
        if let Some(op) = end {
            let close_at = tokens.key(Key::KCloseParen)?;
            Ok(Aexp::LeftSection(open_at, first, op, close_at))
        } else if tokens.sees(Key::KCloseParen) {
            let close_at = tokens.key(Key::KCloseParen)?;
            Ok(Aexp::Paren(open_at, first, close_at))
        } else {
            self.tuple_exp(tokens, open_at, first)
        }
    }

    #[tactic(auto, unfolding(crate::specs::ExpressionReader::inside))]
    fn inside(&self, tokens: &mut Cursor<'_>, open_at: At, taken: Sign) -> Result<Aexp, Stop>
        requires { Nests self.now.turns self.now.depth (E.pre self.now.exp) (E.post self.now.exp) (B.pre self.now.block) (B.post self.now.block) (A.pre self.now.alts) (A.post self.now.alts) }
        ensures { Reads (reader.inside self.now.turns (nested self.now.turns self.now.depth) open_at taken tokens.old.rest.now) result tokens.new.rest.now }
    {
        let (first, end) = self.exp(tokens, true, taken)?;
        self.parens_behind(tokens, open_at, Boxed::new(tokens.alloc, first)?, end)
    }

    #[tactic(auto, unfolding(crate::specs::ExpressionReader::right_section))]
    fn right_section(&self, tokens: &mut Cursor<'_>, open_at: At, op: Op) -> Result<Aexp, Stop>
        requires { Nests self.now.turns self.now.depth (E.pre self.now.exp) (E.post self.now.exp) (B.pre self.now.block) (B.post self.now.block) (A.pre self.now.alts) (A.post self.now.alts) }
        ensures { Reads (reader.right_section self.now.turns (nested self.now.turns self.now.depth) open_at op tokens.old.rest.now) result tokens.new.rest.now }
    {
        let exp = Boxed::new(tokens.alloc, self.whole(tokens)?)?;
        let close_at = tokens.key(Key::KCloseParen)?;
        Ok(Aexp::RightSection(open_at, op, exp, close_at))
    }

    /// `:` alone, or before an expression.
    #[tactic(auto, unfolding(crate::specs::ExpressionReader::cons_in))]
    fn cons_in(&self, tokens: &mut Cursor<'_>, open_at: At) -> Result<Aexp, Stop>
        requires { Nests self.now.turns self.now.depth (E.pre self.now.exp) (E.post self.now.exp) (B.pre self.now.block) (B.post self.now.block) (A.pre self.now.alts) (A.post self.now.alts) }
        ensures { Reads (reader.cons_in self.now.turns (nested self.now.turns self.now.depth) open_at tokens.old.rest.now) result tokens.new.rest.now }
    {
        let at = tokens.key(Key::KColon)?;
        if tokens.sees(Key::KCloseParen) {
            let close_at = tokens.key(Key::KCloseParen)?;
            return Ok(Aexp::Cons(open_at, at, close_at));
        }
        self.right_section(tokens, open_at, Op::Cons(at))
    }

    /// A name of symbols alone, or before an expression; a `-` is the sign of the expression.
    #[tactic(auto, unfolding(crate::specs::ExpressionReader::symbol_in))]
    fn symbol_in(&self, tokens: &mut Cursor<'_>, open_at: At) -> Result<Aexp, Stop>
        requires { Nests self.now.turns self.now.depth (E.pre self.now.exp) (E.post self.now.exp) (B.pre self.now.block) (B.post self.now.block) (A.pre self.now.alts) (A.post self.now.alts) }
        ensures { Reads (reader.symbol_in self.now.turns (nested self.now.turns self.now.depth) open_at tokens.old.rest.now) result tokens.new.rest.now }
    {
        let name = tokens.symbol()?;
        if tokens.sees(Key::KCloseParen) {
            let close_at = tokens.key(Key::KCloseParen)?;
            return Ok(Aexp::Var(Var::Operator(open_at, name, close_at)));
        }
        if name.text.as_slice() == b"-".as_slice() {
            return self.inside(tokens, open_at, Sign::Minus(name.at));
        }
        self.right_section(tokens, open_at, Op::Var(VarOp::Symbol(name)))
    }

    fn quoted_in(&self, tokens: &mut Cursor<'_>, open_at: At) -> Result<Aexp, Stop>
        requires { Nests self.now.turns self.now.depth (E.pre self.now.exp) (E.post self.now.exp) (B.pre self.now.block) (B.post self.now.block) (A.pre self.now.alts) (A.post self.now.alts) }
        ensures { Reads (reader.quoted_in self.now.turns (nested self.now.turns self.now.depth) open_at tokens.old.rest.now) result tokens.new.rest.now }
    {
        let op = tokens.quoted_op()?;
        self.right_section(tokens, open_at, op)
    }

    /// What stands in parentheses.
    #[tactic(auto, unfolding(crate::specs::ExpressionReader::parens))]
    pub(crate) fn parens(&self, tokens: &mut Cursor<'_>) -> Result<Aexp, Stop>
        requires { Nests self.now.turns self.now.depth (E.pre self.now.exp) (E.post self.now.exp) (B.pre self.now.block) (B.post self.now.block) (A.pre self.now.alts) (A.post self.now.alts) }
        ensures { Reads (reader.parens self.now.turns (nested self.now.turns self.now.depth) tokens.old.rest.now) result tokens.new.rest.now }
    {
        let open_at = tokens.key(Key::KOpenParen)?;
        if tokens.sees(Key::KCloseParen) {
            let close_at = tokens.key(Key::KCloseParen)?;
            return Ok(Aexp::Unit(open_at, close_at));
        }
        if tokens.sees(Key::KColon) {
            return self.cons_in(tokens, open_at);
        }
        if tokens.sees_symbol() {
            return self.symbol_in(tokens, open_at);
        }
        if tokens.sees(Key::KBackquote) {
            return self.quoted_in(tokens, open_at);
        }
        self.inside(tokens, open_at, Sign::Absent)
    }
}
