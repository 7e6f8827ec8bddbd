//! Operands with operators between them.

ghost use Rattle.std.specs.Prelude.{[]};
ghost use Rattle.hdc_syntax.specs.Results.{Reads};
ghost use Rattle.hdc_expression.specs.ExpressionReader as reader;
ghost use Rattle.hdc_expression.specs.Nested.{nested};
ghost use Rattle.hdc_expression.specs.Nests.{Nests};

use crate::grammar::Grammar;
use hdc_base::Key;
use hdc_syntax::{Cursor, Stop};
use hdc_tree::{Alts, Block, Expression, Link, Op, Operand, Sign};
use sqlite_items::Items;

impl<
    E: Fn(&mut Cursor<'_>, usize, usize, bool, Sign) -> Result<(Expression, Option<Op>), Stop>,
    B: Fn(&mut Cursor<'_>, usize, usize) -> Result<Block, Stop>,
    A: Fn(&mut Cursor<'_>, usize, usize) -> Result<Alts, Stop>,
> Grammar<E, B, A> {
    /// The sign of an operand, where it is not yet read.
    fn signed(&self, tokens: &mut Cursor<'_>, taken: Sign) -> Result<Sign, Stop>
        ensures { Reads (reader.signed self.now.turns (nested self.now.turns self.now.depth) taken tokens.old.rest.now) result tokens.new.rest.now }
    {
        match taken {
            Sign::Minus(at) => Ok(Sign::Minus(at)),
            Sign::Absent => {
                if tokens.sees_minus() {
                    return Ok(Sign::Minus(tokens.minus()?));
                }
                Ok(Sign::Absent)
            }
        }
    }

    /// An expression. It is told whether an operator may end it, before a closing parenthesis, and the sign
    /// of its first operand where that is read.
    pub fn exp_level(
        &self,
        tokens: &mut Cursor<'_>,
        section: bool,
        taken: Sign,
    ) -> Result<(Expression, Option<Op>), Stop>
        requires { Nests self.now.turns self.now.depth (E.pre self.now.exp) (E.post self.now.exp) (B.pre self.now.block) (B.post self.now.block) (A.pre self.now.alts) (A.post self.now.alts) }
        ensures { Reads (reader.exp_level self.now.turns (nested self.now.turns self.now.depth) section taken tokens.old.rest.now) result tokens.new.rest.now }
    {
        let mut links = Items::new(tokens.alloc);
        let mut taken = taken;
        for _turn in 0..self.turns {
            let sign = self.signed(tokens, taken)?;
            if tokens.sees(Key::KBackslash) {
                return self.lambda(tokens, section, links, sign);
            }
            if tokens.sees(Key::KLet) {
                return self.let_in(tokens, section, links, sign);
            }
            if tokens.sees(Key::KIf) {
                return self.choice(tokens, section, links, sign);
            }
            if tokens.sees(Key::KCase) {
                return self.cases(tokens, section, links, sign);
            }
            let left = self.apply(tokens)?;
            if !tokens.sees_op() {
                let last = Operand::Applied(left);
                return Ok((Expression { links, sign, last }, None));
            }
            let op = tokens.op()?;
            if section && tokens.sees(Key::KCloseParen) {
                let last = Operand::Applied(left);
                return Ok((Expression { links, sign, last }, Some(op)));
            }
            links.push(Link { sign, left, op })?;
            taken = Sign::Absent;
        }
        Err(Stop::Deep)
    }
}
