//! Checked arithmetic.

ghost use Rattle.std.specs.Prelude.{◌≡◌};
ghost use Rattle.hdc_value.specs.Arithmetic.{arith_of};

use crate::outcome::TrapKind;

/// An operator on two integers.
#[derive(Clone, Copy, Debug, PartialEq, Eq)]
pub enum Op {
    Add,
    Sub,
    Mul,
}

/// The exact result of an operator, or `Overflow` where 64 bits do not hold it. Takes no memory.
pub fn arith(op: Op, a: i64, b: i64) -> Result<i64, TrapKind>
    ensures { result ≡ arith_of op a b }
{
    let exact = match op {
        Op::Add => a.checked_add(b),
        Op::Sub => a.checked_sub(b),
        Op::Mul => a.checked_mul(b),
    };
    exact.ok_or(TrapKind::Overflow)
}
