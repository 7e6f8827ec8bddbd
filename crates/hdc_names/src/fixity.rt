//! How operators bind.

ghost use Rattle.std.specs.Prelude.{◌≡◌};
ghost use Rattle.hdc_names.specs.OperatorTrees as trees;
ghost use Rattle.hdc_names.specs.Grouping as grouping;

use hdc_tree::Associativity;

/// How an operator binds: tighter with a larger precedence.
#[derive(Clone, Copy, Debug, PartialEq, Eq)]
pub struct Fixity {
    pub precedence: u64,
    pub associativity: Associativity,
}

/// Which of two operators takes the operand between them.
#[derive(Clone, Copy, Debug, PartialEq, Eq)]
pub(crate) enum Taker {
    First,
    Second,
    Unclear,
}

/// A sign binds as an operator of precedence 6 that associates to the left.
pub(crate) fn sign() -> Fixity
    ensures { result ≡ trees.sign }
{
    Fixity {
        precedence: 6,
        associativity: Associativity::Left,
    }
}

/// Which of two operators takes the operand between them.
pub(crate) fn between(first: Fixity, second: Fixity) -> Taker
    ensures { result ≡ grouping.taker first second }
{
    if second.precedence < first.precedence {
        return Taker::First;
    }
    if first.precedence < second.precedence {
        return Taker::Second;
    }
    by_side(first.associativity, second.associativity)
}

fn by_side(first: Associativity, second: Associativity) -> Taker
    ensures { result ≡ grouping.by_side first second }
{
    match (first, second) {
        (Associativity::Left, Associativity::Left) => Taker::First,
        (Associativity::Right, Associativity::Right) => Taker::Second,
        _ => Taker::Unclear,
    }
}
