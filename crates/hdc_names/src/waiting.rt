//! The operators and signs that wait for their right operands.

ghost use Rattle.std.specs.Prelude.{◌≡◌};
ghost use Rattle.hdc_names.specs.Chain as spec;

use crate::chain::Step;
use crate::fixity::{Fixity, sign};

/// What waits for its right operand.
#[derive(Clone, Copy, Debug, PartialEq, Eq)]
pub(crate) enum Waiting {
    /// The operator before the operand of this number.
    Operator(usize, Fixity),
    /// The sign of the operand of this number.
    Sign(usize),
}

impl Waiting {
    /// How it binds.
    pub(crate) fn fixity(self) -> Fixity
        ensures { result ≡ spec.fixity_of self }
    {
        match self {
            Waiting::Operator(_number, fixity) => fixity,
            Waiting::Sign(_number) => sign(),
        }
    }

    /// The step that is made where its right operand is complete.
    pub(crate) fn step(self) -> Step
        ensures { result ≡ spec.step_of self }
    {
        match self {
            Waiting::Operator(number, _fixity) => Step::Operator(number),
            Waiting::Sign(number) => Step::Sign(number),
        }
    }
}
