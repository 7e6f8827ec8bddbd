//! What an evaluation ends with.

use hdc_base::Place;

/// A value.
#[derive(Clone, Copy, Debug, PartialEq, Eq)]
pub enum Value {
    /// An integer of 64 bits.
    Int(i64),
}

/// The kind of a trap.
#[derive(Clone, Copy, Debug, PartialEq, Eq)]
pub enum TrapKind {
    /// The exact result of an integer operator is out of the range of 64 bits.
    Overflow,
}

/// A trap, with the place of the name in the text that trapped.
#[derive(Clone, Copy, Debug, PartialEq, Eq)]
pub struct Trap {
    pub kind: TrapKind,
    pub place: Place,
}

/// What an evaluation ends with.
#[derive(Clone, Copy, Debug, PartialEq, Eq)]
pub enum Outcome {
    Value(Value),
    Trap(Trap),
}
