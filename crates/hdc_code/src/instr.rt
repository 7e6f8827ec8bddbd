//! Instructions.

use hdc_base::Place;
use hdc_value::Op;
use sqlite_items::Items;

/// An instruction.
#[derive(Clone, Copy, Debug, PartialEq, Eq)]
pub enum Instr {
    /// Pushes the integer.
    Int(i64),
    /// Pops two integers, the right one from the top, and pushes the operator's result, or traps at
    /// the place.
    Prim(Op, Place),
    /// Counts one unfolding.
    Tick,
    /// Ends with the value on the top.
    Ret,
}

/// A list of instructions.
pub type Instrs = Items<Instr>;
