//! Types, values, traps and outcomes, and the checked arithmetic of 64 bits.
//!
//! `arith` is the one place where numbers are computed, and its contract is the exact result or the
//! exact trap. `Ty` and `DataDef` are the types of a program. The crate stands on the places and lists of
//! `hdc_base`.
#![tactic(auto)]

mod arithmetic;
mod outcome;
mod ty;

pub use arithmetic::{Op, arith};
pub use outcome::{Outcome, Trap, TrapKind, Value};
pub use ty::{Con, Cons, DataDef, Datas, FlatType, Ty, TypeNode, Tys};
