//! The instructions of a processor, and what its steps are.
//!
//! The machine is a definition: `specs/Machine.antt` has its configurations and the one step that
//! leads from each to the next. `specs/Sound.antt` says what it is for code to be sound, never
//! without a step before its end, and to carry a meaning, whatever the budget.
#![tactic(auto)]

mod instr;
mod laws;

pub use instr::{Instr, Instrs};
pub use laws::{completes, one_path};
