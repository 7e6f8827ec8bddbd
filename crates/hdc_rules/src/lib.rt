//! The rules on names, but for those on what reaches itself.
//!
//! `find_in_prelude` and `find_in_program` answer the first place where a rule from 1 to 8 or rule 12 is broken. What is
//! broken in the declarations of a text and of a block is said in `specs/Bindings.antt` and `specs/Types.antt`, in
//! right sides in `specs/Uses.antt`, and what is known in a text in `specs/Known.antt`.
#![tactic(auto)]

mod block;
mod check;
mod equations;
mod known;
mod listed;
mod names;
mod pattern_variables;
mod scan;
mod signed;
mod tops;
mod type_variables;
mod types;

pub use check::{find_in_prelude, find_in_program};
pub use known::{types_in_prelude, types_in_program};
pub use tops::note_typed_at;
