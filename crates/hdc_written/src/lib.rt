//! Programs as they are written, as passes over their names see them.
//!
//! Definitions speak of a program without the memory that holds it (`specs/Written.antt`); `specs/Mirror.antt` leads
//! there from a tree. `Scope` is what names stand for, the last binding of a name first; the `bind_*` functions bind
//! what patterns and declarations bind, and the functions of `first` answer the first token of a part of a tree.
#![tactic(auto)]

mod binders;
mod breach;
mod events;
mod first;
mod matches;
mod name;
mod scope;
mod stack;
mod using;
mod variables;

pub use binders::{bind_block, bind_head, bind_params, bind_pat, bind_where};
pub use breach::{Breach, Found};
pub use events::{Event, Events};
pub use first::{
    first_of_aexp, first_of_btype, first_of_exp, first_of_head, first_of_left_pat, first_of_op,
    first_of_pat, operand_at, operator_before, start_at,
};
pub use name::{head_name, op_name, var_name};
pub use scope::Scope;
pub use stack::Stack;
pub use using::equation_events;
pub use variables::variable_events;
