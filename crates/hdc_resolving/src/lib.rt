//! Parts of the resolver of programs: what is in scope with the numbers of local names, names and operators where they are
//! used, patterns, the operands of chains joined, and declarations and qualifiers put together.
//!
//! `Walk` is what is in scope, how the operators in scope bind, and what is counted (`specs/Numbering.antt`); the `enter_*`
//! functions bring the names of patterns and declarations into scope, each with a number. `name_prelude`, `name_tops`,
//! `construct_prelude` and `construct_tops` number what stands at the top of a text (`specs/Standing.antt`). The functions of
//! `uses` answer what a name stands for where it is used (`specs/Uses.antt`), and those of `pattern` patterns with numbers in
//! place of names (`specs/Patterns.antt`). `join` joins the operands of a chain as the steps of its tree have it
//! (`specs/Grouped.antt`). `Growing` makes bindings of declarations, of which adjacent equations of a function are one
//! (`specs/Growths.antt`), `block_of` a block of them, and `wrap_all` puts qualifiers before a head (`specs/Parts.antt`).
#![tactic(auto)]

mod binders;
mod built_in;
mod chain;
mod growing;
mod known;
mod literals;
mod made_pattern;
mod names;
mod pattern;
mod pile;
mod quals;
mod signature;
mod uses;
mod walk;

pub use binders::{enter_block, enter_head, enter_params, enter_pat, enter_where};
pub use chain::{Placed, join};
pub use growing::{Current, Declared, Growing, block_of, goes_on, opened};
pub use known::Known;
pub use literals::{cons, literal_of};
pub use names::{Numbering, construct_prelude, construct_tops, name_prelude, name_tops};
pub use pattern::{resolve_head, resolve_one, resolve_params, resolve_pat};
pub use pile::Pile;
pub use quals::{Part, wrap_all};
pub use signature::resolve_signature;
pub use uses::{
    cons_use, constructor_use, operator_use, operator_uses, signed_name, takes_degree, variable_use,
};
pub use walk::{Counter, Sizes, Walk};
