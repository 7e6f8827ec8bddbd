//! The bindings of a prelude and of a program behind it, resolved: each chain stands for its operator tree, and each name for
//! what it is bound to.
//!
//! `resolve_bindings` answers them with the signatures. What they are is said by the structure of the text, with what is in
//! scope and what is counted handed down (`specs/Resolving.antt`, `specs/Tops.antt`); how chains are joined is a parameter
//! there. The code joins a chain by the steps that build its tree, and the law `as_trees` says that the bindings are the same
//! as those in which the operands are grouped by the tree. Each text is gone through once, but for chains, whose operands are
//! gone through once more; the recursion follows the nesting of the text.
#![tactic(auto)]

mod expression;
mod laws;
mod made_expression;
mod resolve;
mod tops;

pub use laws::as_trees;
pub use resolve::{Bindings, resolve_bindings};
