//! Names and what they stand for.
//!
//! So far: the operator trees of programs. `check_trees` answers whether each chain and section of a prelude
//! and a program has a tree, and none of its trees is too deep; or the first place where that fails
//! (`specs/Trees.antt`). Which tree a chain stands for is said in `specs/OperatorTrees.antt`, which chains,
//! sections and nodes a program has in `specs/Sites.antt`, and how its operators bind in `specs/Fixities.antt`.
//! Definitions speak of programs without the memory that holds them (`hdc_written`).
//!
//! `steps` answers how the tree of one chain is built, or the first operand up to which the chain has none
//! (`specs/Chain.antt`); `one_tree` says that a chain has at most one, and `no_tree_behind` that it has none
//! where it has none up to an operand. `operators_of` reads the operators of an expression's chain in a scope that begins
//! with `bind_standard` or `program_scope`.
#![tactic(auto)]

mod chain;
mod check;
mod depth;
mod fixity;
mod found;
mod joining;
mod laws;
mod operator;
mod pattern_nodes;
mod site;
#[cfg(test)]
mod tests;
mod type_nodes;
mod waiting;
mod walk;

pub use chain::{ChainStop, NextOperand, Step, steps};
pub use check::{TreesStop, check_trees};
pub use fixity::Fixity;
pub use laws::{no_tree_behind, one_tree};
pub use operator::{bind_standard, program_scope, undeclared};
pub use site::{is_signed, operators_of};
