//! Dependency groups of the bindings at the top.
//!
//! A group is a largest set of bindings that reach one another by uses. `group_bindings` answers the groups in the order of
//! dependency: the next is always the textually first one whose needs are all in groups before. It gives up for want of
//! memory alone, which more than 2^32 bindings are too; it takes time near-linear in the tree.
//!
//! The bindings are the nodes of a graph (`hdc_graph`), in which a binding needs those that its equations use
//! (`specs/TopUses.antt`, `specs/Needs.antt`). Uses are gone through in the order of the text.
#![tactic(auto)]

mod groups;
mod needs;
#[cfg(test)]
mod tests;
mod uses;

pub use groups::group_bindings;
