//! Rule 10: data types that are not regular.
//!
//! `find_in_prelude` and `find_in_program` answer the first place where a data type uses a type of its own recursive group
//! with other arguments than its own variables in order (`specs/Irregular.antt`), where a synonym that breaks no rule counts
//! as what it means (`specs/Expansion.antt`). They give up for want of memory alone, and take time near-linear in the texts.
//!
//! No synonym is expanded: the types of both texts are built with only those arguments that are held
//! (`specs/Building.antt`), the groups are components of a graph in which synonyms are nodes, and each synonym asks of its
//! arguments what the uses in its meaning need (`specs/Demands.antt`). `finds_all` says that the breaches that are found in
//! this way are those of the rule.
#![tactic(auto)]

mod bodies;
mod building;
mod contents;
mod demand;
mod find;
mod judging;
mod laws;
mod names;
mod node_order;
mod outline;
mod outlining;
mod part;
mod passes;
mod sounds;
mod standing;
mod summary;
#[cfg(test)]
mod tests;
mod texts;

pub use find::{find_in_prelude, find_in_program};
pub use laws::finds_all;
