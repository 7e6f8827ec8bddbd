//! Synonyms that reach themselves.
//!
//! `find_cyclic_synonyms` answers the first name of a synonym whose meaning leads back to the synonym, by any number of
//! synonyms (`specs/Synonyms.antt`). It gives up for want of memory alone, and takes time near-linear in the text.
//!
//! The top declarations of a text are the nodes of a graph, in which a synonym needs the declarations of the types that
//! its meaning names.
#![tactic(auto)]

mod cyclic;
mod declared;
mod graph;
mod needs;
#[cfg(test)]
mod tests;

pub use cyclic::find_cyclic_synonyms;
pub use graph::synonym_graph;
