//! Graphs of what needs what: their components, and the order in which groups of nodes come.
//!
//! A `Graph` has for each node the nodes that it needs. A group is a largest set of nodes that reach one another
//! by needs (`specs/Needs.antt`).
//!
//! - `find_components` numbers the nodes so that two have one number exactly where they are in one group, and
//!   what a node needs has no higher number; and it answers which nodes reach themselves by one or more steps.
//! - `find_groups` answers the groups in the order of dependency: the next is always the one with the least node
//!   among those whose needs are all in groups before (`specs/Groups.antt`). `one_order` says that a graph has one
//!   such order.
//!
//! Both give up for want of memory alone. The first takes time linear in the nodes and needs, the second a factor
//! log n more for the nodes; neither calls itself along the graph.
//!
//! The search keeps a path along needs in segments of nodes that reach one another (`specs/Search.antt`). A node of
//! the path that is needed again joins the segments above it; the last segment is a component once nothing is
//! pending in it. For the order each component waits for one that it needs and that is not taken, or is ready
//! (`specs/Schedule.antt`).
#![tactic(auto)]

mod components;
mod graph;
mod groups;
mod labels;
mod laws;
mod lists;
mod ready;
mod schedule;
mod search;
mod stack;
#[cfg(test)]
mod tests;

pub use components::{Components, find_components};
pub use graph::Graph;
pub use groups::{Groups, find_groups};
pub use laws::one_order;
