//! Local values that need themselves, and the order in which the others are evaluated.
//!
//! A value of a block of `let` or `where`, which has no parameters, must not need itself, by any number of steps
//! through the functions and values of its block (`specs/Needy.antt`). `find_needy` answers the first place where
//! one does, and `find_orders` for each block the order of its values (`specs/Orders.antt`): again and again the
//! first is taken whose needs are. Both give up for want of memory alone.
//!
//! The events of each right side are gone through in order. What is in scope leads from a name to the block that
//! binds it, so that each use is one need more in that block's graph; a block that ends has its graph searched for
//! nodes that reach themselves. `specs/Walk.antt` says what the events lead to without graphs, `specs/Agrees.antt`
//! how the code keeps it.
#![tactic(auto)]

mod bind;
mod block_order;
mod frames;
mod names;
mod needy;
mod orders;
#[cfg(test)]
mod tests;
mod values;
mod walk;

pub use needy::find_needy;
pub use orders::{Orders, find_orders};
