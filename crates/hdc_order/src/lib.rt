//! The order in which the values of a block are evaluated.
//!
//! The nodes of a graph are the declarations of a block: its values, and functions. A value needs each value that it
//! names, and each that a function needs that it names. Again and again the first value is taken that is not taken
//! yet, while all that it needs is (`specs/Order.antt`); `one_order_of_values` says that this is one order.
//!
//! `evaluation_order` answers it, where no value needs itself, and gives up for want of memory alone. It takes the
//! time of `find_groups`: linear in nodes and needs, but for a factor log n.
//!
//! The graph is numbered anew with its functions first (`specs/Places.antt`), and its groups are put in the order of
//! dependency. Since a function comes before any value, it is taken as soon as all that it needs is, so that the next
//! value is the first whose needs are taken.
#![tactic(auto)]

mod keep;
mod laws;
mod order;
mod places;
mod renumber;
#[cfg(test)]
mod tests;

pub use laws::one_order_of_values;
pub use order::evaluation_order;
