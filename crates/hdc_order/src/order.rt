//! The order of the values of a graph.

ghost use Rattle.std.specs.Prelude.{◌≡◌, ◌≤◌, ◌^◌, length, IfOk};
ghost use Rattle.hdc_order.specs.Order.{NoValueReachesItself, order_of};

use crate::keep::keep_values;
use crate::places::{functions_first, places_of};
use crate::renumber::renumber;
use hdc_graph::{Graph, find_groups};
use sqlite_items::Items;
use std::alloc::{AllocError, Global};

/// The values of a block in the order of their evaluation, by its graph and which of its nodes are values.
/// Nothing is said where a value reaches itself. Memory may be wanting.
pub fn evaluation_order(
    alloc: Global,
    graph: &Graph,
    values: &[bool],
) -> Result<Items<u32>, AllocError>
    requires small { length graph.now ≤ 2 ^ 32 }
    requires each { length values.now ≡ length graph.now }
    ensures { IfOk result (λ order. NoValueReachesItself graph.now values.now → order ≡ order_of graph.now values.now) }
{
    // Each node that is needed is a node.
    let _count = graph.len();
    let nodes = functions_first(alloc, values)?;
    let places = places_of(alloc, nodes.as_slice())?;
    let renumbered = renumber(alloc, graph, nodes.as_slice(), places.as_slice())?;
    let groups = find_groups(alloc, &renumbered)?;
    keep_values(alloc, &groups, nodes.as_slice(), values)
}
