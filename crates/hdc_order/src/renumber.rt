//! A graph with each node at its place.

ghost use Rattle.std.specs.Prelude.{◌≡◌, ◌<◌, length, slice_index, map, IfOk, EachIndex};
ghost use Rattle.hdc_graph.specs.Needs.{IsClosed};
ghost use Rattle.hdc_order.specs.Places as spec;

use hdc_graph::Graph;
use sqlite_items::Items;
use std::alloc::{AllocError, Global};

/// A graph with each node at its place.
pub(crate) fn renumber(
    alloc: Global,
    graph: &Graph,
    nodes: &[u32],
    places: &[u32],
) -> Result<Graph, AllocError>
    requires within { EachIndex nodes.now (λ k. slice_index nodes.now k < length graph.now) }
    requires each { length places.now ≡ length graph.now }
    requires graph { IsClosed graph.now }
    requires renumbered { IsClosed (spec.renumbered graph.now nodes.now places.now) }
    ensures { IfOk result (λ renumbered. renumbered ≡ spec.renumbered graph.now nodes.now places.now) }
{
    let mut needs = Vec::new(alloc);
    for node in nodes {
        needs.push(at_places(alloc, graph.needs(*node as usize), places)?)?;
    }
    Ok(Graph::from_needs(needs))
}

// The places of nodes.
fn at_places(alloc: Global, nodes: &[u32], places: &[u32]) -> Result<Items<u32>, AllocError>
    requires { EachIndex nodes.now (λ k. slice_index nodes.now k < length places.now) }
    ensures { IfOk result (λ found. found ≡ map (slice_index places.now) nodes.now) }
{
    let mut found = Items::new(alloc);
    for node in nodes {
        found.push(places[*node as usize])?;
    }
    Ok(found)
}
