//! Components.

ghost use Rattle.std.specs.Prelude.{◌≡◌, ◌<◌, ◌≤◌, ◌^◌, ◌↔◌, length, slice_index, slice_index_or, IfOk, IsTrue, EachIndex, false};
ghost use Rattle.hdc_graph.specs.Needs.{IsNumbering, NeedsComeFirst, AreCyclic};
ghost use Rattle.hdc_graph.specs.Numbers.{number_of, NeedsNumber, IsNumbered};

use crate::graph::Graph;
use crate::search::{State, search_all};
use sqlite_items::Items;
use std::alloc::{AllocError, Global};

/// The components of a graph.
#[derive(Debug, Drop)]
pub struct Components {
    /// For each node, the number of its component.
    pub numbers: Items<usize>,
    /// For each node, whether it reaches itself by one or more steps.
    pub cyclic: Items<bool>,
}

/// The components of a graph. Two nodes are in one component where they are the same, or reach each other.
/// What a node needs is in a component of no higher number; there are no more numbers than nodes. Memory may be wanting.
pub fn find_components(alloc: Global, graph: &Graph) -> Result<Components, AllocError>
    requires { length graph.now ≤ 2 ^ 32 }
    ensures numbering { IfOk result (λ components. IsNumbering graph.now components.numbers) }
    ensures needs_first { IfOk result (λ components. NeedsComeFirst graph.now components.numbers) }
    ensures cyclic { IfOk result (λ components. AreCyclic graph.now components.cyclic) }
    ensures below { IfOk result (λ components. EachIndex components.numbers (λ node. slice_index components.numbers node < length graph.now)) }
{
    let numbers = number_nodes(alloc, graph)?;
    let cyclic = find_cyclic(alloc, graph, numbers.as_slice())?;
    Ok(Components { numbers, cyclic })
}

impl Components {
    /// The number of a node's component.
    pub fn number(&self, node: u32) -> usize
        requires { node < length self.now.numbers }
        ensures { result ≡ slice_index self.now.numbers node }
    {
        self.numbers.as_slice()[node as usize]
    }

    /// Whether a node reaches itself by one or more steps.
    pub fn reaches_itself(&self, node: u32) -> bool
        requires { node < length self.now.cyclic }
        ensures { result ≡ slice_index_or self.now.cyclic node false }
    {
        self.cyclic.as_slice()[node as usize]
    }
}

impl State {
    // The number of a node's component.
    fn number(self) -> usize
        ensures { result ≡ number_of self }
    {
        match self {
            State::Finished(number) => number,
            State::Unseen | State::OnPath(_) => 0,
        }
    }
}

/// For each node, the number of its component.
pub(crate) fn number_nodes(alloc: Global, graph: &Graph) -> Result<Items<usize>, AllocError>
    requires { length graph.now ≤ 2 ^ 32 }
    ensures { IfOk result (λ numbers. IsNumbered graph.now numbers) }
{
    let search = search_all(alloc, graph)?;
    let mut numbers = Items::new(alloc);
    for state in search.states.as_slice() {
        numbers.push(state.number())?;
    }
    Ok(numbers)
}

// For each node, whether it reaches itself.
fn find_cyclic(alloc: Global, graph: &Graph, numbers: &[usize]) -> Result<Items<bool>, AllocError>
    requires { IsNumbered graph.now numbers.now }
    ensures { IfOk result (λ cyclic. AreCyclic graph.now cyclic) }
{
    let mut cyclic = Items::new(alloc);
    for node in 0..graph.len() {
        cyclic.push(needs_number(graph.needs(node), numbers, numbers[node]))?;
    }
    Ok(cyclic)
}

// Whether one of these nodes has this number.
fn needs_number(needs: &[u32], numbers: &[usize], number: usize) -> bool
    requires { EachIndex needs.now (λ k. slice_index needs.now k < length numbers.now) }
    ensures { IsTrue result ↔ NeedsNumber needs.now numbers.now number }
{
    for needed in needs {
        if numbers[*needed as usize] == number {
            return true;
        }
    }
    false
}
