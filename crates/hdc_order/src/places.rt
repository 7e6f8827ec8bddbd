//! Other numbers for nodes, by which functions come first.

ghost use Rattle.std.specs.Prelude.{◌≡◌, ◌≤◌, ◌^◌, length, IfOk};
ghost use Rattle.hdc_order.specs.Places as spec;

use sqlite_items::Items;
use std::alloc::{AllocError, Global};

/// The functions, and behind them the values.
pub(crate) fn functions_first(alloc: Global, values: &[bool]) -> Result<Items<u32>, AllocError>
    requires { length values.now ≤ 2 ^ 32 }
    ensures { IfOk result (λ nodes. nodes ≡ spec.functions_first values.now) }
{
    let mut nodes = Items::new(alloc);
    let mut behind = Items::new(alloc);
    for node in 0..values.len() {
        let is_value = values[node];
        if is_value {
            behind.push(node as u32)?;
        } else {
            nodes.push(node as u32)?;
        }
    }
    nodes.append(behind)?;
    Ok(nodes)
}

/// For each node its place.
pub(crate) fn places_of(alloc: Global, nodes: &[u32]) -> Result<Items<u32>, AllocError>
    requires small { length nodes.now ≤ 2 ^ 32 }
    requires arranged { spec.IsArrangement nodes.now }
    ensures { IfOk result (λ places. spec.ArePlaces nodes.now places) }
{
    let mut places = zeros(alloc, nodes.len())?;
    for place in 0..nodes.len() {
        places.set(nodes[place] as usize, place as u32);
    }
    Ok(places)
}

fn zeros(alloc: Global, count: usize) -> Result<Items<u32>, AllocError>
    ensures { IfOk result (λ zeros. length zeros ≡ count) }
{
    let mut zeros = Items::new(alloc);
    for _ in 0..count {
        zeros.push(0)?;
    }
    Ok(zeros)
}
