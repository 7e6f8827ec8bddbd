//! The values among groups of places.

ghost use Rattle.std.specs.Prelude.{◌≡◌, ◌<◌, ◌++◌, length, slice_index, map, filter, IfOk, OnOk, EachIndex};
ghost use Rattle.hdc_order.specs.Kept.{is_value_at, kept_of, AreWithin};

use hdc_graph::Groups;
use sqlite_items::Items;
use std::alloc::{AllocError, Global};

/// The values among some groups, by the nodes at each place.
pub(crate) fn keep_values(
    alloc: Global,
    groups: &Groups,
    nodes: &[u32],
    values: &[bool],
) -> Result<Items<u32>, AllocError>
    requires within { EachIndex nodes.now (λ k. slice_index nodes.now k < length values.now) }
    requires places { AreWithin (length nodes.now) groups.now }
    ensures { IfOk result (λ kept. kept ≡ map (slice_index nodes.now) (kept_of (is_value_at nodes.now values.now) groups.now)) }
{
    let mut kept = Items::new(alloc);
    for index in 0..groups.len() {
        keep_group(&mut kept, groups.group(index), nodes, values)?;
    }
    Ok(kept)
}

fn keep_group(
    kept: &mut Items<u32>,
    group: &[u32],
    nodes: &[u32],
    values: &[bool],
) -> Result<(), AllocError>
    requires within { EachIndex nodes.now (λ k. slice_index nodes.now k < length values.now) }
    requires places { EachIndex group.now (λ k. slice_index group.now k < length nodes.now) }
    ensures { OnOk result (kept.new ≡ kept.old ++ map (slice_index nodes.now) (filter (is_value_at nodes.now values.now) group.now)) }
{
    for place in group {
        let node = nodes[*place as usize];
        if values[node as usize] {
            kept.push(node)?;
        }
    }
    Ok(())
}
