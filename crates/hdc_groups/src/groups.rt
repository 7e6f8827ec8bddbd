//! The groups of the bindings at the top.

ghost use Rattle.std.specs.Prelude.{◌≡◌, map, IfOk};
ghost use Rattle.hdc_graph.specs.Groups.{AreGroups};
ghost use Rattle.hdc_resolved.specs.Mirror.{binding_of};
ghost use Rattle.hdc_groups.specs.Needs.{binding_needs};

use crate::needs::needs_of_all;
use hdc_graph::{Graph, Groups, find_groups};
use hdc_resolved::{Decl, Numbers};
use sqlite_items::Items;
use std::alloc::{AllocError, Global};

// A graph has at most so many nodes.
const MOST: usize = 1 << 32;

/// The groups of the bindings at the top, in the order of dependency; a binding goes by its place among them. A group is a
/// largest set of bindings that reach one another by uses, in the order of the text. The next is always the textually first
/// among those whose needs are all in groups before.
///
/// # Errors
///
/// `AllocError` where memory is short, or there are more than 2^32 bindings.
pub fn group_bindings(alloc: Global, decls: &[Decl]) -> Result<Items<Numbers>, AllocError>
    ensures { IfOk result (λ groups. AreGroups (binding_needs (map binding_of decls.now)) groups) }
{
    if decls.len() > MOST {
        return Err(AllocError);
    }
    let graph = Graph::from_needs(needs_of_all(alloc, decls)?);
    let groups = find_groups(alloc, &graph)?;
    listed(alloc, &groups)
}

// The same groups as a list.
fn listed(alloc: Global, groups: &Groups) -> Result<Items<Numbers>, AllocError>
    ensures { IfOk result (λ list. list ≡ groups.now) }
{
    let mut list = Items::new(alloc);
    for index in 0..groups.len() {
        list.push(Items::from_slice(alloc, groups.group(index))?)?;
    }
    Ok(list)
}
