//! The order in which synonyms are looked at.

ghost use Rattle.std.specs.Prelude.{◌≡◌, ◌+◌, ◌++◌, OnOk, IfOk};
ghost use Rattle.hdc_written.specs.Mirror as mirror;
ghost use Rattle.hdc_regular.specs.Known.{AreKnown};
ghost use Rattle.hdc_regular.specs.Order as spec;

use hdc_graph::{Components, Groups, find_components, find_groups};
use hdc_synonyms::synonym_graph;
use hdc_tree::Tree;
use sqlite_items::Items;
use std::alloc::{AllocError, Global};

/// What is known of the synonyms of a text.
#[derive(Drop)]
pub(crate) struct Synonyms {
    /// Which of them reach themselves.
    pub(crate) components: Components,
    /// Each comes behind those that it names.
    pub(crate) groups: Groups,
}

/// What is known of the synonyms of a text.
pub(crate) fn known_synonyms(alloc: Global, tree: &Tree) -> Result<Synonyms, AllocError>
    ensures { IfOk result (λ synonyms. AreKnown (mirror.tops_of tree.now) synonyms) }
{
    let graph = synonym_graph(alloc, tree)?;
    let _size = graph.len();
    let components = find_components(alloc, &graph)?;
    let groups = find_groups(alloc, &graph)?;
    Ok(Synonyms { components, groups })
}

/// Adds the nodes of groups, as numbers from this one on.
#[tactic(auto, using(crate::proofs::Collecting::in_order))]
pub(crate) fn add_groups(
    order: &mut Items<u32>,
    base: u32,
    groups: &Groups,
) -> Result<(), AllocError>
    ensures { OnOk result (order.new ≡ order.old ++ spec.group_order base groups.now) }
{
    for index in 0..groups.len() {
        add_group(order, base, groups.group(index))?;
    }
    Ok(())
}

#[tactic(auto, using(crate::proofs::Collecting::in_order))]
fn add_group(order: &mut Items<u32>, base: u32, group: &[u32]) -> Result<(), AllocError>
    ensures { OnOk result (order.new ≡ order.old ++ spec.shifted_by base group.now) }
{
    for node in group {
        let number = number_from(base, *node)?;
        order.push(number)?;
    }
    Ok(())
}

fn number_from(base: u32, node: u32) -> Result<u32, AllocError>
    ensures { IfOk result (λ number. number ≡ base + node) }
{
    match base.checked_add(node) {
        Some(number) => Ok(number),
        None => Err(AllocError),
    }
}
