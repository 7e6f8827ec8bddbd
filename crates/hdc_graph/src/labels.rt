//! A component goes by its least node.

ghost use Rattle.std.specs.Prelude.{◌≡◌, ◌<◌, length, slice_index, EachIndex, OnOk, IfOk};
ghost use Rattle.hdc_graph.specs.Numbers.{IsNumbered};
ghost use Rattle.hdc_graph.specs.Lists.{AreNone, AreEmpty, AreZero, place_in};
ghost use Rattle.hdc_graph.specs.Labels.{AreLabels, AreNeeds, AreWithin, AreOwn, with_needs};

use crate::graph::Graph;
use crate::lists::Lists;
use sqlite_items::Items;
use std::alloc::{AllocError, Global};

/// For each node, the least node of its component.
pub(crate) fn label_nodes(
    alloc: Global,
    graph: &Graph,
    numbers: &[usize],
) -> Result<Items<usize>, AllocError>
    requires { IsNumbered graph.now numbers.now }
    ensures { IfOk result (λ labels. AreLabels graph.now labels) }
{
    let mut firsts = nones(alloc, graph.len())?;
    let mut labels = Items::new(alloc);
    for node in 0..graph.len() {
        let number = numbers[node];
        match slot(firsts.as_slice(), number) {
            Some(first) => labels.push(first)?,
            None => {
                firsts.set(number, Some(node));
                labels.push(node)?;
            }
        }
    }
    Ok(labels)
}

/// What stands at a place.
pub(crate) fn slot(slots: &[Option<usize>], at: usize) -> Option<usize>
    requires { at < length slots.now }
    ensures { result ≡ place_in slots.now at }
{
    slots[at]
}

/// That many times nothing.
pub(crate) fn nones(alloc: Global, count: usize) -> Result<Items<Option<usize>>, AllocError>
    ensures { IfOk result (λ nones. AreNone count nones) }
{
    let mut nones = Items::new(alloc);
    for _ in 0..count {
        nones.push(None)?;
    }
    Ok(nones)
}

/// For each component, those that it needs.
pub(crate) fn label_needs(
    alloc: Global,
    graph: &Graph,
    labels: &[usize],
) -> Result<Lists, AllocError>
    requires { AreLabels graph.now labels.now }
    ensures needs { IfOk result (λ needs. AreNeeds graph.now labels.now needs) }
    ensures within { IfOk result (λ needs. AreWithin labels.now needs) }
{
    let mut needs = empty_lists(alloc, graph.len())?;
    for node in 0..graph.len() {
        note_needs(&mut needs, labels, labels[node], graph.needs(node))?;
    }
    Ok(needs)
}

/// That many empty lists.
pub(crate) fn empty_lists(alloc: Global, count: usize) -> Result<Lists, AllocError>
    ensures { IfOk result (λ lists. AreEmpty count lists) }
{
    let mut lists = Lists::new(alloc);
    for _ in 0..count {
        lists.add_list(alloc)?;
    }
    Ok(lists)
}

// What some nodes need is noted at a component.
fn note_needs(
    needs: &mut Lists,
    labels: &[usize],
    label: usize,
    needed: &[u32],
) -> Result<(), AllocError>
    requires label { label < length needs.old }
    requires needed { EachIndex needed.now (λ k. slice_index needed.now k < length labels.now) }
    ensures { OnOk result (needs.new ≡ with_needs labels.now needs.old label needed.now) }
{
    for node in needed {
        needs.push(label, labels[*node as usize])?;
    }
    Ok(())
}

/// That many times 0.
pub(crate) fn zeros(alloc: Global, count: usize) -> Result<Items<usize>, AllocError>
    ensures { IfOk result (λ zeros. AreZero count zeros) }
{
    let mut zeros = Items::new(alloc);
    for _ in 0..count {
        zeros.push(0)?;
    }
    Ok(zeros)
}

/// The nodes that are the least of their components.
pub(crate) fn own_labels(alloc: Global, labels: &[usize]) -> Result<Items<usize>, AllocError>
    ensures { IfOk result (λ own. AreOwn labels.now (length labels.now) own) }
{
    let mut own = Items::new(alloc);
    for node in 0..labels.len() {
        if labels[node] == node {
            own.push(node)?;
        }
    }
    Ok(own)
}
