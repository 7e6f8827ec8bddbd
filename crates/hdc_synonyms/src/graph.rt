//! The graph of what the declarations of a text need.

ghost use Rattle.std.specs.Prelude.{◌≡◌, ◌<◌, ◌≤◌, ◌^◌, suc, length, OnOk, IfOk};
ghost use Rattle.hdc_written.specs.Mirror as mirror;
ghost use Rattle.hdc_synonyms.specs.Synonyms.{synonym_needs};
ghost use Rattle.hdc_synonyms.specs.Adding as spec;

use crate::declared::{declared_types, node};
use crate::needs::needs_of_top;
use hdc_graph::Graph;
use hdc_tree::{NextTop, Top, Tree};
use hdc_written::Scope;
use std::alloc::{AllocError, Global};

/// For each top declaration of a text, the declarations that it needs.
///
/// # Errors
///
/// `AllocError` where memory is short.
pub fn synonym_graph(alloc: Global, tree: &Tree) -> Result<Graph, AllocError>
    ensures needs { IfOk result (λ graph. graph ≡ synonym_needs (mirror.tops_of tree.now)) }
    ensures size { IfOk result (λ graph. length graph ≤ 2 ^ 32) }
{
    let declared = declared_types(alloc, tree)?;
    let last = node(tree.rest.len())?;
    let mut graph = unlinked(alloc, last)?;
    add_top(alloc, &mut graph, &declared, 0, tree.first.get())?;
    add_next_tops(alloc, &mut graph, &declared, tree.rest.as_slice())?;
    Ok(graph)
}

// The nodes up to this one, which need nothing.
fn unlinked(alloc: Global, last: u32) -> Result<Graph, AllocError>
    ensures { IfOk result (λ graph. graph ≡ spec.unlinked (suc last)) }
{
    let mut graph = Graph::new(alloc);
    graph.add_node(alloc)?;
    for _node in 0..last {
        graph.add_node(alloc)?;
    }
    Ok(graph)
}

fn add_next_tops(
    alloc: Global,
    graph: &mut Graph,
    declared: &Scope<u32>,
    tops: &[NextTop],
) -> Result<(), AllocError>
    requires tops { length tops.now < length graph.old }
    requires within { spec.AreWithin (length graph.old) declared.now }
    ensures { OnOk result (graph.new ≡ spec.each_added declared.now 1 (mirror.tops_behind tops.now) graph.old) }
{
    for index in 0..tops.len() {
        add_top(alloc, graph, declared, node(index + 1)?, &tops[index].top)?;
    }
    Ok(())
}

// What a declaration needs.
fn add_top(
    alloc: Global,
    graph: &mut Graph,
    declared: &Scope<u32>,
    from: u32,
    part: &Top,
) -> Result<(), AllocError>
    requires from { from < length graph.old }
    requires within { spec.AreWithin (length graph.old) declared.now }
    ensures { OnOk result (graph.new ≡ spec.top_added declared.now from part.now graph.old) }
{
    let needs = needs_of_top(alloc, declared, part)?;
    add_needs(graph, from, needs.as_slice())
}

fn add_needs(graph: &mut Graph, from: u32, needs: &[u32]) -> Result<(), AllocError>
    requires from { from < length graph.old }
    requires within { spec.AllBelow (length graph.old) needs.now }
    ensures { OnOk result (graph.new ≡ spec.with_needs from needs.now graph.old) }
{
    for to in needs {
        graph.add_edge(from, *to)?;
    }
    Ok(())
}
