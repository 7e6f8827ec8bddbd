//! How the names of a block come into scope.

ghost use Rattle.std.specs.Prelude.{◌≡◌, ◌-◌, [], ◌∷◌, ◌++◌, OnOk, IfOk, is_some, length, map, take};
ghost use Rattle.hdc_written.specs.Mirror as mirror;
ghost use Rattle.hdc_written.specs.Scopes.{standing_for};
ghost use Rattle.hdc_needs.specs.Bind as spec;
ghost use Rattle.hdc_needs.specs.Frames.{linked_within};
ghost use Rattle.hdc_needs.specs.Kept.{declarations_of, mention_of};

use crate::frames::add_need;
use crate::names::BoundName;
use hdc_graph::Graph;
use hdc_tree::{Block, NextDecl};
use hdc_written::Scope;
use std::alloc::{AllocError, Global};

/// What a name in scope stands for: a variable of a pattern, or what a block binds, by the number of its frame and the
/// name's node.
#[derive(Clone, Copy)]
pub(crate) enum Target {
    Variable,
    Local(usize, u32),
}

/// A graph with a node for each declaration of a block.
#[tactic(auto, using(hdc_written::proofs::ExpressionMirror::mirrored_expressions))]
pub(crate) fn start_graph(alloc: Global, block: Option<&Block>) -> Result<Graph, AllocError>
    ensures { IfOk result (λ graph. graph ≡ spec.start (declarations_of block.entry)) }
{
    let mut graph = Graph::new(alloc);
    match block {
        Some(block) => {
            graph.add_node(alloc)?;
            add_nodes(alloc, &mut graph, block.rest.as_slice())?;
            Ok(graph)
        }
        None => Ok(graph),
    }
}

fn add_nodes(alloc: Global, graph: &mut Graph, parts: &[NextDecl]) -> Result<(), AllocError>
    ensures { OnOk result (graph.new ≡ graph.old ++ spec.start (mirror.each_declaration mirror.next_decl_of parts.now)) }
{
    for _part in parts {
        graph.add_node(alloc)?;
    }
    Ok(())
}

/// The names of a block come into scope, each with its node. They are of the frame of this number, and there were so
/// many bindings before.
pub(crate) fn bind_names<'t>(
    alloc: Global,
    scope: &mut Scope<'t, Target>,
    graph: &mut Graph,
    level: usize,
    size: usize,
    names: &[BoundName<'t>],
) -> Result<(), AllocError>
    ensures { OnOk result (spec.bind_all level size (map mention_of names.now) scope.old graph.old ≡ record { scope = scope.new; graph = graph.new }) }
{
    for name in names {
        bind_name(alloc, scope, graph, level, size, *name)?;
    }
    Ok(())
}

// One more name. It has the node of the name before it of the same text, if there is one.
fn bind_name<'t>(
    alloc: Global,
    scope: &mut Scope<'t, Target>,
    graph: &mut Graph,
    level: usize,
    size: usize,
    name: BoundName<'t>,
) -> Result<(), AllocError>
    ensures { OnOk result (spec.bind_one level size (mention_of name.entry) scope.old graph.old ≡ record { scope = scope.new; graph = graph.new }) }
{
    let text = name.name.text.as_slice();
    let known = known_node(scope, size, text);
    let node = node_for(alloc, graph, known)?;
    scope.bind(text, Target::Local(level, node))?;
    add_need(graph, node, name.number)
}

// The node of a name that was bound since there were so many bindings.
fn known_node(scope: &Scope<Target>, size: usize, text: &[u8]) -> Option<u32>
    ensures { result ≡ spec.known_node size text.now scope.now }
{
    if scope.is_bound_since(size, text) {
        match scope.find(text) {
            Some(Target::Local(_level, node)) => Some(node),
            Some(Target::Variable) => None,
            None => None,
        }
    } else {
        None
    }
}

// A known node, or one more.
fn node_for(alloc: Global, graph: &mut Graph, known: Option<u32>) -> Result<u32, AllocError>
    ensures node { IfOk result (λ node. node ≡ spec.node_for known graph.old) }
    ensures graph { OnOk result (graph.new ≡ spec.grown known graph.old) }
{
    match known {
        Some(node) => Ok(node),
        None => match u32::try_from(graph.len()) {
            Ok(node) => {
                graph.add_node(alloc)?;
                Ok(node)
            }
            Err(_error) => Err(AllocError),
        },
    }
}
