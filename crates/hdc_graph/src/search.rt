//! The search for components along a path.

ghost use Rattle.std.specs.Prelude.{◌≡◌, ◌<◌, ◌≤◌, ◌+◌, ◌^◌, length, OnOk, IfOk};
ghost use Rattle.std.specs.Bool.{OnTrue, OnFalse};
ghost use Rattle.hdc_graph.specs.Search.{IsUnderWay, IsOver, IsTaken, IsClosing, IsPath, floor, state_in, with_pending, work, entered, met_under};

use crate::graph::Graph;
use crate::stack::{Segment, Segments};
use sqlite_items::Items;
use std::alloc::{AllocError, Global};

/// What is known of a node.
#[derive(Clone, Copy, Debug, PartialEq, Eq)]
pub(crate) enum State {
    Unseen,
    /// On the path, at this place.
    OnPath(usize),
    /// In the component of this number.
    Finished(usize),
}

/// A path along needs, in segments of nodes that reach one another. Each segment reaches the next. What a
/// segment's nodes need waits among the pending nodes; at first all nodes are pending.
#[derive(Drop)]
pub(crate) struct Search {
    pub(crate) states: Items<State>,
    pub(crate) path: Items<u32>,
    pub(crate) pending: Items<u32>,
    pub(crate) segments: Segments,
    pub(crate) count: usize,
}

/// The search at its end: each node is in a component.
pub(crate) fn search_all(alloc: Global, graph: &Graph) -> Result<Search, AllocError>
    requires { length graph.now ≤ 2 ^ 32 }
    ensures under_way { IfOk result (λ search. IsUnderWay graph.now search) }
    ensures over { IfOk result (λ search. IsOver graph.now search) }
{
    let mut search = Search::start(alloc, graph)?;
    while search.step(graph)? {}
    Ok(search)
}

impl Search {
    // Every node is to be looked at.
    fn start(alloc: Global, graph: &Graph) -> Result<Search, AllocError>
        requires { length graph.now ≤ 2 ^ 32 }
        ensures { IfOk result (λ search. IsUnderWay graph.now search) }
    {
        let mut states = Items::new(alloc);
        let mut pending = Items::new(alloc);
        for node in 0..graph.len() {
            states.push(State::Unseen)?;
            pending.push(node as u32)?;
        }
        Ok(Search {
            states,
            path: Items::new(alloc),
            pending,
            segments: Segments::new(alloc),
            count: 0,
        })
    }

    // One step further; false where nothing is left to do.
    fn step(&mut self, graph: &Graph) -> Result<bool, AllocError>
        requires { IsUnderWay graph.now self.old }
        ensures under_way { OnOk result (IsUnderWay graph.now self.new) }
        ensures less { IfOk result (λ more. OnTrue more (work graph.now self.new < work graph.now self.old)) }
        ensures over { IfOk result (λ more. OnFalse more (IsOver graph.now self.new)) }
    {
        if let Some(node) = self.take_pending() {
            self.look_at(graph, node)?;
            return Ok(true);
        }
        if let Some(segment) = self.segments.pop() {
            self.close(segment.path_from);
            return Ok(true);
        }
        Ok(false)
    }

    // Where the pending nodes of the top segment begin.
    fn floor(&self) -> usize
        ensures { result ≡ floor self.now.segments }
    {
        match self.segments.last() {
            Some(segment) => segment.pending_from,
            None => 0,
        }
    }

    // The last pending node of the top segment is taken away, if there is one.
    fn take_pending(&mut self) -> Option<u32>
        ensures { IsTaken result self.old self.new }
    {
        if self.pending.len() <= self.floor() {
            return None;
        }
        self.pending.pop()
    }

    // A pending node that was taken away.
    fn look_at(&mut self, graph: &Graph, node: u32) -> Result<(), AllocError>
        requires under_way { IsUnderWay graph.now (with_pending node self.old) }
        requires lies { floor self.old.segments ≤ length self.old.pending }
        ensures under_way { OnOk result (IsUnderWay graph.now self.new) }
        ensures less { OnOk result (work graph.now self.new < work graph.now (with_pending node self.old)) }
    {
        match self.state(node) {
            State::Unseen => self.enter(graph, node),
            State::OnPath(place) => self.meet(node, place),
            State::Finished(_component) => Ok(()),
        }
    }

    // What is known of a node.
    fn state(&self, node: u32) -> State
        requires { node < length self.now.states }
        ensures { result ≡ state_in self.now.states node }
    {
        self.states.as_slice()[node as usize]
    }

    // A node comes onto the path, as a segment of its own, and what it needs is pending.
    fn enter(&mut self, graph: &Graph, node: u32) -> Result<(), AllocError>
        requires state { node < length self.old.states }
        requires node { node < length graph.now }
        ensures { OnOk result (self.new ≡ entered graph.now node self.old) }
    {
        let place = self.path.len();
        self.segments.push(Segment {
            path_from: place,
            pending_from: self.pending.len(),
        })?;
        self.states.set(node as usize, State::OnPath(place));
        self.path.push(node)?;
        for needed in graph.needs(node as usize) {
            self.pending.push(*needed)?;
        }
        Ok(())
    }

    // A node of the path is needed again. Where it lies below the top segment, that is joined with the one
    // below it, and the node is looked at once more.
    fn meet(&mut self, node: u32, place: usize) -> Result<(), AllocError>
        ensures { OnOk result (self.new ≡ met_under node place self.old.segments self.old) }
    {
        let Some(top) = self.segments.last() else {
            return Ok(());
        };
        if place < top.path_from {
            let _joined = self.segments.pop();
            self.pending.push(node)?;
        }
        Ok(())
    }

    // The nodes of the path from this place on are a component.
    fn close(&mut self, from: usize)
        requires lies { from ≤ length self.old.path }
        requires path { IsPath self.old.states self.old.path }
        requires room { self.old.count + 1 < 2 ^ 64 }
        ensures nodes { IsClosing from self.old self.new }
        ensures count { self.new.count ≡ self.old.count + 1 }
    {
        while self.path.len() > from {
            if let Some(node) = self.path.pop() {
                self.states.set(node as usize, State::Finished(self.count));
            }
        }
        self.count += 1;
    }
}
