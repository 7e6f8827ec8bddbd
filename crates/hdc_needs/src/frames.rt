//! What came into scope together.

ghost use Rattle.std.specs.Prelude.{◌≡◌, ◌<◌, ◌-◌, [], ◌∷◌, ◌++◌, length, slice_index_or, slice_set, OnOk, MatchOption};
ghost use Rattle.hdc_needs.specs.Frames as spec;

use crate::names::next_number;
use hdc_graph::Graph;
use hdc_tree::Block;
use std::alloc::{AllocError, Global};
use std::marker::Model;

/// A block: its graph, how many of its declarations have begun, and the one that is gone through.
///
/// The first nodes of the graph are the declarations, the others names that they bind. A declaration needs the names
/// that it uses, and a name the declarations that bind it.
#[derive(Drop)]
pub(crate) struct OpenBlock<'t> {
    pub(crate) declarations: Option<&'t Block>,
    pub(crate) graph: Graph,
    pub(crate) begun: u32,
    pub(crate) current: Option<u32>,
}

impl<'t> OpenBlock<'t> {
    // The declaration that is gone through needs a node.
    fn need(&mut self, node: u32) -> Result<(), AllocError>
        ensures { OnOk result (self.new ≡ spec.needing node self.old) }
    {
        match self.current {
            Some(from) => add_need(&mut self.graph, from, node),
            None => Ok(()),
        }
    }

    // The next declaration begins.
    fn begin(&mut self) -> Result<(), AllocError>
        ensures { OnOk result (self.new ≡ spec.beginning self.old) }
    {
        let next = next_number(self.begun)?;
        self.current = Some(self.begun);
        self.begun = next;
        Ok(())
    }

    // No declaration is gone through any more.
    fn go_behind(&mut self)
        ensures { self.new ≡ spec.going_behind self.old }
    {
        self.current = None;
    }
}

/// A node needs another, if both are nodes of the graph.
pub(crate) fn add_need(graph: &mut Graph, from: u32, to: u32) -> Result<(), AllocError>
    ensures { OnOk result (graph.new ≡ spec.linked_within graph.old from to) }
{
    if (from as usize) < graph.len() && (to as usize) < graph.len() {
        graph.add_edge(from, to)
    } else {
        Ok(())
    }
}

/// What came into scope together: how many bindings there were before, and the block, if it was one.
#[derive(Drop)]
pub(crate) struct Frame<'t> {
    pub(crate) size: usize,
    pub(crate) block: Option<OpenBlock<'t>>,
}

impl<'t> Frame<'t> {
    fn need(&mut self, node: u32) -> Result<(), AllocError>
        ensures { OnOk result (self.new ≡ spec.frame_needing node self.old) }
    {
        match &mut self.block {
            Some(block) => block.need(node),
            None => Ok(()),
        }
    }

    fn begin(&mut self) -> Result<(), AllocError>
        ensures { OnOk result (self.new ≡ spec.frame_beginning self.old) }
    {
        match &mut self.block {
            Some(block) => block.begin(),
            None => Ok(()),
        }
    }

    fn go_behind(&mut self)
        ensures { self.new ≡ spec.frame_going_behind self.old }
    {
        if let Some(block) = &mut self.block {
            block.go_behind();
        }
    }
}

/// All that is in scope, the last frame last; contracts see a list.
#[derive(Drop)]
pub(crate) struct Frames<'t> {
    frames: Vec<Frame<'t>>,
}

impl<'t> Model for Frames<'t> {
    ghost use Rattle.std.specs.Prelude.{List};
    ghost use Rattle.hdc_needs.specs.declared.frames.Frame.{Frame};
    ghost use Rattle.hdc_tree.specs.contracts.expression.Block as block;
    ghost use Rattle.std.specs.Coded.{codes};

    ghost Value = { List Frame };

    ghost coded = { Prim.hlevel (codes, block.the_row.coded) };

    ghost view = { λ f. f.frames.items };
}

impl<'t> Frames<'t> {
    /// Nothing is in scope.
    pub(crate) fn new(alloc: Global) -> Frames<'t>
        ensures { result ≡ [] }
    {
        Frames {
            frames: Vec::new(alloc),
        }
    }

    /// How many frames there are.
    pub(crate) fn len(&self) -> usize
        ensures { result ≡ length self.now }
    {
        self.frames.len()
    }

    /// One more.
    pub(crate) fn push(&mut self, frame: Frame<'t>) -> Result<(), AllocError>
        ensures { OnOk result (self.new ≡ self.old ++ frame.entry ∷ []) }
    {
        self.frames.push(frame)?;
        Ok(())
    }

    /// The last one is taken away, if there is one.
    pub(crate) fn pop(&mut self) -> Option<Frame<'t>>
        ensures { MatchOption result ((self.old ≡ []) × (self.new ≡ [])) (λ frame. self.old ≡ self.new ++ frame ∷ []) }
    {
        self.frames.pop()
    }

    /// What the block of a frame goes through needs a node, if there is that frame.
    pub(crate) fn need(&mut self, level: usize, node: u32) -> Result<(), AllocError>
        ensures { OnOk result (self.new ≡ slice_set self.old level (spec.frame_needing node (slice_index_or self.old level spec.no_frame))) }
    {
        if level < self.frames.len() {
            self.frames[level].need(node)
        } else {
            Ok(())
        }
    }

    /// The next declaration of the last block begins.
    pub(crate) fn begin(&mut self) -> Result<(), AllocError>
        ensures { OnOk result (self.new ≡ slice_set self.old (length self.old - 1) (spec.frame_beginning (slice_index_or self.old (length self.old - 1) spec.no_frame))) }
    {
        let count = self.frames.len();
        if count > 0 {
            self.frames[count - 1].begin()
        } else {
            Ok(())
        }
    }

    /// What the declarations of the last block are for begins.
    pub(crate) fn go_behind(&mut self)
        ensures { self.new ≡ slice_set self.old (length self.old - 1) (spec.frame_going_behind (slice_index_or self.old (length self.old - 1) spec.no_frame)) }
    {
        let count = self.frames.len();
        if count > 0 {
            self.frames[count - 1].go_behind();
        }
    }
}
