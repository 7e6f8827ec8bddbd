//! The segments of a path.

ghost use Rattle.std.specs.Prelude.{◌≡◌, [], ◌∷◌, OnOk, MatchOption};
ghost use Rattle.hdc_graph.specs.declared.stack.Segment.{Segment};
ghost use Rattle.std.specs.Prelude.{List};

use std::alloc::{AllocError, Global};
use std::marker::Model;

/// Where a segment begins on the path, and where what its nodes need begins among the pending nodes.
#[derive(Clone, Copy, Debug, PartialEq, Eq)]
pub(crate) struct Segment {
    pub(crate) path_from: usize,
    pub(crate) pending_from: usize,
}

/// Segments, which contracts see as a list that begins with the last one.
#[derive(Drop)]
pub(crate) struct Segments {
    segments: Vec<Segment>,
}

impl Model for Segments {
    ghost use Rattle.std.specs.Prelude.{List, reverse};
    ghost use Rattle.hdc_graph.specs.declared.stack.Segment.{Segment};

    ghost Value = { List Segment };

    ghost view = { λ a. reverse a.segments.items };
}

impl Segments {
    /// None yet.
    pub(crate) fn new(alloc: Global) -> Segments
        ensures { result ≡ [] }
    {
        Segments {
            segments: Vec::new(alloc),
        }
    }

    /// One more.
    pub(crate) fn push(&mut self, segment: Segment) -> Result<(), AllocError>
        ensures { OnOk result (self.new ≡ segment ∷ self.old) }
    {
        self.segments.push(segment)?;
        Ok(())
    }

    /// The last one is taken away, if there is one.
    pub(crate) fn pop(&mut self) -> Option<Segment>
        ensures { MatchOption result ((self.old ≡ []) × (self.new ≡ [])) (λ segment. self.old ≡ segment ∷ self.new) }
    {
        self.segments.pop()
    }

    /// The last one.
    pub(crate) fn last(&self) -> Option<Segment>
        ensures { MatchOption result (self.now ≡ []) (λ segment. (rest : List Segment) × (self.now ≡ segment ∷ rest)) }
    {
        self.segments.last().copied()
    }
}
