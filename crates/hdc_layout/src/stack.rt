//! The stack of blocks and openers.

ghost use Rattle.std.specs.Prelude.{◌≡◌, [], ◌∷◌, OnOk, MatchOption};
ghost use Rattle.hdc_layout.specs.Blocks.{current, finds, summary_of, top};

use crate::role::Answer;
use crate::summary::{Block, Entry, Summary, empty_summary, finds, summary_above};
use std::alloc::{AllocError, Global};
use std::marker::Model;

/// An entry, with the summary of the stack whose top it is.
#[derive(Clone, Copy, Debug, PartialEq, Eq)]
pub struct Frame {
    pub entry: Entry,
    pub summary: Summary,
}

/// A stack of blocks and openers, which contracts see as the list of its entries from the top.
#[derive(Debug, Drop)]
pub struct Stack {
    frames: Vec<Frame>,
}

impl Model for Stack {
    ghost use Rattle.std.specs.Prelude.{List};
    ghost use Rattle.hdc_layout.specs.declared.summary.Entry.{Entry};

    ghost Value = { List Entry };

    ghost use Rattle.hdc_layout.specs.Frames.{entries, IsSummed};

    ghost view = { λ s. entries s.frames.items };

    ghost invariant = { λ s. IsSummed s.frames.items };
}

impl Stack {
    /// A stack without entries.
    pub fn new(alloc: Global) -> Stack
        ensures { result ≡ [] }
    {
        Stack {
            frames: Vec::new(alloc),
        }
    }

    /// The current block: the nearest to the top.
    pub fn current(&self) -> Block
        ensures { result ≡ current self.now }
    {
        self.summary().block
    }

    /// Whether the answer finds its opener.
    pub fn finds(&self, answer: Answer) -> bool
        ensures { result ≡ finds answer self.now }
    {
        finds(answer, self.summary())
    }

    fn summary(&self) -> Summary
        ensures { result ≡ summary_of self.now }
    {
        match self.frames.last() {
            Some(frame) => frame.summary,
            None => empty_summary(),
        }
    }

    /// The entry on top.
    pub fn top(&self) -> Option<Entry>
        ensures { result ≡ top self.now }
    {
        match self.frames.last() {
            Some(frame) => Some(frame.entry),
            None => None,
        }
    }

    /// Puts an entry on top.
    pub fn push(&mut self, entry: Entry) -> Result<(), AllocError>
        ensures { OnOk result (self.new ≡ entry ∷ self.old) }
    {
        let summary = summary_above(self.summary(), entry);
        self.frames.push(Frame { entry, summary })?;
        Ok(())
    }

    /// Takes the entry off the top.
    pub fn pop(&mut self) -> Option<Entry>
        ensures { MatchOption result ((self.old ≡ []) × (self.new ≡ [])) (λ e. self.old ≡ e ∷ self.new) }
    {
        match self.frames.pop() {
            Some(frame) => Some(frame.entry),
            None => None,
        }
    }
}
