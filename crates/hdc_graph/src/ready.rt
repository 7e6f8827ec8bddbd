//! Those that can be taken, the least first.

ghost use Rattle.std.specs.Prelude.{◌≡◌, [], ◌∷◌, OnOk, MatchOption};
ghost use Rattle.hdc_graph.specs.Lists.{IsInserted, AllAbove};

use std::alloc::{AllocError, Global};
use std::collections::BTreeSet;
use std::marker::Model;

/// A set of numbers, which contracts see as a list.
#[derive(Drop)]
pub(crate) struct Ready {
    set: BTreeSet<usize>,
}

impl Model for Ready {
    ghost use Rattle.std.specs.Prelude.{List, ℕ};

    ghost Value = { List ℕ };

    ghost view = { λ ready. ready.set.keys };
}

impl Ready {
    /// None yet.
    pub(crate) fn new(alloc: Global) -> Ready
        ensures { result ≡ [] }
    {
        Ready {
            set: BTreeSet::new(alloc),
        }
    }

    /// One more.
    pub(crate) fn insert(&mut self, number: usize) -> Result<(), AllocError>
        ensures { OnOk result (IsInserted number self.old self.new) }
    {
        self.set.insert(number)?;
        Ok(())
    }

    /// The least one is taken away.
    pub(crate) fn pop(&mut self) -> Option<usize>
        ensures { MatchOption result ((self.old ≡ []) × (self.new ≡ [])) (λ least. (self.old ≡ least ∷ self.new) × AllAbove least self.new) }
    {
        self.set.pop_first()
    }
}
