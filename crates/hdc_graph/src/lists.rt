//! Lists by number.

ghost use Rattle.std.specs.Prelude.{◌≡◌, ◌<◌, [], ◌∷◌, ◌++◌, length, slice_set, OnOk, MatchOption};
ghost use Rattle.hdc_graph.specs.Lists.{list_at, IsLast};

use sqlite_items::Items;
use std::alloc::{AllocError, Global};
use std::marker::Model;

/// A list for each number, which contracts see as a list of lists.
#[derive(Drop)]
pub(crate) struct Lists {
    lists: Vec<Items<usize>>,
}

impl Model for Lists {
    ghost use Rattle.std.specs.Prelude.{List, ℕ};

    ghost Value = { List (List ℕ) };

    ghost view = { λ lists. lists.lists.items };
}

impl Lists {
    /// No list yet.
    pub(crate) fn new(alloc: Global) -> Lists
        ensures { result ≡ [] }
    {
        Lists {
            lists: Vec::new(alloc),
        }
    }

    /// One more list, with nothing in it.
    pub(crate) fn add_list(&mut self, alloc: Global) -> Result<(), AllocError>
        ensures { OnOk result (self.new ≡ self.old ++ [] ∷ []) }
    {
        self.lists.push(Items::new(alloc))?;
        Ok(())
    }

    /// One more item at the end of a list.
    pub(crate) fn push(&mut self, list: usize, item: usize) -> Result<(), AllocError>
        requires { list < length self.old }
        ensures { OnOk result (self.new ≡ slice_set self.old list (list_at self.old list ++ item ∷ [])) }
    {
        self.lists[list].push(item)
    }

    /// The last item of a list is taken away.
    pub(crate) fn pop(&mut self, list: usize) -> Option<usize>
        requires { list < length self.old }
        ensures { MatchOption result (list_at self.old list ≡ []) (λ last. IsLast list last self.old self.new) }
    {
        self.lists[list].pop()
    }

    /// A list.
    pub(crate) fn list(&self, list: usize) -> &[usize]
        requires { list < length self.now }
        ensures { result.now ≡ list_at self.now list }
    {
        self.lists[list].as_slice()
    }
}
