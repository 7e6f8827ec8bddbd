//! Piles of what is owned.

ghost use Rattle.std.specs.Prelude.{◌≡◌, [], ◌∷◌, OnOk, IfOk, reverse};
ghost use Rattle.hdc_written.specs.Stacks.{IsPopped};

use sqlite_items::Items;
use std::alloc::{AllocError, Global};
use std::marker::Model;

/// A pile, which contracts see as a list that begins with what was put on last.
#[derive(Drop)]
pub struct Pile<T> {
    items: Vec<T>,
}

impl<T> Model for Pile<T> {
    ghost use Rattle.std.specs.Prelude.{List, reverse};

    ghost Value = { List T };

    ghost view = { λ a. reverse a.items.items };
}

impl<T: Drop> Pile<T> {
    /// Nothing is on it.
    pub fn new(alloc: Global) -> Pile<T>
        ensures { result ≡ [] }
    {
        Pile {
            items: Vec::new(alloc),
        }
    }

    /// One more.
    pub fn push(&mut self, item: T) -> Result<(), AllocError>
        ensures { OnOk result (self.new ≡ item ∷ self.old) }
    {
        self.items.push(item)?;
        Ok(())
    }

    /// The last one is taken away, if there is one.
    pub fn pop(&mut self) -> Option<T>
        ensures { IsPopped result self.old self.new }
    {
        self.items.pop()
    }

    /// A pile of these, the first one on top.
    pub fn of(alloc: Global, items: Items<T>) -> Result<Pile<T>, AllocError>
        ensures { IfOk result (λ pile. pile ≡ items) }
    {
        let mut rest = items;
        let mut pile = Pile::new(alloc);
        while let Some(item) = rest.pop() {
            pile.push(item)?;
        }
        Ok(pile)
    }
}
