//! Stacks.

ghost use Rattle.std.specs.Prelude.{◌≡◌, [], ◌∷◌, OnOk, Option, None, Some};
ghost use Rattle.hdc_written.specs.Stacks.{IsPopped, top_of};

use std::alloc::{AllocError, Global};
use std::marker::Model;

/// A stack, which contracts see as a list that begins with the last one.
#[derive(Drop)]
pub struct Stack<T> {
    items: Vec<T>,
}

impl<T> Model for Stack<T> {
    ghost use Rattle.std.specs.Prelude.{List, reverse};

    ghost Value = { List T };

    ghost view = { λ a. reverse a.items.items };
}

impl<T: Copy> Stack<T> {
    /// Nothing is on it.
    pub fn new(alloc: Global) -> Stack<T>
        ensures { result ≡ [] }
    {
        Stack {
            items: Vec::new(alloc),
        }
    }

    /// One more.
    pub fn push(&mut self, item: T) -> Result<(), AllocError>
        ensures { OnOk result (self.new ≡ item ∷ self.old) }
    {
        self.items.push(item)?;
        Ok(())
    }

    /// The last one is taken away, if there is one.
    pub fn pop(&mut self) -> Option<T>
        ensures { IsPopped result self.old self.new }
    {
        self.items.pop()
    }

    /// The last one, if there is one.
    pub fn last(&self) -> Option<T>
        ensures { result ≡ top_of self.now }
    {
        self.items.last().copied()
    }

    /// All of them, the last one first.
    pub fn into_items(mut self) -> Vec<T>
        ensures { result.items ≡ self }
    {
        self.items.reverse();
        self.items
    }
}
