//! What is in scope, and what is counted.

ghost use Rattle.std.specs.Prelude.{◌≡◌, ◌<◌, ◌^◌, ◌++◌, [], ◌∷◌, OnOk, IfOk, IsOk, length, suc};
ghost use Rattle.hdc_resolving.specs.Numbering as spec;

use crate::known::Known;
use hdc_names::{Fixity, undeclared};
use hdc_resolved::{Name, Numbers};
use hdc_tree::Name as WrittenName;
use hdc_written::Scope;
use sqlite_items::Items;
use std::alloc::{AllocError, Global};

/// How many numbers of local names are taken, and how many blocks have ended.
#[derive(Clone, Copy, Debug, PartialEq, Eq)]
pub struct Counter {
    pub numbers: u32,
    pub blocks: u32,
}

/// What is in scope, how the operators that are in scope bind, and what is counted.
#[derive(Drop)]
pub struct Walk<'t> {
    pub names: Scope<'t, Name>,
    pub fixities: Scope<'t, Fixity>,
    pub counter: Counter,
}

/// How many names are in scope of either kind.
#[derive(Clone, Copy, Debug, PartialEq, Eq)]
pub struct Sizes {
    pub names: usize,
    pub fixities: usize,
}

impl Counter {
    /// One number more is taken, if there is one.
    pub fn count(self) -> Result<Counter, AllocError>
        ensures room { suc self.numbers < 2 ^ 32 → IsOk result }
        ensures what { IfOk result (λ counter. counter ≡ spec.counted self) }
    {
        match self.numbers.checked_add(1) {
            Some(numbers) => Ok(Counter {
                numbers,
                blocks: self.blocks,
            }),
            None => Err(AllocError),
        }
    }

    /// One block more has ended, if it has a number.
    pub fn end_block(self) -> Result<Counter, AllocError>
        ensures room { suc self.blocks < 2 ^ 32 → IsOk result }
        ensures what { IfOk result (λ counter. counter ≡ spec.ended self) }
    {
        match self.blocks.checked_add(1) {
            Some(blocks) => Ok(Counter {
                numbers: self.numbers,
                blocks,
            }),
            None => Err(AllocError),
        }
    }
}

impl<'t> Walk<'t> {
    /// How many names are in scope.
    pub fn sizes(&self) -> Sizes
        ensures { result ≡ record { names = length self.now.names; fixities = length self.now.fixities } }
    {
        Sizes {
            names: self.names.size(),
            fixities: self.fixities.size(),
        }
    }

    /// The last names go, until there are so many.
    pub fn leave(&mut self, sizes: Sizes)
        ensures { self.new ≡ spec.left_at sizes.names sizes.fixities self.old }
    {
        self.names.leave(sizes.names);
        self.fixities.leave(sizes.fixities);
    }

    /// A name comes into scope, with the next number.
    pub fn enter(&mut self, name: &'t WrittenName) -> Result<(), AllocError>
        ensures { OnOk result (self.new ≡ spec.entered (name.now ∷ []) self.old) }
    {
        let counter = self.counter.count()?;
        let text = name.text.as_slice();
        self.names.bind(text, Name::Local(self.counter.numbers))?;
        self.fixities.bind(text, undeclared())?;
        self.counter = counter;
        Ok(())
    }

    /// A number is taken, which no name has.
    pub fn take_number(&mut self) -> Result<u32, AllocError>
        ensures room { suc self.old.counter.numbers < 2 ^ 32 → IsOk result }
        ensures number { IfOk result (λ number. number ≡ self.old.counter.numbers) }
        ensures moved { OnOk result (self.new ≡ spec.moved (spec.counted self.old.counter) self.old) }
    {
        let number = self.counter.numbers;
        self.counter = self.counter.count()?;
        Ok(number)
    }

    /// A block has ended.
    pub fn end_block(&mut self) -> Result<(), AllocError>
        ensures room { suc self.old.counter.blocks < 2 ^ 32 → IsOk result }
        ensures moved { OnOk result (self.new ≡ spec.moved (spec.ended self.old.counter) self.old) }
    {
        self.counter = self.counter.end_block()?;
        Ok(())
    }

    /// The number of a name that is bound locally.
    pub fn number_of(&self, name: &WrittenName) -> u32
        ensures { result ≡ spec.variable_number self.now.names name.now }
    {
        match self.names.find(name.text.as_slice()) {
            Some(Name::Local(number)) => number,
            Some(_) | None => 0,
        }
    }
}
