//! The names that stand for something.

ghost use Rattle.std.specs.Prelude.{◌≡◌, ◌-◌, [], ◌∷◌, OnOk, drop, is_some, length, take};
ghost use Rattle.hdc_written.specs.Scopes.{standing_for};

use indexmap::IndexMap;
use std::alloc::{AllocError, Global};
use std::marker::Model;

/// A binding, with the place of the one before of the same name, if there is one.
#[derive(Clone, Copy)]
struct Entry<'t, T> {
    name: &'t [u8],
    what: T,
    before: Option<usize>,
}

/// The names that stand for something, the last binding of a name before the earlier ones; contracts see them as
/// the list of bindings that begins with the last.
#[derive(Drop)]
pub struct Scope<'t, T> {
    /// Where the last entry of a name is, for each name that has or had one.
    places: IndexMap<&'t [u8], Option<usize>>,
    entries: Vec<Entry<'t, T>>,
}

impl<'t, T> Model for Scope<'t, T> {
    ghost use Rattle.std.specs.Prelude.{List};
    ghost use Rattle.hdc_written.specs.Scopes.{Binding};

    ghost Value = { List (Binding T) };

    ghost use Rattle.hdc_written.specs.Links.{bindings, IsLinked, IsIndexed};

    ghost view = { λ s. bindings s.entries.items };

    ghost invariant = { λ s. IsLinked s.entries.items × IsIndexed s.places s.entries.items };
}

impl<'t, T: Copy> Scope<'t, T> {
    /// Nothing is bound.
    pub fn new(alloc: Global) -> Scope<'t, T>
        ensures { result ≡ [] }
    {
        Scope {
            places: IndexMap::new(alloc),
            entries: Vec::new(alloc),
        }
    }

    /// One more binding, unless there is no memory for it.
    pub fn bind(&mut self, name: &'t [u8], what: T) -> Result<(), AllocError>
        ensures { OnOk result (self.new ≡ record { name = name.now; what = what } ∷ self.old) }
    {
        let before = self.places.get(name).copied().flatten();
        let place = self.entries.len();
        self.entries.try_reserve(1)?;
        self.places.insert(name, Some(place))?;
        self.entries.push(Entry { name, what, before })?;
        Ok(())
    }

    /// What a name stands for by its last binding.
    pub fn find(&self, name: &[u8]) -> Option<T>
        ensures { result ≡ standing_for name.now self.now }
    {
        match self.places.get(name).copied().flatten() {
            Some(place) => Some(self.entries[place].what),
            None => None,
        }
    }

    /// Whether the name has been bound since there were so many bindings.
    pub fn is_bound_since(&self, size: usize, name: &[u8]) -> bool
        ensures { result ≡ is_some (standing_for name.now (take (length self.now - size) self.now)) }
    {
        match self.places.get(name).copied().flatten() {
            Some(place) => place >= size,
            None => false,
        }
    }

    /// How many bindings there are.
    pub fn size(&self) -> usize
        ensures { result ≡ length self.now }
    {
        self.entries.len()
    }

    /// The last bindings go, until there are `size`; none where there are no more than that.
    pub fn leave(&mut self, size: usize)
        ensures { self.new ≡ drop (length self.old - size) self.old }
    {
        while self.size() > size {
            self.forget();
        }
    }

    /// The last binding goes, if there is one.
    fn forget(&mut self)
        ensures { self.new ≡ drop 1 self.old }
    {
        if let Some(entry) = self.entries.pop() {
            if let Some(place) = self.places.get_mut(entry.name) {
                *place = entry.before;
            }
        }
    }
}
