//! Names that stand in a text.

ghost use Rattle.std.specs.Prelude.{◌≡◌, [], ◌∷◌, ◌++◌, OnOk, IfOk, map};
ghost use Rattle.hdc_written.specs.Scopes.{names_text};

use hdc_base::At;
use hdc_tree::Name;
use hdc_written::Scope;
use sqlite_items::Items;
use std::alloc::{AllocError, Global};
use std::marker::Model;

/// A list of names.
#[derive(Drop)]
pub(crate) struct Names<'t> {
    names: Items<&'t Name>,
}

impl<'t> Model for Names<'t> {
    ghost use Rattle.std.specs.Prelude.{List, map};
    ghost use Rattle.hdc_tree.specs.declared.name.Name.{Name};

    ghost Value = { List Name };

    ghost view = { λ n. map (λ x. x.now) n.names };
}

impl<'t> Names<'t> {
    /// No names.
    pub(crate) fn new(alloc: Global) -> Names<'t>
        ensures { result ≡ [] }
    {
        Names {
            names: Items::new(alloc),
        }
    }

    /// One more name at the end, unless there is no memory for it.
    #[tactic(auto, using(crate::proofs::Listing::one_more))]
    pub(crate) fn push(&mut self, name: &'t Name) -> Result<(), AllocError>
        ensures { OnOk result (self.new ≡ self.old ++ name.now ∷ []) }
    {
        self.names.push(name)?;
        Ok(())
    }

    /// More names at the end, unless there is no memory for them.
    #[tactic(auto, using(crate::proofs::Listing::in_order))]
    pub(crate) fn push_all(&mut self, names: &'t [Name]) -> Result<(), AllocError>
        ensures { OnOk result (self.new ≡ self.old ++ names.now) }
    {
        for name in names {
            self.push(name)?;
        }
        Ok(())
    }

    /// All of them, in their order.
    pub(crate) fn as_slice(&self) -> &[&'t Name]
        ensures { map (λ x. x.now) result.now ≡ self.now }
    {
        self.names.as_slice()
    }
}

/// Names that can be looked up; contracts see the list of them that begins with the last.
#[derive(Drop)]
pub(crate) struct NameSet<'t> {
    places: Scope<'t, At>,
}

impl<'t> Model for NameSet<'t> {
    ghost use Rattle.std.specs.Prelude.{List, map};
    ghost use Rattle.hdc_tree.specs.declared.name.Name.{Name};

    ghost Value = { List Name };

    ghost view = { λ s. map (λ b. record { at = b.what; text = b.name }) s.places };
}

impl<'t> NameSet<'t> {
    /// No names.
    pub(crate) fn new(alloc: Global) -> NameSet<'t>
        ensures { result ≡ [] }
    {
        NameSet {
            places: Scope::new(alloc),
        }
    }

    /// The names of a list, unless there is no memory for them.
    pub(crate) fn of(alloc: Global, names: &Names<'t>) -> Result<NameSet<'t>, AllocError>
        ensures { IfOk result (λ set. set ≡ names.now) }
    {
        let names = names.as_slice();
        let mut set = NameSet::new(alloc);
        let mut count = names.len();
        while count > 0 {
            count -= 1;
            set.add(names[count])?;
        }
        Ok(set)
    }

    /// One more name, unless there is no memory for it.
    pub(crate) fn add(&mut self, name: &'t Name) -> Result<(), AllocError>
        ensures { OnOk result (self.new ≡ name.now ∷ self.old) }
    {
        self.places.bind(name.text.as_slice(), name.at)
    }

    /// Whether one of the names has the text of this name.
    #[tactic(auto, using(crate::proofs::Listing::stands_among))]
    pub(crate) fn contains(&self, name: &Name) -> bool
        ensures { result ≡ names_text self.now name.now.text }
    {
        self.places.find(name.text.as_slice()).is_some()
    }
}
