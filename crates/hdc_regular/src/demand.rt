//! What a synonym asks of its arguments.

ghost use Rattle.std.specs.Prelude.{◌≡◌, OnOk, true, false};
ghost use Rattle.hdc_regular.specs.Walk.{one_of};
ghost use Rattle.hdc_regular.specs.Demands as spec;

use crate::names::place_of;
use sqlite_items::Items;
use std::alloc::{AllocError, Global};

/// What a synonym asks of its arguments, so that each use in its meaning of a type of its own group has the variables of
/// a head in order.
#[derive(Drop)]
pub(crate) struct Demand {
    /// Whether some arguments will do.
    pub(crate) possible: bool,
    /// How many variables the head is to have, where it matters.
    pub(crate) count: Option<usize>,
    /// For each argument, which of the variables it is to be, where it matters; nothing matters behind these.
    pub(crate) wanted: Items<Option<u32>>,
}

impl Demand {
    /// Nothing is asked.
    pub(crate) fn new(alloc: Global) -> Demand
        ensures { result ≡ spec.no_demand }
    {
        Demand {
            possible: true,
            count: None,
            wanted: Items::new(alloc),
        }
    }

    /// Nothing will do, unless this holds.
    pub(crate) fn require(&mut self, holds: bool)
        ensures { self.new ≡ spec.possible_where holds self.old }
    {
        self.possible = holds && self.possible;
    }

    /// The head has so many variables.
    pub(crate) fn add_count(&mut self, count: usize)
        ensures { self.new ≡ spec.with_count count self.old }
    {
        match self.count {
            None => self.count = Some(count),
            Some(before) => self.require(count == before),
        }
    }

    /// What stands for an argument is this variable.
    pub(crate) fn add_alias(&mut self, alias: Option<u32>, want: u32) -> Result<(), AllocError>
        ensures { OnOk result (self.new ≡ spec.with_alias alias want self.old) }
    {
        match alias {
            None => {
                self.require(false);
                Ok(())
            }
            Some(place) => self.add_want(place, want),
        }
    }

    /// These arguments are variables in order.
    #[tactic(auto, using(crate::proofs::Wants::wishes_one_by_one))]
    pub(crate) fn add_order(&mut self, aliases: &[Option<u32>]) -> Result<(), AllocError>
        ensures { OnOk result (self.new ≡ spec.with_order 0 aliases.now self.old) }
    {
        for (index, alias) in aliases.iter().enumerate() {
            let want = place_of(index)?;
            self.add_alias(*alias, want)?;
        }
        Ok(())
    }

    /// These arguments are the variables that are wanted.
    #[tactic(auto, using(crate::proofs::Wants::wishes_one_by_one))]
    pub(crate) fn add_wants(
        &mut self,
        wanted: &[Option<u32>],
        aliases: &[Option<u32>],
    ) -> Result<(), AllocError>
        ensures { OnOk result (self.new ≡ spec.with_wants wanted.now aliases.now self.old) }
    {
        for (index, want) in wanted.iter().enumerate() {
            self.add_optional(alias_in(aliases, index), *want)?;
        }
        Ok(())
    }

    // What stands for an argument is this variable, if it is wanted to be one.
    fn add_optional(&mut self, alias: Option<u32>, want: Option<u32>) -> Result<(), AllocError>
        ensures { OnOk result (self.new ≡ spec.with_optional want alias self.old) }
    {
        match want {
            None => Ok(()),
            Some(want) => self.add_alias(alias, want),
        }
    }

    /// What a synonym with this demand asks of what stands for its arguments.
    pub(crate) fn add_demand(
        &mut self,
        demand: &Demand,
        aliases: &[Option<u32>],
    ) -> Result<(), AllocError>
        ensures { OnOk result (self.new ≡ spec.by_use true demand.now aliases.now self.old) }
    {
        self.require(demand.possible);
        self.add_some_count(demand.count);
        self.add_wants(demand.wanted.as_slice(), aliases)
    }

    // The head has so many variables, where it matters.
    fn add_some_count(&mut self, count: Option<usize>)
        ensures { self.new ≡ spec.count_where count self.old }
    {
        match count {
            None => {}
            Some(count) => self.add_count(count),
        }
    }

    /// What a data type asks of its arguments.
    pub(crate) fn add_use(&mut self, aliases: &[Option<u32>]) -> Result<(), AllocError>
        ensures { OnOk result (self.new ≡ spec.by_use false spec.no_demand aliases.now self.old) }
    {
        self.add_count(aliases.len());
        self.add_order(aliases)
    }

    /// Whether what is asked is so, for a head of so many variables.
    pub(crate) fn is_met(&self, count: usize, aliases: &[Option<u32>]) -> bool
        ensures { result ≡ spec.met self.now count aliases.now }
    {
        self.possible && is_count(self.count, count) && are_wanted(self.wanted.as_slice(), aliases)
    }

    // An argument is this variable.
    fn add_want(&mut self, place: u32, want: u32) -> Result<(), AllocError>
        ensures { OnOk result (self.new ≡ spec.with_want place want self.old) }
    {
        let holds = fits(alias_in(self.wanted.as_slice(), place as usize), want);
        self.require(holds);
        set_want(&mut self.wanted, place as usize, want)
    }
}

// Whether the head has so many variables, where it matters.
fn is_count(count: Option<usize>, variables: usize) -> bool
    ensures { result ≡ spec.is_count count variables }
{
    match count {
        None => true,
        Some(count) => count == variables,
    }
}

// Whether the arguments are the variables that they are wanted to be.
#[tactic(auto, using(crate::proofs::Wants::wanted_one_by_one))]
fn are_wanted(wanted: &[Option<u32>], aliases: &[Option<u32>]) -> bool
    ensures { result ≡ spec.all_wanted wanted.now aliases.now }
{
    for (index, want) in wanted.iter().enumerate() {
        if !is_wanted(*want, alias_in(aliases, index)) {
            return false;
        }
    }
    true
}

// Whether an argument is the variable that it is wanted to be, if it is.
fn is_wanted(want: Option<u32>, alias: Option<u32>) -> bool
    ensures { result ≡ spec.is_wanted want alias }
{
    match want {
        None => true,
        Some(want) => match alias {
            None => false,
            Some(alias) => alias == want,
        },
    }
}

// Whether an argument that is wanted to be this variable, if it is, may be another.
fn fits(wanted: Option<u32>, want: u32) -> bool
    ensures { result ≡ spec.fits_want wanted want }
{
    match wanted {
        None => true,
        Some(before) => before == want,
    }
}

/// The variable that an argument is, if it is one.
pub(crate) fn alias_in(aliases: &[Option<u32>], place: usize) -> Option<u32>
    ensures { result ≡ one_of aliases.now place }
{
    match aliases.get(place) {
        Some(alias) => *alias,
        None => None,
    }
}

#[tactic(auto, using(crate::proofs::Wants::wants_one_by_one))]
fn set_want(wanted: &mut Items<Option<u32>>, place: usize, want: u32) -> Result<(), AllocError>
    ensures { OnOk result (wanted.new ≡ spec.want_set wanted.old place want) }
{
    while wanted.len() <= place {
        wanted.push(None)?;
    }
    let kept = kept(wanted.as_slice()[place], want);
    wanted.set(place, kept);
    Ok(())
}

fn kept(before: Option<u32>, want: u32) -> Option<u32>
    ensures { result ≡ spec.want_kept before want }
{
    match before {
        None => Some(want),
        Some(first) => Some(first),
    }
}
