//! Components are taken one by one, each after those that it needs.

ghost use Rattle.std.specs.Prelude.{◌≡◌, ◌≢◌, ◌⊎◌, ◌<◌, ◌++◌, ◌∷◌, [], length, IsTrue, IsFalse, ◌+◌, ◌^◌, None, OnOk, IfOk, slice_index, drop};
ghost use Rattle.std.specs.Bool.{OnTrue, OnFalse};
ghost use Rattle.hdc_graph.specs.Lists.{place_in, list_at};
ghost use Rattle.hdc_graph.specs.Labels.{AreWithin};
ghost use Rattle.hdc_graph.specs.Schedule.{IsScheduling, IsLater, IsSettling, with_restless, with_taken, left, untaken, IsPlaced, owed_at};

use crate::labels::{empty_lists, nones, own_labels, zeros};
use crate::lists::Lists;
use crate::ready::Ready;
use sqlite_items::Items;
use std::alloc::{AllocError, Global};

/// The components that are taken, and what the others wait for. A component goes by its least node.
#[derive(Drop)]
pub(crate) struct Schedule {
    /// The component of each node.
    pub(crate) labels: Items<usize>,
    /// What each component needs.
    pub(crate) needs: Lists,
    /// Before these places, what each needs is taken, or the component itself.
    pub(crate) cursors: Items<usize>,
    /// The components that wait for each.
    pub(crate) waiting: Lists,
    /// Those to be looked at.
    pub(crate) restless: Items<usize>,
    /// Those that can be taken.
    pub(crate) ready: Ready,
    /// The position of each that is taken.
    pub(crate) places: Items<Option<usize>>,
    /// Those that are taken, in order.
    pub(crate) taken: Items<usize>,
}

impl Schedule {
    /// Nothing is taken, and each component is to be looked at.
    pub(crate) fn start(
        alloc: Global,
        needs: Lists,
        labels: Items<usize>,
    ) -> Result<Schedule, AllocError>
        requires { AreWithin labels needs }
        ensures under_way { IfOk result (λ schedule. IsScheduling schedule) }
        ensures labels { IfOk result (λ schedule. schedule.labels ≡ labels) }
        ensures needs { IfOk result (λ schedule. schedule.needs ≡ needs) }
    {
        let cursors = zeros(alloc, labels.len())?;
        let waiting = empty_lists(alloc, labels.len())?;
        let restless = own_labels(alloc, labels.as_slice())?;
        let places = nones(alloc, labels.len())?;
        Ok(Schedule {
            labels,
            needs,
            cursors,
            waiting,
            restless,
            ready: Ready::new(alloc),
            places,
            taken: Items::new(alloc),
        })
    }

    /// Takes one after another, until none can be taken.
    pub(crate) fn run(&mut self) -> Result<(), AllocError>
        requires { IsScheduling self.old }
        ensures under_way { OnOk result (IsScheduling self.new) }
        ensures later { OnOk result (IsLater self.old self.new) }
        ensures restless { OnOk result (self.new.restless ≡ []) }
        ensures ready { OnOk result (self.new.ready ≡ []) }
    {
        self.settle_all()?;
        while self.take_next()? {
            self.settle_all()?;
        }
        Ok(())
    }

    // The least of those that can be taken is taken; false where there is none.
    fn take_next(&mut self) -> Result<bool, AllocError>
        requires under_way { IsScheduling self.old }
        requires settled { self.old.restless ≡ [] }
        ensures under_way { OnOk result (IsScheduling self.new) }
        ensures later { OnOk result (IsLater self.old self.new) }
        ensures fewer { IfOk result (λ more. OnTrue more (untaken self.new.places < untaken self.old.places)) }
        ensures none { IfOk result (λ more. OnFalse more ((self.new.restless ≡ []) × (self.new.ready ≡ []))) }
    {
        let Some(component) = self.ready.pop() else {
            return Ok(false);
        };
        self.take(component)?;
        Ok(true)
    }

    // A component is taken, and those that wait for it are to be looked at.
    fn take(&mut self, component: usize) -> Result<(), AllocError>
        requires place { component < length self.old.places }
        requires waiting { component < length self.old.waiting }
        ensures { OnOk result (self.new ≡ with_taken component self.old) }
    {
        self.places.set(component, Some(self.taken.len()));
        self.taken.push(component)?;
        push_all(&mut self.restless, self.waiting.list(component))
    }

    // Looks at components until each is taken, can be taken, or waits.
    fn settle_all(&mut self) -> Result<(), AllocError>
        requires { IsScheduling self.old }
        ensures under_way { OnOk result (IsScheduling self.new) }
        ensures settling { OnOk result (IsSettling self.old self.new) }
        ensures settled { OnOk result (self.new.restless ≡ []) }
    {
        while let Some(component) = self.restless.pop() {
            self.settle(component)?;
        }
        Ok(())
    }

    // Looks at a component.
    fn settle(&mut self, component: usize) -> Result<(), AllocError>
        requires { IsScheduling (with_restless component self.old) }
        ensures under_way { OnOk result (IsScheduling self.new) }
        ensures settling { OnOk result (IsSettling self.old self.new) }
        ensures less { OnOk result (left self.new < left (with_restless component self.old)) }
    {
        if self.is_taken(component) {
            return Ok(());
        }
        let cursor = self.cursor_of(component);
        let needs = self.needs.list(component);
        if cursor >= needs.len() {
            return self.ready.insert(component);
        }
        let need = needs[cursor];
        self.look_at_need(component, cursor, need)
    }

    // Looks at what a component needs at its cursor: it waits for that, unless it is taken.
    fn look_at_need(
        &mut self,
        component: usize,
        cursor: usize,
        need: usize,
    ) -> Result<(), AllocError>
        requires under_way { IsScheduling (with_restless component self.old) }
        requires cursor { cursor ≡ slice_index self.old.cursors component }
        requires room { cursor + 1 < 2 ^ 64 }
        requires open { place_in self.old.places component ≡ None }
        requires need { owed_at self.old.needs self.old.cursors component ≡ need ∷ drop (cursor + 1) (list_at self.old.needs component) }
        ensures under_way { OnOk result (IsScheduling self.new) }
        ensures settling { OnOk result (IsSettling self.old self.new) }
        ensures less { OnOk result (left self.new < left (with_restless component self.old)) }
    {
        if self.is_met(component, need) {
            self.cursors.set(component, cursor + 1);
            self.restless.push(component)
        } else {
            self.waiting.push(need, component)
        }
    }

    // Where a component's needs are to be looked at.
    fn cursor_of(&self, component: usize) -> usize
        requires { component < length self.now.cursors }
        ensures { result ≡ slice_index self.now.cursors component }
    {
        self.cursors.as_slice()[component]
    }

    // Whether a component need not wait for another.
    fn is_met(&self, component: usize, need: usize) -> bool
        requires { need < length self.now.places }
        ensures met { IsTrue result → IsPlaced (place_in self.now.places) need ⊎ (need ≡ component) }
        ensures not_met { IsFalse result → (place_in self.now.places need ≡ None) × (need ≢ component) }
    {
        if need == component {
            return true;
        }
        self.is_taken(need)
    }

    // Whether a component is taken.
    fn is_taken(&self, component: usize) -> bool
        requires { component < length self.now.places }
        ensures taken { IsTrue result → IsPlaced (place_in self.now.places) component }
        ensures not_taken { IsFalse result → place_in self.now.places component ≡ None }
    {
        match self.places.as_slice()[component] {
            Some(_place) => true,
            None => false,
        }
    }
}

// More items at the end.
fn push_all(items: &mut Items<usize>, more: &[usize]) -> Result<(), AllocError>
    ensures { OnOk result (items.new ≡ items.old ++ more.now) }
{
    for item in more {
        items.push(*item)?;
    }
    Ok(())
}
