//! The events of right sides, gone through in order.

ghost use Rattle.std.specs.Prelude.{◌≡◌, ◌∷◌, OnOk, is_some, map};
ghost use Rattle.hdc_written.specs.Mirror as mirror;
ghost use Rattle.hdc_written.specs.Recorded.{event_of, recorded};
ghost use Rattle.hdc_written.specs.Scopes.{standing_for};
ghost use Rattle.hdc_rules.specs.Known.{value};
ghost use Rattle.hdc_rules.specs.Names as names;
ghost use Rattle.hdc_rules.specs.Scan as spec;

use crate::block::note_block;
use crate::known::Known;
use crate::listed::note_skeleton;
use hdc_base::At;
use hdc_tree::{Block, Name, NextTop, Top, Tree};
use hdc_written::{Event, Events, Found, Scope, Stack, bind_block, equation_events};
use std::alloc::{AllocError, Global};

/// What is in scope, how many bindings there were whenever something came into scope, and the first breach found.
#[derive(Drop)]
pub(crate) struct Scan<'t> {
    pub(crate) scope: Scope<'t, ()>,
    pub(crate) marks: Stack<usize>,
    pub(crate) found: Found,
}

impl<'t> Scan<'t> {
    /// The right sides of a text.
    pub(crate) fn run_tree(
        &mut self,
        alloc: Global,
        known: &Known,
        tree: &'t Tree,
    ) -> Result<(), AllocError>
        ensures { OnOk result (self.new ≡ spec.run_tops known.now (mirror.tops_of tree.now) self.old) }
    {
        self.run_top(alloc, known, tree.first.get())?;
        self.run_tops(alloc, known, tree.rest.as_slice())
    }

    fn run_tops(
        &mut self,
        alloc: Global,
        known: &Known,
        tops: &'t [NextTop],
    ) -> Result<(), AllocError>
        ensures { OnOk result (self.new ≡ spec.run_tops known.now (mirror.tops_behind tops.now) self.old) }
    {
        for part in tops {
            self.run_top(alloc, known, &part.top)?;
        }
        Ok(())
    }

    fn run_top(&mut self, alloc: Global, known: &Known, part: &'t Top) -> Result<(), AllocError>
        ensures { OnOk result (self.new ≡ spec.run_top known.now part.now self.old) }
    {
        match part {
            Top::Equation(head, rhs) => {
                let events = equation_events(alloc, head, rhs)?;
                self.run(alloc, known, &events)
            }
            Top::Empty => Ok(()),
            Top::Data(_data) => Ok(()),
            Top::Synonym(_synonym) => Ok(()),
            Top::Fixity(_fixity) => Ok(()),
            Top::Signature(_first, _rest, _at, _signature) => Ok(()),
        }
    }

    fn run(&mut self, alloc: Global, known: &Known, events: &Events<'t>) -> Result<(), AllocError>
        ensures { OnOk result (self.new ≡ spec.run known.now (recorded events.now) self.old) }
    {
        self.run_events(alloc, known, events.as_slice())
    }

    fn run_events(
        &mut self,
        alloc: Global,
        known: &Known,
        events: &[Event<'t>],
    ) -> Result<(), AllocError>
        ensures { OnOk result (self.new ≡ spec.run known.now (map event_of events.now) self.old) }
    {
        for event in events {
            self.step(alloc, known, *event)?;
        }
        Ok(())
    }

    fn step(&mut self, alloc: Global, known: &Known, event: Event<'t>) -> Result<(), AllocError>
        ensures { OnOk result (self.new ≡ spec.step known.now (event_of event.entry) self.old) }
    {
        match event {
            Event::Used(name) => {
                let found = self.scope.find(name.text.as_slice());
                self.note_unknown(found, name.at);
                Ok(())
            }
            Event::Constructed(name) => {
                self.note_unless_some(known.constructors.find(name.text.as_slice()), name.at);
                Ok(())
            }
            Event::Matched(name, count) => {
                self.note_unless_counted(
                    known.constructors.find(name.text.as_slice()),
                    count,
                    name.at,
                );
                Ok(())
            }
            Event::Ranged(at) => {
                self.note_unknown(known.library.find(b"enumFromTo"), at);
                Ok(())
            }
            Event::Generated(at) => {
                self.note_unknown(known.library.find(b"concatMap"), at);
                Ok(())
            }
            Event::Opened => self.mark(),
            Event::Introduced(name) => self.introduce(name),
            Event::Block(Some(block)) => self.enter(alloc, known, block),
            Event::Block(None) => self.mark(),
            Event::Declaring | Event::Body => Ok(()),
            Event::Closed => {
                self.leave();
                Ok(())
            }
        }
    }

    // A value stands for something.
    fn note_unknown(&mut self, found: Option<()>, at: At)
        ensures { self.new ≡ spec.note_all (names.unless_known found at) self.old }
    {
        match found {
            Some(()) => {}
            None => self.found.note(1, at),
        }
    }

    // A constructor stands for something.
    fn note_unless_some(&mut self, found: Option<usize>, at: At)
        ensures { self.new ≡ spec.note_all (names.unless_some found at) self.old }
    {
        match found {
            Some(_count) => {}
            None => self.found.note(1, at),
        }
    }

    // A constructor stands for something, with so many fields.
    fn note_unless_counted(&mut self, found: Option<usize>, count: usize, at: At)
        ensures { self.new ≡ spec.note_all (names.unless_counted found 6 count at) self.old }
    {
        match found {
            Some(fields) => {
                if fields != count {
                    self.found.note(6, at);
                }
            }
            None => self.found.note(1, at),
        }
    }

    // Something comes into scope.
    fn mark(&mut self) -> Result<(), AllocError>
        ensures { OnOk result (self.new ≡ spec.marked self.old) }
    {
        self.marks.push(self.scope.size())
    }

    // A variable comes into scope with those of the same patterns.
    fn introduce(&mut self, name: &'t Name) -> Result<(), AllocError>
        ensures { OnOk result (self.new ≡ spec.introduce name.now self.old) }
    {
        let text = name.text.as_slice();
        if self.scope.is_bound_since(self.last_mark(), text) {
            self.found.note(3, name.at);
        }
        note_skeleton(&mut self.found, name);
        self.scope.bind(text, ())
    }

    // The names of declarations come into scope.
    fn enter(&mut self, alloc: Global, known: &Known, block: &'t Block) -> Result<(), AllocError>
        ensures { OnOk result (self.new ≡ spec.blocked known.now (mirror.block_of block.now) self.old) }
    {
        note_block(alloc, &mut self.found, &known.types, block)?;
        self.mark()?;
        bind_block(&mut self.scope, (), block)
    }

    // What came into scope last goes.
    fn leave(&mut self)
        ensures { self.new ≡ spec.left self.old }
    {
        let size = self.last_mark();
        self.scope.leave(size);
        let _mark = self.marks.pop();
    }

    fn last_mark(&self) -> usize
        ensures { result ≡ spec.last_mark self.now.marks }
    {
        match self.marks.last() {
            Some(mark) => mark,
            None => 0,
        }
    }
}
