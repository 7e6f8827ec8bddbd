//! The events of right sides, gone through in order.

ghost use Rattle.std.specs.Prelude.{[], OnOk, map};
ghost use Rattle.hdc_written.specs.Events as events;
ghost use Rattle.hdc_written.specs.Mirror as mirror;
ghost use Rattle.hdc_written.specs.Recorded.{event_of, recorded};
ghost use Rattle.hdc_needs.specs.Agrees.{Describes};
ghost use Rattle.hdc_needs.specs.Kept.{declarations_of};
ghost use Rattle.hdc_needs.specs.Walk as spec;

use crate::bind::{Target, bind_names, start_graph};
use crate::block_order::block_order;
use crate::frames::{Frame, Frames, OpenBlock};
use crate::names::bound_names;
use crate::orders::Orders;
use crate::values::note_needy;
use hdc_tree::{Block, Name, NextTop, Top, Tree};
use hdc_written::{Event, Events, Found, Scope, equation_events};
use std::alloc::{AllocError, Global};

/// What is in scope, the first breach found, and the orders of the blocks that have ended.
#[derive(Drop)]
pub(crate) struct Walk<'t> {
    pub(crate) scope: Scope<'t, Target>,
    pub(crate) frames: Frames<'t>,
    pub(crate) found: Found,
    pub(crate) orders: Orders,
}

impl<'t> Walk<'t> {
    /// Nothing is in scope.
    pub(crate) fn new(alloc: Global) -> Walk<'t>
        ensures { Describes result (spec.going [] []) }
    {
        Walk {
            scope: Scope::new(alloc),
            frames: Frames::new(alloc),
            found: Found::nothing(),
            orders: Orders::new(alloc),
        }
    }

    /// The right sides of a text.
    pub(crate) fn run_tree(&mut self, alloc: Global, tree: &'t Tree) -> Result<(), AllocError>
        ensures { (state : spec.State) → Describes self.old state → OnOk result (Describes self.new (spec.run_tops (mirror.tops_of tree.now) state)) }
    {
        self.run_top(alloc, tree.first.get())?;
        self.run_tops(alloc, tree.rest.as_slice())
    }

    fn run_tops(&mut self, alloc: Global, tops: &'t [NextTop]) -> Result<(), AllocError>
        ensures { (state : spec.State) → Describes self.old state → OnOk result (Describes self.new (spec.run_tops (mirror.tops_behind tops.now) state)) }
    {
        for part in tops {
            self.run_top(alloc, &part.top)?;
        }
        Ok(())
    }

    fn run_top(&mut self, alloc: Global, part: &'t Top) -> Result<(), AllocError>
        ensures { (state : spec.State) → Describes self.old state → OnOk result (Describes self.new (spec.run_top part.now state)) }
    {
        match part {
            Top::Equation(head, rhs) => {
                let events = equation_events(alloc, head, rhs)?;
                self.run(alloc, &events)
            }
            Top::Empty => Ok(()),
            Top::Data(_data) => Ok(()),
            Top::Synonym(_synonym) => Ok(()),
            Top::Fixity(_fixity) => Ok(()),
            Top::Signature(_first, _rest, _at, _signature) => Ok(()),
        }
    }

    fn run(&mut self, alloc: Global, events: &Events<'t>) -> Result<(), AllocError>
        ensures { (state : spec.State) → Describes self.old state → OnOk result (Describes self.new (spec.run (recorded events.now) state)) }
    {
        self.run_events(alloc, events.as_slice())
    }

    fn run_events(&mut self, alloc: Global, events: &[Event<'t>]) -> Result<(), AllocError>
        ensures { (state : spec.State) → Describes self.old state → OnOk result (Describes self.new (spec.run (map event_of events.now) state)) }
    {
        for event in events {
            self.step(alloc, *event)?;
        }
        Ok(())
    }

    fn step(&mut self, alloc: Global, event: Event<'t>) -> Result<(), AllocError>
        ensures { (state : spec.State) → Describes self.old state → OnOk result (Describes self.new (spec.step (event_of event.entry) state)) }
    {
        match event {
            Event::Used(name) => self.need(name),
            Event::Constructed(_name) => Ok(()),
            Event::Matched(_name, _count) => Ok(()),
            Event::Ranged(_at) => Ok(()),
            Event::Generated(_at) => Ok(()),
            Event::Opened => self.open_patterns(),
            Event::Introduced(name) => self.introduce(name),
            Event::Block(Some(block)) => self.open_block(alloc, Some(block)),
            Event::Block(None) => self.open_block(alloc, None),
            Event::Declaring => self.begin(),
            Event::Body => self.go_behind(),
            Event::Closed => self.close(alloc),
        }
    }

    // A name is used.
    fn need(&mut self, name: &Name) -> Result<(), AllocError>
        ensures { (state : spec.State) → Describes self.old state → OnOk result (Describes self.new (spec.step (events.used name.now) state)) }
    {
        match self.scope.find(name.text.as_slice()) {
            Some(Target::Local(level, node)) => self.frames.need(level, node),
            Some(Target::Variable) => Ok(()),
            None => Ok(()),
        }
    }

    // Variables of patterns are to come into scope.
    fn open_patterns(&mut self) -> Result<(), AllocError>
        ensures { (state : spec.State) → Describes self.old state → OnOk result (Describes self.new (spec.step events.opened state)) }
    {
        let size = self.scope.size();
        self.frames.push(Frame { size, block: None })
    }

    // A variable comes into scope.
    fn introduce(&mut self, name: &'t Name) -> Result<(), AllocError>
        ensures { (state : spec.State) → Describes self.old state → OnOk result (Describes self.new (spec.step (events.introduced name.now) state)) }
    {
        self.scope.bind(name.text.as_slice(), Target::Variable)
    }

    // The names of a block come into scope.
    fn open_block(&mut self, alloc: Global, block: Option<&'t Block>) -> Result<(), AllocError>
        ensures { (state : spec.State) → Describes self.old state → OnOk result (Describes self.new (spec.step (events.block (declarations_of block.entry)) state)) }
    {
        let level = self.frames.len();
        let size = self.scope.size();
        let names = bound_names(alloc, block)?;
        let mut graph = start_graph(alloc, block)?;
        bind_names(
            alloc,
            &mut self.scope,
            &mut graph,
            level,
            size,
            names.as_slice(),
        )?;
        let opened = OpenBlock {
            declarations: block,
            graph,
            begun: 0,
            current: None,
        };
        self.frames.push(Frame {
            size,
            block: Some(opened),
        })
    }

    // The next declaration begins.
    fn begin(&mut self) -> Result<(), AllocError>
        ensures { (state : spec.State) → Describes self.old state → OnOk result (Describes self.new (spec.step events.declaring state)) }
    {
        self.frames.begin()
    }

    // What the declarations are for begins.
    fn go_behind(&mut self) -> Result<(), AllocError>
        ensures { (state : spec.State) → Describes self.old state → OnOk result (Describes self.new (spec.step events.body state)) }
    {
        self.frames.go_behind();
        Ok(())
    }

    // What came into scope last goes.
    fn close(&mut self, alloc: Global) -> Result<(), AllocError>
        ensures { (state : spec.State) → Describes self.old state → OnOk result (Describes self.new (spec.step events.closed state)) }
    {
        match self.frames.pop() {
            Some(frame) => {
                self.scope.leave(frame.size);
                match frame.block {
                    Some(block) => {
                        note_needy(alloc, &mut self.found, &block)?;
                        self.orders.push(block_order(alloc, &block)?)
                    }
                    None => Ok(()),
                }
            }
            None => Ok(()),
        }
    }
}
