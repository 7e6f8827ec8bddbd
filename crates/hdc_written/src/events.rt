//! What a program does with names, in the order of its text.

ghost use Rattle.std.specs.Prelude.{◌≡◌, [], ◌∷◌, ◌++◌, OnOk, map};
ghost use Rattle.hdc_written.specs.Recorded.{event_of, recorded};

use hdc_base::At;
use hdc_tree::{Block, Name};
use sqlite_items::Items;
use std::alloc::{AllocError, Global};

/// What a program does with a name, or with the names of a pattern or of declarations.
#[derive(Clone, Copy)]
pub enum Event<'t> {
    /// A variable is used.
    Used(&'t Name),
    /// A constructor is used in an expression.
    Constructed(&'t Name),
    /// A constructor is matched, with so many arguments.
    Matched(&'t Name, usize),
    /// A range begins here; it uses a function of the prelude.
    Ranged(At),
    /// A generator stands in the comprehension that begins here; it uses a function of the prelude.
    Generated(At),
    /// The variables of one equation, lambda, alternative or generator come into scope.
    Opened,
    /// One of these variables.
    Introduced(&'t Name),
    /// The names that declarations bind come into scope, if there are declarations.
    Block(Option<&'t Block>),
    /// The next declaration of the block begins.
    Declaring,
    /// What the declarations of the block are for begins.
    Body,
    /// What came into scope last goes.
    Closed,
}

/// Events, which contracts see without the memory that holds the program.
#[derive(Drop)]
pub struct Events<'t> {
    events: Items<Event<'t>>,
}

impl<'t> Events<'t> {
    /// No events.
    #[tactic(auto, unfolding(crate::specs::Recorded::recorded))]
    pub fn new(alloc: Global) -> Events<'t>
        ensures { recorded result ≡ [] }
    {
        Events {
            events: Items::new(alloc),
        }
    }

    /// All of them.
    #[tactic(auto, unfolding(crate::specs::Recorded::recorded))]
    pub fn as_slice(&self) -> &[Event<'t>]
        ensures { map event_of result.now ≡ recorded self.now }
    {
        self.events.as_slice()
    }

    /// One more event.
    #[tactic(auto, unfolding(crate::specs::Recorded::recorded), using(crate::proofs::Listing::recorded_more))]
    pub(crate) fn push(&mut self, event: Event<'t>) -> Result<(), AllocError>
        ensures { OnOk result (recorded self.new ≡ recorded self.old ++ event_of event.entry ∷ []) }
    {
        self.events.push(event)?;
        Ok(())
    }
}
