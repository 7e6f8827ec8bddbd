//! Why a text is refused, or passes a limit.

ghost use Rattle.std.specs.Prelude.{◌≡◌};
ghost use Rattle.hdc_base.specs.declared.refusal.Stop.TheVariants as stop;

use crate::place::At;
use std::alloc::{AllocError, AllocFailed};

/// Want of memory.
#[derive(Clone, Copy, Debug, PartialEq, Eq)]
pub struct Want;

/// The kind of a refusal, under its number.
#[derive(Clone, Copy, Debug, PartialEq, Eq)]
pub enum Kind {
    /// A byte begins no lexeme, or may not stand in a literal.
    Byte = 1,
    /// A malformed or too large literal.
    Literal = 2,
    /// A comment, string or character that is cut off.
    Unclosed = 3,
    /// A `}` in a block that is not explicit, or the end in an explicit one.
    Brace = 4,
    /// No program's spelling begins with the tokens up to here.
    Syntax = 5,
    /// A chain or section of operators has no tree.
    Fixity = 6,
    /// A rule on names is broken.
    Name = 7,
    /// A rule on skeletons is broken.
    Skeleton = 8,
    /// The equations of types have no solution, or a signature is too general.
    Typing = 9,
    /// A rule on `main` is broken.
    Main = 10,
    /// The input is no data form of its type.
    Input = 11,
    /// The schedule is not a list of numbers.
    Schedule = 12,
    /// A form of the language that is not built yet.
    NotYet = 13,
}

/// A refusal: its kind, the number of the broken rule (0 where the kind has no rules), its place.
#[derive(Clone, Copy, Debug, PartialEq, Eq)]
pub struct Refusal {
    pub kind: Kind,
    pub rule: u8,
    pub at: At,
}

/// Which of the files of a job.
#[derive(Clone, Copy, Debug, PartialEq, Eq)]
pub enum Which {
    Program,
    Input,
    Schedule,
}

/// A limit that a text passes, with its place where it has one.
#[derive(Clone, Copy, Debug, PartialEq, Eq)]
pub enum Limit {
    /// The file has more than 1,048,576 bytes.
    Long(Which),
    /// The text has more than 131,072 lexemes.
    Tokens(Which, At),
    /// A token is nested deeper than 256.
    Nesting(Which, At),
    /// A tree has a node at depth 1,025.
    Depth(At),
    /// The type of a node has more than 4,096 nodes.
    TypeSize(At),
    /// More than 4,096 pairs of a top-level name and a ground type are reached.
    Instances,
    /// A trace of more than 20,000 unfoldings.
    Trace,
}

/// Why a text was not compiled.
#[derive(Clone, Copy, Debug, PartialEq, Eq)]
pub enum Stop {
    Refused(Refusal),
    Limit(Limit),
    Want,
}

impl From<Want> for Stop {
    ghost from_gives = { λ _ s. s ≡ stop.Want };

    fn from(_want: Want) -> Stop {
        Stop::Want
    }
}

impl From<AllocError> for Want {
    fn from(_error: AllocError) -> Want {
        Want
    }
}

impl<T: Drop> From<AllocFailed<T>> for Want {
    fn from(_error: AllocFailed<T>) -> Want {
        Want
    }
}
