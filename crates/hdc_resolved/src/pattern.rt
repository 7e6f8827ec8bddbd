//! Patterns.

use crate::name::{Constructor, Literal, RowKind};
use hdc_base::Place;
use sqlite_items::{Boxed, Items};

/// A pattern, with the place of its first token; parentheses that only enclose it are left out.
#[cycle(patterns)]
#[derive(Drop)]
pub enum Pat {
    /// `_`
    Any(Place),
    /// A variable, by its number.
    Var(Place, u32),
    /// A variable, by its number, and the pattern behind its `@`.
    As(Place, u32, Boxed<Pat>),
    /// A literal, which is negative behind a `-`.
    Lit(Place, Literal),
    /// A constructor with its own place, which for `:` is behind its first argument, and its
    /// arguments; none where the rules on names refuse it.
    Con(Place, Place, Option<Constructor>, Items<Pat>),
    /// Members in parentheses or brackets.
    Row(Place, RowKind, Items<Pat>),
}
