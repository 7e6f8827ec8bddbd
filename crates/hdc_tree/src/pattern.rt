//! Patterns as they are written.

use crate::name::{Literal, Name};
use hdc_base::At;
use sqlite_items::{Boxed, Items};

/// Patterns with `:` between them.
#[cycle(patterns)]
#[derive(Drop)]
pub struct Pat {
    pub first: LeftPat,
    pub rest: Items<ConsPat>,
}

/// `:` and a pattern.
#[cycle(patterns)]
#[derive(Drop)]
pub struct ConsPat {
    pub colon: At,
    pub pat: LeftPat,
}

/// A pattern that may stand beside a `:`.
#[cycle(patterns)]
#[derive(Drop)]
pub enum LeftPat {
    /// A pattern that may be an argument.
    Plain(Apat),
    /// A constructor and its arguments.
    Applied(Name, Apat, Items<Apat>),
    /// `-` and a number.
    Negative(At, At, u64),
}

/// A pattern that may be an argument.
#[cycle(patterns)]
#[derive(Drop)]
pub enum Apat {
    /// A variable.
    Var(Name),
    /// A variable, `@`, and a pattern.
    As(Name, At, Boxed<Apat>),
    /// `_`
    Wildcard(At),
    /// A constructor.
    Con(Name),
    /// A literal.
    Literal(At, Literal),
    /// `(` `)`
    Unit(At, At),
    /// `[` `]`
    Nil(At, At),
    /// A pattern in parentheses.
    Paren(At, Boxed<Pat>, At),
    /// Patterns in parentheses, of which the grammar has two to seven.
    Tuple(At, Boxed<Pat>, Items<CommaPat>, At),
    /// Patterns in brackets.
    List(At, Boxed<Pat>, Items<CommaPat>, At),
}

/// `,` and a pattern.
#[cycle(patterns)]
#[derive(Drop)]
pub struct CommaPat {
    pub comma: At,
    pub pat: Pat,
}
