//! Types as they are written.

use crate::name::Name;
use hdc_base::At;
use sqlite_items::{Boxed, Items};

/// Types with `->` between them.
#[cycle(types)]
#[derive(Drop)]
pub struct TypeExp {
    pub first: Btype,
    pub rest: Items<ArrowType>,
}

/// `->` and a type.
#[cycle(types)]
#[derive(Drop)]
pub struct ArrowType {
    pub arrow: At,
    pub part: Btype,
}

/// A type that may stand beside a `->`.
#[cycle(types)]
#[derive(Drop)]
pub enum Btype {
    /// A type that may be an argument.
    Plain(Atype),
    /// A constructor and its arguments.
    Applied(Name, Atype, Items<Atype>),
}

/// A type that may be an argument.
#[cycle(types)]
#[derive(Drop)]
pub enum Atype {
    /// A constructor.
    Con(Name),
    /// A variable.
    Var(Name),
    /// `(` `)`
    Unit(At, At),
    /// A type in parentheses.
    Paren(At, Boxed<TypeExp>, At),
    /// Types in parentheses, of which the grammar has two to seven.
    Tuple(At, Boxed<TypeExp>, Items<CommaType>, At),
    /// A type in brackets.
    List(At, Boxed<TypeExp>, At),
}

/// `,` and a type.
#[cycle(types)]
#[derive(Drop)]
pub struct CommaType {
    pub comma: At,
    pub part: TypeExp,
}
