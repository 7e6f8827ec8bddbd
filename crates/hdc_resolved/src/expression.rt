//! Expressions and local bindings.

use crate::name::{Literal, Name, Numbers, RowKind, Side, Use};
use crate::pattern::Pat;
use crate::type_exp::Type;
use hdc_base::Place;
use sqlite_items::{Boxed, Items};

/// An expression, with the place of its first token; parentheses that only enclose it are left out.
#[cycle(expressions)]
#[derive(Drop)]
pub enum Exp {
    /// A literal.
    Lit(Place, Literal),
    /// A name or a constructor; `:` is one too.
    Name(Use),
    /// A function and one argument.
    App(Place, Boxed<Exp>, Boxed<Exp>),
    /// An operator between its operands.
    Infix(Place, Boxed<Exp>, Use, Boxed<Exp>),
    /// `-` and its operand.
    Neg(Place, Boxed<Exp>),
    /// An operand and an operator in parentheses, with the number of the parameter that is its other operand.
    Section(Place, Side, u32, Use, Boxed<Exp>),
    /// `\`, patterns and a body.
    Lambda(Place, Items<Pat>, Boxed<Exp>),
    /// `if`, `then`, `else`.
    If(Place, Boxed<Exp>, Boxed<Exp>, Boxed<Exp>),
    /// `case` and its alternatives.
    Case(Place, Boxed<Exp>, Items<Alt>),
    /// `let` and what its bindings are for.
    Let(Place, Block, Boxed<Exp>),
    /// Members in parentheses or brackets.
    Row(Place, RowKind, Items<Exp>),
    /// `[a .. b]`, with the function of the prelude that it calls.
    Range(Place, Name, Boxed<Exp>, Boxed<Exp>),
    /// A list comprehension.
    Comp(Place, Quals),
}

/// The qualifiers of a comprehension, and its head as the last.
#[cycle(expressions)]
#[derive(Drop)]
pub enum Quals {
    Head(Boxed<Exp>),
    /// A condition.
    Test(Boxed<Exp>, Boxed<Quals>),
    /// A generator, with the function of the prelude that it calls.
    From(Name, Pat, Boxed<Exp>, Boxed<Quals>),
    /// Local bindings.
    Bind(Block, Boxed<Quals>),
}

/// An equation of a function, an alternative of a `case`, or what a plain name stands for, which has no patterns. Its place
/// is that of its first token.
#[cycle(expressions)]
#[derive(Drop)]
pub struct Alt {
    pub place: Place,
    pub pats: Items<Pat>,
    pub rhs: Rhs,
}

/// A right side, with the bindings behind its `where`.
#[cycle(expressions)]
#[derive(Drop)]
pub enum Rhs {
    Plain(Boxed<Exp>, Block),
    /// The place is that of the first bar.
    Guarded(Place, Items<Guard>, Block),
}

/// A condition, and what it guards.
#[cycle(expressions)]
#[derive(Drop)]
pub struct Guard {
    pub test: Exp,
    pub body: Exp,
}

/// Bindings in the order of the text, signatures, and the values among the bindings in the order of their evaluation, each
/// by its place among the bindings.
#[cycle(expressions)]
#[derive(Drop)]
pub struct Block {
    pub members: Items<Member>,
    pub signatures: Items<Signature>,
    pub order: Numbers,
}

/// A local binding.
#[cycle(expressions)]
#[derive(Drop)]
pub enum Member {
    /// A function with its equations, or a plain name with the one that it has; the place is that of the name in the first
    /// equation, and the number that of the name.
    Named(Place, u32, Items<Alt>),
    /// A pattern and what it is matched against; the place is that of the binding's first token.
    Matched(Place, Pat, Rhs),
}

/// A name that has a signature, where it stands there.
#[derive(Clone, Copy, Debug, PartialEq, Eq)]
pub struct SignedName {
    pub place: Place,
    pub name: Name,
}

/// Names and their type.
#[derive(Drop)]
pub struct Signature {
    pub names: Items<SignedName>,
    pub ty: Type,
}
