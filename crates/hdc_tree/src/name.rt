//! Names and literals, with the places of their tokens.

use hdc_base::{At, Runes, Text};

/// A name of letters or of symbols, with its place.
#[derive(Drop)]
pub struct Name {
    pub at: At,
    pub text: Text,
}

/// A variable.
#[derive(Drop)]
pub enum Var {
    /// A name that begins with a small letter or `_`.
    Plain(Name),
    /// `(`, a name of symbols, `)`.
    Operator(At, Name, At),
}

/// An operator that is a variable.
#[derive(Drop)]
pub enum VarOp {
    /// A name of symbols.
    Symbol(Name),
    /// A name that begins with a small letter or `_`, in backquotes.
    Quoted(At, Name, At),
}

/// An operator.
#[derive(Drop)]
pub enum Op {
    /// A variable.
    Var(VarOp),
    /// `:`
    Cons(At),
    /// A constructor in backquotes.
    Con(At, Name, At),
}

/// A literal.
#[derive(Drop)]
pub enum Literal {
    /// A number.
    Num(u64),
    /// A character, by its code.
    Chr(u32),
    /// A string, by the codes of its characters.
    Str(Runes),
}

/// A `-` before an operand, with its place, or nothing.
#[derive(Clone, Copy, Debug, PartialEq, Eq)]
pub enum Sign {
    Absent,
    Minus(At),
}

/// `,` and a variable.
#[derive(Drop)]
pub struct CommaVar {
    pub comma: At,
    pub var: Var,
}
