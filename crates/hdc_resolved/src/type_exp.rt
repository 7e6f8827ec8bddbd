//! Types as they are used in signatures, and the meanings of synonyms.

use sqlite_items::{Boxed, Items};

/// A type whose names are resolved, and in which synonyms stand as they are written.
#[cycle(types)]
#[derive(Drop)]
pub enum Type {
    Int,
    Char,
    List(Boxed<Type>),
    /// A tuple; without members it is the unit.
    Tuple(Items<Type>),
    /// The type of the argument, and that of the result.
    Fun(Boxed<Type>, Boxed<Type>),
    /// A data type, by its number, and its arguments.
    Data(u32, Items<Type>),
    /// A synonym, by its number, and its arguments.
    Synonym(u32, Items<Type>),
    /// A variable, by its number: of a synonym, its place in the head; of a signature, its place in the order in which its
    /// variables are first met.
    Var(u32),
    /// A name that stands for nothing, and its arguments; the rules on names refuse it.
    Unknown(Items<Type>),
}
