//! What the names of types stand for.

/// What the name of a type stands for.
#[derive(Clone, Copy, Debug, PartialEq, Eq)]
pub enum TypeName {
    Int,
    Char,
    /// The data type with this number: 0 is `Bool`, and behind it stand those of the text in its order, the prelude's first.
    Data(u32),
    /// The synonym with this number, from 0, in the order of the text, the prelude's first.
    Synonym(u32),
}
