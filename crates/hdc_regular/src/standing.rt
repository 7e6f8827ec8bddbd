//! What the names of types stand for.

/// What the name of a type stands for.
#[derive(Clone, Copy, Debug, PartialEq, Eq)]
pub(crate) enum Standing {
    /// The data type with this number.
    DataType(u32),
    /// The synonym with this number and so many parameters, which breaks no rule.
    Synonym(u32, usize),
    /// A synonym that is not expanded.
    NotExpanded,
}
