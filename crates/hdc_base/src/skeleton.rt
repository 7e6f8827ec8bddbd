//! Skeletons.

/// The kind of a skeleton.
#[derive(Clone, Copy, Debug, PartialEq, Eq)]
pub enum SkelKind {
    Gen,
    Deg,
    Depth,
    Elem,
}
