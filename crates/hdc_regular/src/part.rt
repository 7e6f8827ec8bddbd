//! Types whose names are resolved.

use hdc_base::At;
use sqlite_items::Items;

/// A type whose names are resolved.
#[derive(Drop)]
pub(crate) enum Part {
    /// A variable of the head, by its place there.
    Parameter(u32),
    /// What the declaration with this number declares, used at this place with these arguments.
    Use(u32, At, Items<Part>),
    /// A type of another kind, and its parts.
    Other(Items<Part>),
}
