//! What is known of the meaning of a synonym.

ghost use Rattle.std.specs.Prelude.{◌≡◌};
ghost use Rattle.hdc_regular.specs.Building as spec;

use sqlite_items::Items;

/// What is known of the meaning of a synonym with its synonyms expanded.
#[derive(Drop)]
pub(crate) struct Outline {
    /// The variable that it is, if it is one.
    pub(crate) alias: Option<u32>,
    /// Which variables it holds; it holds none behind these.
    pub(crate) holds: Items<bool>,
}

/// The variable that a meaning is, if it is one.
pub(crate) fn alias_at(outlines: &[Outline], number: u32) -> Option<u32>
    ensures { result ≡ (spec.outline_at outlines.now number).alias }
{
    match outlines.get(number as usize) {
        Some(outline) => outline.alias,
        None => None,
    }
}

/// Whether a meaning holds a variable.
pub(crate) fn is_held_at(outlines: &[Outline], number: u32, place: usize) -> bool
    ensures { result ≡ spec.is_held (spec.outline_at outlines.now number).holds place }
{
    match outlines.get(number as usize) {
        Some(outline) => flag(outline.holds.as_slice(), place),
        None => false,
    }
}

/// A flag at a place; behind the last one it is not set.
pub(crate) fn flag(flags: &[bool], place: usize) -> bool
    ensures { result ≡ spec.is_held flags.now place }
{
    match flags.get(place) {
        Some(flag) => *flag,
        None => false,
    }
}
