//! The first places that were found.

ghost use Rattle.std.specs.Prelude.{◌≡◌};
ghost use Rattle.hdc_names.specs.Sites.{node};
ghost use Rattle.hdc_names.specs.Trees as spec;

use hdc_base::At;

/// The depth of a node that is too deep.
const TOO_DEEP: u64 = 1025;

/// The first place where a chain or section has no tree, and the first of a node that is too deep.
#[derive(Clone, Copy, Debug, PartialEq, Eq)]
pub(crate) struct Found {
    pub(crate) fault: Option<At>,
    pub(crate) deep: Option<At>,
}

impl Found {
    /// Nothing was found.
    pub(crate) fn nothing() -> Found
        ensures { result ≡ spec.nothing_found }
    {
        Found {
            fault: None,
            deep: None,
        }
    }

    /// A chain or section that may have no tree.
    pub(crate) fn note_fault(&mut self, fault: Option<At>)
        ensures { self.new ≡ record { fault = spec.noted self.old.fault fault; deep = self.old.deep } }
    {
        self.fault = earlier(self.fault, fault);
    }

    /// A node of this depth.
    pub(crate) fn note_node(&mut self, depth: u64, at: At)
        ensures { self.new ≡ spec.found_with self.old (node depth at) }
    {
        let deep = if depth == TOO_DEEP { Some(at) } else { None };
        self.deep = earlier(self.deep, deep);
    }
}

// The first of two places.
fn earlier(found: Option<At>, other: Option<At>) -> Option<At>
    ensures { result ≡ spec.noted found other }
{
    match (found, other) {
        (before, None) => before,
        (None, Some(at)) => Some(at),
        (Some(before), Some(at)) => Some(if is_before(at, before) { at } else { before }),
    }
}

// Whether a place is before another in a text.
fn is_before(first: At, second: At) -> bool
    ensures { result ≡ spec.is_before first second }
{
    first.line < second.line || first.line == second.line && first.col < second.col
}
