//! The first place where a rule on names is broken.

ghost use Rattle.std.specs.Prelude.{◌≡◌};
ghost use Rattle.hdc_written.specs.Breaches as spec;

use hdc_base::At;

/// A place where the rule of this number, from 1 to 12, is broken.
#[derive(Clone, Copy, Debug, PartialEq, Eq)]
pub struct Breach {
    pub rule: u8,
    pub at: At,
}

/// The first of the breaches that were found so far: the one at the least place, and at one place the one of the
/// lowest rule.
#[derive(Clone, Copy, Debug, PartialEq, Eq)]
pub struct Found {
    pub breach: Option<Breach>,
}

impl Found {
    /// Nothing was found.
    pub fn nothing() -> Found
        ensures { result ≡ spec.nothing_found }
    {
        Found { breach: None }
    }

    /// One more breach.
    pub fn note(&mut self, rule: u8, at: At)
        ensures { self.new ≡ spec.noted self.old (spec.breach rule at) }
    {
        let breach = Breach { rule, at };
        let first = match self.breach {
            Some(before) if !comes_before(breach, before) => before,
            _ => breach,
        };
        self.breach = Some(first);
    }

    /// The first of what was found here and there.
    pub fn join(mut self, other: Found) -> Found
        ensures { result ≡ spec.joined self other }
    {
        if let Some(breach) = other.breach {
            self.note(breach.rule, breach.at);
        }
        self
    }
}

// Whether a breach comes before another.
fn comes_before(first: Breach, second: Breach) -> bool
    ensures { result ≡ spec.comes_before first second }
{
    if first.at.line != second.at.line {
        first.at.line < second.at.line
    } else if first.at.col != second.at.col {
        first.at.col < second.at.col
    } else {
        first.rule < second.rule
    }
}
