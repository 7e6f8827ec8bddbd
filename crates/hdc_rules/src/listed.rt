//! What is broken in lists of names.

ghost use Rattle.std.specs.Prelude.{◌≡◌, [], OnOk, is_some};
ghost use Rattle.hdc_written.specs.Breaches.{all_noted};
ghost use Rattle.hdc_written.specs.Scopes.{standing_for};
ghost use Rattle.hdc_rules.specs.Bindings.{bound_breaches};
ghost use Rattle.hdc_rules.specs.Known.{skeletons};
ghost use Rattle.hdc_rules.specs.Names.{where_so, where_not, repeated, bound_skeletons, is_skeleton, not_among, each_breach};

use crate::names::{NameSet, Names};
use hdc_base::At;
use hdc_tree::Name;
use hdc_written::Found;
use std::alloc::{AllocError, Global};

/// Each of the names is bound once, no skeleton's name is bound, and what is signed is bound, and signed once.
#[tactic(auto, using(hdc_written::proofs::FirstBreach::in_order))]
pub(crate) fn note_bound(
    alloc: Global,
    found: &mut Found,
    bound: &Names,
    signed: &Names,
) -> Result<(), AllocError>
    ensures { OnOk result (found.new ≡ all_noted found.old (bound_breaches bound.now signed.now)) }
{
    note_repeated(alloc, found, 2, bound)?;
    note_skeletons(found, bound);
    note_missing(alloc, found, 5, bound, signed)?;
    note_repeated(alloc, found, 5, signed)
}

/// Each name that stands before it in the list too breaks the rule.
pub(crate) fn note_repeated(
    alloc: Global,
    found: &mut Found,
    rule: u8,
    names: &Names,
) -> Result<(), AllocError>
    ensures { OnOk result (found.new ≡ all_noted found.old (repeated rule [] names.now)) }
{
    let mut seen = NameSet::new(alloc);
    for name in names.as_slice() {
        note_where(found, seen.contains(name), rule, name.at);
        seen.add(name)?;
    }
    Ok(())
}

/// No skeleton's name is bound.
pub(crate) fn note_skeletons(found: &mut Found, names: &Names)
    ensures { found.new ≡ all_noted found.old (bound_skeletons names.now) }
{
    for name in names.as_slice() {
        note_skeleton(found, name);
    }
}

/// The name is no skeleton's.
pub(crate) fn note_skeleton(found: &mut Found, name: &Name)
    ensures { found.new ≡ all_noted found.old (is_skeleton (standing_for name.now.text skeletons) name.now.at) }
{
    if names_skeleton(name.text.as_slice()) {
        found.note(2, name.at);
    }
}

/// Each name that is none of those that are bound breaks the rule.
pub(crate) fn note_missing(
    alloc: Global,
    found: &mut Found,
    rule: u8,
    bound: &Names,
    names: &Names,
) -> Result<(), AllocError>
    ensures { OnOk result (found.new ≡ all_noted found.old (not_among rule bound.now names.now)) }
{
    let bound = NameSet::of(alloc, bound)?;
    note_outside(found, rule, &bound, names);
    Ok(())
}

/// Each name that is none of these breaks the rule.
pub(crate) fn note_outside(found: &mut Found, rule: u8, bound: &NameSet, names: &Names)
    ensures { found.new ≡ all_noted found.old (not_among rule bound.now names.now) }
{
    for name in names.as_slice() {
        note_unless(found, bound.contains(name), rule, name.at);
    }
}

/// Each of the names breaks the rule.
pub(crate) fn note_each(found: &mut Found, rule: u8, names: &Names)
    ensures { found.new ≡ all_noted found.old (each_breach rule names.now) }
{
    for name in names.as_slice() {
        found.note(rule, name.at);
    }
}

fn note_where(found: &mut Found, broken: bool, rule: u8, at: At)
    ensures { found.new ≡ all_noted found.old (where_so broken rule at) }
{
    if broken {
        found.note(rule, at);
    }
}

fn note_unless(found: &mut Found, kept: bool, rule: u8, at: At)
    ensures { found.new ≡ all_noted found.old (where_not kept rule at) }
{
    if !kept {
        found.note(rule, at);
    }
}

const GENERATION: &[u8] = b"dcGen";

const DEGREE: &[u8] = b"dcDeg";

const DEPTH: &[u8] = b"dcDepth";

const ELEMENT: &[u8] = b"dcElem";

// Whether a text is the name of a skeleton.
fn names_skeleton(text: &[u8]) -> bool
    ensures { result ≡ is_some (standing_for text.now skeletons) }
{
    text == GENERATION || text == DEGREE || text == DEPTH || text == ELEMENT
}
