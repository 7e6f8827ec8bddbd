//! The constructors of patterns, as events.

ghost use Rattle.std.specs.Prelude.{◌≡◌, suc, ◌++◌, OnOk, IfOk};
ghost use Rattle.hdc_written.specs.Events as spec;
ghost use Rattle.hdc_written.specs.Mirror as mirror;
ghost use Rattle.hdc_written.specs.Recorded.{recorded};
ghost use Rattle.hdc_written.specs.Written as written;

use crate::events::{Event, Events};
use hdc_tree::{Apat, CommaPat, ConsPat, Head, LeftPat, Pat};
use std::alloc::AllocError;

#[cycle(match_patterns)]
#[tactic(auto, using(crate::proofs::Listing::in_order, crate::proofs::PatternMirror::mirrored_patterns))]
fn match_apat<'t>(events: &mut Events<'t>, part: &'t Apat) -> Result<(), AllocError>
    ensures { OnOk result (recorded events.new ≡ recorded events.old ++ spec.matches (mirror.apat_of part.now)) }
{
    match part {
        Apat::Var(_name) => Ok(()),
        Apat::As(_name, _at, inner) => match_apat(events, inner.get()),
        Apat::Wildcard(_at) => Ok(()),
        Apat::Con(name) => events.push(Event::Matched(name, 0)),
        Apat::Literal(_at, _literal) => Ok(()),
        Apat::Unit(_open_at, _close_at) => Ok(()),
        Apat::Nil(_open_at, _close_at) => Ok(()),
        Apat::Paren(_open_at, inner, _close_at) => match_pat(events, inner.get()),
        Apat::Tuple(_open_at, first, rest, _close_at) => {
            match_pat(events, first.get())?;
            match_comma_pats(events, rest.as_slice())
        }
        Apat::List(_open_at, first, rest, _close_at) => {
            match_pat(events, first.get())?;
            match_comma_pats(events, rest.as_slice())
        }
    }
}

#[cycle(match_patterns)]
#[tactic(auto, using(crate::proofs::Listing::in_order, crate::proofs::PatternMirror::mirrored_patterns))]
fn match_left_pat<'t>(events: &mut Events<'t>, part: &'t LeftPat) -> Result<(), AllocError>
    ensures { OnOk result (recorded events.new ≡ recorded events.old ++ spec.matches (mirror.left_pat_of part.now)) }
{
    match part {
        LeftPat::Plain(inner) => match_apat(events, inner),
        LeftPat::Applied(name, first, rest) => {
            events.push(Event::Matched(name, one_more(rest.as_slice())?))?;
            match_apat(events, first)?;
            match_apats(events, rest.as_slice())
        }
        LeftPat::Negative(_at, _number_at, _number) => Ok(()),
    }
}

/// The constructors of a pattern.
#[cycle(match_patterns)]
#[tactic(auto, using(crate::proofs::Listing::in_order, crate::proofs::PatternMirror::mirrored_patterns))]
pub(crate) fn match_pat<'t>(events: &mut Events<'t>, part: &'t Pat) -> Result<(), AllocError>
    ensures { OnOk result (recorded events.new ≡ recorded events.old ++ spec.matches (mirror.pat_of part.now)) }
{
    match_left_pat(events, &part.first)?;
    match_cons_pats(events, part.rest.as_slice())
}

#[cycle(match_patterns)]
#[tactic(auto, using(crate::proofs::Listing::in_order, crate::proofs::PatternMirror::mirrored_patterns))]
fn match_apats<'t>(events: &mut Events<'t>, parts: &'t [Apat]) -> Result<(), AllocError>
    ensures { OnOk result (recorded events.new ≡ recorded events.old ++ spec.each_matches (mirror.each_pattern mirror.apat_of parts.now)) }
{
    for part in parts {
        match_apat(events, part)?;
    }
    Ok(())
}

#[cycle(match_patterns)]
#[tactic(auto, using(crate::proofs::Listing::in_order, crate::proofs::PatternMirror::mirrored_patterns))]
fn match_comma_pats<'t>(events: &mut Events<'t>, parts: &'t [CommaPat]) -> Result<(), AllocError>
    ensures { OnOk result (recorded events.new ≡ recorded events.old ++ spec.each_matches (mirror.each_pattern mirror.comma_pat_of parts.now)) }
{
    for part in parts {
        match_pat(events, &part.pat)?;
    }
    Ok(())
}

#[cycle(match_patterns)]
#[tactic(auto, using(crate::proofs::Listing::in_order, crate::proofs::PatternMirror::mirrored_patterns))]
fn match_cons_pats<'t>(events: &mut Events<'t>, parts: &'t [ConsPat]) -> Result<(), AllocError>
    ensures { OnOk result (recorded events.new ≡ recorded events.old ++ spec.each_matches (mirror.each_pattern mirror.cons_pat_of parts.now)) }
{
    for part in parts {
        match_left_pat(events, &part.pat)?;
    }
    Ok(())
}

/// The constructors of patterns.
#[tactic(auto, using(crate::proofs::Listing::in_order, crate::proofs::PatternMirror::mirrored_patterns))]
pub(crate) fn match_params<'t>(
    events: &mut Events<'t>,
    first: &'t Apat,
    rest: &'t [Apat],
) -> Result<(), AllocError>
    ensures { OnOk result (recorded events.new ≡ recorded events.old ++ spec.each_matches (written.pattern (mirror.apat_of first.now) (mirror.each_pattern mirror.apat_of rest.now))) }
{
    match_apat(events, first)?;
    match_apats(events, rest)
}

/// The constructors of the parameters of an equation.
#[tactic(auto, using(crate::proofs::Listing::in_order, crate::proofs::PatternMirror::mirrored_patterns))]
pub(crate) fn match_head<'t>(events: &mut Events<'t>, head: &'t Head) -> Result<(), AllocError>
    ensures { OnOk result (recorded events.new ≡ recorded events.old ++ spec.each_matches (mirror.head_patterns head.now)) }
{
    match head {
        Head::Prefix(_var, params) => match_apats(events, params.as_slice()),
        Head::Infix(left, _op, right) => {
            match_apat(events, left)?;
            match_apat(events, right)
        }
        Head::Paren(_open_at, left, _op, right, _close_at, first, rest) => {
            match_apat(events, left)?;
            match_apat(events, right)?;
            match_params(events, first, rest.as_slice())
        }
    }
}

// How many arguments a constructor has, with one before these.
#[tactic(auto, using(crate::proofs::Listing::count_patterns_more))]
fn one_more(rest: &[Apat]) -> Result<usize, AllocError>
    ensures { IfOk result (λ count. count ≡ suc (written.count_patterns (mirror.each_pattern mirror.apat_of rest.now))) }
{
    match rest.len().checked_add(1) {
        Some(count) => Ok(count),
        None => Err(AllocError),
    }
}
