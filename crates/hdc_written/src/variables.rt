//! The variables of patterns, as events.

ghost use Rattle.std.specs.Prelude.{◌≡◌, ◌++◌, OnOk, IfOk};
ghost use Rattle.hdc_written.specs.Events as spec;
ghost use Rattle.hdc_written.specs.Mirror as mirror;
ghost use Rattle.hdc_written.specs.Recorded.{recorded};
ghost use Rattle.hdc_written.specs.Written as written;

use crate::events::{Event, Events};
use hdc_tree::{Apat, CommaPat, ConsPat, Head, LeftPat, Pat};
use std::alloc::{AllocError, Global};

/// The variables of a pattern, each as it comes into scope. Memory may be wanting.
#[tactic(auto, using(crate::proofs::Listing::in_order, crate::proofs::PatternMirror::mirrored_patterns))]
pub fn variable_events<'t>(alloc: Global, pat: &'t Pat) -> Result<Events<'t>, AllocError>
    ensures { IfOk result (λ events. recorded events ≡ spec.each_introduced (written.variables (mirror.pat_of pat.now))) }
{
    let mut events = Events::new(alloc);
    introduce_pat(&mut events, pat)?;
    Ok(events)
}

#[cycle(introduce_patterns)]
#[tactic(auto, using(crate::proofs::Listing::in_order, crate::proofs::PatternMirror::mirrored_patterns))]
fn introduce_apat<'t>(events: &mut Events<'t>, part: &'t Apat) -> Result<(), AllocError>
    ensures { OnOk result (recorded events.new ≡ recorded events.old ++ spec.each_introduced (written.variables (mirror.apat_of part.now))) }
{
    match part {
        Apat::Var(name) => events.push(Event::Introduced(name)),
        Apat::As(name, _at, inner) => {
            events.push(Event::Introduced(name))?;
            introduce_apat(events, inner.get())
        }
        Apat::Wildcard(_at) => Ok(()),
        Apat::Con(_name) => Ok(()),
        Apat::Literal(_at, _literal) => Ok(()),
        Apat::Unit(_open_at, _close_at) => Ok(()),
        Apat::Nil(_open_at, _close_at) => Ok(()),
        Apat::Paren(_open_at, inner, _close_at) => introduce_pat(events, inner.get()),
        Apat::Tuple(_open_at, first, rest, _close_at) => {
            introduce_pat(events, first.get())?;
            introduce_comma_pats(events, rest.as_slice())
        }
        Apat::List(_open_at, first, rest, _close_at) => {
            introduce_pat(events, first.get())?;
            introduce_comma_pats(events, rest.as_slice())
        }
    }
}

#[cycle(introduce_patterns)]
#[tactic(auto, using(crate::proofs::Listing::in_order, crate::proofs::PatternMirror::mirrored_patterns))]
fn introduce_left_pat<'t>(events: &mut Events<'t>, part: &'t LeftPat) -> Result<(), AllocError>
    ensures { OnOk result (recorded events.new ≡ recorded events.old ++ spec.each_introduced (written.variables (mirror.left_pat_of part.now))) }
{
    match part {
        LeftPat::Plain(inner) => introduce_apat(events, inner),
        LeftPat::Applied(_name, first, rest) => {
            introduce_apat(events, first)?;
            introduce_apats(events, rest.as_slice())
        }
        LeftPat::Negative(_at, _number_at, _number) => Ok(()),
    }
}

/// The variables of a pattern.
#[cycle(introduce_patterns)]
#[tactic(auto, using(crate::proofs::Listing::in_order, crate::proofs::PatternMirror::mirrored_patterns))]
pub(crate) fn introduce_pat<'t>(events: &mut Events<'t>, part: &'t Pat) -> Result<(), AllocError>
    ensures { OnOk result (recorded events.new ≡ recorded events.old ++ spec.each_introduced (written.variables (mirror.pat_of part.now))) }
{
    introduce_left_pat(events, &part.first)?;
    introduce_cons_pats(events, part.rest.as_slice())
}

#[cycle(introduce_patterns)]
#[tactic(auto, using(crate::proofs::Listing::in_order, crate::proofs::PatternMirror::mirrored_patterns))]
fn introduce_apats<'t>(events: &mut Events<'t>, parts: &'t [Apat]) -> Result<(), AllocError>
    ensures { OnOk result (recorded events.new ≡ recorded events.old ++ spec.each_introduced (written.all_variables (mirror.each_pattern mirror.apat_of parts.now))) }
{
    for part in parts {
        introduce_apat(events, part)?;
    }
    Ok(())
}

#[cycle(introduce_patterns)]
#[tactic(auto, using(crate::proofs::Listing::in_order, crate::proofs::PatternMirror::mirrored_patterns))]
fn introduce_comma_pats<'t>(
    events: &mut Events<'t>,
    parts: &'t [CommaPat],
) -> Result<(), AllocError>
    ensures { OnOk result (recorded events.new ≡ recorded events.old ++ spec.each_introduced (written.all_variables (mirror.each_pattern mirror.comma_pat_of parts.now))) }
{
    for part in parts {
        introduce_pat(events, &part.pat)?;
    }
    Ok(())
}

#[cycle(introduce_patterns)]
#[tactic(auto, using(crate::proofs::Listing::in_order, crate::proofs::PatternMirror::mirrored_patterns))]
fn introduce_cons_pats<'t>(events: &mut Events<'t>, parts: &'t [ConsPat]) -> Result<(), AllocError>
    ensures { OnOk result (recorded events.new ≡ recorded events.old ++ spec.each_introduced (written.all_variables (mirror.each_pattern mirror.cons_pat_of parts.now))) }
{
    for part in parts {
        introduce_left_pat(events, &part.pat)?;
    }
    Ok(())
}

/// The variables of patterns.
#[tactic(auto, using(crate::proofs::Listing::in_order, crate::proofs::PatternMirror::mirrored_patterns))]
pub(crate) fn introduce_params<'t>(
    events: &mut Events<'t>,
    first: &'t Apat,
    rest: &'t [Apat],
) -> Result<(), AllocError>
    ensures { OnOk result (recorded events.new ≡ recorded events.old ++ spec.each_introduced (written.all_variables (written.pattern (mirror.apat_of first.now) (mirror.each_pattern mirror.apat_of rest.now)))) }
{
    introduce_apat(events, first)?;
    introduce_apats(events, rest)
}

/// The variables of the parameters of an equation.
#[tactic(auto, using(crate::proofs::Listing::in_order, crate::proofs::PatternMirror::mirrored_patterns))]
pub(crate) fn introduce_head<'t>(events: &mut Events<'t>, head: &'t Head) -> Result<(), AllocError>
    ensures { OnOk result (recorded events.new ≡ recorded events.old ++ spec.each_introduced (written.all_variables (mirror.head_patterns head.now))) }
{
    match head {
        Head::Prefix(_var, params) => introduce_apats(events, params.as_slice()),
        Head::Infix(left, _op, right) => {
            introduce_apat(events, left)?;
            introduce_apat(events, right)
        }
        Head::Paren(_open_at, left, _op, right, _close_at, first, rest) => {
            introduce_apat(events, left)?;
            introduce_apat(events, right)?;
            introduce_params(events, first, rest.as_slice())
        }
    }
}
