//! The variables of patterns.

ghost use Rattle.std.specs.Prelude.{◌≡◌, ◌++◌, OnOk};
ghost use Rattle.hdc_written.specs.Mirror as mirror;
ghost use Rattle.hdc_written.specs.Written as written;

use crate::names::Names;
use hdc_tree::{Apat, CommaPat, ConsPat, LeftPat, Pat};
use std::alloc::AllocError;

/// The variables of a pattern.
#[cycle(add_patterns)]
#[tactic(auto, using(crate::proofs::Listing::in_order, hdc_written::proofs::PatternMirror::mirrored_patterns))]
pub(crate) fn add_pat<'t>(names: &mut Names<'t>, part: &'t Pat) -> Result<(), AllocError>
    ensures { OnOk result (names.new ≡ names.old ++ written.variables (mirror.pat_of part.now)) }
{
    add_left_pat(names, &part.first)?;
    add_cons_pats(names, part.rest.as_slice())
}

#[cycle(add_patterns)]
#[tactic(auto, using(crate::proofs::Listing::in_order, hdc_written::proofs::PatternMirror::mirrored_patterns))]
fn add_apat<'t>(names: &mut Names<'t>, part: &'t Apat) -> Result<(), AllocError>
    ensures { OnOk result (names.new ≡ names.old ++ written.variables (mirror.apat_of part.now)) }
{
    match part {
        Apat::Var(name) => names.push(name),
        Apat::As(name, _at, inner) => {
            names.push(name)?;
            add_apat(names, inner.get())
        }
        Apat::Wildcard(_at) => Ok(()),
        Apat::Con(_name) => Ok(()),
        Apat::Literal(_at, _literal) => Ok(()),
        Apat::Unit(_open_at, _close_at) => Ok(()),
        Apat::Nil(_open_at, _close_at) => Ok(()),
        Apat::Paren(_open_at, inner, _close_at) => add_pat(names, inner.get()),
        Apat::Tuple(_open_at, first, rest, _close_at) => {
            add_pat(names, first.get())?;
            add_comma_pats(names, rest.as_slice())
        }
        Apat::List(_open_at, first, rest, _close_at) => {
            add_pat(names, first.get())?;
            add_comma_pats(names, rest.as_slice())
        }
    }
}

#[cycle(add_patterns)]
#[tactic(auto, using(crate::proofs::Listing::in_order, hdc_written::proofs::PatternMirror::mirrored_patterns))]
fn add_left_pat<'t>(names: &mut Names<'t>, part: &'t LeftPat) -> Result<(), AllocError>
    ensures { OnOk result (names.new ≡ names.old ++ written.variables (mirror.left_pat_of part.now)) }
{
    match part {
        LeftPat::Plain(inner) => add_apat(names, inner),
        LeftPat::Applied(_name, first, rest) => {
            add_apat(names, first)?;
            add_apats(names, rest.as_slice())
        }
        LeftPat::Negative(_at, _number_at, _number) => Ok(()),
    }
}

#[cycle(add_patterns)]
#[tactic(auto, using(crate::proofs::Listing::in_order, hdc_written::proofs::PatternMirror::mirrored_patterns))]
fn add_apats<'t>(names: &mut Names<'t>, parts: &'t [Apat]) -> Result<(), AllocError>
    ensures { OnOk result (names.new ≡ names.old ++ written.all_variables (mirror.each_pattern mirror.apat_of parts.now)) }
{
    for part in parts {
        add_apat(names, part)?;
    }
    Ok(())
}

#[cycle(add_patterns)]
#[tactic(auto, using(crate::proofs::Listing::in_order, hdc_written::proofs::PatternMirror::mirrored_patterns))]
fn add_comma_pats<'t>(names: &mut Names<'t>, parts: &'t [CommaPat]) -> Result<(), AllocError>
    ensures { OnOk result (names.new ≡ names.old ++ written.all_variables (mirror.each_pattern mirror.comma_pat_of parts.now)) }
{
    for part in parts {
        add_pat(names, &part.pat)?;
    }
    Ok(())
}

#[cycle(add_patterns)]
#[tactic(auto, using(crate::proofs::Listing::in_order, hdc_written::proofs::PatternMirror::mirrored_patterns))]
fn add_cons_pats<'t>(names: &mut Names<'t>, parts: &'t [ConsPat]) -> Result<(), AllocError>
    ensures { OnOk result (names.new ≡ names.old ++ written.all_variables (mirror.each_pattern mirror.cons_pat_of parts.now)) }
{
    for part in parts {
        add_left_pat(names, &part.pat)?;
    }
    Ok(())
}
