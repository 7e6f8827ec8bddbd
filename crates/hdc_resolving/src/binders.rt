//! The names that patterns and declarations bind come into scope.

ghost use Rattle.std.specs.Prelude.{◌≡◌, [], ◌∷◌, OnOk};
ghost use Rattle.hdc_written.specs.Mirror as mirror;
ghost use Rattle.hdc_resolving.specs.Numbering as spec;
ghost use Rattle.hdc_written.specs.Written as written;

use crate::walk::Walk;
use hdc_tree::{Apat, Block, CommaPat, ConsPat, Decl, Head, LeftPat, NextDecl, Pat, Where};
use hdc_written::head_name;
use std::alloc::AllocError;

#[cycle(enter_patterns)]
#[tactic(auto, using(crate::proofs::Entering::in_order, hdc_written::proofs::PatternMirror::mirrored_patterns))]
fn enter_apat<'t>(walk: &mut Walk<'t>, part: &'t Apat) -> Result<(), AllocError>
    ensures { OnOk result (walk.new ≡ spec.entered (written.variables (mirror.apat_of part.now)) walk.old) }
{
    match part {
        Apat::Var(name) => walk.enter(name),
        Apat::As(name, _at, inner) => {
            walk.enter(name)?;
            enter_apat(walk, inner.get())
        }
        Apat::Wildcard(_at) => Ok(()),
        Apat::Con(_name) => Ok(()),
        Apat::Literal(_at, _literal) => Ok(()),
        Apat::Unit(_open_at, _close_at) => Ok(()),
        Apat::Nil(_open_at, _close_at) => Ok(()),
        Apat::Paren(_open_at, inner, _close_at) => enter_pat(walk, inner.get()),
        Apat::Tuple(_open_at, first, rest, _close_at) => {
            enter_pat(walk, first.get())?;
            enter_comma_pats(walk, rest.as_slice())
        }
        Apat::List(_open_at, first, rest, _close_at) => {
            enter_pat(walk, first.get())?;
            enter_comma_pats(walk, rest.as_slice())
        }
    }
}

#[cycle(enter_patterns)]
#[tactic(auto, using(crate::proofs::Entering::in_order, hdc_written::proofs::PatternMirror::mirrored_patterns))]
fn enter_left_pat<'t>(walk: &mut Walk<'t>, part: &'t LeftPat) -> Result<(), AllocError>
    ensures { OnOk result (walk.new ≡ spec.entered (written.variables (mirror.left_pat_of part.now)) walk.old) }
{
    match part {
        LeftPat::Plain(inner) => enter_apat(walk, inner),
        LeftPat::Applied(_name, first, rest) => {
            enter_apat(walk, first)?;
            enter_apats(walk, rest.as_slice())
        }
        LeftPat::Negative(_at, _number_at, _number) => Ok(()),
    }
}

/// The variables of a pattern come into scope.
#[cycle(enter_patterns)]
#[tactic(auto, using(crate::proofs::Entering::in_order, hdc_written::proofs::PatternMirror::mirrored_patterns))]
pub fn enter_pat<'t>(walk: &mut Walk<'t>, part: &'t Pat) -> Result<(), AllocError>
    ensures { OnOk result (walk.new ≡ spec.entered (written.variables (mirror.pat_of part.now)) walk.old) }
{
    enter_left_pat(walk, &part.first)?;
    enter_cons_pats(walk, part.rest.as_slice())
}

#[cycle(enter_patterns)]
#[tactic(auto, using(crate::proofs::Entering::in_order, hdc_written::proofs::PatternMirror::mirrored_patterns))]
fn enter_apats<'t>(walk: &mut Walk<'t>, parts: &'t [Apat]) -> Result<(), AllocError>
    ensures { OnOk result (walk.new ≡ spec.entered (written.all_variables (mirror.each_pattern mirror.apat_of parts.now)) walk.old) }
{
    for part in parts {
        enter_apat(walk, part)?;
    }
    Ok(())
}

#[cycle(enter_patterns)]
#[tactic(auto, using(crate::proofs::Entering::in_order, hdc_written::proofs::PatternMirror::mirrored_patterns))]
fn enter_comma_pats<'t>(walk: &mut Walk<'t>, parts: &'t [CommaPat]) -> Result<(), AllocError>
    ensures { OnOk result (walk.new ≡ spec.entered (written.all_variables (mirror.each_pattern mirror.comma_pat_of parts.now)) walk.old) }
{
    for part in parts {
        enter_pat(walk, &part.pat)?;
    }
    Ok(())
}

#[cycle(enter_patterns)]
#[tactic(auto, using(crate::proofs::Entering::in_order, hdc_written::proofs::PatternMirror::mirrored_patterns))]
fn enter_cons_pats<'t>(walk: &mut Walk<'t>, parts: &'t [ConsPat]) -> Result<(), AllocError>
    ensures { OnOk result (walk.new ≡ spec.entered (written.all_variables (mirror.each_pattern mirror.cons_pat_of parts.now)) walk.old) }
{
    for part in parts {
        enter_left_pat(walk, &part.pat)?;
    }
    Ok(())
}

/// The variables of patterns come into scope.
#[tactic(auto, using(crate::proofs::Entering::in_order, hdc_written::proofs::PatternMirror::mirrored_patterns))]
pub fn enter_params<'t>(
    walk: &mut Walk<'t>,
    first: &'t Apat,
    rest: &'t [Apat],
) -> Result<(), AllocError>
    ensures { OnOk result (walk.new ≡ spec.entered (written.all_variables (written.pattern (mirror.apat_of first.now) (mirror.each_pattern mirror.apat_of rest.now))) walk.old) }
{
    enter_apat(walk, first)?;
    enter_apats(walk, rest)
}

/// The variables of the parameters of an equation come into scope.
#[tactic(auto, using(crate::proofs::Entering::in_order, hdc_written::proofs::PatternMirror::mirrored_patterns))]
pub fn enter_head<'t>(walk: &mut Walk<'t>, head: &'t Head) -> Result<(), AllocError>
    ensures { OnOk result (walk.new ≡ spec.entered (written.all_variables (mirror.head_patterns head.now)) walk.old) }
{
    match head {
        Head::Prefix(_var, params) => enter_apats(walk, params.as_slice()),
        Head::Infix(left, _op, right) => {
            enter_apat(walk, left)?;
            enter_apat(walk, right)
        }
        Head::Paren(_open_at, left, _op, right, _close_at, first, rest) => {
            enter_apat(walk, left)?;
            enter_apat(walk, right)?;
            enter_params(walk, first, rest.as_slice())
        }
    }
}

#[tactic(auto, using(crate::proofs::Entering::in_order, hdc_written::proofs::ExpressionMirror::mirrored_expressions))]
fn enter_decl<'t>(walk: &mut Walk<'t>, part: &'t Decl) -> Result<(), AllocError>
    ensures { OnOk result (walk.new ≡ spec.entered (written.bound (mirror.decl_of part.now)) walk.old) }
{
    match part {
        Decl::Empty => Ok(()),
        Decl::Signature(_var, _rest, _at, _signature) => Ok(()),
        Decl::Equation(head, _rhs) => walk.enter(head_name(head)),
        Decl::Binding(pat, _rhs) => enter_pat(walk, pat),
    }
}

#[tactic(auto, using(crate::proofs::Entering::in_order, hdc_written::proofs::ExpressionMirror::mirrored_expressions))]
fn enter_decls<'t>(walk: &mut Walk<'t>, parts: &'t [NextDecl]) -> Result<(), AllocError>
    ensures { OnOk result (walk.new ≡ spec.entered (written.all_bound (mirror.each_declaration mirror.next_decl_of parts.now)) walk.old) }
{
    for part in parts {
        enter_decl(walk, &part.decl)?;
    }
    Ok(())
}

/// What declarations bind comes into scope.
#[tactic(auto, using(crate::proofs::Entering::in_order, hdc_written::proofs::ExpressionMirror::mirrored_expressions))]
pub fn enter_block<'t>(walk: &mut Walk<'t>, part: &'t Block) -> Result<(), AllocError>
    ensures { OnOk result (walk.new ≡ spec.entered (written.all_bound (mirror.block_of part.now)) walk.old) }
{
    enter_decl(walk, part.first.get())?;
    enter_decls(walk, part.rest.as_slice())
}

/// What the declarations behind `where` bind comes into scope.
#[tactic(auto, using(crate::proofs::Entering::in_order, hdc_written::proofs::ExpressionMirror::mirrored_expressions))]
pub fn enter_where<'t>(walk: &mut Walk<'t>, part: &'t Where) -> Result<(), AllocError>
    ensures { OnOk result (walk.new ≡ spec.entered (written.all_bound (mirror.where_of part.now)) walk.old) }
{
    match part {
        Where::Absent => Ok(()),
        Where::Present(_at, block) => enter_block(walk, block),
    }
}
