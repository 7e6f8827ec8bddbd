//! The nodes of patterns.

ghost use Rattle.std.specs.Prelude.{◌≡◌, OnOk, IfOk};
ghost use Rattle.hdc_written.specs.Mirror as mirror;
ghost use Rattle.hdc_names.specs.Sites as spec;
ghost use Rattle.hdc_names.specs.Trees.{all_found};
ghost use Rattle.hdc_written.specs.Written.{pattern};

use crate::depth::deeper;
use crate::found::Found;
use hdc_base::At;
use hdc_tree::{Apat, CommaPat, ConsPat, Head, LeftPat, Pat};
use hdc_written::first_of_left_pat;
use std::alloc::AllocError;

/// What begins at a place and is joined with another one, if one follows, stands below a node; its depth.
pub(crate) fn note_joined(
    found: &mut Found,
    depth: u64,
    at: At,
    follows: bool,
) -> Result<u64, AllocError>
    ensures noted { OnOk result (found.new ≡ all_found found.old (spec.joined depth at follows)) }
    ensures depth { IfOk result (λ d. d ≡ spec.below depth follows) }
{
    if follows {
        found.note_node(depth, at);
        return deeper(depth);
    }
    Ok(depth)
}

fn follow(parts: &[ConsPat]) -> bool
    ensures { result ≡ spec.follow (mirror.each_pattern mirror.cons_pat_of parts.now) }
{
    match parts {
        [] => false,
        [_first, ..] => true,
    }
}

#[cycle(note_patterns)]
#[tactic(auto, using(crate::proofs::Noting::in_order, hdc_written::proofs::PatternMirror::mirrored_patterns))]
fn note_apat(found: &mut Found, depth: u64, part: &Apat) -> Result<(), AllocError>
    ensures { OnOk result (found.new ≡ all_found found.old (spec.pattern_nodes depth (mirror.apat_of part.now))) }
{
    match part {
        Apat::Var(name) => {
            found.note_node(depth, name.at);
            Ok(())
        }
        Apat::As(name, _at, inner) => {
            found.note_node(depth, name.at);
            note_apat(found, deeper(depth)?, inner.get())
        }
        Apat::Wildcard(at) => {
            found.note_node(depth, *at);
            Ok(())
        }
        Apat::Con(name) => {
            found.note_node(depth, name.at);
            Ok(())
        }
        Apat::Literal(at, _literal) => {
            found.note_node(depth, *at);
            Ok(())
        }
        Apat::Unit(open_at, _close_at) => {
            found.note_node(depth, *open_at);
            Ok(())
        }
        Apat::Nil(open_at, _close_at) => {
            found.note_node(depth, *open_at);
            Ok(())
        }
        Apat::Paren(_open_at, inner, _close_at) => note_pat(found, depth, inner.get()),
        Apat::Tuple(open_at, first, rest, _close_at) => {
            found.note_node(depth, *open_at);
            let inner = deeper(depth)?;
            note_pat(found, inner, first.get())?;
            note_comma_pats(found, inner, rest.as_slice())
        }
        Apat::List(open_at, first, rest, _close_at) => {
            found.note_node(depth, *open_at);
            let inner = deeper(depth)?;
            note_pat(found, inner, first.get())?;
            note_comma_pats(found, inner, rest.as_slice())
        }
    }
}

#[cycle(note_patterns)]
#[tactic(auto, using(crate::proofs::Noting::in_order, hdc_written::proofs::PatternMirror::mirrored_patterns))]
fn note_left_pat(found: &mut Found, depth: u64, part: &LeftPat) -> Result<(), AllocError>
    ensures { OnOk result (found.new ≡ all_found found.old (spec.pattern_nodes depth (mirror.left_pat_of part.now))) }
{
    match part {
        LeftPat::Plain(inner) => note_apat(found, depth, inner),
        LeftPat::Applied(name, first, rest) => {
            found.note_node(depth, name.at);
            let inner = deeper(depth)?;
            note_apat(found, inner, first)?;
            note_apats(found, inner, rest.as_slice())
        }
        LeftPat::Negative(at, _number_at, _number) => {
            found.note_node(depth, *at);
            Ok(())
        }
    }
}

/// The nodes of a pattern of this depth.
#[cycle(note_patterns)]
#[tactic(auto, using(crate::proofs::Noting::in_order, hdc_written::proofs::PatternMirror::mirrored_patterns))]
pub(crate) fn note_pat(found: &mut Found, depth: u64, part: &Pat) -> Result<(), AllocError>
    ensures { OnOk result (found.new ≡ all_found found.old (spec.pattern_nodes depth (mirror.pat_of part.now))) }
{
    let follows = follow(part.rest.as_slice());
    let inner = note_joined(found, depth, first_of_left_pat(&part.first), follows)?;
    note_left_pat(found, inner, &part.first)?;
    note_cons_pats(found, deeper(depth)?, part.rest.as_slice())
}

#[cycle(note_patterns)]
#[tactic(auto, using(crate::proofs::Noting::in_order, hdc_written::proofs::PatternMirror::mirrored_patterns))]
fn note_apats(found: &mut Found, depth: u64, parts: &[Apat]) -> Result<(), AllocError>
    ensures { OnOk result (found.new ≡ all_found found.old (spec.each_pattern_nodes depth (mirror.each_pattern mirror.apat_of parts.now))) }
{
    for part in parts {
        note_apat(found, depth, part)?;
    }
    Ok(())
}

#[cycle(note_patterns)]
#[tactic(auto, using(crate::proofs::Noting::in_order, hdc_written::proofs::PatternMirror::mirrored_patterns))]
fn note_comma_pats(found: &mut Found, depth: u64, parts: &[CommaPat]) -> Result<(), AllocError>
    ensures { OnOk result (found.new ≡ all_found found.old (spec.each_pattern_nodes depth (mirror.each_pattern mirror.comma_pat_of parts.now))) }
{
    for part in parts {
        note_pat(found, depth, &part.pat)?;
    }
    Ok(())
}

#[cycle(note_patterns)]
#[tactic(auto, using(crate::proofs::Noting::in_order, hdc_written::proofs::PatternMirror::mirrored_patterns))]
fn note_cons_pats(found: &mut Found, depth: u64, parts: &[ConsPat]) -> Result<(), AllocError>
    ensures { OnOk result (found.new ≡ all_found found.old (spec.cons_nodes depth (mirror.each_pattern mirror.cons_pat_of parts.now))) }
{
    let mut depth = depth;
    for index in 0..parts.len() {
        let left = &parts[index].pat;
        let follows = follow(&parts[index + 1..]);
        let inner = note_joined(found, depth, first_of_left_pat(left), follows)?;
        note_left_pat(found, inner, left)?;
        depth = deeper(depth)?;
    }
    Ok(())
}

/// The nodes of parameters.
#[tactic(auto, using(crate::proofs::Noting::in_order, hdc_written::proofs::PatternMirror::mirrored_patterns))]
pub(crate) fn note_params(found: &mut Found, first: &Apat, rest: &[Apat]) -> Result<(), AllocError>
    ensures { OnOk result (found.new ≡ all_found found.old (spec.each_pattern_nodes 1 (pattern (mirror.apat_of first.now) (mirror.each_pattern mirror.apat_of rest.now)))) }
{
    note_apat(found, 1, first)?;
    note_apats(found, 1, rest)
}

/// The nodes of the parameters of an equation.
#[tactic(auto, using(crate::proofs::Noting::in_order, hdc_written::proofs::PatternMirror::mirrored_patterns))]
pub(crate) fn note_head(found: &mut Found, head: &Head) -> Result<(), AllocError>
    ensures { OnOk result (found.new ≡ all_found found.old (spec.each_pattern_nodes 1 (mirror.head_patterns head.now))) }
{
    match head {
        Head::Prefix(_var, params) => note_apats(found, 1, params.as_slice()),
        Head::Infix(left, _op, right) => {
            note_apat(found, 1, left)?;
            note_apat(found, 1, right)
        }
        Head::Paren(_open_at, left, _op, right, _close_at, first, rest) => {
            note_apat(found, 1, left)?;
            note_apat(found, 1, right)?;
            note_params(found, first, rest.as_slice())
        }
    }
}
