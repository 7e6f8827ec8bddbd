//! Patterns with numbers in place of names.

ghost use Rattle.std.specs.Prelude.{◌≡◌, ◌++◌, IfOk, OnOk, length, map};
ghost use Rattle.hdc_resolved.specs.Mirror as made;
ghost use Rattle.hdc_resolving.specs.Patterns as spec;
ghost use Rattle.hdc_written.specs.Mirror as mirror;
ghost use Rattle.hdc_written.specs.Written as written;
ghost use Rattle.hdc_written.proofs.PatternMirror.{colon_of};

use crate::known::Known;
use crate::made_pattern::{anything, built, consed, literal, named_as, negative, row, variable};
use crate::walk::Walk;
use hdc_base::At;
use hdc_resolved::{Pat, RowKind};
use hdc_tree::{Apat, CommaPat, ConsPat, Head, LeftPat, Pat as WrittenPat};
use hdc_written::first_of_left_pat;
use sqlite_items::Items;
use std::alloc::{AllocError, Global};

// Each call of the cycle goes to a part.
#[cycle(resolve_patterns)]
#[tactic(auto, using(crate::proofs::Patterns::listed, hdc_written::proofs::PatternMirror::mirrored_patterns))]
fn resolve_apat(
    alloc: Global,
    known: &Known<'_>,
    walk: &Walk<'_>,
    part: &Apat,
) -> Result<Pat, AllocError>
    ensures { IfOk result (λ p. made.pattern_of p ≡ spec.resolved_pattern (mirror.apat_of part.now) known.now walk.now.names) }
{
    match part {
        Apat::Var(name) => Ok(variable(known, walk, name)),
        Apat::As(name, _at, inner) => {
            let inner = resolve_apat(alloc, known, walk, inner.get())?;
            named_as(alloc, known, walk, name, inner)
        }
        Apat::Wildcard(at) => Ok(anything(known, *at)),
        Apat::Con(name) => Ok(built(known, name, Items::new(alloc))),
        Apat::Literal(at, value) => literal(alloc, known, *at, value),
        Apat::Unit(open_at, _close_at) => {
            Ok(row(known, *open_at, RowKind::OfTuple, Items::new(alloc)))
        }
        Apat::Nil(open_at, _close_at) => {
            Ok(row(known, *open_at, RowKind::OfList, Items::new(alloc)))
        }
        Apat::Paren(_open_at, inner, _close_at) => resolve_pat(alloc, known, walk, inner.get()),
        Apat::Tuple(open_at, first, rest, _close_at) => {
            let mut pats = Items::new(alloc);
            pats.push(resolve_pat(alloc, known, walk, first.get())?)?;
            push_comma_pats(alloc, known, walk, rest.as_slice(), &mut pats)?;
            Ok(row(known, *open_at, RowKind::OfTuple, pats))
        }
        Apat::List(open_at, first, rest, _close_at) => {
            let mut pats = Items::new(alloc);
            pats.push(resolve_pat(alloc, known, walk, first.get())?)?;
            push_comma_pats(alloc, known, walk, rest.as_slice(), &mut pats)?;
            Ok(row(known, *open_at, RowKind::OfList, pats))
        }
    }
}

#[cycle(resolve_patterns)]
#[tactic(auto, using(crate::proofs::Patterns::listed, hdc_written::proofs::PatternMirror::mirrored_patterns))]
fn resolve_left_pat(
    alloc: Global,
    known: &Known<'_>,
    walk: &Walk<'_>,
    part: &LeftPat,
) -> Result<Pat, AllocError>
    ensures { IfOk result (λ p. made.pattern_of p ≡ spec.resolved_pattern (mirror.left_pat_of part.now) known.now walk.now.names) }
{
    match part {
        LeftPat::Plain(inner) => resolve_apat(alloc, known, walk, inner),
        LeftPat::Applied(name, first, rest) => {
            let mut pats = Items::new(alloc);
            pats.push(resolve_apat(alloc, known, walk, first)?)?;
            push_apats(alloc, known, walk, rest.as_slice(), &mut pats)?;
            Ok(built(known, name, pats))
        }
        LeftPat::Negative(at, _number_at, number) => Ok(negative(known, *at, *number)),
    }
}

/// A pattern.
#[cycle(resolve_patterns)]
#[tactic(auto, using(crate::proofs::Patterns::joined, hdc_written::proofs::PatternMirror::mirrored_patterns))]
pub fn resolve_pat(
    alloc: Global,
    known: &Known<'_>,
    walk: &Walk<'_>,
    part: &WrittenPat,
) -> Result<Pat, AllocError>
    ensures { IfOk result (λ p. made.pattern_of p ≡ spec.resolved_pattern (mirror.pat_of part.now) known.now walk.now.names) }
{
    let first = resolve_left_pat(alloc, known, walk, &part.first)?;
    let mut pats = Items::new(alloc);
    push_cons_pats(alloc, known, walk, part.rest.as_slice(), &mut pats)?;
    join(
        alloc,
        known,
        first_of_left_pat(&part.first),
        first,
        part.rest.as_slice(),
        pats,
    )
}

// A resolved pattern that begins here, and those behind it, with `:` between them; `parts` are these as they are written.
fn join(
    alloc: Global,
    known: &Known<'_>,
    at: At,
    first: Pat,
    parts: &[ConsPat],
    pats: Items<Pat>,
) -> Result<Pat, AllocError>
    requires { length parts.now ≡ length pats }
    ensures { IfOk result (λ p. made.pattern_of p ≡ spec.joined_to known.now at (made.pattern_of first) (spec.joined_tail known.now (map colon_of parts.now) (spec.each_first (mirror.each_pattern mirror.cons_pat_of parts.now)) (map made.pattern_of pats))) }
{
    match join_tail(alloc, known, parts, pats)? {
        None => Ok(first),
        Some((colon, behind)) => consed(alloc, known, at, colon, first, behind),
    }
}

// Resolved patterns with `:` between them and before the first, with the place of that one.
fn join_tail(
    alloc: Global,
    known: &Known<'_>,
    parts: &[ConsPat],
    mut pats: Items<Pat>,
) -> Result<Option<(At, Pat)>, AllocError>
    requires { length parts.now ≡ length pats }
    ensures { IfOk result (λ tail. spec.tail_of tail ≡ spec.joined_tail known.now (map colon_of parts.now) (spec.each_first (mirror.each_pattern mirror.cons_pat_of parts.now)) (map made.pattern_of pats)) }
{
    let mut tail: Option<(At, Pat)> = None;
    // from the last pattern to the first: what stands behind it is joined already
    let mut count = parts.len();
    while count > 0 {
        count -= 1;
        let part = &parts[count];
        if let Some(pat) = pats.pop() {
            let joined = match tail {
                None => pat,
                Some((colon, behind)) => {
                    consed(
                        alloc,
                        known,
                        first_of_left_pat(&part.pat),
                        colon,
                        pat,
                        behind,
                    )?
                }
            };
            tail = Some((part.colon, joined));
        }
    }
    Ok(tail)
}

#[cycle(resolve_patterns)]
#[tactic(auto, using(hdc_written::proofs::PatternMirror::mirrored_patterns))]
fn push_cons_pats(
    alloc: Global,
    known: &Known<'_>,
    walk: &Walk<'_>,
    parts: &[ConsPat],
    pats: &mut Items<Pat>,
) -> Result<(), AllocError>
    ensures { OnOk result (map made.pattern_of pats.new ≡ map made.pattern_of pats.old ++ spec.each_resolved (mirror.each_pattern mirror.cons_pat_of parts.now) known.now walk.now.names) }
{
    for part in parts {
        pats.push(resolve_left_pat(alloc, known, walk, &part.pat)?)?;
    }
    Ok(())
}

#[cycle(resolve_patterns)]
#[tactic(auto, using(hdc_written::proofs::PatternMirror::mirrored_patterns))]
fn push_apats(
    alloc: Global,
    known: &Known<'_>,
    walk: &Walk<'_>,
    parts: &[Apat],
    pats: &mut Items<Pat>,
) -> Result<(), AllocError>
    ensures { OnOk result (map made.pattern_of pats.new ≡ map made.pattern_of pats.old ++ spec.each_resolved (mirror.each_pattern mirror.apat_of parts.now) known.now walk.now.names) }
{
    for part in parts {
        pats.push(resolve_apat(alloc, known, walk, part)?)?;
    }
    Ok(())
}

#[cycle(resolve_patterns)]
#[tactic(auto, using(hdc_written::proofs::PatternMirror::mirrored_patterns))]
fn push_comma_pats(
    alloc: Global,
    known: &Known<'_>,
    walk: &Walk<'_>,
    parts: &[CommaPat],
    pats: &mut Items<Pat>,
) -> Result<(), AllocError>
    ensures { OnOk result (map made.pattern_of pats.new ≡ map made.pattern_of pats.old ++ spec.each_resolved (mirror.each_pattern mirror.comma_pat_of parts.now) known.now walk.now.names) }
{
    for part in parts {
        pats.push(resolve_pat(alloc, known, walk, &part.pat)?)?;
    }
    Ok(())
}

/// Patterns that are arguments.
#[tactic(auto, using(crate::proofs::Patterns::listed, hdc_written::proofs::PatternMirror::mirrored_patterns, hdc_resolved::proofs::Mirror::mirrored_patterns))]
pub fn resolve_params(
    alloc: Global,
    known: &Known<'_>,
    walk: &Walk<'_>,
    first: &Apat,
    rest: &[Apat],
) -> Result<Items<Pat>, AllocError>
    ensures { IfOk result (λ ps. made.patterns (map made.pattern_of ps) ≡ spec.resolved_patterns (written.pattern (mirror.apat_of first.now) (mirror.each_pattern mirror.apat_of rest.now)) known.now walk.now.names) }
{
    let mut pats = Items::new(alloc);
    pats.push(resolve_apat(alloc, known, walk, first)?)?;
    push_apats(alloc, known, walk, rest, &mut pats)?;
    Ok(pats)
}

/// One pattern alone.
#[tactic(auto, using(hdc_resolved::proofs::Mirror::mirrored_patterns))]
pub fn resolve_one(
    alloc: Global,
    known: &Known<'_>,
    walk: &Walk<'_>,
    part: &WrittenPat,
) -> Result<Items<Pat>, AllocError>
    ensures { IfOk result (λ ps. made.patterns (map made.pattern_of ps) ≡ spec.resolved_patterns (written.pattern (mirror.pat_of part.now) written.no_pattern) known.now walk.now.names) }
{
    let mut pats = Items::new(alloc);
    pats.push(resolve_pat(alloc, known, walk, part)?)?;
    Ok(pats)
}

/// The parameters of an equation.
#[tactic(auto, using(crate::proofs::Patterns::listed, hdc_written::proofs::PatternMirror::mirrored_patterns))]
pub fn resolve_head(
    alloc: Global,
    known: &Known<'_>,
    walk: &Walk<'_>,
    head: &Head,
) -> Result<Items<Pat>, AllocError>
    ensures { IfOk result (λ ps. made.patterns (map made.pattern_of ps) ≡ spec.resolved_patterns (mirror.head_patterns head.now) known.now walk.now.names) }
{
    let mut pats = Items::new(alloc);
    match head {
        Head::Prefix(_var, params) => {
            push_apats(alloc, known, walk, params.as_slice(), &mut pats)?;
        }
        Head::Infix(left, _op, right) => {
            pats.push(resolve_apat(alloc, known, walk, left)?)?;
            pats.push(resolve_apat(alloc, known, walk, right)?)?;
        }
        Head::Paren(_open_at, left, _op, right, _close_at, first, rest) => {
            pats.push(resolve_apat(alloc, known, walk, left)?)?;
            pats.push(resolve_apat(alloc, known, walk, right)?)?;
            pats.push(resolve_apat(alloc, known, walk, first)?)?;
            push_apats(alloc, known, walk, rest.as_slice(), &mut pats)?;
        }
    }
    Ok(pats)
}
