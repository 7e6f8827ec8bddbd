//! Patterns that are put together.

ghost use Rattle.std.specs.Prelude.{◌≡◌, IfOk, map};
ghost use Rattle.hdc_resolved.specs.Mirror as made;
ghost use Rattle.hdc_resolved.specs.Syntax as resolved;
ghost use Rattle.hdc_resolving.specs.Literals as literals;
ghost use Rattle.hdc_resolving.specs.Numbering as numbering;
ghost use Rattle.hdc_resolving.specs.Patterns as spec;

use crate::known::Known;
use crate::literals::{cons, fitted, literal_of};
use crate::walk::Walk;
use hdc_base::At;
use hdc_resolved::{Literal, Pat, RowKind};
use hdc_tree::{Literal as WrittenLiteral, Name};
use sqlite_items::{Boxed, Items};
use std::alloc::{AllocError, Global};

/// `_`.
#[tactic(auto, using(hdc_resolved::proofs::Mirror::mirrored_patterns))]
pub fn anything(known: &Known<'_>, at: At) -> Pat
    ensures { made.pattern_of result ≡ resolved.anything (literals.place_in known.now.src at) }
{
    Pat::Any(known.place(at))
}

/// A variable.
#[tactic(auto, using(hdc_resolved::proofs::Mirror::mirrored_patterns))]
pub fn variable(known: &Known<'_>, walk: &Walk<'_>, name: &Name) -> Pat
    ensures { made.pattern_of result ≡ resolved.variable (literals.place_in known.now.src name.now.at) (numbering.variable_number walk.now.names name.now) }
{
    Pat::Var(known.place(name.at), walk.number_of(name))
}

/// A variable and the pattern behind its `@`.
#[tactic(auto, using(hdc_resolved::proofs::Mirror::mirrored_patterns))]
pub fn named_as(
    alloc: Global,
    known: &Known<'_>,
    walk: &Walk<'_>,
    name: &Name,
    inner: Pat,
) -> Result<Pat, AllocError>
    ensures { IfOk result (λ p. made.pattern_of p ≡ resolved.named_as (literals.place_in known.now.src name.now.at) (numbering.variable_number walk.now.names name.now) (made.pattern_of inner)) }
{
    let inner = Boxed::new(alloc, inner)?;
    Ok(Pat::As(known.place(name.at), walk.number_of(name), inner))
}

/// A literal.
#[tactic(auto, using(hdc_resolved::proofs::Mirror::mirrored_patterns))]
pub fn literal(
    alloc: Global,
    known: &Known<'_>,
    at: At,
    literal: &WrittenLiteral,
) -> Result<Pat, AllocError>
    ensures { IfOk result (λ p. made.pattern_of p ≡ resolved.literal_pattern (literals.place_in known.now.src at) (literals.literal_of literal.now)) }
{
    Ok(Pat::Lit(known.place(at), literal_of(alloc, literal)?))
}

/// A number behind `-`.
#[tactic(auto, using(hdc_resolved::proofs::Mirror::mirrored_patterns))]
pub fn negative(known: &Known<'_>, at: At, number: u64) -> Pat
    ensures { made.pattern_of result ≡ spec.negative known.now at number }
{
    Pat::Lit(known.place(at), Literal::Int(-(fitted(number) as i64)))
}

/// Members in parentheses or brackets.
#[tactic(auto, using(hdc_resolved::proofs::Mirror::mirrored_patterns))]
pub fn row(known: &Known<'_>, at: At, kind: RowKind, pats: Items<Pat>) -> Pat
    ensures { made.pattern_of result ≡ resolved.row_pattern (literals.place_in known.now.src at) kind (made.patterns (map made.pattern_of pats)) }
{
    Pat::Row(known.place(at), kind, pats)
}

/// A constructor and its arguments.
#[tactic(auto, using(hdc_resolved::proofs::Mirror::mirrored_patterns))]
pub fn built(known: &Known<'_>, name: &Name, pats: Items<Pat>) -> Pat
    ensures { made.pattern_of result ≡ spec.built_with known.now name.now (made.patterns (map made.pattern_of pats)) }
{
    let place = known.place(name.at);
    let constructor = known.constructors.find(name.text.as_slice());
    Pat::Con(place, place, constructor, pats)
}

/// Two patterns with `:` between them.
#[tactic(auto, using(hdc_resolved::proofs::Mirror::mirrored_patterns))]
pub fn consed(
    alloc: Global,
    known: &Known<'_>,
    at: At,
    colon: At,
    head: Pat,
    tail: Pat,
) -> Result<Pat, AllocError>
    ensures { IfOk result (λ p. made.pattern_of p ≡ spec.consed known.now at colon (made.pattern_of head) (made.pattern_of tail)) }
{
    let mut pats = Items::new(alloc);
    pats.push(head)?;
    pats.push(tail)?;
    Ok(Pat::Con(known.place(at), known.place(colon), Some(cons()), pats))
}
