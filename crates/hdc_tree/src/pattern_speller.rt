//! The tokens of patterns.

ghost use Rattle.std.specs.Prelude.{◌≡◌, OnOk};
ghost use Rattle.hdc_tree.specs.NameSpelling.{each_onto};
ghost use Rattle.hdc_tree.specs.PatternSpelling.{apat_onto, comma_pat_onto, cons_pat_onto, left_pat_onto, pat_onto};

use crate::pattern::{Apat, CommaPat, ConsPat, LeftPat, Pat};
use crate::speller::Speller;
use hdc_base::{Key, Want, Word};

/// The tokens of a pattern that may be an argument, before others.
#[cycle(put_patterns)]
#[tactic(auto, using(crate::proofs::PatternEquations::patterns_equations))]
pub fn put_apat(out: &mut Speller, part: &Apat) -> Result<(), Want>
    ensures { OnOk result (out.new ≡ apat_onto part.now out.old) }
{
    match part {
        Apat::Var(name) => out.small(name),
        Apat::As(name, at, inner) => {
            put_apat(out, inner.get())?;
            out.key(*at, Key::KAt)?;
            out.small(name)
        }
        Apat::Wildcard(at) => out.key(*at, Key::KUnderscore),
        Apat::Con(name) => out.capital(name),
        Apat::Literal(at, literal) => out.literal(*at, literal),
        Apat::Unit(open_at, close_at) => {
            out.key(*close_at, Key::KCloseParen)?;
            out.key(*open_at, Key::KOpenParen)
        }
        Apat::Nil(open_at, close_at) => {
            out.key(*close_at, Key::KCloseBracket)?;
            out.key(*open_at, Key::KOpenBracket)
        }
        Apat::Paren(open_at, inner, close_at) => {
            out.key(*close_at, Key::KCloseParen)?;
            put_pat(out, inner.get())?;
            out.key(*open_at, Key::KOpenParen)
        }
        Apat::Tuple(open_at, first, rest, close_at) => {
            out.key(*close_at, Key::KCloseParen)?;
            put_comma_pats(out, rest.as_slice())?;
            put_pat(out, first.get())?;
            out.key(*open_at, Key::KOpenParen)
        }
        Apat::List(open_at, first, rest, close_at) => {
            out.key(*close_at, Key::KCloseBracket)?;
            put_comma_pats(out, rest.as_slice())?;
            put_pat(out, first.get())?;
            out.key(*open_at, Key::KOpenBracket)
        }
    }
}

#[cycle(put_patterns)]
#[tactic(auto, using(crate::proofs::PatternEquations::patterns_equations))]
fn put_left_pat(out: &mut Speller, part: &LeftPat) -> Result<(), Want>
    ensures { OnOk result (out.new ≡ left_pat_onto part.now out.old) }
{
    match part {
        LeftPat::Plain(apat) => put_apat(out, apat),
        LeftPat::Applied(name, first, rest) => {
            put_apats(out, rest.as_slice())?;
            put_apat(out, first)?;
            out.capital(name)
        }
        LeftPat::Negative(at, number_at, number) => {
            out.word(*number_at, Word::Num(*number))?;
            out.minus(*at)
        }
    }
}

#[cycle(put_patterns)]
#[tactic(auto, using(crate::proofs::PatternEquations::patterns_equations))]
fn put_comma_pat(out: &mut Speller, part: &CommaPat) -> Result<(), Want>
    ensures { OnOk result (out.new ≡ comma_pat_onto part.now out.old) }
{
    put_pat(out, &part.pat)?;
    out.key(part.comma, Key::KComma)
}

#[cycle(put_patterns)]
#[tactic(auto, using(crate::proofs::PatternEquations::patterns_equations))]
fn put_cons_pat(out: &mut Speller, part: &ConsPat) -> Result<(), Want>
    ensures { OnOk result (out.new ≡ cons_pat_onto part.now out.old) }
{
    put_left_pat(out, &part.pat)?;
    out.key(part.colon, Key::KColon)
}

/// The tokens of a pattern, before others.
#[cycle(put_patterns)]
#[tactic(auto, using(crate::proofs::PatternEquations::patterns_equations))]
pub fn put_pat(out: &mut Speller, part: &Pat) -> Result<(), Want>
    ensures { OnOk result (out.new ≡ pat_onto part.now out.old) }
{
    put_cons_pats(out, part.rest.as_slice())?;
    put_left_pat(out, &part.first)
}

/// The tokens of patterns in a row, before others.
#[cycle(put_patterns)]
pub fn put_apats(out: &mut Speller, parts: &[Apat]) -> Result<(), Want>
    ensures { OnOk result (out.new ≡ each_onto apat_onto parts.now out.old) }
{
    let mut count = parts.len();
    while count > 0 {
        count -= 1;
        put_apat(out, &parts[count])?;
    }
    Ok(())
}

#[cycle(put_patterns)]
fn put_comma_pats(out: &mut Speller, parts: &[CommaPat]) -> Result<(), Want>
    ensures { OnOk result (out.new ≡ each_onto comma_pat_onto parts.now out.old) }
{
    let mut count = parts.len();
    while count > 0 {
        count -= 1;
        put_comma_pat(out, &parts[count])?;
    }
    Ok(())
}

#[cycle(put_patterns)]
fn put_cons_pats(out: &mut Speller, parts: &[ConsPat]) -> Result<(), Want>
    ensures { OnOk result (out.new ≡ each_onto cons_pat_onto parts.now out.old) }
{
    let mut count = parts.len();
    while count > 0 {
        count -= 1;
        put_cons_pat(out, &parts[count])?;
    }
    Ok(())
}
