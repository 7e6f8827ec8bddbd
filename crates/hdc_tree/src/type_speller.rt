//! The tokens of types.

ghost use Rattle.std.specs.Prelude.{◌≡◌, OnOk};
ghost use Rattle.hdc_tree.specs.NameSpelling.{each_onto};
ghost use Rattle.hdc_tree.specs.TypeSpelling.{arrow_type_onto, atype_onto, btype_onto, comma_type_onto, type_exp_onto};

use crate::speller::Speller;
use crate::type_tree::{ArrowType, Atype, Btype, CommaType, TypeExp};
use hdc_base::{Key, Want, Word};

#[cycle(put_types)]
#[tactic(auto, using(crate::proofs::TypeEquations::types_equations))]
fn put_atype(out: &mut Speller, part: &Atype) -> Result<(), Want>
    ensures { OnOk result (out.new ≡ atype_onto part.now out.old) }
{
    match part {
        Atype::Con(name) => out.capital(name),
        Atype::Var(name) => out.small(name),
        Atype::Unit(open_at, close_at) => {
            out.key(*close_at, Key::KCloseParen)?;
            out.key(*open_at, Key::KOpenParen)
        }
        Atype::Paren(open_at, inner, close_at) => {
            out.key(*close_at, Key::KCloseParen)?;
            put_type_exp(out, inner.get())?;
            out.key(*open_at, Key::KOpenParen)
        }
        Atype::Tuple(open_at, first, rest, close_at) => {
            out.key(*close_at, Key::KCloseParen)?;
            put_comma_types(out, rest.as_slice())?;
            put_type_exp(out, first.get())?;
            out.key(*open_at, Key::KOpenParen)
        }
        Atype::List(open_at, inner, close_at) => {
            out.key(*close_at, Key::KCloseBracket)?;
            put_type_exp(out, inner.get())?;
            out.key(*open_at, Key::KOpenBracket)
        }
    }
}

#[cycle(put_types)]
#[tactic(auto, using(crate::proofs::TypeEquations::types_equations))]
fn put_btype(out: &mut Speller, part: &Btype) -> Result<(), Want>
    ensures { OnOk result (out.new ≡ btype_onto part.now out.old) }
{
    match part {
        Btype::Plain(atype) => put_atype(out, atype),
        Btype::Applied(name, first, rest) => {
            put_atypes(out, rest.as_slice())?;
            put_atype(out, first)?;
            out.capital(name)
        }
    }
}

#[cycle(put_types)]
#[tactic(auto, using(crate::proofs::TypeEquations::types_equations))]
fn put_arrow_type(out: &mut Speller, part: &ArrowType) -> Result<(), Want>
    ensures { OnOk result (out.new ≡ arrow_type_onto part.now out.old) }
{
    put_btype(out, &part.part)?;
    out.key(part.arrow, Key::KRightArrow)
}

#[cycle(put_types)]
#[tactic(auto, using(crate::proofs::TypeEquations::types_equations))]
fn put_comma_type(out: &mut Speller, part: &CommaType) -> Result<(), Want>
    ensures { OnOk result (out.new ≡ comma_type_onto part.now out.old) }
{
    put_type_exp(out, &part.part)?;
    out.key(part.comma, Key::KComma)
}

/// The tokens of a type, before others.
#[cycle(put_types)]
#[tactic(auto, using(crate::proofs::TypeEquations::types_equations))]
pub fn put_type_exp(out: &mut Speller, part: &TypeExp) -> Result<(), Want>
    ensures { OnOk result (out.new ≡ type_exp_onto part.now out.old) }
{
    put_arrow_types(out, part.rest.as_slice())?;
    put_btype(out, &part.first)
}

#[cycle(put_types)]
fn put_arrow_types(out: &mut Speller, parts: &[ArrowType]) -> Result<(), Want>
    ensures { OnOk result (out.new ≡ each_onto arrow_type_onto parts.now out.old) }
{
    let mut count = parts.len();
    while count > 0 {
        count -= 1;
        put_arrow_type(out, &parts[count])?;
    }
    Ok(())
}

/// The tokens of types in a row, before others.
#[cycle(put_types)]
pub fn put_atypes(out: &mut Speller, parts: &[Atype]) -> Result<(), Want>
    ensures { OnOk result (out.new ≡ each_onto atype_onto parts.now out.old) }
{
    let mut count = parts.len();
    while count > 0 {
        count -= 1;
        put_atype(out, &parts[count])?;
    }
    Ok(())
}

#[cycle(put_types)]
fn put_comma_types(out: &mut Speller, parts: &[CommaType]) -> Result<(), Want>
    ensures { OnOk result (out.new ≡ each_onto comma_type_onto parts.now out.old) }
{
    let mut count = parts.len();
    while count > 0 {
        count -= 1;
        put_comma_type(out, &parts[count])?;
    }
    Ok(())
}
