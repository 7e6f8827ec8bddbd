//! The nodes of types.

ghost use Rattle.std.specs.Prelude.{◌≡◌, OnOk};
ghost use Rattle.hdc_names.specs.Sites as spec;
ghost use Rattle.hdc_names.specs.Trees.{all_found};
ghost use Rattle.hdc_written.specs.TypeMirror as mirror;

use crate::depth::deeper;
use crate::found::Found;
use crate::pattern_nodes::note_joined;
use hdc_tree::{ArrowType, Atype, BarConstr, Btype, CommaType, Data, TypeExp};
use hdc_written::first_of_btype;
use std::alloc::AllocError;

fn follow(parts: &[ArrowType]) -> bool
    ensures { result ≡ spec.types_follow (mirror.each_type mirror.arrow_type_of parts.now) }
{
    match parts {
        [] => false,
        [_first, ..] => true,
    }
}

#[cycle(note_types)]
#[tactic(auto, using(crate::proofs::Noting::in_order, hdc_written::proofs::TypeMirror::mirrored_types))]
fn note_atype(found: &mut Found, depth: u64, part: &Atype) -> Result<(), AllocError>
    ensures { OnOk result (found.new ≡ all_found found.old (spec.type_nodes depth (mirror.atype_of part.now))) }
{
    match part {
        Atype::Con(name) => {
            found.note_node(depth, name.at);
            Ok(())
        }
        Atype::Var(name) => {
            found.note_node(depth, name.at);
            Ok(())
        }
        Atype::Unit(open_at, _close_at) => {
            found.note_node(depth, *open_at);
            Ok(())
        }
        Atype::Paren(_open_at, inner, _close_at) => note_type(found, depth, inner.get()),
        Atype::Tuple(open_at, first, rest, _close_at) => {
            found.note_node(depth, *open_at);
            let inner = deeper(depth)?;
            note_type(found, inner, first.get())?;
            note_comma_types(found, inner, rest.as_slice())
        }
        Atype::List(open_at, inner, _close_at) => {
            found.note_node(depth, *open_at);
            note_type(found, deeper(depth)?, inner.get())
        }
    }
}

#[cycle(note_types)]
#[tactic(auto, using(crate::proofs::Noting::in_order, hdc_written::proofs::TypeMirror::mirrored_types))]
fn note_btype(found: &mut Found, depth: u64, part: &Btype) -> Result<(), AllocError>
    ensures { OnOk result (found.new ≡ all_found found.old (spec.type_nodes depth (mirror.btype_of part.now))) }
{
    match part {
        Btype::Plain(inner) => note_atype(found, depth, inner),
        Btype::Applied(name, first, rest) => {
            found.note_node(depth, name.at);
            let inner = deeper(depth)?;
            note_atype(found, inner, first)?;
            note_atypes(found, inner, rest.as_slice())
        }
    }
}

/// The nodes of a type of this depth.
#[cycle(note_types)]
#[tactic(auto, using(crate::proofs::Noting::in_order, hdc_written::proofs::TypeMirror::mirrored_types))]
pub(crate) fn note_type(found: &mut Found, depth: u64, part: &TypeExp) -> Result<(), AllocError>
    ensures { OnOk result (found.new ≡ all_found found.old (spec.type_nodes depth (mirror.type_exp_of part.now))) }
{
    let follows = follow(part.rest.as_slice());
    let inner = note_joined(found, depth, first_of_btype(&part.first), follows)?;
    note_btype(found, inner, &part.first)?;
    note_arrow_types(found, deeper(depth)?, part.rest.as_slice())
}

#[cycle(note_types)]
#[tactic(auto, using(crate::proofs::Noting::in_order, hdc_written::proofs::TypeMirror::mirrored_types))]
fn note_atypes(found: &mut Found, depth: u64, parts: &[Atype]) -> Result<(), AllocError>
    ensures { OnOk result (found.new ≡ all_found found.old (spec.each_type_nodes depth (mirror.each_type mirror.atype_of parts.now))) }
{
    for part in parts {
        note_atype(found, depth, part)?;
    }
    Ok(())
}

#[cycle(note_types)]
#[tactic(auto, using(crate::proofs::Noting::in_order, hdc_written::proofs::TypeMirror::mirrored_types))]
fn note_comma_types(found: &mut Found, depth: u64, parts: &[CommaType]) -> Result<(), AllocError>
    ensures { OnOk result (found.new ≡ all_found found.old (spec.each_type_nodes depth (mirror.each_type mirror.comma_type_of parts.now))) }
{
    for part in parts {
        note_type(found, depth, &part.part)?;
    }
    Ok(())
}

#[cycle(note_types)]
#[tactic(auto, using(crate::proofs::Noting::in_order, hdc_written::proofs::TypeMirror::mirrored_types))]
fn note_arrow_types(found: &mut Found, depth: u64, parts: &[ArrowType]) -> Result<(), AllocError>
    ensures { OnOk result (found.new ≡ all_found found.old (spec.arrow_nodes depth (mirror.each_type mirror.arrow_type_of parts.now))) }
{
    let mut depth = depth;
    for index in 0..parts.len() {
        let left = &parts[index].part;
        let follows = follow(&parts[index + 1..]);
        let inner = note_joined(found, depth, first_of_btype(left), follows)?;
        note_btype(found, inner, left)?;
        depth = deeper(depth)?;
    }
    Ok(())
}

/// The nodes of the fields of a data type.
#[tactic(auto, using(crate::proofs::Noting::in_order))]
pub(crate) fn note_data(found: &mut Found, part: &Data) -> Result<(), AllocError>
    ensures { OnOk result (found.new ≡ all_found found.old (spec.data_nodes part.now)) }
{
    note_fields(found, part.first.fields.as_slice())?;
    note_constructors(found, part.rest.as_slice())
}

#[tactic(auto, using(crate::proofs::Noting::in_order))]
fn note_fields(found: &mut Found, parts: &[Atype]) -> Result<(), AllocError>
    ensures { OnOk result (found.new ≡ all_found found.old (spec.field_nodes parts.now)) }
{
    for part in parts {
        note_atype(found, 1, part)?;
    }
    Ok(())
}

#[tactic(auto, using(crate::proofs::Noting::in_order))]
fn note_constructors(found: &mut Found, parts: &[BarConstr]) -> Result<(), AllocError>
    ensures { OnOk result (found.new ≡ all_found found.old (spec.constructor_nodes parts.now)) }
{
    for part in parts {
        note_fields(found, part.constr.fields.as_slice())?;
    }
    Ok(())
}
