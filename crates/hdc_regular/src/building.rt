//! Types are built of what their expansions hold.

ghost use Rattle.std.specs.Prelude.{◌≡◌, suc, OnOk, IfOk};
ghost use Rattle.hdc_written.specs.Scopes.{standing_for};
ghost use Rattle.hdc_written.specs.TypeMirror as mirror;
ghost use Rattle.hdc_regular.specs.Resolved.{no_part, part_at};
ghost use Rattle.hdc_regular.specs.Resolving.{variable};
ghost use Rattle.hdc_regular.specs.PartMirror.{part_of, parts_of, joined};
ghost use Rattle.hdc_regular.specs.Choosing.{choice_of};
ghost use Rattle.hdc_regular.specs.Building as spec;

use crate::outline::{Outline, alias_at, is_held_at};
use crate::part::Part;
use crate::standing::Standing;
use hdc_tree::{ArrowType, Atype, Btype, CommaType, Name, TypeExp};
use hdc_written::Scope;
use sqlite_items::Items;
use std::alloc::{AllocError, Global};

/// What is built of a type: a name stands for what these say, and its arguments are those that its meaning holds.
#[cycle(build_types)]
#[tactic(auto, using(crate::proofs::PartMirror::parts_in_order, crate::proofs::PartMirror::mirrored_parts, hdc_written::proofs::TypeMirror::mirrored_types))]
pub(crate) fn build_type(
    part: &TypeExp,
    alloc: Global,
    outlines: &[Outline],
    names: &Scope<Standing>,
    params: &Scope<u32>,
) -> Result<Part, AllocError>
    ensures { IfOk result (λ built. part_of built ≡ spec.built outlines.now names.now params.now (mirror.type_exp_of part.now)) }
{
    let first = build_btype(&part.first, alloc, outlines, names, params)?;
    if part.rest.as_slice().is_empty() {
        return Ok(first);
    }
    let mut parts = Items::new(alloc);
    parts.push(first)?;
    add_arrow_types(
        part.rest.as_slice(),
        alloc,
        &mut parts,
        outlines,
        names,
        params,
    )?;
    Ok(Part::Other(parts))
}

/// The same of a type that may be an argument.
#[cycle(build_types)]
#[tactic(auto, using(crate::proofs::PartMirror::parts_in_order, crate::proofs::PartMirror::mirrored_parts, hdc_written::proofs::TypeMirror::mirrored_types))]
pub(crate) fn build_atype(
    part: &Atype,
    alloc: Global,
    outlines: &[Outline],
    names: &Scope<Standing>,
    params: &Scope<u32>,
) -> Result<Part, AllocError>
    ensures { IfOk result (λ built. part_of built ≡ spec.built outlines.now names.now params.now (mirror.atype_of part.now)) }
{
    match part {
        Atype::Con(name) => Ok(build_constructor(alloc, outlines, names, name)),
        Atype::Var(name) => Ok(build_variable(alloc, params, name)),
        Atype::Unit(_open_at, _close_at) => Ok(Part::Other(Items::new(alloc))),
        Atype::Paren(_open_at, inner, _close_at) => {
            build_type(inner.get(), alloc, outlines, names, params)
        }
        Atype::Tuple(_open_at, first, rest, _close_at) => {
            let mut parts = Items::new(alloc);
            let first_part = build_type(first.get(), alloc, outlines, names, params)?;
            parts.push(first_part)?;
            add_comma_types(rest.as_slice(), alloc, &mut parts, outlines, names, params)?;
            Ok(Part::Other(parts))
        }
        Atype::List(_open_at, inner, _close_at) => {
            let mut parts = Items::new(alloc);
            let inner_part = build_type(inner.get(), alloc, outlines, names, params)?;
            parts.push(inner_part)?;
            Ok(Part::Other(parts))
        }
    }
}

#[cycle(build_types)]
#[tactic(auto, using(crate::proofs::PartMirror::parts_in_order, crate::proofs::PartMirror::mirrored_parts, hdc_written::proofs::TypeMirror::mirrored_types))]
fn build_btype(
    part: &Btype,
    alloc: Global,
    outlines: &[Outline],
    names: &Scope<Standing>,
    params: &Scope<u32>,
) -> Result<Part, AllocError>
    ensures { IfOk result (λ built. part_of built ≡ spec.built outlines.now names.now params.now (mirror.btype_of part.now)) }
{
    match part {
        Btype::Plain(inner) => build_atype(inner, alloc, outlines, names, params),
        Btype::Applied(name, first, rest) => {
            let rest = rest.as_slice();
            match choose(outlines, names, name, rest.len() + 1) {
                Choice::Whole => {
                    let mut parts = Items::new(alloc);
                    let first_part = build_atype(first, alloc, outlines, names, params)?;
                    parts.push(first_part)?;
                    add_atypes(rest, alloc, &mut parts, outlines, names, params)?;
                    Ok(Part::Other(parts))
                }
                Choice::Using(number) => {
                    let mut parts = Items::new(alloc);
                    let first_part = build_atype(first, alloc, outlines, names, params)?;
                    parts.push(first_part)?;
                    add_atypes(rest, alloc, &mut parts, outlines, names, params)?;
                    Ok(Part::Use(number, name.at, parts))
                }
                Choice::Holding(number) => {
                    let mut parts = Items::new(alloc);
                    if is_held_at(outlines, number, 0) {
                        let first_part = build_atype(first, alloc, outlines, names, params)?;
                        parts.push(first_part)?;
                    } else {
                        parts.push(Part::Other(Items::new(alloc)))?;
                    }
                    add_held_atypes(rest, alloc, &mut parts, outlines, names, params, number)?;
                    Ok(Part::Use(number, name.at, parts))
                }
                Choice::One(place) => {
                    if place == 0 {
                        build_atype(first, alloc, outlines, names, params)
                    } else {
                        build_one(rest, alloc, outlines, names, params, place - 1)
                    }
                }
            }
        }
    }
}

// One of these types.
#[cycle(build_types)]
#[tactic(auto, using(crate::proofs::PartMirror::parts_in_order, crate::proofs::PartMirror::mirrored_parts, hdc_written::proofs::TypeMirror::mirrored_types))]
fn build_one(
    parts: &[Atype],
    alloc: Global,
    outlines: &[Outline],
    names: &Scope<Standing>,
    params: &Scope<u32>,
    place: u32,
) -> Result<Part, AllocError>
    ensures { IfOk result (λ built. part_of built ≡ part_at place (spec.each_built outlines.now names.now params.now (mirror.each_type mirror.atype_of parts.now))) }
{
    let mut left = place;
    for part in parts {
        if left == 0 {
            return build_atype(part, alloc, outlines, names, params);
        }
        left -= 1;
    }
    Ok(Part::Other(Items::new(alloc)))
}

// The arguments behind the first one that a meaning holds; for the others stands nothing.
#[cycle(build_types)]
#[tactic(auto, using(crate::proofs::PartMirror::parts_in_order, crate::proofs::PartMirror::mirrored_parts, hdc_written::proofs::TypeMirror::mirrored_types))]
fn add_held_atypes(
    parts: &[Atype],
    alloc: Global,
    built: &mut Items<Part>,
    outlines: &[Outline],
    names: &Scope<Standing>,
    params: &Scope<u32>,
    number: u32,
) -> Result<(), AllocError>
    ensures { OnOk result (parts_of built.new ≡ joined (parts_of built.old) (spec.held_from (spec.outline_at outlines.now number).holds 1 (spec.each_built outlines.now names.now params.now (mirror.each_type mirror.atype_of parts.now)))) }
{
    for (index, part) in parts.iter().enumerate() {
        if is_held_at(outlines, number, index + 1) {
            let next_part = build_atype(part, alloc, outlines, names, params)?;
            built.push(next_part)?;
        } else {
            built.push(Part::Other(Items::new(alloc)))?;
        }
    }
    Ok(())
}

/// The same of each of these types.
#[cycle(build_types)]
#[tactic(auto, using(crate::proofs::PartMirror::parts_in_order, crate::proofs::PartMirror::mirrored_parts, hdc_written::proofs::TypeMirror::mirrored_types))]
pub(crate) fn add_atypes(
    parts: &[Atype],
    alloc: Global,
    built: &mut Items<Part>,
    outlines: &[Outline],
    names: &Scope<Standing>,
    params: &Scope<u32>,
) -> Result<(), AllocError>
    ensures { OnOk result (parts_of built.new ≡ joined (parts_of built.old) (spec.each_built outlines.now names.now params.now (mirror.each_type mirror.atype_of parts.now))) }
{
    for part in parts {
        let next_part = build_atype(part, alloc, outlines, names, params)?;
        built.push(next_part)?;
    }
    Ok(())
}

#[cycle(build_types)]
#[tactic(auto, using(crate::proofs::PartMirror::parts_in_order, crate::proofs::PartMirror::mirrored_parts, hdc_written::proofs::TypeMirror::mirrored_types))]
fn add_comma_types(
    parts: &[CommaType],
    alloc: Global,
    built: &mut Items<Part>,
    outlines: &[Outline],
    names: &Scope<Standing>,
    params: &Scope<u32>,
) -> Result<(), AllocError>
    ensures { OnOk result (parts_of built.new ≡ joined (parts_of built.old) (spec.each_built outlines.now names.now params.now (mirror.each_type mirror.comma_type_of parts.now))) }
{
    for part in parts {
        let next_part = build_type(&part.part, alloc, outlines, names, params)?;
        built.push(next_part)?;
    }
    Ok(())
}

#[cycle(build_types)]
#[tactic(auto, using(crate::proofs::PartMirror::parts_in_order, crate::proofs::PartMirror::mirrored_parts, hdc_written::proofs::TypeMirror::mirrored_types))]
fn add_arrow_types(
    parts: &[ArrowType],
    alloc: Global,
    built: &mut Items<Part>,
    outlines: &[Outline],
    names: &Scope<Standing>,
    params: &Scope<u32>,
) -> Result<(), AllocError>
    ensures { OnOk result (parts_of built.new ≡ joined (parts_of built.old) (spec.each_built outlines.now names.now params.now (mirror.each_type mirror.arrow_type_of parts.now))) }
{
    for part in parts {
        let next_part = build_btype(&part.part, alloc, outlines, names, params)?;
        built.push(next_part)?;
    }
    Ok(())
}

// A variable of the head, or another.
#[tactic(auto, using(crate::proofs::PartMirror::mirrored_parts))]
fn build_variable(alloc: Global, params: &Scope<u32>, name: &Name) -> Part
    ensures { part_of result ≡ variable (standing_for name.now.text params.now) }
{
    match params.find(name.text.as_slice()) {
        Some(place) => Part::Parameter(place),
        None => Part::Other(Items::new(alloc)),
    }
}

// A constructor without arguments.
#[tactic(auto, using(crate::proofs::PartMirror::mirrored_parts))]
fn build_constructor(
    alloc: Global,
    outlines: &[Outline],
    names: &Scope<Standing>,
    name: &Name,
) -> Part
    ensures { part_of result ≡ spec.built_use outlines.now (standing_for name.now.text names.now) 0 name.now.at no_part }
{
    match choose(outlines, names, name, 0) {
        Choice::Whole => Part::Other(Items::new(alloc)),
        Choice::Using(number) => Part::Use(number, name.at, Items::new(alloc)),
        Choice::Holding(number) => Part::Use(number, name.at, Items::new(alloc)),
        Choice::One(_place) => Part::Other(Items::new(alloc)),
    }
}

/// What becomes of a constructor and its arguments.
#[derive(Clone, Copy, Debug, PartialEq, Eq)]
pub(crate) enum Choice {
    /// No expansion: all of them.
    Whole,
    /// A use of this data type, with all of them.
    Using(u32),
    /// A use of this synonym, with those that its meaning holds.
    Holding(u32),
    /// This argument, for which the synonym stands.
    One(u32),
}

fn choose(outlines: &[Outline], names: &Scope<Standing>, name: &Name, count: usize) -> Choice
    ensures { result ≡ choice_of outlines.now (standing_for name.now.text names.now) count }
{
    match names.find(name.text.as_slice()) {
        None => Choice::Whole,
        Some(Standing::NotExpanded) => Choice::Whole,
        Some(Standing::DataType(number)) => Choice::Using(number),
        Some(Standing::Synonym(number, parameters)) => {
            if parameters != count {
                return Choice::Whole;
            }
            match alias_at(outlines, number) {
                Some(place) => Choice::One(place),
                None => Choice::Holding(number),
            }
        }
    }
}
