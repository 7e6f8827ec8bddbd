//! What is broken in types.

ghost use Rattle.std.specs.Prelude.{◌≡◌, [], OnOk, IfOk};
ghost use Rattle.hdc_tree.specs.declared.program.Top.TheVariants as top;
ghost use Rattle.hdc_written.specs.Breaches.{all_noted};
ghost use Rattle.hdc_written.specs.Scopes.{standing_for};
ghost use Rattle.hdc_written.specs.TypeMirror as mirror;
ghost use Rattle.hdc_rules.specs.Bindings.{typed_breaches};
ghost use Rattle.hdc_rules.specs.Names.{unless_counted, repeated};
ghost use Rattle.hdc_rules.specs.Types as spec;

use crate::listed::{note_outside, note_repeated};
use crate::names::{NameSet, Names};
use crate::type_variables::{add_atype, add_type};
use hdc_tree::{ArrowType, Atype, BarConstr, Btype, CommaType, Data, Name, Synonym, TypeExp};
use hdc_written::{Found, Scope};
use std::alloc::{AllocError, Global};

/// The constructors of a type are known, with as many arguments as they have parameters.
#[cycle(note_types)]
#[tactic(auto, using(hdc_written::proofs::FirstBreach::in_order, hdc_written::proofs::TypeMirror::mirrored_types))]
pub(crate) fn note_type(found: &mut Found, types: &Scope<usize>, part: &TypeExp)
    ensures { found.new ≡ all_noted found.old (spec.type_breaches types.now (mirror.type_exp_of part.now)) }
{
    note_btype(found, types, &part.first);
    note_arrow_types(found, types, part.rest.as_slice());
}

#[cycle(note_types)]
#[tactic(auto, using(hdc_written::proofs::FirstBreach::in_order, hdc_written::proofs::TypeMirror::mirrored_types))]
fn note_atype(found: &mut Found, types: &Scope<usize>, part: &Atype)
    ensures { found.new ≡ all_noted found.old (spec.type_breaches types.now (mirror.atype_of part.now)) }
{
    match part {
        Atype::Con(name) => note_constructor(found, types, name, 0),
        Atype::Var(_name) => {}
        Atype::Unit(_open_at, _close_at) => {}
        Atype::Paren(_open_at, inner, _close_at) => note_type(found, types, inner.get()),
        Atype::Tuple(_open_at, first, rest, _close_at) => {
            note_type(found, types, first.get());
            note_comma_types(found, types, rest.as_slice());
        }
        Atype::List(_open_at, inner, _close_at) => note_type(found, types, inner.get()),
    }
}

#[cycle(note_types)]
#[tactic(auto, using(hdc_written::proofs::FirstBreach::in_order, hdc_written::proofs::TypeMirror::mirrored_types, crate::proofs::Listing::count_types_each))]
fn note_btype(found: &mut Found, types: &Scope<usize>, part: &Btype)
    ensures { found.new ≡ all_noted found.old (spec.type_breaches types.now (mirror.btype_of part.now)) }
{
    match part {
        Btype::Plain(inner) => note_atype(found, types, inner),
        Btype::Applied(name, first, rest) => {
            note_constructor(found, types, name, rest.as_slice().len() + 1);
            note_atype(found, types, first);
            note_atypes(found, types, rest.as_slice());
        }
    }
}

#[cycle(note_types)]
#[tactic(auto, using(hdc_written::proofs::FirstBreach::in_order, hdc_written::proofs::TypeMirror::mirrored_types))]
fn note_atypes(found: &mut Found, types: &Scope<usize>, parts: &[Atype])
    ensures { found.new ≡ all_noted found.old (spec.each_type_breaches types.now (mirror.each_type mirror.atype_of parts.now)) }
{
    for part in parts {
        note_atype(found, types, part);
    }
}

#[cycle(note_types)]
#[tactic(auto, using(hdc_written::proofs::FirstBreach::in_order, hdc_written::proofs::TypeMirror::mirrored_types))]
fn note_comma_types(found: &mut Found, types: &Scope<usize>, parts: &[CommaType])
    ensures { found.new ≡ all_noted found.old (spec.each_type_breaches types.now (mirror.each_type mirror.comma_type_of parts.now)) }
{
    for part in parts {
        note_type(found, types, &part.part);
    }
}

#[cycle(note_types)]
#[tactic(auto, using(hdc_written::proofs::FirstBreach::in_order, hdc_written::proofs::TypeMirror::mirrored_types))]
fn note_arrow_types(found: &mut Found, types: &Scope<usize>, parts: &[ArrowType])
    ensures { found.new ≡ all_noted found.old (spec.each_type_breaches types.now (mirror.each_type mirror.arrow_type_of parts.now)) }
{
    for part in parts {
        note_btype(found, types, &part.part);
    }
}

fn note_constructor(found: &mut Found, types: &Scope<usize>, name: &Name, arguments: usize)
    ensures { found.new ≡ all_noted found.old (unless_counted (standing_for name.now.text types.now) 7 arguments name.now.at) }
{
    match types.find(name.text.as_slice()) {
        None => found.note(1, name.at),
        Some(parameters) => {
            if parameters != arguments {
                found.note(7, name.at);
            }
        }
    }
}

/// A data type has each parameter once, and its fields are types over these.
#[tactic(auto, using(hdc_written::proofs::FirstBreach::in_order))]
pub(crate) fn note_data(
    alloc: Global,
    found: &mut Found,
    types: &Scope<usize>,
    part: &Data,
) -> Result<(), AllocError>
    ensures { OnOk result (found.new ≡ all_noted found.old (typed_breaches types.now (top.Data part.now))) }
{
    let params = note_params(alloc, found, part.params.as_slice())?;
    note_fields(alloc, found, types, &params, part.first.fields.as_slice())?;
    note_constructors(alloc, found, types, &params, part.rest.as_slice())
}

/// A synonym has each parameter once, and its meaning is a type over these.
#[tactic(auto, using(hdc_written::proofs::FirstBreach::in_order))]
pub(crate) fn note_synonym(
    alloc: Global,
    found: &mut Found,
    types: &Scope<usize>,
    part: &Synonym,
) -> Result<(), AllocError>
    ensures { OnOk result (found.new ≡ all_noted found.old (typed_breaches types.now (top.Synonym part.now))) }
{
    let params = note_params(alloc, found, part.params.as_slice())?;
    note_meaning(alloc, found, types, &params, &part.meaning)
}

// Each parameter stands once; all of them.
fn note_params<'t>(
    alloc: Global,
    found: &mut Found,
    params: &'t [Name],
) -> Result<NameSet<'t>, AllocError>
    ensures noted { OnOk result (found.new ≡ all_noted found.old (repeated 2 [] params.now)) }
    ensures all { IfOk result (λ set. set ≡ params.now) }
{
    let mut names = Names::new(alloc);
    names.push_all(params)?;
    note_repeated(alloc, found, 2, &names)?;
    NameSet::of(alloc, &names)
}

// A type over these parameters.
#[tactic(auto, using(hdc_written::proofs::FirstBreach::in_order))]
fn note_meaning(
    alloc: Global,
    found: &mut Found,
    types: &Scope<usize>,
    params: &NameSet,
    part: &TypeExp,
) -> Result<(), AllocError>
    ensures { OnOk result (found.new ≡ all_noted found.old (spec.head_breaches types.now params.now (mirror.type_exp_of part.now))) }
{
    note_type(found, types, part);
    let mut names = Names::new(alloc);
    add_type(&mut names, part)?;
    note_outside(found, 8, params, &names);
    Ok(())
}

#[tactic(auto, using(hdc_written::proofs::FirstBreach::in_order))]
fn note_field(
    alloc: Global,
    found: &mut Found,
    types: &Scope<usize>,
    params: &NameSet,
    part: &Atype,
) -> Result<(), AllocError>
    ensures { OnOk result (found.new ≡ all_noted found.old (spec.head_breaches types.now params.now (mirror.atype_of part.now))) }
{
    note_atype(found, types, part);
    let mut names = Names::new(alloc);
    add_atype(&mut names, part)?;
    note_outside(found, 8, params, &names);
    Ok(())
}

fn note_fields(
    alloc: Global,
    found: &mut Found,
    types: &Scope<usize>,
    params: &NameSet,
    parts: &[Atype],
) -> Result<(), AllocError>
    ensures { OnOk result (found.new ≡ all_noted found.old (spec.field_breaches types.now params.now parts.now)) }
{
    for part in parts {
        note_field(alloc, found, types, params, part)?;
    }
    Ok(())
}

fn note_constructors(
    alloc: Global,
    found: &mut Found,
    types: &Scope<usize>,
    params: &NameSet,
    parts: &[BarConstr],
) -> Result<(), AllocError>
    ensures { OnOk result (found.new ≡ all_noted found.old (spec.constructor_breaches types.now params.now parts.now)) }
{
    for part in parts {
        note_fields(alloc, found, types, params, part.constr.fields.as_slice())?;
    }
    Ok(())
}
