//! The variables of types are numbered in the order in which they are met.

ghost use Rattle.std.specs.Prelude.{◌≡◌, OnOk};
ghost use Rattle.hdc_written.specs.Scopes.{standing_for};
ghost use Rattle.hdc_written.specs.TypeMirror as mirror;
ghost use Rattle.hdc_type_names.specs.Variables as spec;

use crate::parameters::place_of;
use hdc_tree::{ArrowType, Atype, Btype, CommaType, Name, TypeExp};
use hdc_written::Scope;
use std::alloc::AllocError;

/// The variables of a type, behind those that were met before.
#[cycle(meet_types)]
#[tactic(auto, using(hdc_written::proofs::TypeMirror::mirrored_types))]
pub(crate) fn meet_type<'t>(
    variables: &mut Scope<'t, u32>,
    part: &'t TypeExp,
) -> Result<(), AllocError>
    ensures { OnOk result (variables.new ≡ spec.with_variables (mirror.type_exp_of part.now) variables.old) }
{
    meet_btype(variables, &part.first)?;
    meet_arrow_types(variables, part.rest.as_slice())
}

#[cycle(meet_types)]
#[tactic(auto, using(hdc_written::proofs::TypeMirror::mirrored_types))]
fn meet_atype<'t>(variables: &mut Scope<'t, u32>, part: &'t Atype) -> Result<(), AllocError>
    ensures { OnOk result (variables.new ≡ spec.with_variables (mirror.atype_of part.now) variables.old) }
{
    match part {
        Atype::Con(_name) => Ok(()),
        Atype::Var(name) => meet_variable(variables, name),
        Atype::Unit(_open_at, _close_at) => Ok(()),
        Atype::Paren(_open_at, inner, _close_at) => meet_type(variables, inner.get()),
        Atype::Tuple(_open_at, first, rest, _close_at) => {
            meet_type(variables, first.get())?;
            meet_comma_types(variables, rest.as_slice())
        }
        Atype::List(_open_at, inner, _close_at) => meet_type(variables, inner.get()),
    }
}

#[cycle(meet_types)]
#[tactic(auto, using(hdc_written::proofs::TypeMirror::mirrored_types))]
fn meet_btype<'t>(variables: &mut Scope<'t, u32>, part: &'t Btype) -> Result<(), AllocError>
    ensures { OnOk result (variables.new ≡ spec.with_variables (mirror.btype_of part.now) variables.old) }
{
    match part {
        Btype::Plain(inner) => meet_atype(variables, inner),
        Btype::Applied(_name, first, rest) => {
            meet_atype(variables, first)?;
            meet_atypes(variables, rest.as_slice())
        }
    }
}

#[cycle(meet_types)]
#[tactic(auto, using(hdc_written::proofs::TypeMirror::mirrored_types))]
fn meet_atypes<'t>(variables: &mut Scope<'t, u32>, parts: &'t [Atype]) -> Result<(), AllocError>
    ensures { OnOk result (variables.new ≡ spec.with_each_variables (mirror.each_type mirror.atype_of parts.now) variables.old) }
{
    for part in parts {
        meet_atype(variables, part)?;
    }
    Ok(())
}

#[cycle(meet_types)]
#[tactic(auto, using(hdc_written::proofs::TypeMirror::mirrored_types))]
fn meet_comma_types<'t>(
    variables: &mut Scope<'t, u32>,
    parts: &'t [CommaType],
) -> Result<(), AllocError>
    ensures { OnOk result (variables.new ≡ spec.with_each_variables (mirror.each_type mirror.comma_type_of parts.now) variables.old) }
{
    for part in parts {
        meet_type(variables, &part.part)?;
    }
    Ok(())
}

#[cycle(meet_types)]
#[tactic(auto, using(hdc_written::proofs::TypeMirror::mirrored_types))]
fn meet_arrow_types<'t>(
    variables: &mut Scope<'t, u32>,
    parts: &'t [ArrowType],
) -> Result<(), AllocError>
    ensures { OnOk result (variables.new ≡ spec.with_each_variables (mirror.each_type mirror.arrow_type_of parts.now) variables.old) }
{
    for part in parts {
        meet_btype(variables, &part.part)?;
    }
    Ok(())
}

fn meet_variable<'t>(variables: &mut Scope<'t, u32>, name: &'t Name) -> Result<(), AllocError>
    ensures { OnOk result (variables.new ≡ spec.met (standing_for name.now.text variables.old) name.now.text variables.old) }
{
    match variables.find(name.text.as_slice()) {
        Some(_number) => Ok(()),
        None => {
            let number = place_of(variables.size())?;
            variables.bind(name.text.as_slice(), number)
        }
    }
}
