//! The variables of types.

ghost use Rattle.std.specs.Prelude.{◌≡◌, ◌++◌, OnOk};
ghost use Rattle.hdc_written.specs.TypeMirror as mirror;
ghost use Rattle.hdc_rules.specs.Types as spec;

use crate::names::Names;
use hdc_tree::{ArrowType, Atype, Btype, CommaType, TypeExp};
use std::alloc::AllocError;

/// The variables of a type.
#[cycle(add_types)]
#[tactic(auto, using(crate::proofs::Listing::in_order, hdc_written::proofs::TypeMirror::mirrored_types))]
pub(crate) fn add_type<'t>(names: &mut Names<'t>, part: &'t TypeExp) -> Result<(), AllocError>
    ensures { OnOk result (names.new ≡ names.old ++ spec.type_variables (mirror.type_exp_of part.now)) }
{
    add_btype(names, &part.first)?;
    add_arrow_types(names, part.rest.as_slice())
}

/// The variables of a type that may be an argument.
#[cycle(add_types)]
#[tactic(auto, using(crate::proofs::Listing::in_order, hdc_written::proofs::TypeMirror::mirrored_types))]
pub(crate) fn add_atype<'t>(names: &mut Names<'t>, part: &'t Atype) -> Result<(), AllocError>
    ensures { OnOk result (names.new ≡ names.old ++ spec.type_variables (mirror.atype_of part.now)) }
{
    match part {
        Atype::Con(_name) => Ok(()),
        Atype::Var(name) => names.push(name),
        Atype::Unit(_open_at, _close_at) => Ok(()),
        Atype::Paren(_open_at, inner, _close_at) => add_type(names, inner.get()),
        Atype::Tuple(_open_at, first, rest, _close_at) => {
            add_type(names, first.get())?;
            add_comma_types(names, rest.as_slice())
        }
        Atype::List(_open_at, inner, _close_at) => add_type(names, inner.get()),
    }
}

#[cycle(add_types)]
#[tactic(auto, using(crate::proofs::Listing::in_order, hdc_written::proofs::TypeMirror::mirrored_types))]
fn add_btype<'t>(names: &mut Names<'t>, part: &'t Btype) -> Result<(), AllocError>
    ensures { OnOk result (names.new ≡ names.old ++ spec.type_variables (mirror.btype_of part.now)) }
{
    match part {
        Btype::Plain(inner) => add_atype(names, inner),
        Btype::Applied(_name, first, rest) => {
            add_atype(names, first)?;
            add_atypes(names, rest.as_slice())
        }
    }
}

#[cycle(add_types)]
#[tactic(auto, using(crate::proofs::Listing::in_order, hdc_written::proofs::TypeMirror::mirrored_types))]
fn add_atypes<'t>(names: &mut Names<'t>, parts: &'t [Atype]) -> Result<(), AllocError>
    ensures { OnOk result (names.new ≡ names.old ++ spec.each_type_variables (mirror.each_type mirror.atype_of parts.now)) }
{
    for part in parts {
        add_atype(names, part)?;
    }
    Ok(())
}

#[cycle(add_types)]
#[tactic(auto, using(crate::proofs::Listing::in_order, hdc_written::proofs::TypeMirror::mirrored_types))]
fn add_comma_types<'t>(names: &mut Names<'t>, parts: &'t [CommaType]) -> Result<(), AllocError>
    ensures { OnOk result (names.new ≡ names.old ++ spec.each_type_variables (mirror.each_type mirror.comma_type_of parts.now)) }
{
    for part in parts {
        add_type(names, &part.part)?;
    }
    Ok(())
}

#[cycle(add_types)]
#[tactic(auto, using(crate::proofs::Listing::in_order, hdc_written::proofs::TypeMirror::mirrored_types))]
fn add_arrow_types<'t>(names: &mut Names<'t>, parts: &'t [ArrowType]) -> Result<(), AllocError>
    ensures { OnOk result (names.new ≡ names.old ++ spec.each_type_variables (mirror.each_type mirror.arrow_type_of parts.now)) }
{
    for part in parts {
        add_btype(names, &part.part)?;
    }
    Ok(())
}
