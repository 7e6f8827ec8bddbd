//! The types of declarations are built.

ghost use Rattle.std.specs.Prelude.{◌≡◌, OnOk, IfOk};
ghost use Rattle.hdc_written.specs.TypeMirror as mirror;
ghost use Rattle.hdc_regular.specs.Building.{built, each_built};
ghost use Rattle.hdc_regular.specs.Built.{built_declaration};
ghost use Rattle.hdc_regular.specs.Named.{body_of};
ghost use Rattle.hdc_regular.specs.PartMirror.{parts_of, joined};
ghost use Rattle.hdc_regular.specs.Resolving.{params_from, data_fields, fields_behind, sound_synonym};

use crate::building::{add_atypes, build_type};
use crate::names::bind_params;
use crate::outline::Outline;
use crate::part::Part;
use crate::standing::Standing;
use hdc_tree::{BarConstr, Data, Synonym, Top};
use hdc_written::Scope;
use sqlite_items::Items;
use std::alloc::{AllocError, Global};

/// The fields of a data type, or the meaning of a sound synonym.
pub(crate) fn build_body(
    alloc: Global,
    outlines: &[Outline],
    names: &Scope<Standing>,
    is_sound: bool,
    part: &Top,
) -> Result<Items<Part>, AllocError>
    ensures { IfOk result (λ parts. parts_of parts ≡ body_of (built_declaration outlines.now names.now is_sound part.now)) }
{
    match part {
        Top::Data(declared) => build_fields(alloc, outlines, names, declared),
        Top::Synonym(synonym) => build_meaning(alloc, outlines, names, is_sound, synonym),
        Top::Empty => Ok(Items::new(alloc)),
        Top::Fixity(_fixity) => Ok(Items::new(alloc)),
        Top::Signature(_first, _rest, _at, _signature) => Ok(Items::new(alloc)),
        Top::Equation(_head, _rhs) => Ok(Items::new(alloc)),
    }
}

#[tactic(auto, using(crate::proofs::PartMirror::parts_in_order))]
fn build_meaning(
    alloc: Global,
    outlines: &[Outline],
    names: &Scope<Standing>,
    is_sound: bool,
    part: &Synonym,
) -> Result<Items<Part>, AllocError>
    ensures { IfOk result (λ parts. parts_of parts ≡ body_of (sound_synonym is_sound (built outlines.now names.now (params_from 0 part.now.params) (mirror.type_exp_of part.now.meaning)))) }
{
    let mut parts = Items::new(alloc);
    if !is_sound {
        return Ok(parts);
    }
    let params = bind_params(alloc, part.params.as_slice())?;
    let meaning = build_type(&part.meaning, alloc, outlines, names, &params)?;
    parts.push(meaning)?;
    Ok(parts)
}

#[tactic(auto, using(crate::proofs::PartMirror::parts_in_order, crate::proofs::Pushing::built_both))]
fn build_fields(
    alloc: Global,
    outlines: &[Outline],
    names: &Scope<Standing>,
    part: &Data,
) -> Result<Items<Part>, AllocError>
    ensures { IfOk result (λ parts. parts_of parts ≡ each_built outlines.now names.now (params_from 0 part.now.params) (data_fields part.now)) }
{
    let params = bind_params(alloc, part.params.as_slice())?;
    let mut parts = Items::new(alloc);
    add_atypes(
        part.first.fields.as_slice(),
        alloc,
        &mut parts,
        outlines,
        names,
        &params,
    )?;
    add_fields_behind(
        alloc,
        &mut parts,
        outlines,
        names,
        &params,
        part.rest.as_slice(),
    )?;
    Ok(parts)
}

#[tactic(auto, using(crate::proofs::PartMirror::parts_in_order, crate::proofs::Pushing::built_both))]
fn add_fields_behind(
    alloc: Global,
    built: &mut Items<Part>,
    outlines: &[Outline],
    names: &Scope<Standing>,
    params: &Scope<u32>,
    parts: &[BarConstr],
) -> Result<(), AllocError>
    ensures { OnOk result (parts_of built.new ≡ joined (parts_of built.old) (each_built outlines.now names.now params.now (mirror.each_type mirror.atype_of (fields_behind parts.now)))) }
{
    for part in parts {
        add_atypes(
            part.constr.fields.as_slice(),
            alloc,
            built,
            outlines,
            names,
            params,
        )?;
    }
    Ok(())
}
