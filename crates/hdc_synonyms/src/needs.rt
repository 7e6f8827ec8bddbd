//! What synonyms need.

ghost use Rattle.std.specs.Prelude.{◌≡◌, ◌++◌, [], OnOk, IfOk};
ghost use Rattle.hdc_written.specs.Scopes.{standing_for};
ghost use Rattle.hdc_written.specs.TypeMirror as mirror;
ghost use Rattle.hdc_synonyms.specs.Synonyms as spec;

use hdc_tree::{ArrowType, Atype, Btype, CommaType, Name, Top, TypeExp};
use hdc_written::Scope;
use sqlite_items::Items;
use std::alloc::{AllocError, Global};

/// The numbers of the declarations that a declaration needs.
pub(crate) fn needs_of_top(
    alloc: Global,
    declared: &Scope<u32>,
    part: &Top,
) -> Result<Items<u32>, AllocError>
    ensures { IfOk result (λ needs. needs ≡ spec.top_needs declared.now part.now) }
{
    let mut needs = Items::new(alloc);
    match part {
        Top::Synonym(synonym) => add_type(&mut needs, declared, &synonym.meaning)?,
        Top::Empty => {}
        Top::Data(_data) => {}
        Top::Fixity(_fixity) => {}
        Top::Signature(_first, _rest, _at, _signature) => {}
        Top::Equation(_head, _rhs) => {}
    }
    Ok(needs)
}

#[cycle(add_types)]
#[tactic(auto, using(crate::proofs::Listing::in_order, hdc_written::proofs::TypeMirror::mirrored_types))]
fn add_type(needs: &mut Items<u32>, declared: &Scope<u32>, part: &TypeExp) -> Result<(), AllocError>
    ensures { OnOk result (needs.new ≡ needs.old ++ spec.type_needs declared.now (mirror.type_exp_of part.now)) }
{
    add_btype(needs, declared, &part.first)?;
    add_arrow_types(needs, declared, part.rest.as_slice())
}

#[cycle(add_types)]
#[tactic(auto, using(crate::proofs::Listing::in_order, hdc_written::proofs::TypeMirror::mirrored_types))]
fn add_atype(needs: &mut Items<u32>, declared: &Scope<u32>, part: &Atype) -> Result<(), AllocError>
    ensures { OnOk result (needs.new ≡ needs.old ++ spec.type_needs declared.now (mirror.atype_of part.now)) }
{
    match part {
        Atype::Con(name) => add_constructor(needs, declared, name),
        Atype::Var(_name) => Ok(()),
        Atype::Unit(_open_at, _close_at) => Ok(()),
        Atype::Paren(_open_at, inner, _close_at) => add_type(needs, declared, inner.get()),
        Atype::Tuple(_open_at, first, rest, _close_at) => {
            add_type(needs, declared, first.get())?;
            add_comma_types(needs, declared, rest.as_slice())
        }
        Atype::List(_open_at, inner, _close_at) => add_type(needs, declared, inner.get()),
    }
}

#[cycle(add_types)]
#[tactic(auto, using(crate::proofs::Listing::in_order, hdc_written::proofs::TypeMirror::mirrored_types))]
fn add_btype(needs: &mut Items<u32>, declared: &Scope<u32>, part: &Btype) -> Result<(), AllocError>
    ensures { OnOk result (needs.new ≡ needs.old ++ spec.type_needs declared.now (mirror.btype_of part.now)) }
{
    match part {
        Btype::Plain(inner) => add_atype(needs, declared, inner),
        Btype::Applied(name, first, rest) => {
            add_constructor(needs, declared, name)?;
            add_atype(needs, declared, first)?;
            add_atypes(needs, declared, rest.as_slice())
        }
    }
}

#[cycle(add_types)]
#[tactic(auto, using(crate::proofs::Listing::in_order, hdc_written::proofs::TypeMirror::mirrored_types))]
fn add_atypes(
    needs: &mut Items<u32>,
    declared: &Scope<u32>,
    parts: &[Atype],
) -> Result<(), AllocError>
    ensures { OnOk result (needs.new ≡ needs.old ++ spec.each_type_needs declared.now (mirror.each_type mirror.atype_of parts.now)) }
{
    for part in parts {
        add_atype(needs, declared, part)?;
    }
    Ok(())
}

#[cycle(add_types)]
#[tactic(auto, using(crate::proofs::Listing::in_order, hdc_written::proofs::TypeMirror::mirrored_types))]
fn add_comma_types(
    needs: &mut Items<u32>,
    declared: &Scope<u32>,
    parts: &[CommaType],
) -> Result<(), AllocError>
    ensures { OnOk result (needs.new ≡ needs.old ++ spec.each_type_needs declared.now (mirror.each_type mirror.comma_type_of parts.now)) }
{
    for part in parts {
        add_type(needs, declared, &part.part)?;
    }
    Ok(())
}

#[cycle(add_types)]
#[tactic(auto, using(crate::proofs::Listing::in_order, hdc_written::proofs::TypeMirror::mirrored_types))]
fn add_arrow_types(
    needs: &mut Items<u32>,
    declared: &Scope<u32>,
    parts: &[ArrowType],
) -> Result<(), AllocError>
    ensures { OnOk result (needs.new ≡ needs.old ++ spec.each_type_needs declared.now (mirror.each_type mirror.arrow_type_of parts.now)) }
{
    for part in parts {
        add_btype(needs, declared, &part.part)?;
    }
    Ok(())
}

// The declaration of a type of this name, if there is one.
fn add_constructor(
    needs: &mut Items<u32>,
    declared: &Scope<u32>,
    name: &Name,
) -> Result<(), AllocError>
    ensures { OnOk result (needs.new ≡ needs.old ++ spec.number_of (standing_for name.now.text declared.now)) }
{
    match declared.find(name.text.as_slice()) {
        Some(number) => needs.push(number),
        None => Ok(()),
    }
}
