//! Types are resolved.

ghost use Rattle.std.specs.Prelude.{◌≡◌, OnOk, IfOk};
ghost use Rattle.hdc_resolved.specs.Mirror.{type_tree_of};
ghost use Rattle.hdc_resolved.specs.Syntax.{TypeTree};
ghost use Rattle.hdc_written.specs.Scopes.{standing_for};
ghost use Rattle.hdc_written.specs.TypeMirror as mirror;
ghost use Rattle.hdc_type_names.specs.TypeLists as lists;
ghost use Rattle.hdc_type_names.specs.ResolvedTypes as spec;

use crate::type_name::TypeName;
use hdc_resolved::Type;
use hdc_tree::{ArrowType, Atype, Btype, CommaType, Name, TypeExp};
use hdc_written::Scope;
use sqlite_items::{Boxed, Items};
use std::alloc::{AllocError, Global};

/// The type of a field, by what the names of types stand for and by the numbers of variables.
///
/// # Errors
///
/// `AllocError` where memory is short.
pub fn resolve_field(
    alloc: Global,
    names: &Scope<'_, TypeName>,
    variables: &Scope<'_, u32>,
    part: &Atype,
) -> Result<Type, AllocError>
    ensures { IfOk result (λ t. type_tree_of t ≡ spec.resolved_type names.now variables.now (mirror.atype_of part.now)) }
{
    resolve_atype(part, alloc, names, variables)
}

/// A type, by what the names of types stand for and by the numbers of variables.
#[cycle(resolve_types)]
#[tactic(auto, using(crate::proofs::TypeLists::types_in_order, hdc_written::proofs::TypeMirror::mirrored_types))]
pub(crate) fn resolve_type(
    part: &TypeExp,
    alloc: Global,
    names: &Scope<'_, TypeName>,
    variables: &Scope<'_, u32>,
) -> Result<Type, AllocError>
    ensures { IfOk result (λ t. type_tree_of t ≡ spec.resolved_type names.now variables.now (mirror.type_exp_of part.now)) }
{
    let behind = resolve_results(part.rest.as_slice(), alloc, names, variables)?;
    let first = resolve_btype(&part.first, alloc, names, variables)?;
    arrow(alloc, first, behind)
}

// What stands behind the first type, from its end.
#[cycle(resolve_types)]
#[tactic(auto, using(crate::proofs::TypeLists::types_in_order, hdc_written::proofs::TypeMirror::mirrored_types))]
fn resolve_results(
    parts: &[ArrowType],
    alloc: Global,
    names: &Scope<'_, TypeName>,
    variables: &Scope<'_, u32>,
) -> Result<Option<Type>, AllocError>
    ensures { IfOk result (λ r. (t : TypeTree) → lists.arrow t r ≡ spec.arrows t (spec.each_resolved names.now variables.now (mirror.each_type mirror.arrow_type_of parts.now))) }
{
    let mut behind = None;
    let mut count = parts.len();
    while count > 0 {
        count -= 1;
        let argument = resolve_btype(&parts[count].part, alloc, names, variables)?;
        let last = arrow(alloc, argument, behind)?;
        behind = Some(last);
    }
    Ok(behind)
}

#[cycle(resolve_types)]
#[tactic(auto, using(crate::proofs::TypeLists::types_in_order, hdc_resolved::proofs::Mirror::mirrored_types, hdc_written::proofs::TypeMirror::mirrored_types))]
fn resolve_atype(
    part: &Atype,
    alloc: Global,
    names: &Scope<'_, TypeName>,
    variables: &Scope<'_, u32>,
) -> Result<Type, AllocError>
    ensures { IfOk result (λ t. type_tree_of t ≡ spec.resolved_type names.now variables.now (mirror.atype_of part.now)) }
{
    match part {
        Atype::Con(name) => Ok(applied(names, name, Items::new(alloc))),
        Atype::Var(name) => Ok(numbered(alloc, variables, name)),
        Atype::Unit(_open_at, _close_at) => Ok(Type::Tuple(Items::new(alloc))),
        Atype::Paren(_open_at, inner, _close_at) => {
            resolve_type(inner.get(), alloc, names, variables)
        }
        Atype::Tuple(_open_at, first, rest, _close_at) => {
            let mut members = Items::new(alloc);
            let first_member = resolve_type(first.get(), alloc, names, variables)?;
            members.push(first_member)?;
            add_comma_types(rest.as_slice(), alloc, &mut members, names, variables)?;
            Ok(Type::Tuple(members))
        }
        Atype::List(_open_at, inner, _close_at) => {
            let element = resolve_type(inner.get(), alloc, names, variables)?;
            Ok(Type::List(Boxed::new(alloc, element)?))
        }
    }
}

#[cycle(resolve_types)]
#[tactic(auto, using(crate::proofs::TypeLists::types_in_order, hdc_written::proofs::TypeMirror::mirrored_types))]
fn resolve_btype(
    part: &Btype,
    alloc: Global,
    names: &Scope<'_, TypeName>,
    variables: &Scope<'_, u32>,
) -> Result<Type, AllocError>
    ensures { IfOk result (λ t. type_tree_of t ≡ spec.resolved_type names.now variables.now (mirror.btype_of part.now)) }
{
    match part {
        Btype::Plain(inner) => resolve_atype(inner, alloc, names, variables),
        Btype::Applied(name, first, rest) => {
            let mut arguments = Items::new(alloc);
            let first_argument = resolve_atype(first, alloc, names, variables)?;
            arguments.push(first_argument)?;
            add_atypes(rest.as_slice(), alloc, &mut arguments, names, variables)?;
            Ok(applied(names, name, arguments))
        }
    }
}

// The same of each of these types.
#[cycle(resolve_types)]
#[tactic(auto, using(crate::proofs::TypeLists::types_in_order, hdc_written::proofs::TypeMirror::mirrored_types))]
fn add_atypes(
    parts: &[Atype],
    alloc: Global,
    types: &mut Items<Type>,
    names: &Scope<'_, TypeName>,
    variables: &Scope<'_, u32>,
) -> Result<(), AllocError>
    ensures { OnOk result (lists.types_of types.new ≡ lists.joined (lists.types_of types.old) (spec.each_resolved names.now variables.now (mirror.each_type mirror.atype_of parts.now))) }
{
    for part in parts {
        let next_type = resolve_atype(part, alloc, names, variables)?;
        types.push(next_type)?;
    }
    Ok(())
}

#[cycle(resolve_types)]
#[tactic(auto, using(crate::proofs::TypeLists::types_in_order, hdc_written::proofs::TypeMirror::mirrored_types))]
fn add_comma_types(
    parts: &[CommaType],
    alloc: Global,
    types: &mut Items<Type>,
    names: &Scope<'_, TypeName>,
    variables: &Scope<'_, u32>,
) -> Result<(), AllocError>
    ensures { OnOk result (lists.types_of types.new ≡ lists.joined (lists.types_of types.old) (spec.each_resolved names.now variables.now (mirror.each_type mirror.comma_type_of parts.now))) }
{
    for part in parts {
        let next_type = resolve_type(&part.part, alloc, names, variables)?;
        types.push(next_type)?;
    }
    Ok(())
}

// A type with `->` and a result behind it, if there is one.
#[tactic(auto, using(hdc_resolved::proofs::Mirror::mirrored_types))]
fn arrow(alloc: Global, argument: Type, behind: Option<Type>) -> Result<Type, AllocError>
    ensures { IfOk result (λ t. type_tree_of t ≡ lists.arrow (type_tree_of argument) behind) }
{
    match behind {
        None => Ok(argument),
        Some(last) => Ok(Type::Fun(Boxed::new(alloc, argument)?, Boxed::new(alloc, last)?)),
    }
}

// What a name stands for, with arguments.
#[tactic(auto, using(hdc_resolved::proofs::Mirror::mirrored_types))]
fn applied(names: &Scope<'_, TypeName>, name: &Name, arguments: Items<Type>) -> Type
    ensures { type_tree_of result ≡ spec.applied (standing_for name.now.text names.now) (lists.types_of arguments) }
{
    match names.find(name.text.as_slice()) {
        None => Type::Unknown(arguments),
        Some(TypeName::Int) => Type::Int,
        Some(TypeName::Char) => Type::Char,
        Some(TypeName::Data(number)) => Type::Data(number, arguments),
        Some(TypeName::Synonym(number)) => Type::Synonym(number, arguments),
    }
}

#[tactic(auto, using(hdc_resolved::proofs::Mirror::mirrored_types))]
fn numbered(alloc: Global, variables: &Scope<'_, u32>, name: &Name) -> Type
    ensures { type_tree_of result ≡ spec.numbered (standing_for name.now.text variables.now) }
{
    match variables.find(name.text.as_slice()) {
        Some(number) => Type::Var(number),
        None => Type::Unknown(Items::new(alloc)),
    }
}
