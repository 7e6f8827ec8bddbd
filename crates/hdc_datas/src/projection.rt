//! Synonyms that mean one of their arguments.

ghost use Rattle.std.specs.Prelude.{◌≡◌, ◌∷◌, [], List, map, slice_index_or, None, IfOk, IfSome};
ghost use Rattle.hdc_resolved.specs.Mirror.{synonym_of, type_tree_of};
ghost use Rattle.hdc_resolved.specs.Syntax.{SynonymOf};
ghost use Rattle.hdc_datas.specs.Expanded.{expanded};
ghost use Rattle.hdc_datas.specs.Settled as spec;
ghost use Rattle.hdc_value.specs.declared.ty.TypeNode.TheVariants as node;

use hdc_resolved::{Synonym, Type};
use sqlite_items::Items;
use std::alloc::{AllocError, Global};

/// For each synonym that means one of its arguments the place of this one, where each comes in the order behind those that
/// it names.
pub(crate) fn projections_of(
    alloc: Global,
    synonyms: &[Synonym],
    order: &[u32],
) -> Result<Items<Option<u32>>, AllocError>
    requires { spec.EachUnfolds (map synonym_of synonyms.now) }
    ensures { IfOk result (λ projections. spec.AreProjections (map synonym_of synonyms.now) projections) }
{
    let mut projections = no_projections(alloc, synonyms.len())?;
    for number in order {
        set_projection(&mut projections, synonyms, *number);
    }
    Ok(projections)
}

fn no_projections(alloc: Global, size: usize) -> Result<Items<Option<u32>>, AllocError>
    ensures { IfOk result (λ projections. (ss : List SynonymOf) → spec.AreProjections ss projections) }
{
    let mut projections = Items::new(alloc);
    for _ in 0..size {
        projections.push(None)?;
    }
    Ok(projections)
}

fn set_projection(projections: &mut Items<Option<u32>>, synonyms: &[Synonym], number: u32)
    requires unfolds { spec.EachUnfolds (map synonym_of synonyms.now) }
    requires projections { spec.AreProjections (map synonym_of synonyms.now) projections.old }
    ensures { spec.AreProjections (map synonym_of synonyms.now) projections.new }
{
    if let Some(place) = projection_of(projections.as_slice(), synonyms, number)
        && (number as usize) < projections.len()
    {
        projections.set(number as usize, Some(place));
    }
}

// The place of the argument that a synonym means, if it means one.
fn projection_of(projections: &[Option<u32>], synonyms: &[Synonym], number: u32) -> Option<u32>
    requires unfolds { spec.EachUnfolds (map synonym_of synonyms.now) }
    requires projections { spec.AreProjections (map synonym_of synonyms.now) projections.now }
    ensures { IfSome result (λ place. spec.meaning_of (map synonym_of synonyms.now) number ≡ node.Var place ∷ []) }
{
    match synonyms.get(number as usize) {
        Some(synonym) => variable_of(root_of(projections, &synonym.meaning)),
        None => None,
    }
}

fn variable_of(part: &Type) -> Option<u32>
    ensures { IfSome result (λ place. (ss : List SynonymOf) → expanded ss (type_tree_of part.now) ≡ node.Var place ∷ []) }
{
    match part {
        Type::Var(place) => Some(*place),
        _ => None,
    }
}

/// A type, or where its root is a synonym that means an argument, this argument, and so on.
pub(crate) fn root_of<'t>(projections: &[Option<u32>], part: &'t Type) -> &'t Type
    ensures { (ss : List SynonymOf) → spec.AreProjections ss projections.now → expanded ss (type_tree_of result.now) ≡ expanded ss (type_tree_of part.now) }
{
    let mut root = part;
    while let Type::Synonym(number, arguments) = root {
        match projection_at(projections, *number) {
            Some(place) if (place as usize) < arguments.len() => {
                root = &arguments.as_slice()[place as usize];
            }
            _ => return root,
        }
    }
    root
}

fn projection_at(projections: &[Option<u32>], number: u32) -> Option<u32>
    ensures { result ≡ slice_index_or projections.now number None }
{
    match projections.get(number as usize) {
        Some(projection) => *projection,
        None => None,
    }
}
