//! Synonyms that only rename others.

ghost use Rattle.std.specs.Prelude.{◌≡◌, ℕ, map, slice_index_or, IfOk, IfSome, IsTrue};
ghost use Rattle.hdc_resolved.specs.Mirror.{synonym_of, type_tree_of, types};
ghost use Rattle.hdc_resolved.specs.Syntax.{type_variable};
ghost use Rattle.hdc_datas.specs.Settled as spec;

use crate::meanings::{end_at, params_of};
use crate::projection::root_of;
use hdc_resolved::{Synonym, Type};
use hdc_type_names::place_of;
use sqlite_items::Items;
use std::alloc::{AllocError, Global};

/// For each synonym the end of its chain of renamings, where each comes in the order behind the one that it renames.
pub(crate) fn ends_of(
    alloc: Global,
    synonyms: &[Synonym],
    projections: &[Option<u32>],
    order: &[u32],
) -> Result<Items<u32>, AllocError>
    requires unfolds { spec.EachUnfolds (map synonym_of synonyms.now) }
    requires projections { spec.AreProjections (map synonym_of synonyms.now) projections.now }
    ensures { IfOk result (λ ends. spec.AreEnds (map synonym_of synonyms.now) ends) }
{
    let mut ends = own_numbers(alloc, synonyms.len())?;
    for number in order {
        set_end(&mut ends, synonyms, projections, *number);
    }
    Ok(ends)
}

// Each number at its own place.
fn own_numbers(alloc: Global, size: usize) -> Result<Items<u32>, AllocError>
    ensures { IfOk result (λ numbers. (n : ℕ) → slice_index_or numbers n n ≡ n) }
{
    let mut numbers = Items::new(alloc);
    for number in 0..size {
        numbers.push(place_of(number)?)?;
    }
    Ok(numbers)
}

// One that renames another has the same end as that.
fn set_end(ends: &mut Items<u32>, synonyms: &[Synonym], projections: &[Option<u32>], number: u32)
    requires unfolds { spec.EachUnfolds (map synonym_of synonyms.now) }
    requires projections { spec.AreProjections (map synonym_of synonyms.now) projections.now }
    requires ends { spec.AreEnds (map synonym_of synonyms.now) ends.old }
    ensures { spec.AreEnds (map synonym_of synonyms.now) ends.new }
{
    if let Some(renamed) = renamed_by(synonyms, projections, number)
        && (number as usize) < ends.len()
    {
        let end = end_at(ends.as_slice(), renamed);
        ends.set(number as usize, end);
    }
}

// The synonym that one renames, if it does no more than that.
fn renamed_by(synonyms: &[Synonym], projections: &[Option<u32>], number: u32) -> Option<u32>
    requires unfolds { spec.EachUnfolds (map synonym_of synonyms.now) }
    requires projections { spec.AreProjections (map synonym_of synonyms.now) projections.now }
    ensures { IfSome result (λ renamed. spec.Renames (map synonym_of synonyms.now) number renamed) }
{
    let synonym = match synonyms.get(number as usize) {
        Some(synonym) => synonym,
        None => return None,
    };
    let root = root_of(projections, &synonym.meaning);
    match root {
        Type::Synonym(renamed, arguments)
            if are_parameters(arguments.as_slice(), synonym.params)
                && params_of(synonyms, *renamed) == synonym.params => { Some(*renamed) }
        _ => None,
    }
}

// Whether types are all parameters, so many, in their order.
fn are_parameters(parts: &[Type], count: u32) -> bool
    ensures { IsTrue result → types (map type_tree_of parts.now) ≡ spec.variables_from 0 count }
{
    if parts.len() != count as usize {
        return false;
    }
    for (place, part) in parts.iter().enumerate() {
        if !is_variable(part, place) {
            return false;
        }
    }
    true
}

fn is_variable(part: &Type, place: usize) -> bool
    ensures { IsTrue result → type_tree_of part.now ≡ type_variable place }
{
    match part {
        Type::Var(number) => *number as usize == place,
        _ => false,
    }
}
