//! The order of synonyms.

ghost use Rattle.std.specs.Prelude.{◌≡◌, ◌<◌, ℕ, false, length, map, slice_index_or, IfOk, IfNone, IfSome, IsTrue};
ghost use Rattle.hdc_resolved.specs.Mirror.{synonym_of};
ghost use Rattle.hdc_datas.specs.Needs.{NoSynonymReachesItself};
ghost use Rattle.hdc_datas.specs.Settled as spec;

use crate::graph::synonym_graph;
use hdc_graph::find_components;
use hdc_resolved::Synonym;
use hdc_type_names::place_of;
use sqlite_items::Items;
use std::alloc::{AllocError, Global};

/// All synonyms, each behind those that it names; or none where one reaches itself.
pub(crate) fn order_of(
    alloc: Global,
    synonyms: &[Synonym],
) -> Result<Option<Items<u32>>, AllocError>
    ensures order { IfOk result (λ found. IfSome found (λ _. spec.EachUnfolds (map synonym_of synonyms.now))) }
    ensures none { IfOk result (λ found. IfNone found (NoSynonymReachesItself (map synonym_of synonyms.now) → ⊥)) }
{
    if synonyms.len() > u32::MAX as usize {
        return Err(AllocError);
    }
    let graph = synonym_graph(alloc, synonyms)?;
    let components = find_components(alloc, &graph)?;
    if is_one_set(components.cyclic.as_slice()) {
        return Ok(None);
    }
    let order = by_number(alloc, components.numbers.as_slice())?;
    Ok(Some(order))
}

fn is_one_set(flags: &[bool]) -> bool
    ensures set { IsTrue result → (n : ℕ) × (n < length flags.now) × IsTrue (slice_index_or flags.now n false) }
    ensures unset { result ≡ false → (n : ℕ) → slice_index_or flags.now n false ≡ false }
{
    for flag in flags {
        if *flag {
            return true;
        }
    }
    false
}

// Each node at the place of its number.
fn by_number(alloc: Global, numbers: &[usize]) -> Result<Items<u32>, AllocError> {
    let mut order = zeros(alloc, numbers.len())?;
    for (node, number) in numbers.iter().enumerate() {
        let node_number = place_of(node)?;
        if *number < order.len() {
            order.set(*number, node_number);
        }
    }
    Ok(order)
}

fn zeros(alloc: Global, size: usize) -> Result<Items<u32>, AllocError> {
    let mut order = Items::new(alloc);
    for _ in 0..size {
        order.push(0)?;
    }
    Ok(order)
}
