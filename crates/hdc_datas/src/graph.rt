//! Which synonyms name which.

ghost use Rattle.std.specs.Prelude.{◌≡◌, ◌++◌, map, IfOk, OnOk};
ghost use Rattle.hdc_resolved.specs.Mirror.{synonym_of};
ghost use Rattle.hdc_datas.specs.Needs as spec;

use crate::used::add_used;
use hdc_graph::Graph;
use hdc_resolved::Synonym;
use sqlite_items::Items;
use std::alloc::{AllocError, Global};

/// For each synonym those that its meaning names.
pub(crate) fn synonym_graph(alloc: Global, synonyms: &[Synonym]) -> Result<Graph, AllocError>
    ensures { IfOk result (λ graph. graph ≡ spec.synonym_needs (map synonym_of synonyms.now)) }
{
    let needs = synonym_needs(alloc, synonyms)?;
    Ok(Graph::from_needs(needs))
}

/// The same in a list.
#[tactic(auto, using(crate::proofs::Listing::in_order))]
pub(crate) fn synonym_needs(
    alloc: Global,
    synonyms: &[Synonym],
) -> Result<Vec<Items<u32>>, AllocError>
    ensures { IfOk result (λ needs. needs.items ≡ spec.synonym_needs (map synonym_of synonyms.now)) }
{
    let mut needs = Vec::new(alloc);
    for synonym in synonyms {
        let mut used = Items::new(alloc);
        add_used(&synonym.meaning, &mut used)?;
        let kept = below(alloc, synonyms.len(), used.as_slice())?;
        needs.push(kept)?;
    }
    Ok(needs)
}

// Those of these numbers that are below a limit.
#[tactic(auto, using(crate::proofs::Listing::in_order))]
fn below(alloc: Global, limit: usize, numbers: &[u32]) -> Result<Items<u32>, AllocError>
    ensures { IfOk result (λ kept. kept ≡ spec.below limit numbers.now) }
{
    let mut kept = Items::new(alloc);
    for number in numbers {
        if (*number as usize) < limit {
            kept.push(*number)?;
        }
    }
    Ok(kept)
}
