//! What the bindings at the top need.

ghost use Rattle.std.specs.Prelude.{◌≡◌, ◌++◌, nat_lt, filter, map, OnOk, IfOk};
ghost use Rattle.hdc_resolved.specs.Mirror.{binding_of};
ghost use Rattle.hdc_groups.specs.Needs as spec;

use crate::uses::uses_of;
use hdc_resolved::Decl;
use sqlite_items::Items;
use std::alloc::{AllocError, Global};

/// For each binding, the numbers of the bindings that it uses.
pub(crate) fn needs_of_all(alloc: Global, decls: &[Decl]) -> Result<Vec<Items<u32>>, AllocError>
    ensures { IfOk result (λ needs. needs.items ≡ spec.binding_needs (map binding_of decls.now)) }
{
    let mut needs = Vec::new(alloc);
    for decl in decls {
        needs.push(needs_of(alloc, decls.len(), decl)?)?;
    }
    Ok(needs)
}

// The numbers of the bindings, of which there are so many, that one uses.
fn needs_of(alloc: Global, count: usize, decl: &Decl) -> Result<Items<u32>, AllocError>
    ensures { IfOk result (λ needs. needs ≡ spec.needs_among count (binding_of decl.now)) }
{
    let uses = uses_of(alloc, decl)?;
    below(alloc, count, uses.as_slice())
}

// The numbers below this one.
fn below(alloc: Global, count: usize, numbers: &[u32]) -> Result<Items<u32>, AllocError>
    ensures { IfOk result (λ below. below ≡ spec.below count numbers.now) }
{
    let mut below = Items::new(alloc);
    for number in numbers {
        if (*number as usize) < count {
            below.push(*number)?;
        }
    }
    Ok(below)
}
