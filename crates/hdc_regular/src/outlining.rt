//! What becomes known of a meaning that is built.

ghost use Rattle.std.specs.Prelude.{◌≡◌, IfOk};
ghost use Rattle.hdc_regular.specs.Outlines as spec;
ghost use Rattle.hdc_regular.specs.PartMirror.{parts_of};
ghost use Rattle.hdc_regular.specs.Resolved.{part_at};
ghost use Rattle.hdc_regular.specs.Walk.{alias_of};

use crate::contents::{alias, collect_parts, flags_at};
use crate::outline::Outline;
use crate::part::Part;
use sqlite_items::Items;
use std::alloc::{AllocError, Global};

/// What is known by the types of a declaration.
pub(crate) fn outline_of(alloc: Global, parts: &[Part]) -> Result<Outline, AllocError>
    ensures { IfOk result (λ outline. outline ≡ spec.outline_of (parts_of parts.now)) }
{
    let mut variables = Items::new(alloc);
    let mut uses = Items::new(alloc);
    collect_parts(parts, alloc, &mut variables, &mut uses)?;
    let holds = flags_at(alloc, variables.as_slice())?;
    Ok(Outline {
        alias: first_alias(parts),
        holds,
    })
}

#[tactic(auto, using(crate::proofs::PartMirror::first_parts))]
fn first_alias(parts: &[Part]) -> Option<u32>
    ensures { result ≡ alias_of (part_at 0 (parts_of parts.now)) }
{
    if parts.is_empty() {
        return None;
    }
    alias(&parts[0])
}
