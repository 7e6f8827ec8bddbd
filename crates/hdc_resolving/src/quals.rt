//! The qualifiers of a comprehension, from the last to the first.

ghost use Rattle.std.specs.Prelude.{◌≡◌, IfOk, OnOk, map};
ghost use Rattle.hdc_resolved.specs.Mirror as made;
ghost use Rattle.hdc_resolving.specs.Parts as blocks;
ghost use Rattle.hdc_resolving.specs.Numbering as numbering;

use crate::growing::{Declared, block_of};
use crate::known::Known;
use crate::walk::Walk;
use hdc_resolved::{Exp, Pat, Quals};
use sqlite_items::{Boxed, Items};
use std::alloc::{AllocError, Global};

/// A qualifier whose parts are resolved.
#[derive(Drop)]
pub enum Part {
    Test(Boxed<Exp>),
    From(Pat, Boxed<Exp>),
    Bind(Declared),
}

/// Qualifiers before those behind them. Blocks end as their qualifiers are put before.
pub fn wrap_all(
    alloc: Global,
    known: &Known<'_>,
    walk: &mut Walk<'_>,
    behind: Quals,
    mut parts: Items<Part>,
) -> Result<Quals, AllocError>
    ensures what { IfOk result (λ q. made.qualifiers_of q ≡ (blocks.wrapped known.now (map blocks.part_of parts) (record { quals = made.qualifiers_of behind; counter = walk.old.counter })).quals) }
    ensures moved { OnOk result (walk.new ≡ numbering.moved (blocks.wrapped known.now (map blocks.part_of parts) (record { quals = made.qualifiers_of behind; counter = walk.old.counter })).counter walk.old) }
{
    let mut whole = behind;
    while let Some(part) = parts.pop() {
        whole = wrap(alloc, known, walk, part, whole)?;
    }
    Ok(whole)
}

// A qualifier before those behind it.
#[tactic(auto, using(hdc_resolved::proofs::Mirror::mirrored))]
fn wrap(
    alloc: Global,
    known: &Known<'_>,
    walk: &mut Walk<'_>,
    part: Part,
    behind: Quals,
) -> Result<Quals, AllocError>
    ensures what { IfOk result (λ q. made.qualifiers_of q ≡ (blocks.wrap known.now (blocks.part_of part) (record { quals = made.qualifiers_of behind; counter = walk.old.counter })).quals) }
    ensures moved { OnOk result (walk.new ≡ numbering.moved (blocks.wrap known.now (blocks.part_of part) (record { quals = made.qualifiers_of behind; counter = walk.old.counter })).counter walk.old) }
{
    let behind = Boxed::new(alloc, behind)?;
    match part {
        Part::Test(condition) => Ok(Quals::Test(condition, behind)),
        Part::From(pat, list) => Ok(Quals::From(known.generator, pat, list, behind)),
        Part::Bind(declared) => {
            let block = block_of(alloc, known, walk.counter, declared)?;
            walk.end_block()?;
            Ok(Quals::Bind(block, behind))
        }
    }
}
