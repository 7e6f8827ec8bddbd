//! The order of the values of a block that ends.

ghost use Rattle.std.specs.Prelude.{◌≡◌, ◌≤◌, ◌^◌, ◌++◌, OnOk, IfOk, is_some};
ghost use Rattle.hdc_written.specs.Mirror as mirror;
ghost use Rattle.hdc_needs.specs.Kept.{declarations_of};
ghost use Rattle.hdc_needs.specs.Needy.{value_at};
ghost use Rattle.hdc_needs.specs.Orders as spec;

use crate::frames::OpenBlock;
use crate::values::{MOST_NODES, first_of_value, is_set};
use hdc_order::evaluation_order;
use hdc_tree::{Block, Decl, NextDecl};
use sqlite_items::Items;
use std::alloc::{AllocError, Global};

/// The order of the values of a block.
pub(crate) fn block_order(alloc: Global, block: &OpenBlock) -> Result<Items<u32>, AllocError>
    ensures { IfOk result (λ order. spec.IsOrderIn block.now.graph (declarations_of block.now.declarations) order) }
{
    let count = block.graph.len();
    if count > MOST_NODES {
        return Err(AllocError);
    }
    let declared = values_of(alloc, block.declarations)?;
    let values = first_values(alloc, declared.as_slice(), count)?;
    evaluation_order(alloc, &block.graph, values.as_slice())
}

// Which nodes are values. The names behind the declarations are none.
fn first_values(alloc: Global, declared: &[bool], count: usize) -> Result<Items<bool>, AllocError>
    requires { count ≤ 2 ^ 32 }
    ensures { IfOk result (λ first. spec.AreFirst declared.now count first) }
{
    let mut first = Items::new(alloc);
    for node in 0..count {
        first.push(is_set(declared, node as u32))?;
    }
    Ok(first)
}

// Which declarations of a block are values.
#[tactic(auto, using(hdc_written::proofs::ExpressionMirror::mirrored_expressions))]
fn values_of(alloc: Global, block: Option<&Block>) -> Result<Items<bool>, AllocError>
    ensures { IfOk result (λ values. values ≡ spec.values_in (declarations_of block.entry)) }
{
    let mut values = Items::new(alloc);
    match block {
        Some(block) => {
            values.push(is_value(block.first.get()))?;
            add_values(&mut values, block.rest.as_slice())?;
            Ok(values)
        }
        None => Ok(values),
    }
}

// The declarations behind the first one.
fn add_values(values: &mut Items<bool>, parts: &[NextDecl]) -> Result<(), AllocError>
    ensures { OnOk result (values.new ≡ values.old ++ spec.values_in (mirror.each_declaration mirror.next_decl_of parts.now)) }
{
    for part in parts {
        values.push(is_value(&part.decl))?;
    }
    Ok(())
}

fn is_value(part: &Decl) -> bool
    ensures { result ≡ is_some (value_at (mirror.decl_of part.now)) }
{
    first_of_value(part).is_some()
}
