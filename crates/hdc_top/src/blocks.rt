//! The orders in which the values of all blocks are evaluated.

ghost use Rattle.std.specs.Prelude.{◌≡◌, ◌++◌, IfOk, OnOk};
ghost use Rattle.hdc_written.specs.Mirror.{tops_of};
ghost use Rattle.hdc_needs.specs.Needy.{text_blocks};
ghost use Rattle.hdc_top.specs.ResolvedTree.{AreBlockOrders, IsAdded};

use hdc_needs::{Orders, find_orders};
use hdc_resolved::Numbers;
use hdc_tree::Tree;
use sqlite_items::Items;
use std::alloc::{AllocError, Global};

/// For each block the order of its values, by the numbers of its declarations: the blocks of a prelude and then those of a
/// program, in the order in which they end.
pub(crate) fn block_orders(
    alloc: Global,
    prelude: &Tree,
    program: &Tree,
) -> Result<Items<Numbers>, AllocError>
    ensures { IfOk result (λ orders. AreBlockOrders (tops_of prelude.now) (tops_of program.now) orders) }
{
    let mut orders = Items::new(alloc);
    add_orders(alloc, prelude, &mut orders)?;
    add_orders(alloc, program, &mut orders)?;
    Ok(orders)
}

// Those of one text.
fn add_orders(alloc: Global, tree: &Tree, orders: &mut Items<Numbers>) -> Result<(), AllocError>
    ensures { OnOk result (IsAdded (text_blocks (tops_of tree.now)) orders.old orders.new) }
{
    let found = find_orders(alloc, tree)?;
    push_orders(alloc, &found, orders)
}

// The same, once they are found.
fn push_orders(alloc: Global, found: &Orders, orders: &mut Items<Numbers>) -> Result<(), AllocError>
    ensures { OnOk result (orders.new ≡ orders.old ++ found.now) }
{
    for block in 0..found.len() {
        orders.push(Items::from_slice(alloc, found.order(block))?)?;
    }
    Ok(())
}
