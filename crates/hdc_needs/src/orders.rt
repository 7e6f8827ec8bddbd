//! The orders of the values of all blocks of a text.

ghost use Rattle.std.specs.Prelude.{◌≡◌, ◌<◌, [], ◌∷◌, ◌++◌, length, slice_index_or, OnOk, IfOk};
ghost use Rattle.hdc_written.specs.Mirror.{tops_of};
ghost use Rattle.hdc_needs.specs.Needy.{text_blocks};
ghost use Rattle.hdc_needs.specs.Orders.{AreOrders};

use crate::walk::Walk;
use hdc_tree::Tree;
use sqlite_items::Items;
use std::alloc::{AllocError, Global};
use std::marker::Model;

/// For each block of a text the order in which its values are evaluated: contracts see a list of lists.
#[derive(Debug, Drop)]
pub struct Orders {
    orders: Vec<Items<u32>>,
}

impl Model for Orders {
    ghost use Rattle.std.specs.Prelude.{List, ℕ};

    ghost Value = { List (List ℕ) };

    ghost view = { λ orders. orders.orders.items };
}

/// The order in which the values of each block of `let` and `where` are evaluated, by the numbers of the block's
/// declarations, from 0. The blocks come in the order in which they end. Nothing is said of a block with a value that
/// needs itself. Memory may be wanting.
pub fn find_orders(alloc: Global, tree: &Tree) -> Result<Orders, AllocError>
    ensures { IfOk result (λ orders. AreOrders (text_blocks (tops_of tree.now)) orders) }
{
    let mut walk = Walk::new(alloc);
    walk.run_tree(alloc, tree)?;
    Ok(walk.orders)
}

impl Orders {
    /// No orders.
    pub(crate) fn new(alloc: Global) -> Orders
        ensures { result ≡ [] }
    {
        Orders {
            orders: Vec::new(alloc),
        }
    }

    /// One more.
    pub(crate) fn push(&mut self, order: Items<u32>) -> Result<(), AllocError>
        ensures { OnOk result (self.new ≡ self.old ++ order ∷ []) }
    {
        self.orders.push(order)?;
        Ok(())
    }

    /// The number of blocks.
    pub fn len(&self) -> usize
        ensures { result ≡ length self.now }
    {
        self.orders.len()
    }

    /// The order of the values of a block.
    pub fn order(&self, block: usize) -> &[u32]
        requires { block < length self.now }
        ensures { result.now ≡ slice_index_or self.now block [] }
    {
        self.orders[block].as_slice()
    }
}
