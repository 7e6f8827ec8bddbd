//! The first place of a local value that needs itself.

ghost use Rattle.std.specs.Prelude.{IfOk};
ghost use Rattle.hdc_written.specs.Breaches.{IsFirst};
ghost use Rattle.hdc_written.specs.Mirror.{tops_of};
ghost use Rattle.hdc_needs.specs.Needy.{IsNeedy};

use crate::walk::Walk;
use hdc_tree::Tree;
use hdc_written::Found;
use std::alloc::{AllocError, Global};

/// The first place where a local value needs itself, if there is one. Memory may be wanting.
pub fn find_needy(alloc: Global, tree: &Tree) -> Result<Found, AllocError>
    ensures { IfOk result (λ found. IsFirst (IsNeedy (tops_of tree.now)) found.breach) }
{
    let mut walk = Walk::new(alloc);
    walk.run_tree(alloc, tree)?;
    Ok(walk.found)
}
