//! From a prelude and a program to the resolved program.

ghost use Rattle.hdc_written.specs.Mirror.{tops_of};
ghost use Rattle.hdc_top.specs.Resolved.{Resolves};

use crate::names::{NamesStop, check_names};
use crate::tree::resolved_tree;
use hdc_resolved::Resolved;
use hdc_tree::Tree;
use std::alloc::Global;

/// The resolved tree of a prelude and of a program behind it, where they keep the rules on chains, depths and names.
///
/// # Errors
///
/// Those of `check_names`, which is asked first.
pub fn resolve(alloc: Global, prelude: &Tree, program: &Tree) -> Result<Resolved, NamesStop>
    ensures { Resolves (tops_of prelude.now) (tops_of program.now) result }
{
    match check_names(alloc, prelude, program) {
        Ok(()) => Ok(resolved_tree(alloc, prelude, program)?),
        Err(stop) => Err(stop),
    }
}
