//! The resolved tree of a prelude and of a program behind it, whether or not they keep the rules on names.

ghost use Rattle.std.specs.Prelude.{IfOk};
ghost use Rattle.hdc_written.specs.Mirror.{tops_of};
ghost use Rattle.hdc_top.specs.ResolvedTree.{IsResolved};

use crate::blocks::block_orders;
use hdc_bindings::resolve_bindings;
use hdc_datas::resolve_datas;
use hdc_groups::group_bindings;
use hdc_resolved::Resolved;
use hdc_tree::Tree;
use hdc_type_names::resolve_synonyms;
use std::alloc::{AllocError, Global};

/// The resolved tree of a prelude and of a program behind it: each chain stands for its operator tree and each name for what
/// it is bound to; the bindings fall into groups; data types have their synonyms expanded, where none reaches itself.
///
/// # Errors
///
/// `AllocError` where memory is wanting, or a number for a name.
pub fn resolved_tree(alloc: Global, prelude: &Tree, program: &Tree) -> Result<Resolved, AllocError>
    ensures { IfOk result (λ r. IsResolved (tops_of prelude.now) (tops_of program.now) r) }
{
    let orders = block_orders(alloc, prelude, program)?;
    let bindings = resolve_bindings(alloc, prelude, program, orders)?;
    let groups = group_bindings(alloc, bindings.decls.as_slice())?;
    let synonyms = resolve_synonyms(alloc, prelude, program)?;
    let datas = resolve_datas(alloc, prelude, program, synonyms.as_slice())?;
    Ok(Resolved {
        decls: bindings.decls,
        signatures: bindings.signatures,
        groups,
        datas,
        synonyms,
    })
}
