//! The names of signatures.

ghost use Rattle.std.specs.Prelude.{◌≡◌, ◌++◌, OnOk};
ghost use Rattle.hdc_written.specs.Mirror as mirror;

use crate::names::Names;
use hdc_tree::{CommaVar, Var};
use hdc_written::var_name;
use std::alloc::AllocError;

/// The names of a signature.
#[tactic(auto, using(crate::proofs::Listing::in_order))]
pub(crate) fn add_signed<'t>(
    names: &mut Names<'t>,
    first: &'t Var,
    rest: &'t [CommaVar],
) -> Result<(), AllocError>
    ensures { OnOk result (names.new ≡ names.old ++ mirror.signed_names first.now rest.now) }
{
    names.push(var_name(first))?;
    add_next_vars(names, rest)
}

#[tactic(auto, using(crate::proofs::Listing::in_order))]
fn add_next_vars<'t>(names: &mut Names<'t>, parts: &'t [CommaVar]) -> Result<(), AllocError>
    ensures { OnOk result (names.new ≡ names.old ++ mirror.names_behind parts.now) }
{
    for part in parts {
        names.push(var_name(&part.var))?;
    }
    Ok(())
}
