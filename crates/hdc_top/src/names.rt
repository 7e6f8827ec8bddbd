//! Whether a prelude and a program keep the rules on chains, depths and names.

ghost use Rattle.std.specs.Prelude.{◌≡◌, ◌⊎◌, IfOk};
ghost use Rattle.hdc_written.specs.Breaches.{IsFirst, IsOneOf};
ghost use Rattle.hdc_written.specs.Mirror.{tops_of};
ghost use Rattle.hdc_top.specs.Names as spec;

use hdc_base::At;
use hdc_names::{TreesStop, check_trees};
use hdc_needs::find_needy;
use hdc_synonyms::find_cyclic_synonyms;
use hdc_tree::Tree;
use hdc_written::{Breach, Found};
use std::alloc::{AllocError, Global};

/// Why a program is refused by the rules on chains, depths and names.
#[derive(Clone, Copy, Debug, PartialEq, Eq)]
pub enum NamesStop {
    /// A chain or section has no operator tree; the first place of those that have none.
    Fixity(At),
    /// A tree has a node at depth 1,025; the first place of such nodes.
    Depth(At),
    /// A rule on names is broken; the first place of those where one is, and the lowest rule there.
    Name(Breach),
    /// Want of memory.
    Want,
}

impl From<AllocError> for NamesStop {
    ghost from_gives = { λ _ s. s ≡ spec.want };

    fn from(_error: AllocError) -> NamesStop {
        NamesStop::Want
    }
}

/// Whether a prelude and a program behind it keep the rules on chains, depths and names.
///
/// # Errors
///
/// `Fixity` where a chain or section has no operator tree, at the first place of the prelude's, or else of the
/// program's; else `Depth` where a tree has a node at depth 1,025, found in the same way; else `Name` where one of
/// the twelve rules on names is broken, at the first place of the prelude's, or else of the program's, with the
/// lowest rule that is broken there; `Want` where memory is wanting.
pub fn check_names(alloc: Global, prelude: &Tree, program: &Tree) -> Result<(), NamesStop>
    ensures { spec.AreChecked (tops_of prelude.now) (tops_of program.now) result }
{
    match check_trees(alloc, prelude, program) {
        Ok(()) => check_rules(alloc, prelude, program),
        Err(stop) => Err(trees_stop(stop)),
    }
}

fn trees_stop(stop: TreesStop) -> NamesStop
    ensures { result ≡ spec.trees_stop stop }
{
    match stop {
        TreesStop::Fixity(at) => NamesStop::Fixity(at),
        TreesStop::Depth(at) => NamesStop::Depth(at),
        TreesStop::Want => NamesStop::Want,
    }
}

fn check_rules(alloc: Global, prelude: &Tree, program: &Tree) -> Result<(), NamesStop>
    ensures { spec.RulesAnswer (tops_of prelude.now) (tops_of program.now) result }
{
    if let Some(breach) = find_in_prelude(alloc, prelude)?.breach {
        return Err(NamesStop::Name(breach));
    }
    if let Some(breach) = find_in_program(alloc, prelude, program)?.breach {
        return Err(NamesStop::Name(breach));
    }
    Ok(())
}

fn find_in_prelude(alloc: Global, prelude: &Tree) -> Result<Found, AllocError>
    ensures { IfOk result (λ found. IsFirst (spec.BreaksInPrelude (tops_of prelude.now)) found.breach) }
{
    let rules = hdc_rules::find_in_prelude(alloc, prelude)?;
    let cyclic = find_cyclic_synonyms(alloc, prelude)?;
    let irregular = hdc_regular::find_in_prelude(alloc, prelude)?;
    let needy = find_needy(alloc, prelude)?;
    Ok(rules.join(cyclic).join(irregular).join(needy))
}

fn find_in_program(alloc: Global, prelude: &Tree, program: &Tree) -> Result<Found, AllocError>
    ensures { IfOk result (λ found. IsFirst (spec.BreaksInProgram (tops_of prelude.now) (tops_of program.now)) found.breach) }
{
    let rules = hdc_rules::find_in_program(alloc, prelude, program)?;
    let cyclic = find_cyclic_synonyms(alloc, program)?;
    let irregular = hdc_regular::find_in_program(alloc, prelude, program)?;
    let needy = find_needy(alloc, program)?;
    Ok(rules.join(cyclic).join(irregular).join(needy))
}
