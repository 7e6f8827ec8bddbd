//! The rules on names, but for those on what reaches itself.

ghost use Rattle.std.specs.Prelude.{◌≡◌, IfOk};
ghost use Rattle.hdc_written.specs.Breaches.{IsFirst, IsOneOf};
ghost use Rattle.hdc_written.specs.Mirror.{tops_of};
ghost use Rattle.hdc_rules.specs.Uses as spec;

use crate::known::{
    Known, known_in_prelude, known_in_program, values_in_prelude, values_in_program,
};
use crate::scan::Scan;
use crate::tops::note_tops;
use hdc_tree::Tree;
use hdc_written::{Found, Scope, Stack};
use std::alloc::{AllocError, Global};

/// The first place in a prelude where a rule on names from 1 to 8 or rule 12 is broken.
///
/// # Errors
///
/// `AllocError` where memory is short.
pub fn find_in_prelude(alloc: Global, prelude: &Tree) -> Result<Found, AllocError>
    ensures { IfOk result (λ found. IsFirst (λ b. IsOneOf b (spec.prelude_breaches (tops_of prelude.now))) found.breach) }
{
    let known = known_in_prelude(alloc, prelude)?;
    let values = values_in_prelude(alloc, prelude)?;
    find_in_text(alloc, &known, values, prelude)
}

/// The first place in a program behind a prelude where a rule on names from 1 to 8 or rule 12 is broken.
///
/// # Errors
///
/// `AllocError` where memory is short.
pub fn find_in_program(alloc: Global, prelude: &Tree, program: &Tree) -> Result<Found, AllocError>
    ensures { IfOk result (λ found. IsFirst (λ b. IsOneOf b (spec.program_breaches (tops_of prelude.now) (tops_of program.now))) found.breach) }
{
    let known = known_in_program(alloc, prelude, program)?;
    let values = values_in_program(alloc, prelude, program)?;
    find_in_text(alloc, &known, values, program)
}

fn find_in_text<'t>(
    alloc: Global,
    known: &Known,
    values: Scope<'t, ()>,
    tree: &'t Tree,
) -> Result<Found, AllocError>
    ensures { IfOk result (λ found. IsFirst (λ b. IsOneOf b (spec.text_breaches known.now values.entry (tops_of tree.now))) found.breach) }
{
    let mut found = Found::nothing();
    note_tops(alloc, &mut found, &known.types, tree)?;
    let mut scan = Scan {
        scope: values,
        marks: Stack::new(alloc),
        found,
    };
    scan.run_tree(alloc, known, tree)?;
    Ok(scan.found)
}
