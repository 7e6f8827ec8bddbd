//! The first place where a data type is not regular.

ghost use Rattle.std.specs.Prelude.{[], IfOk};
ghost use Rattle.hdc_written.specs.Breaches.{IsFirst};
ghost use Rattle.hdc_written.specs.Mirror as mirror;
ghost use Rattle.hdc_regular.specs.Irregular.{IsIrregular};
ghost use Rattle.hdc_regular.specs.Passes as spec;

use crate::node_order::{add_groups, known_synonyms};
use crate::passes::{demands_in_order, note_from, outlines_in_order};
use crate::summary::{summaries, summary_needs, synonym_flags};
use crate::texts::{Texts, prelude_alone, program_behind};
use hdc_graph::{Graph, find_components};
use hdc_tree::Tree;
use hdc_written::Found;
use sqlite_items::Items;
use std::alloc::{AllocError, Global};

/// The first place in a prelude where a data type is not regular, which breaks rule 10.
///
/// # Errors
///
/// `AllocError` where memory is short.
pub fn find_in_prelude(alloc: Global, prelude: &Tree) -> Result<Found, AllocError>
    ensures { IfOk result (λ found. IsFirst (IsIrregular [] (mirror.tops_of prelude.now)) found.breach) }
{
    let known = known_synonyms(alloc, prelude)?;
    let texts = prelude_alone(alloc, prelude, known.components.cyclic.as_slice())?;
    let mut order = Items::new(alloc);
    add_groups(&mut order, 0, &known.groups)?;
    find(alloc, &texts, order.as_slice())
}

/// The first place in a program behind a prelude where a data type is not regular, which breaks rule 10.
///
/// # Errors
///
/// `AllocError` where memory is short.
pub fn find_in_program(alloc: Global, prelude: &Tree, program: &Tree) -> Result<Found, AllocError>
    ensures { IfOk result (λ found. IsFirst (IsIrregular (mirror.tops_of prelude.now) (mirror.tops_of program.now)) found.breach) }
{
    let before = known_synonyms(alloc, prelude)?;
    let known = known_synonyms(alloc, program)?;
    let texts = program_behind(
        alloc,
        prelude,
        program,
        before.components.cyclic.as_slice(),
        known.components.cyclic.as_slice(),
    )?;
    let mut order = Items::new(alloc);
    add_groups(&mut order, 0, &before.groups)?;
    add_groups(&mut order, texts.count, &known.groups)?;
    find(alloc, &texts, order.as_slice())
}

// What is found in the text, where its synonyms and those before it are looked at in this order.
fn find(alloc: Global, texts: &Texts, order: &[u32]) -> Result<Found, AllocError>
    requires { spec.AreTexts texts.now }
    ensures { IfOk result (λ found. spec.IsFoundIn (spec.before_of texts.now) (spec.text_of texts.now) texts.now.sounds order.now found) }
{
    let size = texts.size()?;
    let known = outlines_in_order(alloc, texts, order, size)?;
    let declarations = summaries(alloc, texts, known.as_slice(), size)?;
    let synonyms = synonym_flags(alloc, declarations.as_slice())?;
    let needs = summary_needs(alloc, declarations.as_slice())?;
    let graph = Graph::from_needs(needs);
    let components = find_components(alloc, &graph)?;
    let demands = demands_in_order(
        alloc,
        declarations.as_slice(),
        synonyms.as_slice(),
        components.numbers.as_slice(),
        order,
    )?;
    let mut found = Found::nothing();
    note_from(
        &mut found,
        declarations.as_slice(),
        synonyms.as_slice(),
        demands.as_slice(),
        components.numbers.as_slice(),
        texts.count as usize,
    );
    Ok(found)
}
