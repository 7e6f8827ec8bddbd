//! Synonyms that reach themselves.

ghost use Rattle.std.specs.Prelude.{◌≡◌, ◌<◌, suc, length, IfOk};
ghost use Rattle.hdc_written.specs.Breaches.{IsFirst, all_noted};
ghost use Rattle.hdc_written.specs.Mirror as mirror;
ghost use Rattle.hdc_synonyms.specs.Synonyms.{IsCyclicSynonym};
ghost use Rattle.hdc_synonyms.specs.Noted as spec;

use crate::graph::synonym_graph;
use hdc_graph::find_components;
use hdc_tree::{NextTop, Top, Tree};
use hdc_written::Found;
use std::alloc::{AllocError, Global};

/// The first synonym of a text that reaches itself, which breaks rule 9 at its name.
///
/// # Errors
///
/// `AllocError` where memory is short.
pub fn find_cyclic_synonyms(alloc: Global, tree: &Tree) -> Result<Found, AllocError>
    ensures { IfOk result (λ found. IsFirst (IsCyclicSynonym (mirror.tops_of tree.now)) found.breach) }
{
    let graph = synonym_graph(alloc, tree)?;
    let components = find_components(alloc, &graph)?;
    let mut found = Found::nothing();
    note_tops(&mut found, components.cyclic.as_slice(), tree);
    Ok(found)
}

// The synonyms among all declarations of a text, of which these are known to reach themselves.
fn note_tops(found: &mut Found, cyclic: &[bool], tree: &Tree)
    requires { length tree.now.rest < length cyclic.now }
    ensures { found.new ≡ all_noted found.old (spec.cyclic_breaches cyclic.now 0 (mirror.tops_of tree.now)) }
{
    note_top(found, cyclic[0], tree.first.get());
    note_next_tops(found, cyclic, tree.rest.as_slice());
}

fn note_next_tops(found: &mut Found, cyclic: &[bool], tops: &[NextTop])
    requires { length tops.now < length cyclic.now }
    ensures { found.new ≡ all_noted found.old (spec.cyclic_breaches cyclic.now 1 (mirror.tops_behind tops.now)) }
{
    for index in 0..tops.len() {
        note_top(found, cyclic[index + 1], &tops[index].top);
    }
}

fn note_top(found: &mut Found, is_cyclic: bool, part: &Top)
    ensures { found.new ≡ all_noted found.old (spec.where_cyclic is_cyclic part.now) }
{
    if is_cyclic {
        note_synonym(found, part);
    }
}

fn note_synonym(found: &mut Found, part: &Top)
    ensures { found.new ≡ all_noted found.old (spec.synonym_breaches part.now) }
{
    match part {
        Top::Synonym(synonym) => found.note(9, synonym.name.at),
        Top::Empty => {}
        Top::Data(_data) => {}
        Top::Fixity(_fixity) => {}
        Top::Signature(_first, _rest, _at, _signature) => {}
        Top::Equation(_head, _rhs) => {}
    }
}
