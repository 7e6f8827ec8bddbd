//! Synonyms are resolved.

ghost use Rattle.std.specs.Prelude.{◌≡◌, ◌++◌, map, OnOk, IfOk};
ghost use Rattle.hdc_resolved.specs.Mirror.{synonym_of};
ghost use Rattle.hdc_written.specs.Mirror as mirror;
ghost use Rattle.hdc_type_names.specs.Synonyms as spec;

use crate::naming::{bind_prelude_types, bind_program_types};
use crate::parameters::{bind_parameters, place_of};
use crate::resolve::resolve_type;
use crate::type_name::TypeName;
use hdc_resolved::Synonym;
use hdc_tree::{NextTop, Synonym as WrittenSynonym, Top, Tree};
use hdc_written::Scope;
use sqlite_items::Items;
use std::alloc::{AllocError, Global};

/// All synonyms of a prelude and of a program behind it, in the order of the text; their variables are numbered by their
/// places in the head.
///
/// # Errors
///
/// `AllocError` where memory is short.
#[tactic(auto, using(crate::proofs::Listing::in_order))]
pub fn resolve_synonyms(
    alloc: Global,
    prelude: &Tree,
    program: &Tree,
) -> Result<Items<Synonym>, AllocError>
    ensures { IfOk result (λ synonyms. map synonym_of synonyms ≡ spec.all_synonyms (mirror.tops_of prelude.now) (mirror.tops_of program.now)) }
{
    let mut synonyms = Items::new(alloc);
    let prelude_names = bind_prelude_types(alloc, prelude)?;
    add_synonyms(alloc, &mut synonyms, &prelude_names, prelude)?;
    let program_names = bind_program_types(alloc, prelude, program)?;
    add_synonyms(alloc, &mut synonyms, &program_names, program)?;
    Ok(synonyms)
}

// The synonyms of a text.
#[tactic(auto, using(crate::proofs::Listing::in_order))]
fn add_synonyms(
    alloc: Global,
    synonyms: &mut Items<Synonym>,
    names: &Scope<'_, TypeName>,
    tree: &Tree,
) -> Result<(), AllocError>
    ensures { OnOk result (map synonym_of synonyms.new ≡ map synonym_of synonyms.old ++ spec.each_synonym names.now (mirror.tops_of tree.now)) }
{
    add_synonym(alloc, synonyms, names, tree.first.get())?;
    add_next_synonyms(alloc, synonyms, names, tree.rest.as_slice())
}

#[tactic(auto, using(crate::proofs::Listing::in_order))]
fn add_next_synonyms(
    alloc: Global,
    synonyms: &mut Items<Synonym>,
    names: &Scope<'_, TypeName>,
    tops: &[NextTop],
) -> Result<(), AllocError>
    ensures { OnOk result (map synonym_of synonyms.new ≡ map synonym_of synonyms.old ++ spec.each_synonym names.now (mirror.tops_behind tops.now)) }
{
    for next in tops {
        add_synonym(alloc, synonyms, names, &next.top)?;
    }
    Ok(())
}

#[tactic(auto, using(crate::proofs::Listing::in_order))]
fn add_synonym(
    alloc: Global,
    synonyms: &mut Items<Synonym>,
    names: &Scope<'_, TypeName>,
    part: &Top,
) -> Result<(), AllocError>
    ensures { OnOk result (map synonym_of synonyms.new ≡ map synonym_of synonyms.old ++ spec.top_synonyms names.now part.now) }
{
    match part {
        Top::Synonym(written) => {
            let synonym = resolve_synonym(alloc, names, written)?;
            synonyms.push(synonym)
        }
        Top::Empty => Ok(()),
        Top::Data(_data) => Ok(()),
        Top::Fixity(_fixity) => Ok(()),
        Top::Signature(_first, _rest, _at, _signature) => Ok(()),
        Top::Equation(_head, _rhs) => Ok(()),
    }
}

fn resolve_synonym(
    alloc: Global,
    names: &Scope<'_, TypeName>,
    written: &WrittenSynonym,
) -> Result<Synonym, AllocError>
    ensures { IfOk result (λ synonym. synonym_of synonym ≡ spec.resolved_synonym names.now written.now) }
{
    let parameters = bind_parameters(alloc, written.params.as_slice())?;
    let meaning = resolve_type(&written.meaning, alloc, names, &parameters)?;
    Ok(Synonym {
        name: Items::from_slice(alloc, written.name.text.as_slice())?,
        params: place_of(written.params.len())?,
        meaning,
    })
}
