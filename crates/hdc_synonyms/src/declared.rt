//! The types that a text declares.

ghost use Rattle.std.specs.Prelude.{◌≡◌, ◌++◌, OnOk, IfOk};
ghost use Rattle.hdc_written.specs.Mirror as mirror;
ghost use Rattle.hdc_synonyms.specs.Synonyms as spec;

use hdc_tree::{NextTop, Top, Tree};
use hdc_written::Scope;
use std::alloc::{AllocError, Global};

/// The types of a text, each with the number of the first declaration of its name.
pub(crate) fn declared_types<'t>(
    alloc: Global,
    tree: &'t Tree,
) -> Result<Scope<'t, u32>, AllocError>
    ensures { IfOk result (λ declared. declared ≡ spec.declared_types 0 (mirror.tops_of tree.now)) }
{
    let mut declared = Scope::new(alloc);
    bind_next_tops(&mut declared, tree.rest.as_slice())?;
    bind_top(&mut declared, 0, tree.first.get())?;
    Ok(declared)
}

/// The number of a declaration as that of a node.
pub(crate) fn node(number: usize) -> Result<u32, AllocError>
    ensures { IfOk result (λ node. node ≡ number) }
{
    match u32::try_from(number) {
        Ok(node) => Ok(node),
        Err(_error) => Err(AllocError),
    }
}

// The last one first, so that the first declaration of a name counts.
fn bind_next_tops<'t>(declared: &mut Scope<'t, u32>, tops: &'t [NextTop]) -> Result<(), AllocError>
    ensures { OnOk result (declared.new ≡ spec.declared_types 1 (mirror.tops_behind tops.now) ++ declared.old) }
{
    let mut count = tops.len();
    while count > 0 {
        count -= 1;
        bind_top(declared, node(count + 1)?, &tops[count].top)?;
    }
    Ok(())
}

fn bind_top<'t>(declared: &mut Scope<'t, u32>, number: u32, part: &'t Top) -> Result<(), AllocError>
    ensures { OnOk result (declared.new ≡ spec.top_types number part.now ++ declared.old) }
{
    match part {
        Top::Data(data) => declared.bind(data.name.text.as_slice(), number),
        Top::Synonym(synonym) => declared.bind(synonym.name.text.as_slice(), number),
        Top::Empty => Ok(()),
        Top::Fixity(_fixity) => Ok(()),
        Top::Signature(_first, _rest, _at, _signature) => Ok(()),
        Top::Equation(_head, _rhs) => Ok(()),
    }
}
