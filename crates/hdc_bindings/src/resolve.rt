//! The bindings of a prelude and of a program behind it.

ghost use Rattle.std.specs.Prelude.{◌≡◌, IfOk, map};
ghost use Rattle.hdc_resolved.specs.Mirror as made;
ghost use Rattle.hdc_resolving.specs.Grouped.{by_steps};
ghost use Rattle.hdc_bindings.specs.Opening as opening;
ghost use Rattle.hdc_bindings.specs.Tops as spec;
ghost use Rattle.hdc_written.specs.Mirror as mirror;

use crate::tops::{Defining, resolve_text};
use hdc_base::Src;
use hdc_names::{Fixity, bind_standard, program_scope};
use hdc_resolved::{Decl, Name, Numbers, Signature};
use hdc_resolving::{
    Counter, Known, Numbering, Walk, construct_prelude, construct_tops, name_prelude, name_tops,
};
use hdc_tree::Tree;
use hdc_type_names::{bind_prelude_types, bind_program_types};
use hdc_written::Scope;
use sqlite_items::Items;
use std::alloc::{AllocError, Global};

/// The bindings at the top of a prelude and of a program behind it, and their signatures, in the order of the text, the
/// prelude's first.
#[derive(Drop)]
pub struct Bindings {
    pub decls: Items<Decl>,
    pub signatures: Items<Signature>,
}

/// What is known and in scope at the top of a text, and the numbers that the next binding and the next data type have.
#[derive(Drop)]
pub(crate) struct Opened<'t> {
    pub(crate) known: Known<'t>,
    pub(crate) walk: Walk<'t>,
    pub(crate) next_top: u32,
    pub(crate) next_data: u32,
}

/// The bindings and signatures of a prelude and a program behind it, where each chain stands for its operator tree and each
/// name for what it is bound to. `orders` has for each block of `let` and `where` the order in which its values are
/// evaluated, by the numbers of its declarations, in the order in which the blocks end, the prelude's first.
///
/// # Errors
///
/// `AllocError` where memory is wanting, or a number for a name.
pub fn resolve_bindings<'t>(
    alloc: Global,
    prelude: &'t Tree,
    program: &'t Tree,
    orders: Items<Numbers>,
) -> Result<Bindings, AllocError>
    ensures decls { IfOk result (λ b. map made.binding_of b.decls ≡ spec.all_bindings by_steps (mirror.tops_of prelude.now) (mirror.tops_of program.now) orders) }
    ensures signatures { IfOk result (λ b. map made.signed_of b.signatures ≡ spec.all_signatures (mirror.tops_of prelude.now) (mirror.tops_of program.now) orders) }
{
    let mut defining = Defining::new(alloc);
    let mut opened = open_prelude(alloc, prelude, orders)?;
    let top = &mut opened;
    resolve_text(alloc, &top.known, &mut top.walk, prelude, &mut defining)?;
    let mut opened = open_program(alloc, prelude, program, opened)?;
    let top = &mut opened;
    resolve_text(alloc, &top.known, &mut top.walk, program, &mut defining)?;
    defining.close()?;
    Ok(Bindings {
        decls: defining.done,
        signatures: defining.signatures,
    })
}

// What is known and in scope at the top of a prelude.
fn open_prelude<'t>(
    alloc: Global,
    prelude: &'t Tree,
    orders: Items<Numbers>,
) -> Result<Opened<'t>, AllocError>
    ensures { IfOk result (λ o. o ≡ opening.prelude_opened (mirror.tops_of prelude.now) orders) }
{
    let names = name_prelude(alloc, prelude)?;
    let range = library_name(&names.scope, b"enumFromTo");
    let generator = library_name(&names.scope, b"concatMap");
    let constructors = construct_prelude(alloc, prelude)?;
    let types = bind_prelude_types(alloc, prelude)?;
    let fixities = standard(alloc)?;
    Ok(Opened {
        known: Known {
            src: Src::Prelude,
            constructors: constructors.scope,
            types,
            range,
            generator,
            orders,
        },
        walk: Walk {
            names: names.scope,
            fixities,
            counter: Counter {
                numbers: 0,
                blocks: 0,
            },
        },
        next_top: names.next,
        next_data: constructors.next,
    })
}

// The same of a program behind the prelude for which this was opened.
fn open_program<'t>(
    alloc: Global,
    prelude: &'t Tree,
    program: &'t Tree,
    opened: Opened<'t>,
) -> Result<Opened<'t>, AllocError>
    ensures { IfOk result (λ o. o ≡ opening.opened_behind (mirror.tops_of prelude.now) (mirror.tops_of program.now) opened.entry) }
{
    let Opened {
        known,
        walk,
        next_top,
        next_data,
    } = opened;
    let mut constructors = Numbering {
        scope: known.constructors,
        next: next_data,
    };
    construct_tops(&mut constructors, program)?;
    let mut names = Numbering {
        scope: walk.names,
        next: next_top,
    };
    name_tops(&mut names, program)?;
    let types = bind_program_types(alloc, prelude, program)?;
    let fixities = program_scope(alloc, program)?;
    Ok(Opened {
        known: Known {
            src: Src::Program,
            constructors: constructors.scope,
            types,
            range: known.range,
            generator: known.generator,
            orders: known.orders,
        },
        walk: Walk {
            names: names.scope,
            fixities,
            counter: walk.counter,
        },
        next_top: names.next,
        next_data: constructors.next,
    })
}

// How the operators of a prelude bind.
fn standard<'t>(alloc: Global) -> Result<Scope<'t, Fixity>, AllocError>
    ensures { IfOk result (λ scope. scope ≡ spec.standard_fixities) }
{
    let mut scope = Scope::new(alloc);
    bind_standard(&mut scope)?;
    Ok(scope)
}

// A name of the prelude.
fn library_name(scope: &Scope<'_, Name>, text: &[u8]) -> Name
    ensures { result ≡ spec.name_in scope.now text.now }
{
    match scope.find(text) {
        Some(name) => name,
        None => Name::Unknown,
    }
}
