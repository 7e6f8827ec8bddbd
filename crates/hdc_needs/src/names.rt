//! The names that the declarations of a block bind.

ghost use Rattle.std.specs.Prelude.{◌≡◌, ◌+◌, [], ◌∷◌, ◌++◌, OnOk, IfOk, map};
ghost use Rattle.hdc_written.specs.Mirror as mirror;
ghost use Rattle.hdc_written.specs.Recorded.{event_of, recorded};
ghost use Rattle.hdc_written.specs.Written as written;
ghost use Rattle.hdc_needs.specs.Binders as spec;
ghost use Rattle.hdc_needs.specs.Kept.{mention_of, declarations_of};

use hdc_tree::{Block, Decl, Name, NextDecl, Pat};
use hdc_written::{Event, head_name, variable_events};
use sqlite_items::Items;
use std::alloc::{AllocError, Global};

/// A name that a declaration binds, with the declaration's number in its block.
#[derive(Clone, Copy)]
pub(crate) struct BoundName<'t> {
    pub(crate) number: u32,
    pub(crate) name: &'t Name,
}

/// The names that the declarations of a block bind, in order.
#[tactic(auto, using(crate::proofs::Naming::in_order, hdc_written::proofs::ExpressionMirror::mirrored_expressions))]
pub(crate) fn bound_names<'t>(
    alloc: Global,
    block: Option<&'t Block>,
) -> Result<Items<BoundName<'t>>, AllocError>
    ensures { IfOk result (λ names. map mention_of names ≡ spec.bound_from 0 (declarations_of block.entry)) }
{
    let mut names = Items::new(alloc);
    if let Some(block) = block {
        add_declaration(alloc, &mut names, 0, block.first.get())?;
        add_declarations(alloc, &mut names, block.rest.as_slice())?;
    }
    Ok(names)
}

// The declarations of a block behind its first one.
fn add_declarations<'t>(
    alloc: Global,
    names: &mut Items<BoundName<'t>>,
    parts: &'t [NextDecl],
) -> Result<(), AllocError>
    ensures { OnOk result (map mention_of names.new ≡ map mention_of names.old ++ spec.bound_from 1 (mirror.each_declaration mirror.next_decl_of parts.now)) }
{
    let mut number: u32 = 0;
    for part in parts {
        number = next_number(number)?;
        add_declaration(alloc, names, number, &part.decl)?;
    }
    Ok(())
}

/// The number behind this one, unless it is the last.
pub(crate) fn next_number(number: u32) -> Result<u32, AllocError>
    ensures { IfOk result (λ next. next ≡ number + 1) }
{
    match number.checked_add(1) {
        Some(next) => Ok(next),
        None => Err(AllocError),
    }
}

#[tactic(auto, using(crate::proofs::Naming::in_order, hdc_written::proofs::ExpressionMirror::mirrored_expressions))]
fn add_declaration<'t>(
    alloc: Global,
    names: &mut Items<BoundName<'t>>,
    number: u32,
    part: &'t Decl,
) -> Result<(), AllocError>
    ensures { OnOk result (map mention_of names.new ≡ map mention_of names.old ++ spec.mentions number (written.bound (mirror.decl_of part.now))) }
{
    match part {
        Decl::Empty => Ok(()),
        Decl::Signature(_var, _rest, _at, _signature) => Ok(()),
        Decl::Equation(head, _rhs) => add_name(names, number, head_name(head)),
        Decl::Binding(pat, _rhs) => add_variables(alloc, names, number, pat),
    }
}

#[tactic(auto, using(crate::proofs::Naming::in_order))]
fn add_variables<'t>(
    alloc: Global,
    names: &mut Items<BoundName<'t>>,
    number: u32,
    pat: &'t Pat,
) -> Result<(), AllocError>
    ensures { OnOk result (map mention_of names.new ≡ map mention_of names.old ++ spec.mentions number (written.variables (mirror.pat_of pat.now))) }
{
    let events = variable_events(alloc, pat)?;
    add_introduced(names, number, events.as_slice())
}

// Each variable that comes into scope.
fn add_introduced<'t>(
    names: &mut Items<BoundName<'t>>,
    number: u32,
    events: &[Event<'t>],
) -> Result<(), AllocError>
    ensures { OnOk result (map mention_of names.new ≡ map mention_of names.old ++ spec.introduced_in number (map event_of events.now)) }
{
    for event in events {
        add_event(names, number, *event)?;
    }
    Ok(())
}

#[tactic(auto, using(crate::proofs::Naming::in_order))]
fn add_event<'t>(
    names: &mut Items<BoundName<'t>>,
    number: u32,
    event: Event<'t>,
) -> Result<(), AllocError>
    ensures { OnOk result (map mention_of names.new ≡ map mention_of names.old ++ spec.introduced_by number (event_of event.entry)) }
{
    match event {
        Event::Introduced(name) => add_name(names, number, name),
        Event::Block(None) => Ok(()),
        _ => Ok(()),
    }
}

#[tactic(auto, using(crate::proofs::Naming::one_more))]
fn add_name<'t>(
    names: &mut Items<BoundName<'t>>,
    number: u32,
    name: &'t Name,
) -> Result<(), AllocError>
    ensures { OnOk result (map mention_of names.new ≡ map mention_of names.old ++ record { number = number; name = name.now } ∷ []) }
{
    names.push(BoundName { number, name })
}
