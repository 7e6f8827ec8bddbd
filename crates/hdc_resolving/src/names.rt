//! The bindings and constructors at the top of a text come into scope.

ghost use Rattle.std.specs.Prelude.{◌≡◌, ◌+◌, ◌∷◌, None, OnOk, IfOk};
ghost use Rattle.hdc_resolving.specs.Standing as spec;
ghost use Rattle.hdc_resolving.specs.Growths as growths;
ghost use Rattle.hdc_resolving.specs.Named as named;
ghost use Rattle.hdc_written.specs.Mirror as mirror;

use crate::built_in::bind_built_in;
use crate::growing::{goes_on, opened};
use hdc_resolved::{Constructor, Family, Name};
use hdc_tree::{BarConstr, Constr, Data, NextTop, Top, Tree};
use hdc_written::{Scope, head_name};
use std::alloc::{AllocError, Global};

/// What is in scope, and the number that the next binding or data type has.
#[derive(Drop)]
pub struct Numbering<'t, T> {
    pub scope: Scope<'t, T>,
    pub next: u32,
}

/// The bindings of a prelude, before the built-in functions.
pub fn name_prelude<'t>(alloc: Global, prelude: &'t Tree) -> Result<Numbering<'t, Name>, AllocError>
    ensures { IfOk result (λ n. named.numbered n ≡ spec.prelude_named (mirror.tops_of prelude.now)) }
{
    let mut scope = Scope::new(alloc);
    bind_built_in(&mut scope)?;
    let mut numbering = Numbering { scope, next: 0 };
    name_tops(&mut numbering, prelude)?;
    Ok(numbering)
}

/// The bindings of a text.
pub fn name_tops<'t>(numbering: &mut Numbering<'t, Name>, tree: &'t Tree) -> Result<(), AllocError>
    ensures { OnOk result (named.numbered numbering.new ≡ spec.tops_named (mirror.tops_of tree.now) None (named.numbered numbering.old)) }
{
    let before = name_top(numbering, None, tree.first.get())?;
    name_next_tops(numbering, before, tree.rest.as_slice())
}

fn name_next_tops<'t>(
    numbering: &mut Numbering<'t, Name>,
    before: Option<&'t [u8]>,
    tops: &'t [NextTop],
) -> Result<(), AllocError>
    ensures { OnOk result (named.numbered numbering.new ≡ spec.tops_named (mirror.tops_behind tops.now) (growths.text_of before.entry) (named.numbered numbering.old)) }
{
    let mut before = before;
    for part in tops {
        before = name_top(numbering, before, &part.top)?;
    }
    Ok(())
}

// A declaration; and the function with which the next equation may go on.
fn name_top<'t>(
    numbering: &mut Numbering<'t, Name>,
    before: Option<&'t [u8]>,
    part: &'t Top,
) -> Result<Option<&'t [u8]>, AllocError>
    ensures scope { OnOk result (named.numbered numbering.new ≡ spec.top_named (growths.text_of before.entry) part.now (named.numbered numbering.old)) }
    ensures before { IfOk result (λ b. growths.text_of b ≡ spec.behind_top (growths.text_of before.entry) part.now) }
{
    match part {
        Top::Equation(head, _rhs) => {
            if goes_on(before, head) {
                return Ok(before);
            }
            let number = Name::Top(numbering.next);
            numbering
                .scope
                .bind(head_name(head).text.as_slice(), number)?;
            numbering.count()?;
            Ok(opened(head))
        }
        Top::Empty => Ok(before),
        Top::Data(_data) => Ok(None),
        Top::Synonym(_synonym) => Ok(None),
        Top::Fixity(_fixity) => Ok(None),
        Top::Signature(_first, _rest, _at, _signature) => Ok(None),
    }
}

impl<'t, T> Numbering<'t, T> {
    // One more has a number.
    fn count(&mut self) -> Result<(), AllocError>
        ensures scope { OnOk result (self.new.scope ≡ self.old.scope) }
        ensures next { OnOk result (self.new.next ≡ self.old.next + 1) }
    {
        match self.next.checked_add(1) {
            Some(next) => {
                self.next = next;
                Ok(())
            }
            None => Err(AllocError),
        }
    }
}

/// The constructors of a prelude, before the built-in ones.
pub fn construct_prelude<'t>(
    alloc: Global,
    prelude: &'t Tree,
) -> Result<Numbering<'t, Constructor>, AllocError>
    ensures { IfOk result (λ n. named.numbered n ≡ spec.prelude_constructors (mirror.tops_of prelude.now)) }
{
    let mut scope = Scope::new(alloc);
    scope.bind(b"False", constructor(0, 0, 0))?;
    scope.bind(b"True", constructor(0, 1, 0))?;
    let mut numbering = Numbering { scope, next: 1 };
    construct_tops(&mut numbering, prelude)?;
    Ok(numbering)
}

fn constructor(number: u32, tag: u32, fields: u32) -> Constructor
    ensures { result ≡ named.constructor number tag fields }
{
    Constructor {
        family: Family::OfData(number),
        tag,
        fields,
    }
}

/// The constructors of a text.
pub fn construct_tops<'t>(
    numbering: &mut Numbering<'t, Constructor>,
    tree: &'t Tree,
) -> Result<(), AllocError>
    ensures { OnOk result (named.numbered numbering.new ≡ spec.constructors_in (mirror.tops_of tree.now) (named.numbered numbering.old)) }
{
    construct_top(numbering, tree.first.get())?;
    construct_next_tops(numbering, tree.rest.as_slice())
}

fn construct_next_tops<'t>(
    numbering: &mut Numbering<'t, Constructor>,
    tops: &'t [NextTop],
) -> Result<(), AllocError>
    ensures { OnOk result (named.numbered numbering.new ≡ spec.constructors_in (mirror.tops_behind tops.now) (named.numbered numbering.old)) }
{
    for part in tops {
        construct_top(numbering, &part.top)?;
    }
    Ok(())
}

fn construct_top<'t>(
    numbering: &mut Numbering<'t, Constructor>,
    part: &'t Top,
) -> Result<(), AllocError>
    ensures { OnOk result (named.numbered numbering.new ≡ spec.top_constructors part.now (named.numbered numbering.old)) }
{
    match part {
        Top::Data(declared) => construct_data(numbering, declared),
        Top::Empty => Ok(()),
        Top::Synonym(_synonym) => Ok(()),
        Top::Fixity(_fixity) => Ok(()),
        Top::Signature(_first, _rest, _at, _signature) => Ok(()),
        Top::Equation(_head, _rhs) => Ok(()),
    }
}

fn construct_data<'t>(
    numbering: &mut Numbering<'t, Constructor>,
    declared: &'t Data,
) -> Result<(), AllocError>
    ensures { OnOk result (named.numbered numbering.new ≡ spec.data_constructors declared.now (named.numbered numbering.old)) }
{
    let number = numbering.next;
    construct(&mut numbering.scope, number, 0, &declared.first)?;
    construct_bars(&mut numbering.scope, number, declared.rest.as_slice())?;
    numbering.count()
}

fn construct_bars<'t>(
    scope: &mut Scope<'t, Constructor>,
    number: u32,
    parts: &'t [BarConstr],
) -> Result<(), AllocError>
    ensures { OnOk result (scope.new ≡ spec.constructors_from number 1 parts.now scope.old) }
{
    let mut tag: u32 = 1;
    for part in parts {
        construct(scope, number, tag, &part.constr)?;
        tag = tag.checked_add(1).ok_or(AllocError)?;
    }
    Ok(())
}

fn construct<'t>(
    scope: &mut Scope<'t, Constructor>,
    number: u32,
    tag: u32,
    part: &'t Constr,
) -> Result<(), AllocError>
    ensures { OnOk result (scope.new ≡ spec.constructor_of number tag part.now ∷ scope.old) }
{
    match u32::try_from(part.fields.len()) {
        Ok(fields) => {
            let what = constructor(number, tag, fields);
            scope.bind(part.name.text.as_slice(), what)
        }
        Err(_error) => Err(AllocError),
    }
}
