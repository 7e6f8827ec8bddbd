//! The bindings and signatures at the top of a text.

ghost use Rattle.std.specs.Prelude.{◌≡◌, OnOk};
ghost use Rattle.hdc_resolved.specs.Mirror as made;
ghost use Rattle.hdc_bindings.specs.Defined as defined;
ghost use Rattle.hdc_resolving.specs.Grouped.{by_steps};
ghost use Rattle.hdc_resolving.specs.Numbering as numbering;
ghost use Rattle.hdc_bindings.specs.Tops as spec;
ghost use Rattle.hdc_written.specs.Mirror as mirror;

use crate::expression::resolve_rhs;
use crate::made_expression::equation;
use hdc_base::Text;
use hdc_resolved::{Alt, Decl, Signature};
use hdc_resolving::{Known, Walk, enter_head, goes_on, opened, resolve_head, resolve_signature};
use hdc_tree::{Head, NextTop, Top, Tree};
use hdc_written::{first_of_head, head_name};
use sqlite_items::Items;
use std::alloc::{AllocError, Global};

/// The bindings at the top so far: those that are done, the current one, the function with which the next equation may go on,
/// and the signatures.
#[derive(Drop)]
pub(crate) struct Defining<'t> {
    pub(crate) done: Items<Decl>,
    pub(crate) current: Option<Decl>,
    pub(crate) before: Option<&'t [u8]>,
    pub(crate) signatures: Items<Signature>,
}

impl<'t> Defining<'t> {
    /// Nothing so far.
    pub(crate) fn new(alloc: Global) -> Defining<'t>
        ensures { defined.defining result ≡ defined.nothing }
    {
        Defining {
            done: Items::new(alloc),
            current: None,
            before: None,
            signatures: Items::new(alloc),
        }
    }

    /// The current binding is done, and the next equation begins another.
    pub(crate) fn close(&mut self) -> Result<(), AllocError>
        ensures { OnOk result (defined.defining self.new ≡ defined.closed (defined.defining self.old)) }
    {
        self.before = None;
        match self.current.take() {
            Some(current) => self.done.push(current),
            None => Ok(()),
        }
    }

    // An equation, which goes on with the current function or begins another.
    fn define(
        &mut self,
        alloc: Global,
        known: &Known<'_>,
        head: &'t Head,
        alt: Alt,
    ) -> Result<(), AllocError>
        ensures { OnOk result (defined.defining self.new ≡ defined.with_equation known.now head.now (made.equation_of alt) (defined.defining self.old)) }
    {
        if goes_on(self.before, head) {
            return self.go_on(alt);
        }
        self.begin(alloc, known, head, alt)
    }

    fn go_on(&mut self, alt: Alt) -> Result<(), AllocError>
        ensures { OnOk result (defined.defining self.new ≡ defined.gone_on (made.equation_of alt) (defined.defining self.old)) }
    {
        if let Some(current) = &mut self.current {
            current.equations.push(alt)?;
        }
        Ok(())
    }

    fn begin(
        &mut self,
        alloc: Global,
        known: &Known<'_>,
        head: &'t Head,
        alt: Alt,
    ) -> Result<(), AllocError>
        ensures { OnOk result (defined.defining self.new ≡ defined.begun known.now head.now (made.equation_of alt) (defined.defining self.old)) }
    {
        self.close()?;
        let written = head_name(head);
        let name = Text::from_slice(alloc, written.text.as_slice())?;
        let mut equations = Items::new(alloc);
        equations.push(alt)?;
        self.current = Some(Decl {
            name,
            place: known.place(written.at),
            equations,
        });
        self.before = opened(head);
        Ok(())
    }
}

/// The bindings and signatures of a text. The current binding is done behind them.
pub(crate) fn resolve_text<'t>(
    alloc: Global,
    known: &Known<'_>,
    walk: &mut Walk<'t>,
    tree: &'t Tree,
    defining: &mut Defining<'t>,
) -> Result<(), AllocError>
    ensures what { OnOk result (defined.defining defining.new ≡ defined.all_defined_in by_steps known.now (mirror.tops_of tree.now) walk.old (defined.closed (defined.defining defining.old))) }
    ensures moved { OnOk result (walk.new ≡ numbering.moved (spec.behind_text (mirror.tops_of tree.now) walk.old.counter) walk.old) }
{
    defining.close()?;
    resolve_top(alloc, known, walk, tree.first.get(), defining)?;
    resolve_tops(alloc, known, walk, tree.rest.as_slice(), defining)
}

fn resolve_tops<'t>(
    alloc: Global,
    known: &Known<'_>,
    walk: &mut Walk<'t>,
    parts: &'t [NextTop],
    defining: &mut Defining<'t>,
) -> Result<(), AllocError>
    ensures what { OnOk result (defined.defining defining.new ≡ defined.all_defined_in by_steps known.now (mirror.tops_behind parts.now) walk.old (defined.defining defining.old)) }
    ensures moved { OnOk result (walk.new ≡ numbering.moved (spec.behind_text (mirror.tops_behind parts.now) walk.old.counter) walk.old) }
{
    for part in parts {
        resolve_top(alloc, known, walk, &part.top, defining)?;
    }
    Ok(())
}

#[tactic(auto, using(hdc_resolving::proofs::Entering::leaving))]
fn resolve_top<'t>(
    alloc: Global,
    known: &Known<'_>,
    walk: &mut Walk<'t>,
    part: &'t Top,
    defining: &mut Defining<'t>,
) -> Result<(), AllocError>
    ensures what { OnOk result (defined.defining defining.new ≡ defined.defined_in by_steps known.now part.now walk.old (defined.defining defining.old)) }
    ensures moved { OnOk result (walk.new ≡ numbering.moved (spec.behind_declared part.now walk.old.counter) walk.old) }
{
    match part {
        Top::Empty => Ok(()),
        Top::Data(_data) => defining.close(),
        Top::Synonym(_synonym) => defining.close(),
        Top::Fixity(_fixity) => defining.close(),
        Top::Signature(first, rest, _at, signature) => {
            defining.close()?;
            let signature = resolve_signature(
                alloc,
                known,
                walk,
                first,
                rest.as_slice(),
                signature,
            )?;
            defining.signatures.push(signature)
        }
        Top::Equation(head, rhs) => {
            let sizes = walk.sizes();
            enter_head(walk, head)?;
            let pats = resolve_head(alloc, known, walk, head)?;
            let rhs = resolve_rhs(alloc, known, walk, rhs)?;
            walk.leave(sizes);
            let alt = equation(known, first_of_head(head), pats, rhs);
            defining.define(alloc, known, head, alt)
        }
    }
}
