//! The declarations of a block, as they become bindings.

ghost use Rattle.std.specs.Prelude.{◌≡◌, ◌++◌, OnOk, IfOk};
ghost use Rattle.hdc_resolved.specs.Mirror as made;
ghost use Rattle.hdc_resolving.specs.Parts as blocks;
ghost use Rattle.hdc_resolving.specs.Growths as growths;
ghost use Rattle.hdc_resolving.specs.Locals as spec;
ghost use Rattle.hdc_resolving.specs.Standing as standing;
ghost use Rattle.hdc_written.specs.Mirror as mirror;

use crate::known::Known;
use crate::walk::Counter;
use hdc_base::Place;
use hdc_resolved::{Alt, Block, Member, Numbers, Pat, Rhs, Signature};
use hdc_tree::Head;
use hdc_written::head_name;
use sqlite_items::Items;
use std::alloc::{AllocError, Global};

/// The bindings and signatures of a block, and for each of its declarations the place of its binding.
#[derive(Drop)]
pub struct Declared {
    pub members: Items<Member>,
    pub signatures: Items<Signature>,
    pub homes: Numbers,
}

/// A function or a plain name, whose equations may go on.
#[derive(Drop)]
pub struct Current {
    pub place: Place,
    pub number: u32,
    pub equations: Items<Alt>,
}

/// The declarations so far: the bindings that are done, the current one, the function with which the next equation may go on,
/// the signatures, for each declaration the place of its binding, and the place of the next binding.
#[derive(Drop)]
pub struct Growing<'t> {
    pub done: Items<Member>,
    pub current: Option<Current>,
    pub before: Option<&'t [u8]>,
    pub signatures: Items<Signature>,
    pub homes: Numbers,
    pub next: u32,
}

impl<'t> Growing<'t> {
    /// No declaration so far.
    pub fn new(alloc: Global) -> Growing<'t>
        ensures { growths.grown result ≡ growths.nothing_grown }
    {
        Growing {
            done: Items::new(alloc),
            current: None,
            before: None,
            signatures: Items::new(alloc),
            homes: Items::new(alloc),
            next: 0,
        }
    }

    /// A declaration that binds nothing and lets equations go on.
    pub fn stay(&mut self) -> Result<(), AllocError>
        ensures { OnOk result (growths.grown self.new ≡ growths.stayed (growths.grown self.old)) }
    {
        self.homes.push(self.next)
    }

    /// A signature.
    pub fn sign(&mut self, signature: Signature) -> Result<(), AllocError>
        ensures { OnOk result (growths.grown self.new ≡ growths.with_signature (made.signed_of signature) (growths.grown self.old)) }
    {
        self.before = None;
        self.homes.push(self.next)?;
        self.signatures.push(signature)
    }

    /// An equation, which goes on with the current function or begins another.
    pub fn define(
        &mut self,
        alloc: Global,
        place: Place,
        number: u32,
        head: &'t Head,
        alt: Alt,
    ) -> Result<(), AllocError>
        ensures { OnOk result (growths.grown self.new ≡ growths.with_equation place number (mirror.head_name head.now).text (mirror.head_patterns head.now) (made.equation_of alt) (growths.grown self.old)) }
    {
        if goes_on(self.before, head) {
            return self.go_on(alt);
        }
        self.begin(alloc, place, number, head, alt)
    }

    // An equation that goes on with the current function.
    fn go_on(&mut self, alt: Alt) -> Result<(), AllocError>
        ensures { OnOk result (growths.grown self.new ≡ growths.gone_on (made.equation_of alt) (growths.grown self.old)) }
    {
        if let Some(current) = &mut self.current {
            current.equations.push(alt)?;
        }
        self.homes
            .push(if self.next == 0 { 0 } else { self.next - 1 })
    }

    // An equation that begins another.
    fn begin(
        &mut self,
        alloc: Global,
        place: Place,
        number: u32,
        head: &'t Head,
        alt: Alt,
    ) -> Result<(), AllocError>
        ensures { OnOk result (growths.grown self.new ≡ growths.begun place number (standing.opened (mirror.head_name head.now).text (mirror.head_patterns head.now)) (made.equation_of alt) (growths.grown self.old)) }
    {
        self.close()?;
        let mut equations = Items::new(alloc);
        equations.push(alt)?;
        self.current = Some(Current {
            place,
            number,
            equations,
        });
        self.before = opened(head);
        self.count()
    }

    /// A pattern and what it is matched against.
    pub fn match_pat(&mut self, place: Place, pat: Pat, rhs: Rhs) -> Result<(), AllocError>
        ensures { OnOk result (growths.grown self.new ≡ growths.with_pattern place (made.pattern_of pat) (made.right_of rhs) (growths.grown self.old)) }
    {
        self.close()?;
        self.before = None;
        self.done.push(Member::Matched(place, pat, rhs))?;
        self.count()
    }

    // The current function is done.
    fn close(&mut self) -> Result<(), AllocError>
        ensures { OnOk result (growths.grown self.new ≡ growths.closed (growths.grown self.old)) }
    {
        match self.current.take() {
            Some(current) => {
                let Current {
                    place,
                    number,
                    equations,
                } = current;
                self.done.push(Member::Named(place, number, equations))
            }
            None => Ok(()),
        }
    }

    // A declaration has the next binding.
    fn count(&mut self) -> Result<(), AllocError>
        ensures { OnOk result (growths.grown self.new ≡ growths.counted (growths.grown self.old)) }
    {
        self.homes.push(self.next)?;
        match self.next.checked_add(1) {
            Some(next) => {
                self.next = next;
                Ok(())
            }
            None => Err(AllocError),
        }
    }

    /// No further declaration.
    pub fn finish(mut self) -> Result<Declared, AllocError>
        ensures { IfOk result (λ d. blocks.bound_of d ≡ growths.finished (growths.grown self.entry)) }
    {
        self.close()?;
        Ok(Declared {
            members: self.done,
            signatures: self.signatures,
            homes: self.homes,
        })
    }
}

/// Whether an equation goes on with the function of the equation before it.
pub fn goes_on(before: Option<&[u8]>, head: &Head) -> bool
    ensures { result ≡ standing.goes_on (growths.text_of before.entry) (mirror.head_name head.now).text (mirror.head_patterns head.now) }
{
    match before {
        Some(text) => has_parameters(head) && head_name(head).text.as_slice() == text,
        None => false,
    }
}

/// The function with which the next equation may go on.
pub fn opened<'t>(head: &'t Head) -> Option<&'t [u8]>
    ensures { growths.text_of result ≡ standing.opened (mirror.head_name head.now).text (mirror.head_patterns head.now) }
{
    if has_parameters(head) {
        Some(head_name(head).text.as_slice())
    } else {
        None
    }
}

fn has_parameters(head: &Head) -> bool
    ensures { result ≡ growths.has_some (mirror.head_patterns head.now) }
{
    match head {
        Head::Prefix(_var, params) => match params.as_slice() {
            [] => false,
            [_first, ..] => true,
        },
        Head::Infix(_left, _op, _right) => true,
        Head::Paren(_open_at, _left, _op, _right, _close_at, _first, _rest) => true,
    }
}

/// The block of what is declared, where so much is counted.
#[tactic(auto, using(hdc_resolved::proofs::Mirror::mirrored))]
pub fn block_of(
    alloc: Global,
    known: &Known<'_>,
    counter: Counter,
    declared: Declared,
) -> Result<Block, AllocError>
    ensures { IfOk result (λ b. made.block_of b ≡ blocks.block_at known.now counter (blocks.bound_of declared)) }
{
    let Declared {
        members,
        signatures,
        homes,
    } = declared;
    let order = order_of(alloc, known, counter, homes.as_slice())?;
    Ok(Block {
        members,
        signatures,
        order,
    })
}

// The order in which the values of the block with the next number are evaluated, by its bindings.
fn order_of(
    alloc: Global,
    known: &Known<'_>,
    counter: Counter,
    homes: &[u32],
) -> Result<Numbers, AllocError>
    ensures { IfOk result (λ order. order ≡ spec.housed homes.now (spec.order_at known.now counter.blocks)) }
{
    match known.orders.get(counter.blocks as usize) {
        Some(order) => house(alloc, homes, order.as_slice()),
        None => Ok(Items::new(alloc)),
    }
}

// Declarations as bindings.
fn house(alloc: Global, homes: &[u32], declarations: &[u32]) -> Result<Numbers, AllocError>
    ensures { IfOk result (λ order. order ≡ spec.housed homes.now declarations.now) }
{
    let mut order = Items::new(alloc);
    push_homes(homes, declarations, &mut order)?;
    Ok(order)
}

fn push_homes(homes: &[u32], declarations: &[u32], order: &mut Numbers) -> Result<(), AllocError>
    ensures { OnOk result (order.new ≡ order.old ++ spec.housed homes.now declarations.now) }
{
    for declaration in declarations {
        order.push(home_of(homes, *declaration))?;
    }
    Ok(())
}

fn home_of(homes: &[u32], declaration: u32) -> u32
    ensures { result ≡ spec.home_of homes.now declaration }
{
    match homes.get(declaration as usize) {
        Some(home) => *home,
        None => 0,
    }
}
