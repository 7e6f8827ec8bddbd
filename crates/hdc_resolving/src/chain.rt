//! The operands of a chain are joined.

ghost use Rattle.std.specs.Prelude.{◌≡◌, OnOk, IfOk, map};
ghost use Rattle.hdc_resolving.specs.Grouped as spec;
ghost use Rattle.hdc_resolving.specs.Placing.{building, placed_of};
ghost use Rattle.hdc_resolved.specs.Mirror as made;
ghost use Rattle.hdc_written.specs.Mirror as mirror;

use crate::known::Known;
use crate::pile::Pile;
use hdc_base::At;
use hdc_names::{ChainStop, NextOperand, Step, is_signed, steps};
use hdc_resolved::{Exp, Name, RowKind, Use};
use hdc_tree::Expression;
use hdc_written::start_at;
use sqlite_items::{Boxed, Items};
use std::alloc::{AllocError, Global};

/// An operand, or operands that are joined, with the first token.
#[derive(Drop)]
pub struct Placed {
    pub at: At,
    pub what: Exp,
}

/// The operands that are still to come, and what is built.
#[derive(Drop)]
struct Building {
    rest: Pile<Placed>,
    done: Pile<Placed>,
}

/// The operands of the chain of an expression, joined as its tree has it; of a chain without a tree its first operand.
pub fn join(
    alloc: Global,
    known: &Known<'_>,
    exp: &Expression,
    rest: &[NextOperand],
    uses: &[Use],
    operands: Items<Placed>,
) -> Result<Exp, AllocError>
    ensures { IfOk result (λ e. made.expression_of e ≡ (spec.by_steps known.now.src (mirror.exp_of exp.now) rest.now uses.now (map placed_of operands)).what) }
{
    let steps = chain_steps(alloc, is_signed(exp), rest)?;
    let mut building = Building {
        rest: Pile::of(alloc, operands)?,
        done: Pile::new(alloc),
    };
    building.turn_all(alloc, known, exp, uses, steps.as_slice())?;
    Ok(building.finish(alloc, known).what)
}

// The steps that build the tree of a chain, or take its first operand.
fn chain_steps(alloc: Global, signed: bool, rest: &[NextOperand]) -> Result<Items<Step>, AllocError>
    ensures { IfOk result (λ steps. steps ≡ spec.steps_in signed rest.now) }
{
    match steps(alloc, signed, rest) {
        Ok(steps) => Ok(steps),
        Err(ChainStop::NoTree(_number)) => {
            let mut first = Items::new(alloc);
            first.push(Step::Operand)?;
            Ok(first)
        }
        Err(ChainStop::Want) => Err(AllocError),
    }
}

// The operator before the operand of this number.
fn use_before(known: &Known<'_>, uses: &[Use], number: usize) -> Use
    ensures { result ≡ spec.use_before known.now.src uses.now number }
{
    let index = if number == 0 { 0 } else { number - 1 };
    match uses.get(index) {
        Some(found) => *found,
        None => no_use(known),
    }
}

fn no_use(known: &Known<'_>) -> Use
    ensures { result ≡ spec.no_use known.now.src }
{
    let nowhere = known.place(At { line: 0, col: 0 });
    Use {
        first: nowhere,
        place: nowhere,
        name: Name::Unknown,
    }
}

impl Building {
    fn turn_all(
        &mut self,
        alloc: Global,
        known: &Known<'_>,
        exp: &Expression,
        uses: &[Use],
        steps: &[Step],
    ) -> Result<(), AllocError>
        ensures { OnOk result (building self.new ≡ spec.turned known.now.src (mirror.exp_of exp.now) uses.now steps.now (building self.old)) }
    {
        for step in steps {
            self.turn(alloc, known, exp, uses, *step)?;
        }
        Ok(())
    }

    fn turn(
        &mut self,
        alloc: Global,
        known: &Known<'_>,
        exp: &Expression,
        uses: &[Use],
        step: Step,
    ) -> Result<(), AllocError>
        ensures { OnOk result (building self.new ≡ spec.turn known.now.src (mirror.exp_of exp.now) uses.now step (building self.old)) }
    {
        match step {
            Step::Operand => self.take_operand(),
            Step::Sign(number) => self.put_sign(alloc, known, start_at(exp, number)),
            Step::Operator(number) => {
                self.put_operator(alloc, known, use_before(known, uses, number))
            }
        }
    }

    fn take_operand(&mut self) -> Result<(), AllocError>
        ensures { OnOk result (building self.new ≡ spec.operand_taken (map placed_of self.old.rest) (map placed_of self.old.done)) }
    {
        match self.rest.pop() {
            Some(operand) => self.done.push(operand),
            None => Ok(()),
        }
    }

    #[tactic(auto, using(hdc_resolved::proofs::Mirror::mirrored))]
    fn put_sign(&mut self, alloc: Global, known: &Known<'_>, at: At) -> Result<(), AllocError>
        ensures { OnOk result (building self.new ≡ spec.sign_put known.now.src at (map placed_of self.old.rest) (map placed_of self.old.done)) }
    {
        match self.done.pop() {
            Some(operand) => {
                let what = Exp::Neg(known.place(at), Boxed::new(alloc, operand.what)?);
                self.done.push(Placed { at, what })
            }
            None => Ok(()),
        }
    }

    #[tactic(auto, using(hdc_resolved::proofs::Mirror::mirrored))]
    fn put_operator(
        &mut self,
        alloc: Global,
        known: &Known<'_>,
        operator: Use,
    ) -> Result<(), AllocError>
        ensures { OnOk result (building self.new ≡ spec.operator_put known.now.src operator (map placed_of self.old.rest) (map placed_of self.old.done)) }
    {
        match self.done.pop() {
            Some(right) => match self.done.pop() {
                Some(left) => {
                    let joined = joined(alloc, known, operator, left, right)?;
                    self.done.push(joined)
                }
                None => Ok(()),
            },
            None => Ok(()),
        }
    }

    #[tactic(auto, using(hdc_resolved::proofs::Mirror::mirrored))]
    fn finish(mut self, alloc: Global, known: &Known<'_>) -> Placed
        ensures { placed_of result ≡ spec.top_of known.now.src (map placed_of self.done) }
    {
        match self.done.pop() {
            Some(whole) => whole,
            None => {
                let at = At { line: 0, col: 0 };
                Placed {
                    at,
                    what: Exp::Row(known.place(at), RowKind::OfTuple, Items::new(alloc)),
                }
            }
        }
    }
}

// Two operands with an operator between them.
#[tactic(auto, using(hdc_resolved::proofs::Mirror::mirrored))]
fn joined(
    alloc: Global,
    known: &Known<'_>,
    operator: Use,
    left: Placed,
    right: Placed,
) -> Result<Placed, AllocError>
    ensures { IfOk result (λ p. placed_of p ≡ spec.joined known.now.src operator (placed_of left) (placed_of right)) }
{
    let at = left.at;
    let first = Boxed::new(alloc, left.what)?;
    let second = Boxed::new(alloc, right.what)?;
    Ok(Placed {
        at,
        what: Exp::Infix(known.place(at), first, operator, second),
    })
}
