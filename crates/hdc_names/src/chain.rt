//! Chains of operands and operators.

ghost use Rattle.std.specs.Prelude.{◌≡◌, IfOk};
ghost use Rattle.hdc_names.specs.Chain as spec;
ghost use Rattle.hdc_names.specs.Chain.{Answers, Reads, IsRead};

use crate::fixity::{Fixity, Taker, between, sign};
use crate::waiting::Waiting;
use hdc_base::At;
use hdc_written::Stack;
use sqlite_items::Items;
use std::alloc::{AllocError, AllocFailed, Global};

/// An operator, and the operand behind it, with a sign or without one; `at` is the place of the last operator
/// up to the operand, which is its sign, or else the operator before it.
#[derive(Clone, Copy, Debug, PartialEq, Eq)]
pub struct NextOperand {
    pub fixity: Fixity,
    pub signed: bool,
    pub at: At,
}

/// A step of building a tree, with a stack of trees.
#[derive(Clone, Copy, Debug, PartialEq, Eq)]
pub enum Step {
    /// The next operand of the chain comes on top.
    Operand,
    /// The tree on top gets the sign of the operand of this number.
    Sign(usize),
    /// The two on top become the operands of the operator before the operand of this number.
    Operator(usize),
}

/// Why a chain has no tree.
#[derive(Clone, Copy, Debug, PartialEq, Eq)]
pub enum ChainStop {
    /// Up to the operand of this number, and up to none before it, the chain has no tree. The last operator up
    /// to there is the operand's sign, or else the operator before it.
    NoTree(usize),
    /// Want of memory.
    Want,
}

impl From<AllocError> for ChainStop {
    ghost from_gives = { λ _ s. s ≡ spec.want };

    fn from(_error: AllocError) -> ChainStop {
        ChainStop::Want
    }
}

impl<T: Drop> From<AllocFailed<T>> for ChainStop {
    ghost from_gives = { λ _ s. s ≡ spec.want };

    fn from(_error: AllocFailed<T>) -> ChainStop {
        ChainStop::Want
    }
}

/// How the tree of a chain is built, whose first operand has a sign or none, with the others in `rest`.
/// The operands are numbered from 0.
pub fn steps(alloc: Global, signed: bool, rest: &[NextOperand]) -> Result<Items<Step>, ChainStop>
    ensures answers { Answers signed rest.now result }
    ensures read { IsRead (spec.read signed rest.now) result }
{
    let mut progress = Progress::start(alloc, signed)?;
    for index in 0..rest.len() {
        if !progress.read_next(index + 1, rest[index])? {
            return Err(ChainStop::NoTree(index + 1));
        }
    }
    Ok(progress.finish()?)
}

/// What waits, and the steps so far, where an operand has been read.
#[derive(Drop)]
struct Progress {
    stack: Stack<Waiting>,
    steps: Items<Step>,
}

impl Progress {
    // The first operand is read.
    fn start(alloc: Global, signed: bool) -> Result<Progress, AllocError>
        ensures { IfOk result (λ progress. progress ≡ spec.start signed) }
    {
        let mut stack = Stack::new(alloc);
        let mut steps = Items::new(alloc);
        if signed {
            stack.push(Waiting::Sign(0))?;
        }
        steps.push(Step::Operand)?;
        Ok(Progress { stack, steps })
    }

    // An operator takes what is its left operand, if that is clear.
    fn take_left(&mut self, fixity: Fixity) -> Result<bool, AllocError>
        ensures { Reads (spec.left_taken self.old.stack self.old.steps fixity) result self.new }
    {
        while let Some(waiting) = self.stack.pop() {
            match between(waiting.fixity(), fixity) {
                Taker::First => self.steps.push(waiting.step())?,
                Taker::Second => {
                    self.stack.push(waiting)?;
                    return Ok(true);
                }
                Taker::Unclear => return Ok(false),
            }
        }
        Ok(true)
    }

    // The sign and the operand behind an operator, if a sign may stand there.
    fn read_sign(&mut self, fixity: Fixity, number: usize) -> Result<bool, AllocError>
        ensures { Reads (spec.sign_behind fixity number self.old) result self.new }
    {
        match between(fixity, sign()) {
            Taker::Second => {
                self.stack.push(Waiting::Sign(number))?;
                self.steps.push(Step::Operand)?;
                Ok(true)
            }
            Taker::First | Taker::Unclear => Ok(false),
        }
    }

    // The operator before the operand of this number, and the operand.
    fn read_next(&mut self, number: usize, next: NextOperand) -> Result<bool, AllocError>
        ensures { Reads (spec.next_read number next self.old) result self.new }
    {
        if !self.take_left(next.fixity)? {
            return Ok(false);
        }
        self.stack.push(Waiting::Operator(number, next.fixity))?;
        if next.signed {
            return self.read_sign(next.fixity, number);
        }
        self.steps.push(Step::Operand)?;
        Ok(true)
    }

    // Nothing follows.
    fn finish(self) -> Result<Items<Step>, AllocError>
        ensures { IfOk result (λ steps. steps ≡ spec.all_taken self.stack self.steps) }
    {
        let Progress {
            mut stack,
            mut steps,
        } = self;
        while let Some(waiting) = stack.pop() {
            steps.push(waiting.step())?;
        }
        Ok(steps)
    }
}
