//! The nodes that join the operands of a chain.

ghost use Rattle.std.specs.Prelude.{◌≡◌, [], ◌∷◌, OnOk, IfOk};
ghost use Rattle.hdc_written.specs.Mirror as mirror;
ghost use Rattle.hdc_names.specs.Walk as spec;

use crate::chain::Step;
use crate::depth::deeper;
use crate::found::Found;
use hdc_base::At;
use hdc_tree::Expression;
use hdc_written::{Stack, first_of_exp, operand_at, operator_before, start_at};
use sqlite_items::Items;
use std::alloc::{AllocError, Global};

/// A tree whose steps are still to come, which begins at a place.
#[derive(Clone, Copy, Debug, PartialEq, Eq)]
pub(crate) struct Pending {
    pub(crate) depth: u64,
    pub(crate) at: At,
}

/// The steps of a chain's tree are gone through from the last one to the first: the trees that are still to come,
/// the depths of the operands that were met, and what was found.
#[derive(Drop)]
pub(crate) struct Joining {
    pub(crate) pending: Stack<Pending>,
    pub(crate) depths: Stack<u64>,
    pub(crate) found: Found,
}

/// The depths of the operands of a chain, whose tree has this depth and is built by these steps; its nodes are
/// noted.
#[tactic(auto, using(hdc_written::proofs::ExpressionMirror::mirrored_expressions))]
pub(crate) fn join(
    alloc: Global,
    depth: u64,
    exp: &Expression,
    found: Found,
    mut steps: Items<Step>,
) -> Result<Joining, AllocError>
    ensures { IfOk result (λ j. j ≡ spec.turned (mirror.exp_of exp.now) steps (spec.started depth (mirror.exp_of exp.now) found)) }
{
    let mut joining = Joining::start(alloc, depth, first_of_exp(exp), found)?;
    while let Some(step) = steps.pop() {
        joining.turn(exp, step)?;
    }
    Ok(joining)
}

impl Joining {
    fn start(alloc: Global, depth: u64, at: At, found: Found) -> Result<Joining, AllocError>
        ensures { IfOk result (λ j. j ≡ record { pending = record { depth = depth; at = at } ∷ []; depths = []; found = found }) }
    {
        let mut pending = Stack::new(alloc);
        pending.push(Pending { depth, at })?;
        Ok(Joining {
            pending,
            depths: Stack::new(alloc),
            found,
        })
    }

    fn turn(&mut self, exp: &Expression, step: Step) -> Result<(), AllocError>
        ensures { OnOk result (self.new ≡ spec.turn (mirror.exp_of exp.now) step self.old) }
    {
        match self.pending.pop() {
            Some(pending) => self.turn_at(exp, step, pending),
            None => Ok(()),
        }
    }

    fn turn_at(&mut self, exp: &Expression, step: Step, now: Pending) -> Result<(), AllocError>
        ensures { OnOk result (self.new ≡ spec.turn_at (mirror.exp_of exp.now) step now self.old) }
    {
        match step {
            Step::Operand => self.depths.push(now.depth),
            Step::Sign(number) => {
                self.found.note_node(now.depth, now.at);
                let depth = deeper(now.depth)?;
                let at = operand_at(exp, number);
                self.pending.push(Pending { depth, at })
            }
            Step::Operator(number) => {
                self.found.note_node(now.depth, now.at);
                let depth = deeper(now.depth)?;
                self.found.note_node(depth, operator_before(exp, number));
                self.pending.push(Pending { depth, at: now.at })?;
                let at = start_at(exp, number);
                self.pending.push(Pending { depth, at })
            }
        }
    }
}
