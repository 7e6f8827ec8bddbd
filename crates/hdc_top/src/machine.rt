//! The machine, step by step.

ghost use Rattle.std.specs.Prelude.{◌≡◌, ◌<◌, ◌+◌, [], IfOk, IfNone, OnOk, IsSome, length};
ghost use Rattle.hdc_code.specs.Machine.{start, step};
ghost use Rattle.hdc_code.specs.Sound.{IsSound, EndsWith};

use hdc_base::{Place, Want};
use hdc_code::{Instr, Instrs};
use hdc_value::{Op, Outcome, Trap, Value, arith};
use std::alloc::Global;

/// How a run ended, and how many unfoldings it counted.
#[derive(Clone, Copy, Debug, PartialEq, Eq)]
pub struct Record {
    pub outcome: Outcome,
    pub ticks: u64,
}

/// Runs the code to its end.
pub fn run(alloc: Global, code: &Instrs) -> Result<Record, Want>
    requires { IsSound code.now }
    ensures { IfOk result (λ end. EndsWith code.now end.outcome end.ticks) }
{
    let code = code.as_slice();
    let mut machine = Machine {
        place: 0,
        stack: Vec::new(alloc),
        ticks: 0,
    };
    'steps: loop {
        if let Some(outcome) = machine.step(code)? {
            return Ok(Record {
                outcome,
                ticks: machine.ticks,
            });
        }
    }
}

// A processor that runs: the place of its next instruction, its stack with the top last, and the
// unfoldings counted so far.
#[derive(Drop)]
struct Machine {
    place: usize,
    stack: Vec<Value>,
    ticks: u64,
}

impl Machine {
    ghost use Rattle.std.specs.Prelude.{◌^◌, reverse};
    ghost use Rattle.hdc_code.specs.Machine.{execute};
    ghost use Rattle.hdc_top.specs.Runs.{config_of, Leads};

    // One step; answers the outcome where it is the last.
    fn step(&mut self, code: &[Instr]) -> Result<Option<Outcome>, Want>
        requires { IsSome (step code.now (config_of self.old)) }
        ensures leads { IfOk result (λ outcome. Leads (step code.now (config_of self.old)) outcome self.new) }
        ensures place { IfOk result (λ outcome. IfNone outcome (self.new.place ≡ self.old.place + 1)) }
        ensures within { self.old.place < length code.now }
    {
        self.execute(code[self.place])
    }

    fn execute(&mut self, instr: Instr) -> Result<Option<Outcome>, Want>
        requires place { self.old.place < 2 ^ 63 }
        requires defined { IsSome (execute instr self.old.place (reverse self.old.stack.items) self.old.ticks) }
        ensures leads { IfOk result (λ outcome. Leads (execute instr self.old.place (reverse self.old.stack.items) self.old.ticks) outcome self.new) }
        ensures place { IfOk result (λ outcome. IfNone outcome (self.new.place ≡ self.old.place + 1)) }
    {
        match instr {
            Instr::Int(n) => {
                self.stack.push(Value::Int(n))?;
                self.place += 1;
                Ok(None)
            }
            Instr::Prim(op, place) => self.operate(op, place),
            Instr::Tick => {
                self.ticks = self.ticks.checked_add(1).ok_or(Want)?;
                self.place += 1;
                Ok(None)
            }
            Instr::Ret => match self.stack.pop() {
                Some(value) => Ok(Some(Outcome::Value(value))),
                None => unreachable!(),
            },
        }
    }

    // An operator on the two values on the top.
    fn operate(&mut self, op: Op, place: Place) -> Result<Option<Outcome>, Want>
        requires place { self.old.place < 2 ^ 63 }
        requires defined { IsSome (execute (Instr.Prim op place) self.old.place (reverse self.old.stack.items) self.old.ticks) }
        ensures leads { IfOk result (λ outcome. Leads (execute (Instr.Prim op place) self.old.place (reverse self.old.stack.items) self.old.ticks) outcome self.new) }
        ensures place { IfOk result (λ outcome. IfNone outcome (self.new.place ≡ self.old.place + 1)) }
    {
        let Some(Value::Int(right)) = self.stack.pop() else {
            unreachable!()
        };
        let Some(Value::Int(left)) = self.stack.pop() else {
            unreachable!()
        };
        match arith(op, left, right) {
            Ok(value) => {
                self.stack.push(Value::Int(value))?;
                self.place += 1;
                Ok(None)
            }
            Err(kind) => Ok(Some(Outcome::Trap(Trap { kind, place }))),
        }
    }
}
