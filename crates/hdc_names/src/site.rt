//! The chains and sections that have to have a tree.

ghost use Rattle.std.specs.Prelude.{◌≡◌, ◌++◌, OnOk, IfOk};
ghost use Rattle.hdc_written.specs.Mirror as mirror;
ghost use Rattle.hdc_names.specs.Sites as spec;
ghost use Rattle.hdc_names.specs.Trees.{ends_with, fault_of, place_of};

use crate::chain::{ChainStop, NextOperand, Step, steps};
use crate::fixity::Fixity;
use crate::operator::{fixity_in, place_of_op};
use hdc_base::At;
use hdc_tree::{Expression, Link, Op, Sign};
use hdc_written::Scope;
use sqlite_items::Items;
use std::alloc::{AllocError, Global};

/// The operators of the chain of an expression as they bind in a scope, and the operands behind them. Memory may be wanting.
#[tactic(auto, using(hdc_written::proofs::ExpressionMirror::mirrored_expressions))]
pub fn operators_of(
    alloc: Global,
    scope: &Scope<Fixity>,
    exp: &Expression,
) -> Result<Items<NextOperand>, AllocError>
    ensures { IfOk result (λ rest. rest ≡ spec.rest_in scope.now (mirror.exp_of exp.now)) }
{
    let mut rest = Items::new(alloc);
    push_rest(scope, exp, &mut rest)?;
    Ok(rest)
}

/// Where a section is at fault with its operator on the right, if it is.
#[tactic(auto, using(hdc_written::proofs::ExpressionMirror::mirrored_expressions))]
pub(crate) fn left_fault(
    alloc: Global,
    scope: &Scope<Fixity>,
    exp: &Expression,
    op: &Op,
) -> Result<Option<At>, AllocError>
    ensures { IfOk result (λ found. found ≡ fault_of (spec.left_site scope.now (mirror.exp_of exp.now) op.now)) }
{
    let mut rest = Items::new(alloc);
    push_rest(scope, exp, &mut rest)?;
    let number = rest.len() + 1;
    rest.push(next_in(scope, op, Sign::Absent))?;
    root_fault(
        alloc,
        is_signed(exp),
        rest.as_slice(),
        number,
        place_of_op(op),
    )
}

/// Where a section is at fault with its operator on the left, if it is.
#[tactic(auto, using(hdc_written::proofs::ExpressionMirror::mirrored_expressions))]
pub(crate) fn right_fault(
    alloc: Global,
    scope: &Scope<Fixity>,
    op: &Op,
    exp: &Expression,
) -> Result<Option<At>, AllocError>
    ensures { IfOk result (λ found. found ≡ fault_of (spec.right_site scope.now op.now (mirror.exp_of exp.now))) }
{
    let mut rest = Items::new(alloc);
    rest.push(next_in(scope, op, first_sign(exp.links.as_slice(), exp.sign)))?;
    push_rest(scope, exp, &mut rest)?;
    root_fault(alloc, false, rest.as_slice(), 1, place_of_op(op))
}

/// Whether the first operand of the chain of an expression has a sign.
#[tactic(auto, using(hdc_written::proofs::ExpressionMirror::mirrored_expressions))]
pub fn is_signed(exp: &Expression) -> bool
    ensures { result ≡ spec.is_minus (spec.sign_of (mirror.exp_of exp.now)) }
{
    match first_sign(exp.links.as_slice(), exp.sign) {
        Sign::Absent => false,
        Sign::Minus(_at) => true,
    }
}

#[tactic(auto, using(hdc_written::proofs::ExpressionMirror::mirrored_expressions))]
fn first_sign(links: &[Link], last: Sign) -> Sign
    ensures { result ≡ spec.first_sign (mirror.each_link mirror.link_of links.now) last }
{
    match links.first() {
        Some(link) => link.sign,
        None => last,
    }
}

// The operators of a chain and the operands behind them.
#[tactic(auto, using(hdc_written::proofs::ExpressionMirror::mirrored_expressions))]
fn push_rest(
    scope: &Scope<Fixity>,
    exp: &Expression,
    rest: &mut Items<NextOperand>,
) -> Result<(), AllocError>
    ensures { OnOk result (rest.new ≡ rest.old ++ spec.rest_in scope.now (mirror.exp_of exp.now)) }
{
    push_links(scope, exp.links.as_slice(), exp.sign, rest)
}

#[tactic(auto, using(hdc_written::proofs::ExpressionMirror::mirrored_expressions))]
fn push_links(
    scope: &Scope<Fixity>,
    links: &[Link],
    last: Sign,
    rest: &mut Items<NextOperand>,
) -> Result<(), AllocError>
    ensures { OnOk result (rest.new ≡ rest.old ++ spec.rest_of scope.now (mirror.each_link mirror.link_of links.now) last) }
{
    for index in 0..links.len() {
        let sign = first_sign(&links[index + 1..], last);
        rest.push(next_in(scope, &links[index].op, sign))?;
    }
    Ok(())
}

fn next_in(scope: &Scope<Fixity>, op: &Op, sign: Sign) -> NextOperand
    ensures { result ≡ spec.next_of scope.now op.now sign }
{
    let fixity = fixity_in(scope, op);
    match sign {
        Sign::Absent => NextOperand {
            fixity,
            signed: false,
            at: place_of_op(op),
        },
        Sign::Minus(at) => NextOperand {
            fixity,
            signed: true,
            at,
        },
    }
}

fn root_fault(
    alloc: Global,
    signed: bool,
    rest: &[NextOperand],
    number: usize,
    at: At,
) -> Result<Option<At>, AllocError>
    ensures { IfOk result (λ found. found ≡ fault_of (spec.rooted signed rest.now number at)) }
{
    match steps(alloc, signed, rest) {
        Ok(steps) if ends_with(number, steps.as_slice()) => Ok(None),
        Ok(_) | Err(ChainStop::NoTree(_)) => Ok(Some(at)),
        Err(ChainStop::Want) => Err(AllocError),
    }
}

/// The place of the last operator up to an operand, by its number.
pub(crate) fn place_of(number: usize, rest: &[NextOperand]) -> Option<At>
    ensures { result ≡ place_of number rest.now }
{
    if number == 0 {
        return None;
    }
    match rest.get(number - 1) {
        Some(next) => Some(next.at),
        None => None,
    }
}

fn ends_with(number: usize, steps: &[Step]) -> bool
    ensures { result ≡ ends_with number steps.now }
{
    match steps.last() {
        Some(Step::Operator(last)) => *last == number,
        _ => false,
    }
}
