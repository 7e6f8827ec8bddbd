//! The first tokens of what is written.

ghost use Rattle.std.specs.Prelude.{◌≡◌};
ghost use Rattle.hdc_written.specs.Firsts as spec;
ghost use Rattle.hdc_written.specs.Mirror as mirror;
ghost use Rattle.hdc_written.specs.TypeMirror as types;

use hdc_base::At;
use hdc_tree::{
    Aexp, Apat, Apply, Atype, Btype, Expression, Head, LeftPat, Link, ListExp, Op, Operand, Pat,
    Sign, Var, VarOp,
};

fn first_of_var(var: &Var) -> At
    ensures { result ≡ spec.first_of_var var.now }
{
    match var {
        Var::Plain(name) => name.at,
        Var::Operator(open_at, _name, _close_at) => *open_at,
    }
}

/// The first token of an operator: its backquote, where it has one.
pub fn first_of_op(op: &Op) -> At
    ensures { result ≡ spec.first_of_op op.now }
{
    match op {
        Op::Var(var) => first_of_var_op(var),
        Op::Cons(at) => *at,
        Op::Con(open_at, _name, _close_at) => *open_at,
    }
}

fn first_of_var_op(op: &VarOp) -> At
    ensures { result ≡ spec.first_of_var_op op.now }
{
    match op {
        VarOp::Symbol(name) => name.at,
        VarOp::Quoted(open_at, _name, _close_at) => *open_at,
    }
}

#[tactic(auto, using(crate::proofs::PatternMirror::mirrored_patterns))]
fn first_of_apat(part: &Apat) -> At
    ensures { result ≡ spec.first_of_pattern (mirror.apat_of part.now) }
{
    match part {
        Apat::Var(name) => name.at,
        Apat::As(name, _at, _inner) => name.at,
        Apat::Wildcard(at) => *at,
        Apat::Con(name) => name.at,
        Apat::Literal(at, _literal) => *at,
        Apat::Unit(open_at, _close_at) => *open_at,
        Apat::Nil(open_at, _close_at) => *open_at,
        Apat::Paren(open_at, _inner, _close_at) => *open_at,
        Apat::Tuple(open_at, _first, _rest, _close_at) => *open_at,
        Apat::List(open_at, _first, _rest, _close_at) => *open_at,
    }
}

/// The first token of what an equation defines, with its parameters.
pub fn first_of_head(head: &Head) -> At
    ensures { result ≡ mirror.first_of_head head.now }
{
    match head {
        Head::Prefix(var, _params) => first_of_var(var),
        Head::Infix(left, _op, _right) => first_of_apat(left),
        Head::Paren(open_at, _left, _op, _right, _close_at, _first, _rest) => *open_at,
    }
}

/// The first token of a pattern without `:`.
#[tactic(auto, using(crate::proofs::PatternMirror::mirrored_patterns))]
pub fn first_of_left_pat(part: &LeftPat) -> At
    ensures { result ≡ spec.first_of_pattern (mirror.left_pat_of part.now) }
{
    match part {
        LeftPat::Plain(inner) => first_of_apat(inner),
        LeftPat::Applied(name, _first, _rest) => name.at,
        LeftPat::Negative(at, _number_at, _number) => *at,
    }
}

/// The first token of a pattern.
#[tactic(auto, using(crate::proofs::PatternMirror::mirrored_patterns))]
pub fn first_of_pat(part: &Pat) -> At
    ensures { result ≡ spec.first_of_pattern (mirror.pat_of part.now) }
{
    first_of_left_pat(&part.first)
}

#[tactic(auto, using(crate::proofs::TypeMirror::mirrored_types))]
fn first_of_atype(part: &Atype) -> At
    ensures { result ≡ spec.first_of_type (types.atype_of part.now) }
{
    match part {
        Atype::Con(name) => name.at,
        Atype::Var(name) => name.at,
        Atype::Unit(open_at, _close_at) => *open_at,
        Atype::Paren(open_at, _inner, _close_at) => *open_at,
        Atype::Tuple(open_at, _first, _rest, _close_at) => *open_at,
        Atype::List(open_at, _inner, _close_at) => *open_at,
    }
}

/// The first token of a type without arrows.
#[tactic(auto, using(crate::proofs::TypeMirror::mirrored_types))]
pub fn first_of_btype(part: &Btype) -> At
    ensures { result ≡ spec.first_of_type (types.btype_of part.now) }
{
    match part {
        Btype::Plain(inner) => first_of_atype(inner),
        Btype::Applied(name, _first, _rest) => name.at,
    }
}

/// The first token of an operand or argument.
#[tactic(auto, using(crate::proofs::ExpressionMirror::mirrored_expressions))]
pub fn first_of_aexp(part: &Aexp) -> At
    ensures { result ≡ spec.first_of_operand (mirror.aexp_of part.now) }
{
    match part {
        Aexp::Var(var) => first_of_var(var),
        Aexp::Con(name) => name.at,
        Aexp::Literal(at, _literal) => *at,
        Aexp::Unit(open_at, _close_at) => *open_at,
        Aexp::Nil(open_at, _close_at) => *open_at,
        Aexp::Cons(open_at, _at, _close_at) => *open_at,
        Aexp::Paren(open_at, _inner, _close_at) => *open_at,
        Aexp::Tuple(open_at, _first, _rest, _close_at) => *open_at,
        Aexp::List(list) => first_of_list_exp(list),
        Aexp::LeftSection(open_at, _left, _op, _close_at) => *open_at,
        Aexp::RightSection(open_at, _op, _right, _close_at) => *open_at,
    }
}

#[tactic(auto, using(crate::proofs::ExpressionMirror::mirrored_expressions))]
fn first_of_list_exp(part: &ListExp) -> At
    ensures { result ≡ spec.first_of_operand (mirror.list_exp_of part.now) }
{
    match part {
        ListExp::Members(open_at, _first, _rest, _close_at) => *open_at,
        ListExp::Range(open_at, _low, _dots, _high, _close_at) => *open_at,
        ListExp::Comprehension(open_at, _head, _bar, _first, _rest, _close_at) => *open_at,
    }
}

#[tactic(auto, using(crate::proofs::ExpressionMirror::mirrored_expressions))]
fn first_of_apply(part: &Apply) -> At
    ensures { result ≡ spec.first_of_operand (mirror.apply_of part.now) }
{
    first_of_aexp(&part.head)
}

#[tactic(auto, using(crate::proofs::ExpressionMirror::mirrored_expressions))]
fn first_of_operand(part: &Operand) -> At
    ensures { result ≡ spec.first_of_operand (mirror.operand_of part.now) }
{
    match part {
        Operand::Applied(apply) => first_of_apply(apply),
        Operand::Lambda(at, _first, _rest, _arrow, _body) => *at,
        Operand::Let(at, _block, _in_at, _body) => *at,
        Operand::If(at, _condition, _then_at, _positive, _else_at, _negative) => *at,
        Operand::Case(at, _subject, _of_at, _alts) => *at,
    }
}

// A sign comes first.
fn behind_sign(sign: Sign, at: At) -> At
    ensures { result ≡ spec.behind_sign sign at }
{
    match sign {
        Sign::Absent => at,
        Sign::Minus(sign_at) => sign_at,
    }
}

/// The first token of an operand of a chain without its sign, by its number.
#[tactic(auto, using(crate::proofs::ExpressionMirror::mirrored_expressions))]
pub fn operand_at(exp: &Expression, number: usize) -> At
    ensures { result ≡ spec.operand_at (mirror.exp_of exp.now) number }
{
    operand_in(exp.links.as_slice(), &exp.last, number)
}

fn operand_in(links: &[Link], last: &Operand, number: usize) -> At
    ensures { result ≡ spec.operand_in (mirror.each_link mirror.link_of links.now) (mirror.operand_of last.now) number }
{
    if number < links.len() {
        first_of_apply(&links[number].left)
    } else {
        first_of_operand(last)
    }
}

/// The first token of an operand of a chain with its sign, by its number.
#[tactic(auto, using(crate::proofs::ExpressionMirror::mirrored_expressions))]
pub fn start_at(exp: &Expression, number: usize) -> At
    ensures { result ≡ spec.start_at (mirror.exp_of exp.now) number }
{
    start_in(exp.links.as_slice(), exp.sign, &exp.last, number)
}

fn start_in(links: &[Link], sign: Sign, last: &Operand, number: usize) -> At
    ensures { result ≡ spec.start_in (mirror.each_link mirror.link_of links.now) sign (mirror.operand_of last.now) number }
{
    if number < links.len() {
        let link = &links[number];
        behind_sign(link.sign, first_of_apply(&link.left))
    } else {
        behind_sign(sign, first_of_operand(last))
    }
}

/// The first token of an expression.
pub fn first_of_exp(exp: &Expression) -> At
    ensures { result ≡ spec.first_of_expression (mirror.exp_of exp.now) }
{
    start_at(exp, 0)
}

/// The operator before an operand of a chain, by its number.
#[tactic(auto, using(crate::proofs::ExpressionMirror::mirrored_expressions))]
pub fn operator_before(exp: &Expression, number: usize) -> At
    ensures { result ≡ spec.operator_before (mirror.exp_of exp.now) number }
{
    if number == 0 {
        nowhere()
    } else {
        operator_behind(exp.links.as_slice(), number - 1)
    }
}

fn operator_behind(links: &[Link], number: usize) -> At
    ensures { result ≡ spec.operator_behind (mirror.each_link mirror.link_of links.now) number }
{
    if number < links.len() {
        first_of_op(&links[number].op)
    } else {
        nowhere()
    }
}

fn nowhere() -> At
    ensures { result ≡ spec.nowhere }
{
    At { line: 0, col: 0 }
}
