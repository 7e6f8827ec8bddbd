//! Right sides.

ghost use Rattle.std.specs.Prelude.{◌≡◌, ◌++◌, [], ◌∷◌, OnOk, IfOk, map};
ghost use Rattle.hdc_resolved.specs.Mirror as made;
ghost use Rattle.hdc_bindings.specs.Blocks as blocks;
ghost use Rattle.hdc_bindings.specs.Choices.{IsIf, IsCase};
ghost use Rattle.hdc_resolving.specs.Grouped.{by_steps};
ghost use Rattle.hdc_resolving.specs.Growths as growths;
ghost use Rattle.hdc_resolving.specs.Numbering as numbering;
ghost use Rattle.hdc_resolving.specs.Parts as put;
ghost use Rattle.hdc_resolving.specs.Placing.{placed_of};
ghost use Rattle.hdc_bindings.specs.Resolving as spec;
ghost use Rattle.hdc_written.specs.Mirror as mirror;

use crate::made_expression::{
    apply_all, case_of, comprehension, empty_row, equation, function_before, guard, guarded, head,
    if_else, lambda, leave_block, let_in, literal, name, open_block, open_lambda, plain, range,
    row, section, skips_degree,
};
use hdc_names::operators_of;
use hdc_resolved::{Alt, Exp, Guard, Rhs, RowKind, Side};
use hdc_resolving::{
    Declared, Growing, Known, Part, Placed, Walk, cons_use, constructor_use, enter_block,
    enter_head, enter_pat, enter_where, join, operator_use, operator_uses, resolve_head,
    resolve_one, resolve_pat, resolve_signature, variable_use, wrap_all,
};
use hdc_tree::{
    Aexp, Alt as WrittenAlt, Alts, Apply, ArrowGuard, Block, CommaExp, CommaQual, Decl, EqualGuard,
    Expression, Link, ListExp, NextAlt, NextDecl, Operand, Qual, Rhs as WrittenRhs, Where,
};
use hdc_written::{first_of_aexp, first_of_head, first_of_pat, head_name, operand_at};
use sqlite_items::{Boxed, Items};
use std::alloc::{AllocError, Global};

// Each call of the cycle goes to a part.

/// An expression.
#[cycle(resolve_expressions)]
#[tactic(auto, using(hdc_written::proofs::ExpressionMirror::mirrored_expressions))]
pub(crate) fn resolve_exp<'t>(
    alloc: Global,
    known: &Known<'_>,
    walk: &mut Walk<'t>,
    part: &'t Expression,
) -> Result<Exp, AllocError>
    ensures what { IfOk result (λ e. made.expression_of e ≡ spec.resolved_expression by_steps known.now (mirror.exp_of part.now) walk.old) }
    ensures moved { OnOk result (walk.new ≡ numbering.moved (spec.behind_expression (mirror.exp_of part.now) walk.old.counter) walk.old) }
{
    let rest = operators_of(alloc, &walk.fixities, part)?;
    let uses = operator_uses(alloc, known, walk, part.links.as_slice())?;
    let mut operands = Items::new(alloc);
    push_links(alloc, known, walk, part.links.as_slice(), &mut operands)?;
    let what = resolve_operand(alloc, known, walk, &part.last)?;
    let at = operand_at(part, part.links.len());
    operands.push(Placed { at, what })?;
    join(
        alloc,
        known,
        part,
        rest.as_slice(),
        uses.as_slice(),
        operands,
    )
}

// The operands of a chain before its last.
#[cycle(resolve_expressions)]
#[tactic(auto, using(hdc_written::proofs::ExpressionMirror::mirrored_expressions))]
fn push_links<'t>(
    alloc: Global,
    known: &Known<'_>,
    walk: &mut Walk<'t>,
    parts: &'t [Link],
    operands: &mut Items<Placed>,
) -> Result<(), AllocError>
    ensures what { OnOk result (map placed_of operands.new ≡ map placed_of operands.old ++ spec.placed_before by_steps known.now (mirror.each_link mirror.link_of parts.now) walk.old) }
    ensures moved { OnOk result (walk.new ≡ numbering.moved (spec.behind_links (mirror.each_link mirror.link_of parts.now) walk.old.counter) walk.old) }
{
    for part in parts {
        let at = first_of_aexp(&part.left.head);
        let what = resolve_apply(alloc, known, walk, &part.left)?;
        operands.push(Placed { at, what })?;
    }
    Ok(())
}

// A function and its arguments, of which the first may be a degree: its numbers are taken all the same.
#[cycle(resolve_expressions)]
#[tactic(auto, using(crate::proofs::Lists::listed, hdc_written::proofs::ExpressionMirror::mirrored_expressions))]
fn resolve_apply<'t>(
    alloc: Global,
    known: &Known<'_>,
    walk: &mut Walk<'t>,
    part: &'t Apply,
) -> Result<Exp, AllocError>
    ensures what { IfOk result (λ e. made.expression_of e ≡ spec.resolved_operand by_steps known.now (mirror.apply_of part.now) walk.old) }
    ensures moved { OnOk result (walk.new ≡ numbering.moved (spec.behind_operand (mirror.apply_of part.now) walk.old.counter) walk.old) }
{
    let place = known.place(first_of_aexp(&part.head));
    let args = part.args.as_slice();
    let function = resolve_aexp(alloc, known, walk, &part.head)?;
    let mut resolved = Items::new(alloc);
    push_args(alloc, known, walk, args, &mut resolved)?;
    let function = function_before(known, walk, &part.head, function, args);
    let skip = skips_degree(known, walk, &part.head, args);
    apply_all(alloc, skip, place, function, resolved)
}

// Arguments one behind another.
#[cycle(resolve_expressions)]
#[tactic(auto, using(hdc_written::proofs::ExpressionMirror::mirrored_expressions))]
fn push_args<'t>(
    alloc: Global,
    known: &Known<'_>,
    walk: &mut Walk<'t>,
    parts: &'t [Aexp],
    args: &mut Items<Exp>,
) -> Result<(), AllocError>
    ensures what { OnOk result (map made.expression_of args.new ≡ map made.expression_of args.old ++ blocks.operands_in by_steps known.now (mirror.each_operand mirror.aexp_of parts.now) walk.old) }
    ensures moved { OnOk result (walk.new ≡ numbering.moved (spec.behind_operands (mirror.each_operand mirror.aexp_of parts.now) walk.old.counter) walk.old) }
{
    for part in parts {
        args.push(resolve_aexp(alloc, known, walk, part)?)?;
    }
    Ok(())
}

#[cycle(resolve_expressions)]
#[tactic(auto, using(hdc_resolving::proofs::Entering::leaving, hdc_written::proofs::ExpressionMirror::mirrored_expressions))]
fn resolve_operand<'t>(
    alloc: Global,
    known: &Known<'_>,
    walk: &mut Walk<'t>,
    part: &'t Operand,
) -> Result<Exp, AllocError>
    ensures what { IfOk result (λ e. made.expression_of e ≡ spec.resolved_operand by_steps known.now (mirror.operand_of part.now) walk.old) }
    ensures moved { OnOk result (walk.new ≡ numbering.moved (spec.behind_operand (mirror.operand_of part.now) walk.old.counter) walk.old) }
{
    match part {
        Operand::Applied(apply) => resolve_apply(alloc, known, walk, apply),
        Operand::Lambda(at, first, rest, _arrow, body) => {
            let (sizes, pats) = open_lambda(alloc, known, walk, first, rest.as_slice())?;
            let body = resolve_exp(alloc, known, walk, body.get())?;
            walk.leave(sizes);
            lambda(alloc, known, *at, pats, body)
        }
        Operand::Let(at, block, _in_at, body) => {
            let sizes = open_block(walk, block)?;
            let declared = resolve_block(alloc, known, walk, block)?;
            let body = resolve_exp(alloc, known, walk, body.get())?;
            let block = leave_block(alloc, known, walk, sizes, declared)?;
            let_in(alloc, known, *at, block, body)
        }
        Operand::If(_, _, _, _, _, _) => resolve_if(alloc, known, walk, part),
        Operand::Case(_, _, _, _) => resolve_case(alloc, known, walk, part),
    }
}

// A condition, and what stands behind `then` and `else`.
#[cycle(resolve_expressions)]
#[tactic(auto, using(hdc_written::proofs::ExpressionMirror::mirrored_expressions))]
fn resolve_if<'t>(
    alloc: Global,
    known: &Known<'_>,
    walk: &mut Walk<'t>,
    part: &'t Operand,
) -> Result<Exp, AllocError>
    requires { IsIf (mirror.operand_of part.now) }
    ensures what { IfOk result (λ e. made.expression_of e ≡ spec.resolved_operand by_steps known.now (mirror.operand_of part.now) walk.old) }
    ensures moved { OnOk result (walk.new ≡ numbering.moved (spec.behind_operand (mirror.operand_of part.now) walk.old.counter) walk.old) }
{
    let Operand::If(at, condition, _then_at, positive, _else_at, negative) = part else {
        unreachable!()
    };
    let condition = resolve_exp(alloc, known, walk, condition.get())?;
    let positive = resolve_exp(alloc, known, walk, positive.get())?;
    let negative = resolve_exp(alloc, known, walk, negative.get())?;
    if_else(alloc, known, *at, condition, positive, negative)
}

// The subject of a `case`, and its alternatives.
#[cycle(resolve_expressions)]
#[tactic(auto, using(hdc_written::proofs::ExpressionMirror::mirrored_expressions))]
fn resolve_case<'t>(
    alloc: Global,
    known: &Known<'_>,
    walk: &mut Walk<'t>,
    part: &'t Operand,
) -> Result<Exp, AllocError>
    requires { IsCase (mirror.operand_of part.now) }
    ensures what { IfOk result (λ e. made.expression_of e ≡ spec.resolved_operand by_steps known.now (mirror.operand_of part.now) walk.old) }
    ensures moved { OnOk result (walk.new ≡ numbering.moved (spec.behind_operand (mirror.operand_of part.now) walk.old.counter) walk.old) }
{
    let Operand::Case(at, subject, _of_at, alts) = part else {
        unreachable!()
    };
    let subject = resolve_exp(alloc, known, walk, subject.get())?;
    let alts = resolve_alts(alloc, known, walk, alts)?;
    case_of(alloc, known, *at, subject, alts)
}

#[cycle(resolve_expressions)]
#[tactic(auto, using(crate::proofs::Lists::listed, hdc_written::proofs::ExpressionMirror::mirrored_expressions))]
fn resolve_aexp<'t>(
    alloc: Global,
    known: &Known<'_>,
    walk: &mut Walk<'t>,
    part: &'t Aexp,
) -> Result<Exp, AllocError>
    ensures what { IfOk result (λ e. made.expression_of e ≡ spec.resolved_operand by_steps known.now (mirror.aexp_of part.now) walk.old) }
    ensures moved { OnOk result (walk.new ≡ numbering.moved (spec.behind_operand (mirror.aexp_of part.now) walk.old.counter) walk.old) }
{
    match part {
        Aexp::Var(var) => Ok(name(variable_use(known, walk, var, &[]))),
        Aexp::Con(constructor) => Ok(name(constructor_use(known, constructor.at, constructor))),
        Aexp::Literal(at, value) => literal(alloc, known, *at, value),
        Aexp::Unit(open_at, _close_at) => Ok(empty_row(alloc, known, *open_at, RowKind::OfTuple)),
        Aexp::Nil(open_at, _close_at) => Ok(empty_row(alloc, known, *open_at, RowKind::OfList)),
        Aexp::Cons(open_at, at, _close_at) => Ok(name(cons_use(known, *open_at, *at))),
        Aexp::Paren(_open_at, inner, _close_at) => resolve_exp(alloc, known, walk, inner.get()),
        Aexp::Tuple(open_at, first, rest, _close_at) => {
            let mut members = Items::new(alloc);
            members.push(resolve_exp(alloc, known, walk, first.get())?)?;
            push_comma_exps(alloc, known, walk, rest.as_slice(), &mut members)?;
            Ok(row(known, *open_at, RowKind::OfTuple, members))
        }
        Aexp::List(list) => resolve_list_exp(alloc, known, walk, list),
        Aexp::LeftSection(open_at, left, op, _close_at) => {
            let operator = operator_use(known, walk, op);
            let number = walk.take_number()?;
            let operand = resolve_exp(alloc, known, walk, left.get())?;
            section(
                alloc,
                known.place(*open_at),
                Side::Left,
                number,
                operator,
                operand,
            )
        }
        Aexp::RightSection(open_at, op, right, _close_at) => {
            let operator = operator_use(known, walk, op);
            let number = walk.take_number()?;
            let operand = resolve_exp(alloc, known, walk, right.get())?;
            section(
                alloc,
                known.place(*open_at),
                Side::Right,
                number,
                operator,
                operand,
            )
        }
    }
}

#[cycle(resolve_expressions)]
#[tactic(auto, using(crate::proofs::Lists::listed, crate::proofs::Qualifiers::qualified, hdc_written::proofs::ExpressionMirror::mirrored_expressions))]
fn resolve_list_exp<'t>(
    alloc: Global,
    known: &Known<'_>,
    walk: &mut Walk<'t>,
    part: &'t ListExp,
) -> Result<Exp, AllocError>
    ensures what { IfOk result (λ e. made.expression_of e ≡ spec.resolved_operand by_steps known.now (mirror.list_exp_of part.now) walk.old) }
    ensures moved { OnOk result (walk.new ≡ numbering.moved (spec.behind_operand (mirror.list_exp_of part.now) walk.old.counter) walk.old) }
{
    match part {
        ListExp::Members(open_at, first, rest, _close_at) => {
            let mut members = Items::new(alloc);
            members.push(resolve_exp(alloc, known, walk, first.get())?)?;
            push_comma_exps(alloc, known, walk, rest.as_slice(), &mut members)?;
            Ok(row(known, *open_at, RowKind::OfList, members))
        }
        ListExp::Range(open_at, low, _dots, high, _close_at) => {
            let low = resolve_exp(alloc, known, walk, low.get())?;
            let high = resolve_exp(alloc, known, walk, high.get())?;
            range(alloc, known, *open_at, low, high)
        }
        ListExp::Comprehension(open_at, whole, _bar, first, rest, _close_at) => {
            let sizes = walk.sizes();
            let mut parts = Items::new(alloc);
            parts.push(resolve_qual(alloc, known, walk, first)?)?;
            push_comma_quals(alloc, known, walk, rest.as_slice(), &mut parts)?;
            let whole = resolve_exp(alloc, known, walk, whole.get())?;
            let quals = wrap_all(alloc, known, walk, head(alloc, whole)?, parts)?;
            walk.leave(sizes);
            Ok(comprehension(known, *open_at, quals))
        }
    }
}

#[cycle(resolve_expressions)]
#[tactic(auto, using(hdc_written::proofs::ExpressionMirror::mirrored_expressions))]
fn push_comma_exps<'t>(
    alloc: Global,
    known: &Known<'_>,
    walk: &mut Walk<'t>,
    parts: &'t [CommaExp],
    members: &mut Items<Exp>,
) -> Result<(), AllocError>
    ensures what { OnOk result (map made.expression_of members.new ≡ map made.expression_of members.old ++ blocks.each_resolved by_steps known.now (mirror.each_expression mirror.comma_exp_of parts.now) walk.old) }
    ensures moved { OnOk result (walk.new ≡ numbering.moved (spec.behind_expressions (mirror.each_expression mirror.comma_exp_of parts.now) walk.old.counter) walk.old) }
{
    for part in parts {
        members.push(resolve_exp(alloc, known, walk, &part.exp)?)?;
    }
    Ok(())
}

#[cycle(resolve_expressions)]
#[tactic(auto, using(hdc_written::proofs::ExpressionMirror::mirrored_expressions))]
fn push_comma_quals<'t>(
    alloc: Global,
    known: &Known<'_>,
    walk: &mut Walk<'t>,
    rest: &'t [CommaQual],
    parts: &mut Items<Part>,
) -> Result<(), AllocError>
    ensures what { OnOk result (map put.part_of parts.new ≡ map put.part_of parts.old ++ blocks.parts_in by_steps known.now (mirror.each_qualifier mirror.comma_qual_of rest.now) walk.old) }
    ensures moved { OnOk result (walk.new ≡ blocks.past_qualifiers (mirror.each_qualifier mirror.comma_qual_of rest.now) walk.old) }
{
    for part in rest {
        parts.push(resolve_qual(alloc, known, walk, &part.qual)?)?;
    }
    Ok(())
}

// A qualifier. The names that it binds stay in scope.
#[cycle(resolve_expressions)]
#[tactic(auto, using(hdc_written::proofs::ExpressionMirror::mirrored_expressions))]
fn resolve_qual<'t>(
    alloc: Global,
    known: &Known<'_>,
    walk: &mut Walk<'t>,
    part: &'t Qual,
) -> Result<Part, AllocError>
    ensures what { IfOk result (λ p. put.part_of p ≡ blocks.part_in by_steps known.now (mirror.qual_of part.now) walk.old) }
    ensures moved { OnOk result (walk.new ≡ blocks.past_qualifier (mirror.qual_of part.now) walk.old) }
{
    match part {
        Qual::Generator(pat, _arrow, exp) => {
            let list = resolve_exp(alloc, known, walk, exp.get())?;
            enter_pat(walk, pat)?;
            let pat = resolve_pat(alloc, known, walk, pat)?;
            Ok(Part::From(pat, Boxed::new(alloc, list)?))
        }
        Qual::Condition(exp) => {
            let condition = resolve_exp(alloc, known, walk, exp.get())?;
            Ok(Part::Test(Boxed::new(alloc, condition)?))
        }
        Qual::Local(_at, block) => {
            enter_block(walk, block)?;
            Ok(Part::Bind(resolve_block(alloc, known, walk, block)?))
        }
    }
}

#[cycle(resolve_expressions)]
#[tactic(auto, using(crate::proofs::Lists::listed, hdc_written::proofs::ExpressionMirror::mirrored_expressions))]
fn resolve_alts<'t>(
    alloc: Global,
    known: &Known<'_>,
    walk: &mut Walk<'t>,
    part: &'t Alts,
) -> Result<Items<Alt>, AllocError>
    ensures what { IfOk result (λ alts. made.equations_of alts ≡ spec.resolved_alternatives by_steps known.now (mirror.alts_of part.now) walk.old) }
    ensures moved { OnOk result (walk.new ≡ numbering.moved (spec.behind_alternatives (mirror.alts_of part.now) walk.old.counter) walk.old) }
{
    let mut alts = Items::new(alloc);
    push_alt(alloc, known, walk, part.first.get(), &mut alts)?;
    push_next_alts(alloc, known, walk, part.rest.as_slice(), &mut alts)?;
    Ok(alts)
}

#[cycle(resolve_expressions)]
#[tactic(auto, using(hdc_written::proofs::ExpressionMirror::mirrored_expressions))]
fn push_next_alts<'t>(
    alloc: Global,
    known: &Known<'_>,
    walk: &mut Walk<'t>,
    parts: &'t [NextAlt],
    alts: &mut Items<Alt>,
) -> Result<(), AllocError>
    ensures what { OnOk result (map made.equation_of alts.new ≡ map made.equation_of alts.old ++ blocks.alternatives_in by_steps known.now (mirror.each_alternative mirror.next_alt_of parts.now) walk.old) }
    ensures moved { OnOk result (walk.new ≡ numbering.moved (spec.behind_alternatives (mirror.each_alternative mirror.next_alt_of parts.now) walk.old.counter) walk.old) }
{
    for part in parts {
        push_alt(alloc, known, walk, &part.alt, alts)?;
    }
    Ok(())
}

#[cycle(resolve_expressions)]
#[tactic(auto, using(hdc_resolving::proofs::Entering::leaving, crate::proofs::Lists::guards, hdc_written::proofs::ExpressionMirror::mirrored_expressions))]
fn push_alt<'t>(
    alloc: Global,
    known: &Known<'_>,
    walk: &mut Walk<'t>,
    part: &'t WrittenAlt,
    alts: &mut Items<Alt>,
) -> Result<(), AllocError>
    ensures what { OnOk result (map made.equation_of alts.new ≡ map made.equation_of alts.old ++ blocks.alternative_in by_steps known.now (mirror.alt_of part.now) walk.old) }
    ensures moved { OnOk result (walk.new ≡ numbering.moved (spec.behind_alternative (mirror.alt_of part.now) walk.old.counter) walk.old) }
{
    match part {
        WrittenAlt::Blank => Ok(()),
        WrittenAlt::Arrow(pat, _arrow, exp, local) => {
            let outer = walk.sizes();
            enter_pat(walk, pat)?;
            let pats = resolve_one(alloc, known, walk, pat)?;
            let inner = walk.sizes();
            enter_where(walk, local)?;
            let declared = resolve_where(alloc, known, walk, local)?;
            let exp = resolve_exp(alloc, known, walk, exp.get())?;
            let block = leave_block(alloc, known, walk, inner, declared)?;
            walk.leave(outer);
            let rhs = plain(alloc, exp, block)?;
            alts.push(equation(known, first_of_pat(pat), pats, rhs))
        }
        WrittenAlt::Guarded(pat, first, rest, local) => {
            let outer = walk.sizes();
            enter_pat(walk, pat)?;
            let pats = resolve_one(alloc, known, walk, pat)?;
            let inner = walk.sizes();
            enter_where(walk, local)?;
            let declared = resolve_where(alloc, known, walk, local)?;
            let mut guards = Items::new(alloc);
            guards.push(resolve_arrow_guard(alloc, known, walk, first.get())?)?;
            push_arrow_guards(alloc, known, walk, rest.as_slice(), &mut guards)?;
            let block = leave_block(alloc, known, walk, inner, declared)?;
            walk.leave(outer);
            let rhs = guarded(known, first.get().bar, guards, block);
            alts.push(equation(known, first_of_pat(pat), pats, rhs))
        }
    }
}

#[cycle(resolve_expressions)]
#[tactic(auto, using(hdc_written::proofs::ExpressionMirror::mirrored_expressions))]
fn resolve_arrow_guard<'t>(
    alloc: Global,
    known: &Known<'_>,
    walk: &mut Walk<'t>,
    part: &'t ArrowGuard,
) -> Result<Guard, AllocError>
    ensures what { IfOk result (λ g. made.guard_of g ≡ blocks.guard_in by_steps known.now (mirror.arrow_guard_of part.now).condition (mirror.arrow_guard_of part.now).value walk.old) }
    ensures moved { OnOk result (walk.new ≡ numbering.moved (spec.behind_expression (mirror.arrow_guard_of part.now).value (spec.behind_expression (mirror.arrow_guard_of part.now).condition walk.old.counter)) walk.old) }
{
    let test = resolve_exp(alloc, known, walk, &part.condition)?;
    let body = resolve_exp(alloc, known, walk, &part.exp)?;
    Ok(guard(test, body))
}

#[cycle(resolve_expressions)]
#[tactic(auto, using(hdc_written::proofs::ExpressionMirror::mirrored_expressions))]
fn push_arrow_guards<'t>(
    alloc: Global,
    known: &Known<'_>,
    walk: &mut Walk<'t>,
    parts: &'t [ArrowGuard],
    guards: &mut Items<Guard>,
) -> Result<(), AllocError>
    ensures what { OnOk result (map made.guard_of guards.new ≡ map made.guard_of guards.old ++ blocks.guards_in by_steps known.now (mirror.each_guard mirror.arrow_guard_of parts.now) walk.old) }
    ensures moved { OnOk result (walk.new ≡ numbering.moved (spec.behind_guards (mirror.each_guard mirror.arrow_guard_of parts.now) walk.old.counter) walk.old) }
{
    for part in parts {
        guards.push(resolve_arrow_guard(alloc, known, walk, part)?)?;
    }
    Ok(())
}

#[cycle(resolve_expressions)]
#[tactic(auto, using(hdc_written::proofs::ExpressionMirror::mirrored_expressions))]
fn resolve_equal_guard<'t>(
    alloc: Global,
    known: &Known<'_>,
    walk: &mut Walk<'t>,
    part: &'t EqualGuard,
) -> Result<Guard, AllocError>
    ensures what { IfOk result (λ g. made.guard_of g ≡ blocks.guard_in by_steps known.now (mirror.equal_guard_of part.now).condition (mirror.equal_guard_of part.now).value walk.old) }
    ensures moved { OnOk result (walk.new ≡ numbering.moved (spec.behind_expression (mirror.equal_guard_of part.now).value (spec.behind_expression (mirror.equal_guard_of part.now).condition walk.old.counter)) walk.old) }
{
    let test = resolve_exp(alloc, known, walk, &part.condition)?;
    let body = resolve_exp(alloc, known, walk, &part.exp)?;
    Ok(guard(test, body))
}

#[cycle(resolve_expressions)]
#[tactic(auto, using(hdc_written::proofs::ExpressionMirror::mirrored_expressions))]
fn push_equal_guards<'t>(
    alloc: Global,
    known: &Known<'_>,
    walk: &mut Walk<'t>,
    parts: &'t [EqualGuard],
    guards: &mut Items<Guard>,
) -> Result<(), AllocError>
    ensures what { OnOk result (map made.guard_of guards.new ≡ map made.guard_of guards.old ++ blocks.guards_in by_steps known.now (mirror.each_guard mirror.equal_guard_of parts.now) walk.old) }
    ensures moved { OnOk result (walk.new ≡ numbering.moved (spec.behind_guards (mirror.each_guard mirror.equal_guard_of parts.now) walk.old.counter) walk.old) }
{
    for part in parts {
        guards.push(resolve_equal_guard(alloc, known, walk, part)?)?;
    }
    Ok(())
}

/// The right side of an equation or a binding.
#[cycle(resolve_expressions)]
#[tactic(auto, using(hdc_resolving::proofs::Entering::leaving, crate::proofs::Lists::guards, hdc_written::proofs::ExpressionMirror::mirrored_expressions))]
pub(crate) fn resolve_rhs<'t>(
    alloc: Global,
    known: &Known<'_>,
    walk: &mut Walk<'t>,
    part: &'t WrittenRhs,
) -> Result<Rhs, AllocError>
    ensures what { IfOk result (λ r. made.right_of r ≡ spec.resolved_right_side by_steps known.now (mirror.rhs_of part.now) walk.old) }
    ensures moved { OnOk result (walk.new ≡ numbering.moved (spec.behind_right_side (mirror.rhs_of part.now) walk.old.counter) walk.old) }
{
    match part {
        WrittenRhs::Equal(_at, exp, local) => {
            let sizes = walk.sizes();
            enter_where(walk, local)?;
            let declared = resolve_where(alloc, known, walk, local)?;
            let exp = resolve_exp(alloc, known, walk, exp.get())?;
            let block = leave_block(alloc, known, walk, sizes, declared)?;
            plain(alloc, exp, block)
        }
        WrittenRhs::Guards(first, rest, local) => {
            let sizes = walk.sizes();
            enter_where(walk, local)?;
            let declared = resolve_where(alloc, known, walk, local)?;
            let mut guards = Items::new(alloc);
            guards.push(resolve_equal_guard(alloc, known, walk, first.get())?)?;
            push_equal_guards(alloc, known, walk, rest.as_slice(), &mut guards)?;
            let block = leave_block(alloc, known, walk, sizes, declared)?;
            Ok(guarded(known, first.get().bar, guards, block))
        }
    }
}

// The declarations behind a right side, whose names are in scope.
#[cycle(resolve_expressions)]
#[tactic(auto, using(crate::proofs::Declaring::declared, hdc_written::proofs::ExpressionMirror::mirrored_expressions))]
fn resolve_where<'t>(
    alloc: Global,
    known: &Known<'_>,
    walk: &mut Walk<'t>,
    part: &'t Where,
) -> Result<Declared, AllocError>
    ensures what { IfOk result (λ d. put.bound_of d ≡ blocks.bound_in by_steps known.now (mirror.where_of part.now) walk.old) }
    ensures moved { OnOk result (walk.new ≡ numbering.moved (spec.behind_declarations (mirror.where_of part.now) walk.old.counter) walk.old) }
{
    match part {
        Where::Absent => Growing::new(alloc).finish(),
        Where::Present(_at, block) => resolve_block(alloc, known, walk, block),
    }
}

// The declarations of a block, whose names are in scope.
#[cycle(resolve_expressions)]
#[tactic(auto, using(crate::proofs::Declaring::declared, hdc_written::proofs::ExpressionMirror::mirrored_expressions))]
fn resolve_block<'t>(
    alloc: Global,
    known: &Known<'_>,
    walk: &mut Walk<'t>,
    part: &'t Block,
) -> Result<Declared, AllocError>
    ensures what { IfOk result (λ d. put.bound_of d ≡ blocks.bound_in by_steps known.now (mirror.block_of part.now) walk.old) }
    ensures moved { OnOk result (walk.new ≡ numbering.moved (spec.behind_declarations (mirror.block_of part.now) walk.old.counter) walk.old) }
{
    let mut growing = Growing::new(alloc);
    grow(alloc, known, walk, part.first.get(), &mut growing)?;
    grow_all(alloc, known, walk, part.rest.as_slice(), &mut growing)?;
    growing.finish()
}

#[cycle(resolve_expressions)]
#[tactic(auto, using(hdc_written::proofs::ExpressionMirror::mirrored_expressions))]
fn grow_all<'t>(
    alloc: Global,
    known: &Known<'_>,
    walk: &mut Walk<'t>,
    parts: &'t [NextDecl],
    growing: &mut Growing<'t>,
) -> Result<(), AllocError>
    ensures what { OnOk result (growths.grown growing.new ≡ blocks.all_declared_in by_steps known.now (mirror.each_declaration mirror.next_decl_of parts.now) walk.old (growths.grown growing.old)) }
    ensures moved { OnOk result (walk.new ≡ numbering.moved (spec.behind_declarations (mirror.each_declaration mirror.next_decl_of parts.now) walk.old.counter) walk.old) }
{
    for part in parts {
        grow(alloc, known, walk, &part.decl, growing)?;
    }
    Ok(())
}

#[cycle(resolve_expressions)]
#[tactic(auto, using(hdc_resolving::proofs::Entering::leaving, hdc_written::proofs::ExpressionMirror::mirrored_expressions))]
fn grow<'t>(
    alloc: Global,
    known: &Known<'_>,
    walk: &mut Walk<'t>,
    part: &'t Decl,
    growing: &mut Growing<'t>,
) -> Result<(), AllocError>
    ensures what { OnOk result (growths.grown growing.new ≡ blocks.declared_in by_steps known.now (mirror.decl_of part.now) walk.old (growths.grown growing.old)) }
    ensures moved { OnOk result (walk.new ≡ numbering.moved (spec.behind_declaration (mirror.decl_of part.now) walk.old.counter) walk.old) }
{
    match part {
        Decl::Empty => growing.stay(),
        Decl::Signature(first, rest, _at, ty) => {
            growing.sign(resolve_signature(alloc, known, walk, first, rest.as_slice(), ty)?)
        }
        Decl::Equation(head, rhs) => {
            let sizes = walk.sizes();
            enter_head(walk, head)?;
            let pats = resolve_head(alloc, known, walk, head)?;
            let rhs = resolve_rhs(alloc, known, walk, rhs)?;
            walk.leave(sizes);
            let name = head_name(head);
            let alt = equation(known, first_of_head(head), pats, rhs);
            growing.define(alloc, known.place(name.at), walk.number_of(name), head, alt)
        }
        Decl::Binding(pat, rhs) => {
            let place = known.place(first_of_pat(pat));
            let pat = resolve_pat(alloc, known, walk, pat)?;
            let rhs = resolve_rhs(alloc, known, walk, rhs)?;
            growing.match_pat(place, pat, rhs)
        }
    }
}
