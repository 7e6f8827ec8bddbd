//! What expressions and declarations do with names, as events.

ghost use Rattle.std.specs.Prelude.{◌≡◌, [], ◌∷◌, ◌++◌, OnOk, IfOk};
ghost use Rattle.hdc_written.specs.Events as spec;
ghost use Rattle.hdc_written.specs.Mirror as mirror;
ghost use Rattle.hdc_written.specs.Recorded.{recorded};
ghost use Rattle.hdc_written.specs.Written as written;

use crate::events::{Event, Events};
use crate::matches::{match_head, match_params, match_pat};
use crate::name::{op_name, var_name};
use crate::variables::{introduce_head, introduce_params, introduce_pat};
use hdc_base::At;
use hdc_tree::{
    Aexp, Alt, Alts, Apply, ArrowGuard, Block, CommaExp, CommaQual, Decl, EqualGuard, Expression,
    Head, Link, ListExp, NextAlt, NextDecl, Op, Operand, Pat, Qual, Rhs, Where,
};
use std::alloc::{AllocError, Global};

/// What an equation does: its parameters come into scope, its right side, and the parameters go.
#[tactic(auto, using(crate::proofs::Listing::in_order, crate::proofs::ExpressionMirror::mirrored_expressions))]
pub fn equation_events<'t>(
    alloc: Global,
    head: &'t Head,
    rhs: &'t Rhs,
) -> Result<Events<'t>, AllocError>
    ensures { IfOk result (λ events. recorded events ≡ spec.equation_events (mirror.head_patterns head.now) (mirror.rhs_of rhs.now)) }
{
    let mut events = Events::new(alloc);
    add_equation(&mut events, head, rhs)?;
    Ok(events)
}

#[tactic(auto, using(crate::proofs::Listing::in_order, crate::proofs::ExpressionMirror::mirrored_expressions))]
fn add_op<'t>(events: &mut Events<'t>, op: &'t Op) -> Result<(), AllocError>
    ensures { OnOk result (recorded events.new ≡ recorded events.old ++ spec.operator_events op.now) }
{
    match op {
        Op::Var(var) => events.push(Event::Used(op_name(var))),
        Op::Cons(_at) => Ok(()),
        Op::Con(_open_at, name, _close_at) => events.push(Event::Constructed(name)),
    }
}

// What an expression does.
#[cycle(expression_events)]
#[tactic(auto, using(crate::proofs::Listing::in_order, crate::proofs::ExpressionMirror::mirrored_expressions))]
fn add_exp<'t>(events: &mut Events<'t>, part: &'t Expression) -> Result<(), AllocError>
    ensures { OnOk result (recorded events.new ≡ recorded events.old ++ spec.expression_events (mirror.exp_of part.now)) }
{
    add_links(events, part.links.as_slice())?;
    add_operand(events, &part.last)
}

#[cycle(expression_events)]
#[tactic(auto, using(crate::proofs::Listing::in_order, crate::proofs::ExpressionMirror::mirrored_expressions))]
fn add_links<'t>(events: &mut Events<'t>, parts: &'t [Link]) -> Result<(), AllocError>
    ensures { OnOk result (recorded events.new ≡ recorded events.old ++ spec.link_events (mirror.each_link mirror.link_of parts.now)) }
{
    for part in parts {
        add_link(events, part)?;
    }
    Ok(())
}

#[cycle(expression_events)]
#[tactic(auto, using(crate::proofs::Listing::in_order, crate::proofs::ExpressionMirror::mirrored_expressions))]
fn add_link<'t>(events: &mut Events<'t>, part: &'t Link) -> Result<(), AllocError>
    ensures { OnOk result (recorded events.new ≡ recorded events.old ++ (spec.operand_events (mirror.link_of part.now).operand ++ spec.operator_events (mirror.link_of part.now).op)) }
{
    add_apply(events, &part.left)?;
    add_op(events, &part.op)
}

#[cycle(expression_events)]
#[tactic(auto, using(crate::proofs::Listing::in_order, crate::proofs::ExpressionMirror::mirrored_expressions))]
fn add_apply<'t>(events: &mut Events<'t>, part: &'t Apply) -> Result<(), AllocError>
    ensures { OnOk result (recorded events.new ≡ recorded events.old ++ spec.operand_events (mirror.apply_of part.now)) }
{
    add_aexp(events, &part.head)?;
    add_aexps(events, part.args.as_slice())
}

#[cycle(expression_events)]
#[tactic(auto, using(crate::proofs::Listing::in_order, crate::proofs::ExpressionMirror::mirrored_expressions))]
fn add_aexps<'t>(events: &mut Events<'t>, parts: &'t [Aexp]) -> Result<(), AllocError>
    ensures { OnOk result (recorded events.new ≡ recorded events.old ++ spec.each_operand_events (mirror.each_operand mirror.aexp_of parts.now)) }
{
    for part in parts {
        add_aexp(events, part)?;
    }
    Ok(())
}

#[cycle(expression_events)]
#[tactic(auto, using(crate::proofs::Listing::in_order, crate::proofs::ExpressionMirror::mirrored_expressions))]
fn add_operand<'t>(events: &mut Events<'t>, part: &'t Operand) -> Result<(), AllocError>
    ensures { OnOk result (recorded events.new ≡ recorded events.old ++ spec.operand_events (mirror.operand_of part.now)) }
{
    match part {
        Operand::Applied(apply) => add_apply(events, apply),
        Operand::Lambda(_at, first, rest, _arrow, body) => {
            events.push(Event::Opened)?;
            introduce_params(events, first, rest.as_slice())?;
            match_params(events, first, rest.as_slice())?;
            add_exp(events, body.get())?;
            events.push(Event::Closed)
        }
        Operand::Let(_at, block, _in_at, body) => {
            add_block(events, block)?;
            add_exp(events, body.get())?;
            events.push(Event::Closed)
        }
        Operand::If(_at, condition, _then_at, positive, _else_at, negative) => {
            add_exp(events, condition.get())?;
            add_exp(events, positive.get())?;
            add_exp(events, negative.get())
        }
        Operand::Case(_at, subject, _of_at, alts) => {
            add_exp(events, subject.get())?;
            add_alts(events, alts)
        }
    }
}

#[cycle(expression_events)]
#[tactic(auto, using(crate::proofs::Listing::in_order, crate::proofs::ExpressionMirror::mirrored_expressions))]
fn add_aexp<'t>(events: &mut Events<'t>, part: &'t Aexp) -> Result<(), AllocError>
    ensures { OnOk result (recorded events.new ≡ recorded events.old ++ spec.operand_events (mirror.aexp_of part.now)) }
{
    match part {
        Aexp::Var(var) => events.push(Event::Used(var_name(var))),
        Aexp::Con(name) => events.push(Event::Constructed(name)),
        Aexp::Literal(_, _) | Aexp::Unit(_, _) | Aexp::Nil(_, _) | Aexp::Cons(_, _, _) => Ok(()),
        Aexp::Paren(_open_at, inner, _close_at) => add_exp(events, inner.get()),
        Aexp::Tuple(_open_at, first, rest, _close_at) => {
            add_exp(events, first.get())?;
            add_comma_exps(events, rest.as_slice())
        }
        Aexp::List(list) => add_list_exp(events, list),
        Aexp::LeftSection(_open_at, left, op, _close_at) => {
            add_exp(events, left.get())?;
            add_op(events, op)
        }
        Aexp::RightSection(_open_at, op, right, _close_at) => {
            add_op(events, op)?;
            add_exp(events, right.get())
        }
    }
}

#[cycle(expression_events)]
#[tactic(auto, using(crate::proofs::Listing::in_order, crate::proofs::ExpressionMirror::mirrored_expressions))]
fn add_list_exp<'t>(events: &mut Events<'t>, part: &'t ListExp) -> Result<(), AllocError>
    ensures { OnOk result (recorded events.new ≡ recorded events.old ++ spec.operand_events (mirror.list_exp_of part.now)) }
{
    match part {
        ListExp::Members(_open_at, first, rest, _close_at) => {
            add_exp(events, first.get())?;
            add_comma_exps(events, rest.as_slice())
        }
        ListExp::Range(open_at, low, _dots, high, _close_at) => {
            events.push(Event::Ranged(*open_at))?;
            add_exp(events, low.get())?;
            add_exp(events, high.get())
        }
        ListExp::Comprehension(open_at, head, _bar, first, rest, _close_at) => {
            add_qual(events, *open_at, first)?;
            add_comma_quals(events, *open_at, rest.as_slice())?;
            add_exp(events, head.get())?;
            close_comma_quals(events, rest.as_slice())?;
            close_qual(events, first)
        }
    }
}

#[cycle(expression_events)]
#[tactic(auto, using(crate::proofs::Listing::in_order, crate::proofs::ExpressionMirror::mirrored_expressions))]
fn add_comma_exps<'t>(events: &mut Events<'t>, parts: &'t [CommaExp]) -> Result<(), AllocError>
    ensures { OnOk result (recorded events.new ≡ recorded events.old ++ spec.each_expression_events (mirror.each_expression mirror.comma_exp_of parts.now)) }
{
    for part in parts {
        add_exp(events, &part.exp)?;
    }
    Ok(())
}

// A qualifier of the comprehension that begins at this place; what it binds stays in scope.
#[cycle(expression_events)]
#[tactic(auto, using(crate::proofs::Listing::in_order, crate::proofs::ExpressionMirror::mirrored_expressions))]
fn add_qual<'t>(events: &mut Events<'t>, open_at: At, part: &'t Qual) -> Result<(), AllocError>
    ensures { OnOk result (recorded events.new ≡ recorded events.old ++ spec.opening open_at (mirror.qual_of part.now)) }
{
    match part {
        Qual::Generator(pat, _arrow, exp) => {
            events.push(Event::Generated(open_at))?;
            add_exp(events, exp.get())?;
            events.push(Event::Opened)?;
            introduce_pat(events, pat)?;
            match_pat(events, pat)
        }
        Qual::Condition(exp) => add_exp(events, exp.get()),
        Qual::Local(_at, block) => add_block(events, block),
    }
}

#[cycle(expression_events)]
#[tactic(auto, using(crate::proofs::Listing::in_order, crate::proofs::ExpressionMirror::mirrored_expressions))]
fn add_comma_quals<'t>(
    events: &mut Events<'t>,
    open_at: At,
    parts: &'t [CommaQual],
) -> Result<(), AllocError>
    ensures { OnOk result (recorded events.new ≡ recorded events.old ++ spec.openings open_at (mirror.each_qualifier mirror.comma_qual_of parts.now)) }
{
    for part in parts {
        add_qual(events, open_at, &part.qual)?;
    }
    Ok(())
}

#[cycle(expression_events)]
#[tactic(auto, using(crate::proofs::Listing::in_order, crate::proofs::ExpressionMirror::mirrored_expressions))]
fn add_alts<'t>(events: &mut Events<'t>, part: &'t Alts) -> Result<(), AllocError>
    ensures { OnOk result (recorded events.new ≡ recorded events.old ++ spec.each_alternative_events (mirror.alts_of part.now)) }
{
    add_alt(events, part.first.get())?;
    add_next_alts(events, part.rest.as_slice())
}

#[cycle(expression_events)]
#[tactic(auto, using(crate::proofs::Listing::in_order, crate::proofs::ExpressionMirror::mirrored_expressions))]
fn add_next_alts<'t>(events: &mut Events<'t>, parts: &'t [NextAlt]) -> Result<(), AllocError>
    ensures { OnOk result (recorded events.new ≡ recorded events.old ++ spec.each_alternative_events (mirror.each_alternative mirror.next_alt_of parts.now)) }
{
    for part in parts {
        add_alt(events, &part.alt)?;
    }
    Ok(())
}

#[cycle(expression_events)]
#[tactic(auto, using(crate::proofs::Listing::in_order, crate::proofs::ExpressionMirror::mirrored_expressions))]
fn add_alt<'t>(events: &mut Events<'t>, part: &'t Alt) -> Result<(), AllocError>
    ensures { OnOk result (recorded events.new ≡ recorded events.old ++ spec.alternative_events (mirror.alt_of part.now)) }
{
    match part {
        Alt::Blank => Ok(()),
        Alt::Arrow(pat, _arrow, exp, local) => {
            open_pat(events, pat)?;
            add_where(events, local)?;
            add_exp(events, exp.get())?;
            events.push(Event::Closed)?;
            events.push(Event::Closed)
        }
        Alt::Guarded(pat, first, rest, local) => {
            open_pat(events, pat)?;
            add_where(events, local)?;
            add_arrow_guard(events, first.get())?;
            add_arrow_guards(events, rest.as_slice())?;
            events.push(Event::Closed)?;
            events.push(Event::Closed)
        }
    }
}

#[tactic(auto, using(crate::proofs::Listing::in_order, crate::proofs::ExpressionMirror::mirrored_expressions))]
fn open_pat<'t>(events: &mut Events<'t>, pat: &'t Pat) -> Result<(), AllocError>
    ensures { OnOk result (recorded events.new ≡ recorded events.old ++ (spec.opened ∷ (spec.each_introduced (written.variables (mirror.pat_of pat.now)) ++ spec.matches (mirror.pat_of pat.now)))) }
{
    events.push(Event::Opened)?;
    introduce_pat(events, pat)?;
    match_pat(events, pat)
}

#[cycle(expression_events)]
#[tactic(auto, using(crate::proofs::Listing::in_order, crate::proofs::ExpressionMirror::mirrored_expressions))]
fn add_arrow_guard<'t>(events: &mut Events<'t>, part: &'t ArrowGuard) -> Result<(), AllocError>
    ensures { OnOk result (recorded events.new ≡ recorded events.old ++ (spec.expression_events (mirror.arrow_guard_of part.now).condition ++ spec.expression_events (mirror.arrow_guard_of part.now).value)) }
{
    add_exp(events, &part.condition)?;
    add_exp(events, &part.exp)
}

#[cycle(expression_events)]
#[tactic(auto, using(crate::proofs::Listing::in_order, crate::proofs::ExpressionMirror::mirrored_expressions))]
fn add_arrow_guards<'t>(events: &mut Events<'t>, parts: &'t [ArrowGuard]) -> Result<(), AllocError>
    ensures { OnOk result (recorded events.new ≡ recorded events.old ++ spec.guard_events (mirror.each_guard mirror.arrow_guard_of parts.now)) }
{
    for part in parts {
        add_arrow_guard(events, part)?;
    }
    Ok(())
}

#[cycle(expression_events)]
#[tactic(auto, using(crate::proofs::Listing::in_order, crate::proofs::ExpressionMirror::mirrored_expressions))]
fn add_equal_guard<'t>(events: &mut Events<'t>, part: &'t EqualGuard) -> Result<(), AllocError>
    ensures { OnOk result (recorded events.new ≡ recorded events.old ++ (spec.expression_events (mirror.equal_guard_of part.now).condition ++ spec.expression_events (mirror.equal_guard_of part.now).value)) }
{
    add_exp(events, &part.condition)?;
    add_exp(events, &part.exp)
}

#[cycle(expression_events)]
#[tactic(auto, using(crate::proofs::Listing::in_order, crate::proofs::ExpressionMirror::mirrored_expressions))]
fn add_equal_guards<'t>(events: &mut Events<'t>, parts: &'t [EqualGuard]) -> Result<(), AllocError>
    ensures { OnOk result (recorded events.new ≡ recorded events.old ++ spec.guard_events (mirror.each_guard mirror.equal_guard_of parts.now)) }
{
    for part in parts {
        add_equal_guard(events, part)?;
    }
    Ok(())
}

// The declarations behind `where`, which stay in scope.
#[cycle(expression_events)]
#[tactic(auto, using(crate::proofs::Listing::in_order, crate::proofs::ExpressionMirror::mirrored_expressions))]
fn add_where<'t>(events: &mut Events<'t>, part: &'t Where) -> Result<(), AllocError>
    ensures { OnOk result (recorded events.new ≡ recorded events.old ++ (spec.block (mirror.where_of part.now) ∷ (spec.each_declaration_events (mirror.where_of part.now) ++ spec.body ∷ []))) }
{
    match part {
        Where::Absent => {
            events.push(Event::Block(None))?;
            events.push(Event::Body)
        }
        Where::Present(_at, block) => add_block(events, block),
    }
}

// Declarations, which stay in scope.
#[cycle(expression_events)]
#[tactic(auto, using(crate::proofs::Listing::in_order, crate::proofs::ExpressionMirror::mirrored_expressions))]
fn add_block<'t>(events: &mut Events<'t>, part: &'t Block) -> Result<(), AllocError>
    ensures { OnOk result (recorded events.new ≡ recorded events.old ++ (spec.block (mirror.block_of part.now) ∷ (spec.each_declaration_events (mirror.block_of part.now) ++ spec.body ∷ []))) }
{
    events.push(Event::Block(Some(part)))?;
    add_decl(events, part.first.get())?;
    add_next_decls(events, part.rest.as_slice())?;
    events.push(Event::Body)
}

#[cycle(expression_events)]
#[tactic(auto, using(crate::proofs::Listing::in_order, crate::proofs::ExpressionMirror::mirrored_expressions))]
fn add_next_decls<'t>(events: &mut Events<'t>, parts: &'t [NextDecl]) -> Result<(), AllocError>
    ensures { OnOk result (recorded events.new ≡ recorded events.old ++ spec.each_declaration_events (mirror.each_declaration mirror.next_decl_of parts.now)) }
{
    for part in parts {
        add_decl(events, &part.decl)?;
    }
    Ok(())
}

#[cycle(expression_events)]
#[tactic(auto, using(crate::proofs::Listing::in_order, crate::proofs::ExpressionMirror::mirrored_expressions))]
fn add_decl<'t>(events: &mut Events<'t>, part: &'t Decl) -> Result<(), AllocError>
    ensures { OnOk result (recorded events.new ≡ recorded events.old ++ (spec.declaring ∷ spec.declaration_events (mirror.decl_of part.now))) }
{
    events.push(Event::Declaring)?;
    match part {
        Decl::Empty => Ok(()),
        Decl::Signature(_var, _rest, _at, _signature) => Ok(()),
        Decl::Equation(head, rhs) => add_equation(events, head, rhs),
        Decl::Binding(pat, rhs) => {
            match_pat(events, pat)?;
            add_rhs(events, rhs)
        }
    }
}

#[cycle(expression_events)]
#[tactic(auto, using(crate::proofs::Listing::in_order, crate::proofs::ExpressionMirror::mirrored_expressions))]
fn add_equation<'t>(events: &mut Events<'t>, head: &'t Head, rhs: &'t Rhs) -> Result<(), AllocError>
    ensures { OnOk result (recorded events.new ≡ recorded events.old ++ spec.equation_events (mirror.head_patterns head.now) (mirror.rhs_of rhs.now)) }
{
    events.push(Event::Opened)?;
    introduce_head(events, head)?;
    match_head(events, head)?;
    add_rhs(events, rhs)?;
    events.push(Event::Closed)
}

// What a right side does.
#[cycle(expression_events)]
#[tactic(auto, using(crate::proofs::Listing::in_order, crate::proofs::ExpressionMirror::mirrored_expressions))]
fn add_rhs<'t>(events: &mut Events<'t>, part: &'t Rhs) -> Result<(), AllocError>
    ensures { OnOk result (recorded events.new ≡ recorded events.old ++ spec.right_side_events (mirror.rhs_of part.now)) }
{
    match part {
        Rhs::Equal(_equal, exp, local) => {
            add_where(events, local)?;
            add_exp(events, exp.get())?;
            events.push(Event::Closed)
        }
        Rhs::Guards(first, rest, local) => {
            add_where(events, local)?;
            add_equal_guard(events, first.get())?;
            add_equal_guards(events, rest.as_slice())?;
            events.push(Event::Closed)
        }
    }
}

#[tactic(auto, using(crate::proofs::Listing::in_order, crate::proofs::ExpressionMirror::mirrored_expressions))]
fn close_qual<'t>(events: &mut Events<'t>, part: &'t Qual) -> Result<(), AllocError>
    ensures { OnOk result (recorded events.new ≡ recorded events.old ++ spec.closing (mirror.qual_of part.now)) }
{
    match part {
        Qual::Generator(_pat, _arrow, _exp) => events.push(Event::Closed),
        Qual::Condition(_exp) => Ok(()),
        Qual::Local(_at, _block) => events.push(Event::Closed),
    }
}

#[tactic(auto, using(crate::proofs::Listing::in_order, crate::proofs::ExpressionMirror::mirrored_expressions))]
fn close_comma_quals<'t>(events: &mut Events<'t>, parts: &'t [CommaQual]) -> Result<(), AllocError>
    ensures { OnOk result (recorded events.new ≡ recorded events.old ++ spec.closings (mirror.each_qualifier mirror.comma_qual_of parts.now)) }
{
    let mut count = parts.len();
    while count > 0 {
        count -= 1;
        close_qual(events, &parts[count].qual)?;
    }
    Ok(())
}
