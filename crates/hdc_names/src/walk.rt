//! A walk over the sites of a program, in scope.

ghost use Rattle.std.specs.Prelude.{◌≡◌, OnOk, IfOk};
ghost use Rattle.hdc_written.specs.Mirror as mirror;
ghost use Rattle.hdc_names.specs.Sites as sites;
ghost use Rattle.hdc_names.specs.Walk as spec;

use crate::chain::{ChainStop, steps};
use crate::depth::{deeper, depth_at, function_depth, head_depth};
use crate::fixity::Fixity;
use crate::found::Found;
use crate::joining::join;
use crate::operator::undeclared;
use crate::pattern_nodes::{note_head, note_params, note_pat};
use crate::site::{is_signed, left_fault, operators_of, place_of, right_fault};
use crate::type_nodes::note_type;
use hdc_base::At;
use hdc_tree::{
    Aexp, Alt, Alts, Apply, ArrowGuard, Block, CommaExp, CommaQual, Decl, EqualGuard, Expression,
    Link, ListExp, NextAlt, NextDecl, Op, Operand, Qual, Rhs, Where,
};
use hdc_written::{
    Scope, bind_block, bind_head, bind_params, bind_pat, bind_where, first_of_aexp, first_of_exp,
    first_of_op, first_of_pat,
};
use std::alloc::{AllocError, Global};

/// What is in scope, and what was found so far.
#[derive(Drop)]
pub(crate) struct Walk<'t> {
    pub(crate) scope: Scope<'t, Fixity>,
    pub(crate) found: Found,
}

impl<'t> Walk<'t> {
    // A node of this depth.
    fn note_node(&mut self, depth: u64, at: At)
        ensures { self.new ≡ spec.note (sites.node depth at) self.old }
    {
        self.found.note_node(depth, at);
    }

    // The chain of an expression of this depth, and the nodes that join its operands; the depths of these.
    fn note_chain(
        &mut self,
        alloc: Global,
        depth: u64,
        exp: &Expression,
    ) -> Result<Vec<u64>, AllocError>
        ensures noted { OnOk result (self.new ≡ spec.joined_in self.old (spec.chain_joined depth (mirror.exp_of exp.now) self.old)) }
        ensures depths { IfOk result (λ depths. depths.items ≡ (spec.chain_joined depth (mirror.exp_of exp.now) self.old).depths) }
    {
        let rest = operators_of(alloc, &self.scope, exp)?;
        match steps(alloc, is_signed(exp), rest.as_slice()) {
            Ok(steps) => {
                let joining = join(alloc, depth, exp, self.found, steps)?;
                self.found = joining.found;
                Ok(joining.depths.into_items())
            }
            Err(ChainStop::NoTree(number)) => {
                self.found.note_fault(place_of(number, rest.as_slice()));
                let mut depths = Vec::new(alloc);
                depths.push(depth)?;
                Ok(depths)
            }
            Err(ChainStop::Want) => Err(AllocError),
        }
    }

    // A section with its operator on the right.
    fn note_left(&mut self, alloc: Global, exp: &Expression, op: &Op) -> Result<(), AllocError>
        ensures { OnOk result (self.new ≡ spec.note (sites.left_site self.old.scope (mirror.exp_of exp.now) op.now) self.old) }
    {
        let fault = left_fault(alloc, &self.scope, exp, op)?;
        self.found.note_fault(fault);
        Ok(())
    }

    // A section with its operator on the left.
    fn note_right(&mut self, alloc: Global, op: &Op, exp: &Expression) -> Result<(), AllocError>
        ensures { OnOk result (self.new ≡ spec.note (sites.right_site self.old.scope op.now (mirror.exp_of exp.now)) self.old) }
    {
        let fault = right_fault(alloc, &self.scope, op, exp)?;
        self.found.note_fault(fault);
        Ok(())
    }

    // A function of an application of this depth, and its first arguments, from all of them down to one.
    fn note_applied(&mut self, depth: u64, at: At, args: &[Aexp]) -> Result<(), AllocError>
        ensures { OnOk result (self.new ≡ spec.note_all (sites.applied_nodes depth at (mirror.each_operand mirror.aexp_of args.now)) self.old) }
    {
        let mut depth = depth;
        for _arg in args {
            self.found.note_node(depth, at);
            depth = deeper(depth)?;
        }
        Ok(())
    }
}

#[cycle(walk_expressions)]
#[tactic(auto, using(hdc_written::proofs::ExpressionMirror::mirrored_expressions))]
fn walk_exp<'t>(
    alloc: Global,
    walk: &mut Walk<'t>,
    depth: u64,
    part: &'t Expression,
) -> Result<(), AllocError>
    ensures { OnOk result (walk.new ≡ spec.walk_expression depth (mirror.exp_of part.now) walk.old) }
{
    let depths = walk.note_chain(alloc, depth, part)?;
    walk_links(alloc, walk, depths.as_slice(), part.links.as_slice())?;
    let last = depth_at(depths.as_slice(), part.links.len());
    walk_operand(alloc, walk, last, &part.last)
}

#[cycle(walk_expressions)]
#[tactic(auto, using(hdc_written::proofs::ExpressionMirror::mirrored_expressions))]
fn walk_links<'t>(
    alloc: Global,
    walk: &mut Walk<'t>,
    depths: &[u64],
    parts: &'t [Link],
) -> Result<(), AllocError>
    ensures { OnOk result (walk.new ≡ spec.walk_links depths.now 0 (mirror.each_link mirror.link_of parts.now) walk.old) }
{
    for index in 0..parts.len() {
        let depth = depth_at(depths, index);
        walk_apply(alloc, walk, depth, &parts[index].left)?;
    }
    Ok(())
}

#[cycle(walk_expressions)]
#[tactic(auto, using(hdc_written::proofs::ExpressionMirror::mirrored_expressions))]
fn walk_apply<'t>(
    alloc: Global,
    walk: &mut Walk<'t>,
    depth: u64,
    part: &'t Apply,
) -> Result<(), AllocError>
    ensures { OnOk result (walk.new ≡ spec.walk_operand depth (mirror.apply_of part.now) walk.old) }
{
    let args = part.args.as_slice();
    walk.note_applied(depth, first_of_aexp(&part.head), args)?;
    walk_aexp(alloc, walk, function_depth(depth, args)?, &part.head)?;
    walk_aexps(alloc, walk, depth, part.args.as_slice())
}

#[cycle(walk_expressions)]
#[tactic(auto, using(hdc_written::proofs::ExpressionMirror::mirrored_expressions))]
fn walk_aexps<'t>(
    alloc: Global,
    walk: &mut Walk<'t>,
    depth: u64,
    parts: &'t [Aexp],
) -> Result<(), AllocError>
    ensures { OnOk result (walk.new ≡ spec.walk_operands depth (mirror.each_operand mirror.aexp_of parts.now) walk.old) }
{
    for index in 0..parts.len() {
        let inner = deeper(function_depth(depth, &parts[index + 1..])?)?;
        walk_aexp(alloc, walk, inner, &parts[index])?;
    }
    Ok(())
}

#[cycle(walk_expressions)]
#[tactic(auto, using(hdc_written::proofs::ExpressionMirror::mirrored_expressions))]
fn walk_operand<'t>(
    alloc: Global,
    walk: &mut Walk<'t>,
    depth: u64,
    part: &'t Operand,
) -> Result<(), AllocError>
    ensures { OnOk result (walk.new ≡ spec.walk_operand depth (mirror.operand_of part.now) walk.old) }
{
    match part {
        Operand::Applied(apply) => walk_apply(alloc, walk, depth, apply),
        Operand::Lambda(at, first, rest, _arrow, body) => {
            walk.note_node(depth, *at);
            note_params(&mut walk.found, first, rest.as_slice())?;
            let size = walk.scope.size();
            bind_params(&mut walk.scope, undeclared(), first, rest.as_slice())?;
            walk_exp(alloc, walk, deeper(depth)?, body.get())?;
            walk.scope.leave(size);
            Ok(())
        }
        Operand::Let(at, block, _in_at, body) => {
            walk.note_node(depth, *at);
            let size = walk.scope.size();
            bind_block(&mut walk.scope, undeclared(), block)?;
            walk_block(alloc, walk, block)?;
            walk_exp(alloc, walk, deeper(depth)?, body.get())?;
            walk.scope.leave(size);
            Ok(())
        }
        Operand::If(at, condition, _then_at, positive, _else_at, negative) => {
            walk.note_node(depth, *at);
            let inner = deeper(depth)?;
            walk_exp(alloc, walk, inner, condition.get())?;
            walk_exp(alloc, walk, inner, positive.get())?;
            walk_exp(alloc, walk, inner, negative.get())
        }
        Operand::Case(at, subject, _of_at, alts) => {
            walk.note_node(depth, *at);
            let inner = deeper(depth)?;
            walk_exp(alloc, walk, inner, subject.get())?;
            walk_alts(alloc, walk, inner, alts)
        }
    }
}

#[cycle(walk_expressions)]
#[tactic(auto, using(hdc_written::proofs::ExpressionMirror::mirrored_expressions))]
fn walk_aexp<'t>(
    alloc: Global,
    walk: &mut Walk<'t>,
    depth: u64,
    part: &'t Aexp,
) -> Result<(), AllocError>
    ensures { OnOk result (walk.new ≡ spec.walk_operand depth (mirror.aexp_of part.now) walk.old) }
{
    match part {
        Aexp::Var(_)
        | Aexp::Con(_)
        | Aexp::Literal(_, _)
        | Aexp::Unit(_, _)
        | Aexp::Nil(_, _)
        | Aexp::Cons(_, _, _) => {
            walk.note_node(depth, first_of_aexp(part));
            Ok(())
        }
        Aexp::Paren(_open_at, inner, _close_at) => walk_exp(alloc, walk, depth, inner.get()),
        Aexp::Tuple(open_at, first, rest, _close_at) => {
            walk.note_node(depth, *open_at);
            let inner = deeper(depth)?;
            walk_exp(alloc, walk, inner, first.get())?;
            walk_comma_exps(alloc, walk, inner, rest.as_slice())
        }
        Aexp::List(list) => walk_list_exp(alloc, walk, depth, list),
        Aexp::LeftSection(open_at, left, op, _close_at) => {
            walk.note_node(depth, *open_at);
            let inner = deeper(depth)?;
            walk.note_left(alloc, left.get(), op)?;
            walk_exp(alloc, walk, inner, left.get())?;
            walk.note_node(inner, first_of_op(op));
            Ok(())
        }
        Aexp::RightSection(open_at, op, right, _close_at) => {
            walk.note_node(depth, *open_at);
            let inner = deeper(depth)?;
            walk.note_right(alloc, op, right.get())?;
            walk.note_node(inner, first_of_op(op));
            walk_exp(alloc, walk, inner, right.get())
        }
    }
}

#[cycle(walk_expressions)]
#[tactic(auto, using(hdc_written::proofs::ExpressionMirror::mirrored_expressions))]
fn walk_list_exp<'t>(
    alloc: Global,
    walk: &mut Walk<'t>,
    depth: u64,
    part: &'t ListExp,
) -> Result<(), AllocError>
    ensures { OnOk result (walk.new ≡ spec.walk_operand depth (mirror.list_exp_of part.now) walk.old) }
{
    match part {
        ListExp::Members(open_at, first, rest, _close_at) => {
            walk.note_node(depth, *open_at);
            let inner = deeper(depth)?;
            walk_exp(alloc, walk, inner, first.get())?;
            walk_comma_exps(alloc, walk, inner, rest.as_slice())
        }
        ListExp::Range(open_at, low, _dots, high, _close_at) => {
            walk.note_node(depth, *open_at);
            let inner = deeper(depth)?;
            walk_exp(alloc, walk, inner, low.get())?;
            walk_exp(alloc, walk, inner, high.get())
        }
        ListExp::Comprehension(open_at, head, _bar, first, rest, _close_at) => {
            walk.note_node(depth, *open_at);
            let size = walk.scope.size();
            let inner = deeper(depth)?;
            walk_qual(alloc, walk, inner, first)?;
            walk_comma_quals(alloc, walk, deeper(inner)?, rest.as_slice())?;
            walk_exp(alloc, walk, head_depth(depth, rest.as_slice())?, head.get())?;
            walk.scope.leave(size);
            Ok(())
        }
    }
}

#[cycle(walk_expressions)]
#[tactic(auto, using(hdc_written::proofs::ExpressionMirror::mirrored_expressions))]
fn walk_comma_exps<'t>(
    alloc: Global,
    walk: &mut Walk<'t>,
    depth: u64,
    parts: &'t [CommaExp],
) -> Result<(), AllocError>
    ensures { OnOk result (walk.new ≡ spec.walk_expressions depth (mirror.each_expression mirror.comma_exp_of parts.now) walk.old) }
{
    for part in parts {
        walk_exp(alloc, walk, depth, &part.exp)?;
    }
    Ok(())
}

// A qualifier of this depth, whose names stay in scope.
#[cycle(walk_expressions)]
#[tactic(auto, using(hdc_written::proofs::ExpressionMirror::mirrored_expressions))]
fn walk_qual<'t>(
    alloc: Global,
    walk: &mut Walk<'t>,
    depth: u64,
    part: &'t Qual,
) -> Result<(), AllocError>
    ensures { OnOk result (walk.new ≡ spec.walk_qualifier depth (mirror.qual_of part.now) walk.old) }
{
    match part {
        Qual::Generator(pat, _arrow, exp) => {
            walk.note_node(depth, first_of_pat(pat));
            note_pat(&mut walk.found, 1, pat)?;
            walk_exp(alloc, walk, depth, exp.get())?;
            bind_pat(&mut walk.scope, undeclared(), pat)
        }
        Qual::Condition(exp) => {
            walk.note_node(depth, first_of_exp(exp.get()));
            walk_exp(alloc, walk, depth, exp.get())
        }
        Qual::Local(at, block) => {
            walk.note_node(depth, *at);
            bind_block(&mut walk.scope, undeclared(), block)?;
            walk_block(alloc, walk, block)
        }
    }
}

#[cycle(walk_expressions)]
#[tactic(auto, using(hdc_written::proofs::ExpressionMirror::mirrored_expressions))]
fn walk_comma_quals<'t>(
    alloc: Global,
    walk: &mut Walk<'t>,
    depth: u64,
    parts: &'t [CommaQual],
) -> Result<(), AllocError>
    ensures { OnOk result (walk.new ≡ spec.walk_qualifiers depth (mirror.each_qualifier mirror.comma_qual_of parts.now) walk.old) }
{
    let mut depth = depth;
    for part in parts {
        walk_qual(alloc, walk, depth, &part.qual)?;
        depth = deeper(depth)?;
    }
    Ok(())
}

#[cycle(walk_expressions)]
#[tactic(auto, using(hdc_written::proofs::ExpressionMirror::mirrored_expressions))]
fn walk_alts<'t>(
    alloc: Global,
    walk: &mut Walk<'t>,
    depth: u64,
    part: &'t Alts,
) -> Result<(), AllocError>
    ensures { OnOk result (walk.new ≡ spec.walk_alternatives depth (mirror.alts_of part.now) walk.old) }
{
    walk_alt(alloc, walk, depth, part.first.get())?;
    walk_next_alts(alloc, walk, depth, part.rest.as_slice())
}

#[cycle(walk_expressions)]
#[tactic(auto, using(hdc_written::proofs::ExpressionMirror::mirrored_expressions))]
fn walk_next_alts<'t>(
    alloc: Global,
    walk: &mut Walk<'t>,
    depth: u64,
    parts: &'t [NextAlt],
) -> Result<(), AllocError>
    ensures { OnOk result (walk.new ≡ spec.walk_alternatives depth (mirror.each_alternative mirror.next_alt_of parts.now) walk.old) }
{
    for part in parts {
        walk_alt(alloc, walk, depth, &part.alt)?;
    }
    Ok(())
}

#[cycle(walk_expressions)]
#[tactic(auto, using(hdc_written::proofs::ExpressionMirror::mirrored_expressions))]
fn walk_alt<'t>(
    alloc: Global,
    walk: &mut Walk<'t>,
    depth: u64,
    part: &'t Alt,
) -> Result<(), AllocError>
    ensures { OnOk result (walk.new ≡ spec.walk_alternative depth (mirror.alt_of part.now) walk.old) }
{
    match part {
        Alt::Blank => Ok(()),
        Alt::Arrow(pat, _arrow, exp, local) => {
            note_pat(&mut walk.found, 1, pat)?;
            let size = walk.scope.size();
            bind_pat(&mut walk.scope, undeclared(), pat)?;
            bind_where(&mut walk.scope, undeclared(), local)?;
            walk_where(alloc, walk, local)?;
            walk_exp(alloc, walk, depth, exp.get())?;
            walk.scope.leave(size);
            Ok(())
        }
        Alt::Guarded(pat, first, rest, local) => {
            note_pat(&mut walk.found, 1, pat)?;
            let size = walk.scope.size();
            bind_pat(&mut walk.scope, undeclared(), pat)?;
            walk.note_node(depth, first.get().bar);
            bind_where(&mut walk.scope, undeclared(), local)?;
            walk_where(alloc, walk, local)?;
            let inner = deeper(depth)?;
            walk_arrow_guard(alloc, walk, inner, first.get())?;
            walk_arrow_guards(alloc, walk, inner, rest.as_slice())?;
            walk.scope.leave(size);
            Ok(())
        }
    }
}

#[cycle(walk_expressions)]
#[tactic(auto, using(hdc_written::proofs::ExpressionMirror::mirrored_expressions))]
fn walk_arrow_guard<'t>(
    alloc: Global,
    walk: &mut Walk<'t>,
    depth: u64,
    part: &'t ArrowGuard,
) -> Result<(), AllocError>
    ensures { OnOk result (walk.new ≡ spec.walk_expression depth (mirror.arrow_guard_of part.now).value (spec.walk_expression depth (mirror.arrow_guard_of part.now).condition walk.old)) }
{
    walk_exp(alloc, walk, depth, &part.condition)?;
    walk_exp(alloc, walk, depth, &part.exp)
}

#[cycle(walk_expressions)]
#[tactic(auto, using(hdc_written::proofs::ExpressionMirror::mirrored_expressions))]
fn walk_arrow_guards<'t>(
    alloc: Global,
    walk: &mut Walk<'t>,
    depth: u64,
    parts: &'t [ArrowGuard],
) -> Result<(), AllocError>
    ensures { OnOk result (walk.new ≡ spec.walk_guards depth (mirror.each_guard mirror.arrow_guard_of parts.now) walk.old) }
{
    for part in parts {
        walk_arrow_guard(alloc, walk, depth, part)?;
    }
    Ok(())
}

#[cycle(walk_expressions)]
#[tactic(auto, using(hdc_written::proofs::ExpressionMirror::mirrored_expressions))]
fn walk_equal_guard<'t>(
    alloc: Global,
    walk: &mut Walk<'t>,
    depth: u64,
    part: &'t EqualGuard,
) -> Result<(), AllocError>
    ensures { OnOk result (walk.new ≡ spec.walk_expression depth (mirror.equal_guard_of part.now).value (spec.walk_expression depth (mirror.equal_guard_of part.now).condition walk.old)) }
{
    walk_exp(alloc, walk, depth, &part.condition)?;
    walk_exp(alloc, walk, depth, &part.exp)
}

#[cycle(walk_expressions)]
#[tactic(auto, using(hdc_written::proofs::ExpressionMirror::mirrored_expressions))]
fn walk_equal_guards<'t>(
    alloc: Global,
    walk: &mut Walk<'t>,
    depth: u64,
    parts: &'t [EqualGuard],
) -> Result<(), AllocError>
    ensures { OnOk result (walk.new ≡ spec.walk_guards depth (mirror.each_guard mirror.equal_guard_of parts.now) walk.old) }
{
    for part in parts {
        walk_equal_guard(alloc, walk, depth, part)?;
    }
    Ok(())
}

#[cycle(walk_expressions)]
#[tactic(auto, using(hdc_written::proofs::ExpressionMirror::mirrored_expressions))]
fn walk_where<'t>(alloc: Global, walk: &mut Walk<'t>, part: &'t Where) -> Result<(), AllocError>
    ensures { OnOk result (walk.new ≡ spec.walk_declarations (mirror.where_of part.now) walk.old) }
{
    match part {
        Where::Absent => Ok(()),
        Where::Present(_at, block) => walk_block(alloc, walk, block),
    }
}

#[cycle(walk_expressions)]
#[tactic(auto, using(hdc_written::proofs::ExpressionMirror::mirrored_expressions))]
fn walk_block<'t>(alloc: Global, walk: &mut Walk<'t>, part: &'t Block) -> Result<(), AllocError>
    ensures { OnOk result (walk.new ≡ spec.walk_declarations (mirror.block_of part.now) walk.old) }
{
    walk_decl(alloc, walk, part.first.get())?;
    walk_next_decls(alloc, walk, part.rest.as_slice())
}

#[cycle(walk_expressions)]
#[tactic(auto, using(hdc_written::proofs::ExpressionMirror::mirrored_expressions))]
fn walk_next_decls<'t>(
    alloc: Global,
    walk: &mut Walk<'t>,
    parts: &'t [NextDecl],
) -> Result<(), AllocError>
    ensures { OnOk result (walk.new ≡ spec.walk_declarations (mirror.each_declaration mirror.next_decl_of parts.now) walk.old) }
{
    for part in parts {
        walk_decl(alloc, walk, &part.decl)?;
    }
    Ok(())
}

#[cycle(walk_expressions)]
#[tactic(auto, using(hdc_written::proofs::ExpressionMirror::mirrored_expressions))]
fn walk_decl<'t>(alloc: Global, walk: &mut Walk<'t>, part: &'t Decl) -> Result<(), AllocError>
    ensures { OnOk result (walk.new ≡ spec.walk_declaration (mirror.decl_of part.now) walk.old) }
{
    match part {
        Decl::Empty => Ok(()),
        Decl::Signature(_var, _rest, _at, signature) => note_type(&mut walk.found, 1, signature),
        Decl::Equation(head, rhs) => {
            note_head(&mut walk.found, head)?;
            let size = walk.scope.size();
            bind_head(&mut walk.scope, undeclared(), head)?;
            walk_rhs(alloc, walk, 1, rhs)?;
            walk.scope.leave(size);
            Ok(())
        }
        Decl::Binding(pat, rhs) => {
            note_pat(&mut walk.found, 1, pat)?;
            let size = walk.scope.size();
            walk_rhs(alloc, walk, 1, rhs)?;
            walk.scope.leave(size);
            Ok(())
        }
    }
}

/// The sites of a right side of this depth; what is bound behind its `where` stays in scope.
#[cycle(walk_expressions)]
#[tactic(auto, using(hdc_written::proofs::ExpressionMirror::mirrored_expressions))]
pub(crate) fn walk_rhs<'t>(
    alloc: Global,
    walk: &mut Walk<'t>,
    depth: u64,
    part: &'t Rhs,
) -> Result<(), AllocError>
    ensures { OnOk result (walk.new ≡ spec.walk_right_side depth (mirror.rhs_of part.now) walk.old) }
{
    match part {
        Rhs::Equal(_equal, exp, local) => {
            bind_where(&mut walk.scope, undeclared(), local)?;
            walk_where(alloc, walk, local)?;
            walk_exp(alloc, walk, depth, exp.get())
        }
        Rhs::Guards(first, rest, local) => {
            walk.note_node(depth, first.get().bar);
            bind_where(&mut walk.scope, undeclared(), local)?;
            walk_where(alloc, walk, local)?;
            let inner = deeper(depth)?;
            walk_equal_guard(alloc, walk, inner, first.get())?;
            walk_equal_guards(alloc, walk, inner, rest.as_slice())
        }
    }
}
