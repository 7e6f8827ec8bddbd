//! The bindings at the top that a part of the tree uses.

ghost use Rattle.std.specs.Prelude.{◌≡◌, ◌++◌, map, OnOk, IfOk};
ghost use Rattle.hdc_resolved.specs.Mirror as mirror;
ghost use Rattle.hdc_resolved.specs.Syntax.{no_member};
ghost use Rattle.hdc_groups.specs.TopUses as spec;

use hdc_resolved::{Alt, Block, Decl, Exp, Guard, Member, Name, Quals, Rhs, Side};
use sqlite_items::Items;
use std::alloc::{AllocError, Global};

/// The numbers of the bindings at the top that the equations of one use, in the order of the text.
pub(crate) fn uses_of(alloc: Global, decl: &Decl) -> Result<Items<u32>, AllocError>
    ensures { IfOk result (λ uses. uses ≡ spec.equations_uses (mirror.binding_of decl.now).equations) }
{
    let mut uses = Items::new(alloc);
    add_equations(&mut uses, decl.equations.as_slice())?;
    Ok(uses)
}

// A name that is used.
fn add_name(uses: &mut Items<u32>, name: Name) -> Result<(), AllocError>
    ensures { OnOk result (uses.new ≡ uses.old ++ spec.name_uses name) }
{
    match name {
        Name::Top(number) => uses.push(number),
        Name::Local(_number) => Ok(()),
        Name::Con(_constructor) => Ok(()),
        Name::Primitive(_primitive) => Ok(()),
        Name::Skeleton(_kind, _degree) => Ok(()),
        Name::Unknown => Ok(()),
    }
}

#[cycle(add_expressions)]
#[tactic(auto, using(crate::proofs::Listing::in_order, hdc_resolved::proofs::Mirror::mirrored))]
fn add_exp(uses: &mut Items<u32>, part: &Exp) -> Result<(), AllocError>
    ensures { OnOk result (uses.new ≡ uses.old ++ spec.expression_uses (mirror.expression_of part.now)) }
{
    match part {
        Exp::Lit(_place, _literal) => Ok(()),
        Exp::Name(used) => add_name(uses, used.name),
        Exp::App(_place, function, argument) => {
            add_exp(uses, function.get())?;
            add_exp(uses, argument.get())
        }
        Exp::Infix(_place, left, operator, right) => {
            add_exp(uses, left.get())?;
            add_name(uses, operator.name)?;
            add_exp(uses, right.get())
        }
        Exp::Neg(_place, operand) => add_exp(uses, operand.get()),
        Exp::Section(_place, side, _number, operator, operand) => {
            add_section(uses, *side, operator.name, operand.get())
        }
        Exp::Lambda(_place, _pats, body) => add_exp(uses, body.get()),
        Exp::If(_place, test, yes, other) => {
            add_exp(uses, test.get())?;
            add_exp(uses, yes.get())?;
            add_exp(uses, other.get())
        }
        Exp::Case(_place, matched, alternatives) => {
            add_exp(uses, matched.get())?;
            add_equations(uses, alternatives.as_slice())
        }
        Exp::Let(_place, block, body) => {
            add_block(uses, block)?;
            add_exp(uses, body.get())
        }
        Exp::Row(_place, _kind, members) => add_exps(uses, members.as_slice()),
        Exp::Range(_place, enumeration, from, to) => {
            add_name(uses, *enumeration)?;
            add_exp(uses, from.get())?;
            add_exp(uses, to.get())
        }
        Exp::Comp(_place, qualifiers) => {
            add_head(uses, qualifiers)?;
            add_qualifiers(uses, qualifiers)
        }
    }
}

// A section, with the side of its operand.
#[cycle(add_expressions)]
#[tactic(auto, using(crate::proofs::Listing::in_order, hdc_resolved::proofs::Mirror::mirrored))]
fn add_section(
    uses: &mut Items<u32>,
    side: Side,
    operator: Name,
    operand: &Exp,
) -> Result<(), AllocError>
    ensures { OnOk result (uses.new ≡ uses.old ++ spec.section_uses side (spec.name_uses operator) (spec.expression_uses (mirror.expression_of operand.now))) }
{
    match side {
        Side::Left => {
            add_exp(uses, operand)?;
            add_name(uses, operator)
        }
        Side::Right => {
            add_name(uses, operator)?;
            add_exp(uses, operand)
        }
    }
}

#[cycle(add_expressions)]
#[tactic(auto, using(crate::proofs::Listing::in_order, hdc_resolved::proofs::Mirror::mirrored))]
fn add_exps(uses: &mut Items<u32>, parts: &[Exp]) -> Result<(), AllocError>
    ensures { OnOk result (uses.new ≡ uses.old ++ spec.expressions_uses (mirror.expressions (map mirror.expression_of parts.now))) }
{
    for part in parts {
        add_exp(uses, part)?;
    }
    Ok(())
}

// The head of a comprehension, which stands before its qualifiers in the text.
#[cycle(add_expressions)]
#[tactic(auto, using(crate::proofs::Listing::in_order, hdc_resolved::proofs::Mirror::mirrored))]
fn add_head(uses: &mut Items<u32>, part: &Quals) -> Result<(), AllocError>
    ensures { OnOk result (uses.new ≡ uses.old ++ spec.head_uses (mirror.qualifiers_of part.now)) }
{
    match part {
        Quals::Head(head) => add_exp(uses, head.get()),
        Quals::Test(_test, rest) => add_head(uses, rest.get()),
        Quals::From(_concatenation, _pat, _list, rest) => add_head(uses, rest.get()),
        Quals::Bind(_block, rest) => add_head(uses, rest.get()),
    }
}

#[cycle(add_expressions)]
#[tactic(auto, using(crate::proofs::Listing::in_order, hdc_resolved::proofs::Mirror::mirrored))]
fn add_qualifiers(uses: &mut Items<u32>, part: &Quals) -> Result<(), AllocError>
    ensures { OnOk result (uses.new ≡ uses.old ++ spec.qualifiers_uses (mirror.qualifiers_of part.now)) }
{
    match part {
        Quals::Head(_head) => Ok(()),
        Quals::Test(test, rest) => {
            add_exp(uses, test.get())?;
            add_qualifiers(uses, rest.get())
        }
        Quals::From(concatenation, _pat, list, rest) => {
            add_name(uses, *concatenation)?;
            add_exp(uses, list.get())?;
            add_qualifiers(uses, rest.get())
        }
        Quals::Bind(block, rest) => {
            add_block(uses, block)?;
            add_qualifiers(uses, rest.get())
        }
    }
}

#[cycle(add_expressions)]
#[tactic(auto, using(crate::proofs::Listing::in_order, hdc_resolved::proofs::Mirror::mirrored))]
fn add_equations(uses: &mut Items<u32>, parts: &[Alt]) -> Result<(), AllocError>
    ensures { OnOk result (uses.new ≡ uses.old ++ spec.equations_uses (mirror.equations_of parts.now)) }
{
    for part in parts {
        add_right(uses, &part.rhs)?;
    }
    Ok(())
}

#[cycle(add_expressions)]
#[tactic(auto, using(crate::proofs::Listing::in_order, hdc_resolved::proofs::Mirror::mirrored))]
fn add_right(uses: &mut Items<u32>, part: &Rhs) -> Result<(), AllocError>
    ensures { OnOk result (uses.new ≡ uses.old ++ spec.right_uses (mirror.right_of part.now)) }
{
    match part {
        Rhs::Plain(body, block) => {
            add_exp(uses, body.get())?;
            add_block(uses, block)
        }
        Rhs::Guarded(_place, guards, block) => {
            add_guards(uses, guards.as_slice())?;
            add_block(uses, block)
        }
    }
}

#[cycle(add_expressions)]
#[tactic(auto, using(crate::proofs::Listing::in_order, hdc_resolved::proofs::Mirror::mirrored))]
fn add_guards(uses: &mut Items<u32>, parts: &[Guard]) -> Result<(), AllocError>
    ensures { OnOk result (uses.new ≡ uses.old ++ spec.guards_uses (mirror.guards_of parts.now)) }
{
    for part in parts {
        add_exp(uses, &part.test)?;
        add_exp(uses, &part.body)?;
    }
    Ok(())
}

#[cycle(add_expressions)]
#[tactic(auto, using(crate::proofs::Listing::in_order, hdc_resolved::proofs::Mirror::mirrored))]
fn add_block(uses: &mut Items<u32>, part: &Block) -> Result<(), AllocError>
    ensures { OnOk result (uses.new ≡ uses.old ++ spec.block_uses (mirror.block_of part.now)) }
{
    add_members(uses, part.members.as_slice())
}

#[cycle(add_expressions)]
#[tactic(auto, using(crate::proofs::Listing::in_order, hdc_resolved::proofs::Mirror::mirrored))]
fn add_members(uses: &mut Items<u32>, parts: &[Member]) -> Result<(), AllocError>
    ensures { OnOk result (uses.new ≡ uses.old ++ spec.members_uses (mirror.members_of parts.now)) }
{
    for part in parts {
        add_member(uses, part)?;
    }
    Ok(())
}

#[cycle(add_expressions)]
#[tactic(auto, using(crate::proofs::Listing::in_order, hdc_resolved::proofs::Mirror::mirrored))]
fn add_member(uses: &mut Items<u32>, part: &Member) -> Result<(), AllocError>
    ensures { OnOk result (uses.new ≡ uses.old ++ spec.members_uses (mirror.member_of part.now no_member)) }
{
    match part {
        Member::Named(_place, _number, equations) => add_equations(uses, equations.as_slice()),
        Member::Matched(_place, _pat, rhs) => add_right(uses, rhs),
    }
}
