//! What is broken in the bindings and signatures of a block.

ghost use Rattle.std.specs.Prelude.{◌≡◌, ◌++◌, None, OnOk, IfOk};
ghost use Rattle.hdc_written.specs.Breaches.{all_noted};
ghost use Rattle.hdc_written.specs.Mirror as mirror;
ghost use Rattle.hdc_written.specs.TypeMirror.{type_exp_of};
ghost use Rattle.hdc_rules.specs.Adjacent as adjacent;
ghost use Rattle.hdc_rules.specs.Bindings as spec;

use crate::equations::OpenFunction;
use crate::listed::{note_bound, note_each};
use crate::names::Names;
use crate::pattern_variables::add_pat;
use crate::signed::add_signed;
use crate::type_variables::add_type;
use crate::types::note_type;
use hdc_tree::{Block, Decl, NextDecl, TypeExp};
use hdc_written::{Found, Scope};
use std::alloc::{AllocError, Global};

/// What is bound in the block is bound once, and signed once at most; what is signed is bound; the equations of a
/// function have as many parameters each; and the types of the signatures are known, and have no variables.
#[tactic(auto, using(hdc_written::proofs::FirstBreach::in_order))]
pub(crate) fn note_block(
    alloc: Global,
    found: &mut Found,
    types: &Scope<usize>,
    block: &Block,
) -> Result<(), AllocError>
    ensures { OnOk result (found.new ≡ all_noted found.old (spec.block_breaches types.now (mirror.block_of block.now))) }
{
    let bound = bindings_of(alloc, block)?;
    let signed = signed_in(alloc, block)?;
    note_bound(alloc, found, &bound, &signed)?;
    note_uneven(found, block);
    note_signatures(alloc, found, types, block)
}

// The names of the bindings.
#[tactic(auto, using(crate::proofs::Adjacent::split_blocks, hdc_written::proofs::ExpressionMirror::mirrored_expressions))]
fn bindings_of(alloc: Global, block: &Block) -> Result<Names<'_>, AllocError>
    ensures { IfOk result (λ names. names ≡ spec.bindings_of None (mirror.block_of block.now)) }
{
    let mut names = Names::new(alloc);
    let mut going = OpenFunction::none();
    add_bound(&mut names, &mut going, block.first.get())?;
    add_next_bound(&mut names, &mut going, block.rest.as_slice())?;
    Ok(names)
}

#[tactic(auto, using(crate::proofs::Listing::in_order, hdc_written::proofs::ExpressionMirror::mirrored_expressions))]
fn add_next_bound<'t>(
    names: &mut Names<'t>,
    going: &mut OpenFunction<'t>,
    parts: &'t [NextDecl],
) -> Result<(), AllocError>
    ensures { OnOk result (names.new ≡ names.old ++ spec.bindings_of going.old (mirror.each_declaration mirror.next_decl_of parts.now)) }
{
    for part in parts {
        add_bound(names, going, &part.decl)?;
    }
    Ok(())
}

#[tactic(auto, using(crate::proofs::Listing::in_order))]
fn add_bound<'t>(
    names: &mut Names<'t>,
    going: &mut OpenFunction<'t>,
    part: &'t Decl,
) -> Result<(), AllocError>
    ensures added { OnOk result (names.new ≡ names.old ++ adjacent.bound_at going.old (mirror.decl_of part.now)) }
    ensures behind { OnOk result (going.new ≡ adjacent.going_behind going.old (mirror.decl_of part.now)) }
{
    match part {
        Decl::Empty => Ok(()),
        Decl::Signature(_var, _rest, _at, _signature) => {
            going.close();
            Ok(())
        }
        Decl::Equation(head, _rhs) => going.add_equation(names, head),
        Decl::Binding(pat, _rhs) => {
            going.close();
            add_pat(names, pat)
        }
    }
}

// The equations of a function have as many parameters each.
#[tactic(auto, using(crate::proofs::Adjacent::split_blocks, hdc_written::proofs::FirstBreach::in_order, hdc_written::proofs::ExpressionMirror::mirrored_expressions))]
fn note_uneven(found: &mut Found, block: &Block)
    ensures { found.new ≡ all_noted found.old (spec.uneven_equations None (mirror.block_of block.now)) }
{
    let mut going = OpenFunction::none();
    note_uneven_at(found, &mut going, block.first.get());
    note_next_uneven(found, &mut going, block.rest.as_slice());
}

#[tactic(auto, using(hdc_written::proofs::FirstBreach::in_order, hdc_written::proofs::ExpressionMirror::mirrored_expressions))]
fn note_next_uneven<'t>(found: &mut Found, going: &mut OpenFunction<'t>, parts: &'t [NextDecl])
    ensures { found.new ≡ all_noted found.old (spec.uneven_equations going.old (mirror.each_declaration mirror.next_decl_of parts.now)) }
{
    for part in parts {
        note_uneven_at(found, going, &part.decl);
    }
}

fn note_uneven_at<'t>(found: &mut Found, going: &mut OpenFunction<'t>, part: &'t Decl)
    ensures noted { found.new ≡ all_noted found.old (adjacent.uneven_at going.old (mirror.decl_of part.now)) }
    ensures behind { going.new ≡ adjacent.going_behind going.old (mirror.decl_of part.now) }
{
    match part {
        Decl::Empty => {}
        Decl::Signature(_var, _rest, _at, _signature) => going.close(),
        Decl::Equation(head, _rhs) => going.note_equation(found, head),
        Decl::Binding(_pat, _rhs) => going.close(),
    }
}

// The names that have signatures.
#[tactic(auto, using(crate::proofs::Adjacent::split_blocks, hdc_written::proofs::ExpressionMirror::mirrored_expressions))]
fn signed_in(alloc: Global, block: &Block) -> Result<Names<'_>, AllocError>
    ensures { IfOk result (λ names. names ≡ spec.signed_in (mirror.block_of block.now)) }
{
    let mut names = Names::new(alloc);
    add_signed_by(&mut names, block.first.get())?;
    add_next_signed(&mut names, block.rest.as_slice())?;
    Ok(names)
}

#[tactic(auto, using(crate::proofs::Listing::in_order, hdc_written::proofs::ExpressionMirror::mirrored_expressions))]
fn add_next_signed<'t>(names: &mut Names<'t>, parts: &'t [NextDecl]) -> Result<(), AllocError>
    ensures { OnOk result (names.new ≡ names.old ++ spec.signed_in (mirror.each_declaration mirror.next_decl_of parts.now)) }
{
    for part in parts {
        add_signed_by(names, &part.decl)?;
    }
    Ok(())
}

#[tactic(auto, using(crate::proofs::Listing::in_order))]
fn add_signed_by<'t>(names: &mut Names<'t>, part: &'t Decl) -> Result<(), AllocError>
    ensures { OnOk result (names.new ≡ names.old ++ adjacent.signed_by (mirror.decl_of part.now)) }
{
    match part {
        Decl::Signature(first, rest, _at, _signature) => add_signed(names, first, rest.as_slice()),
        Decl::Empty => Ok(()),
        Decl::Equation(_head, _rhs) => Ok(()),
        Decl::Binding(_pat, _rhs) => Ok(()),
    }
}

// The types of the signatures are known, and have no variables.
#[tactic(auto, using(crate::proofs::Adjacent::split_blocks, hdc_written::proofs::FirstBreach::in_order, hdc_written::proofs::ExpressionMirror::mirrored_expressions))]
fn note_signatures(
    alloc: Global,
    found: &mut Found,
    types: &Scope<usize>,
    block: &Block,
) -> Result<(), AllocError>
    ensures { OnOk result (found.new ≡ all_noted found.old (spec.local_signatures types.now (mirror.block_of block.now))) }
{
    note_signature_at(alloc, found, types, block.first.get())?;
    note_next_signatures(alloc, found, types, block.rest.as_slice())
}

#[tactic(auto, using(hdc_written::proofs::FirstBreach::in_order, hdc_written::proofs::ExpressionMirror::mirrored_expressions))]
fn note_next_signatures(
    alloc: Global,
    found: &mut Found,
    types: &Scope<usize>,
    parts: &[NextDecl],
) -> Result<(), AllocError>
    ensures { OnOk result (found.new ≡ all_noted found.old (spec.local_signatures types.now (mirror.each_declaration mirror.next_decl_of parts.now))) }
{
    for part in parts {
        note_signature_at(alloc, found, types, &part.decl)?;
    }
    Ok(())
}

fn note_signature_at(
    alloc: Global,
    found: &mut Found,
    types: &Scope<usize>,
    part: &Decl,
) -> Result<(), AllocError>
    ensures { OnOk result (found.new ≡ all_noted found.old (adjacent.signature_breaches types.now (mirror.decl_of part.now))) }
{
    match part {
        Decl::Signature(_var, _rest, _at, signature) => {
            note_local_type(alloc, found, types, signature)
        }
        Decl::Empty => Ok(()),
        Decl::Equation(_head, _rhs) => Ok(()),
        Decl::Binding(_pat, _rhs) => Ok(()),
    }
}

#[tactic(auto, using(hdc_written::proofs::FirstBreach::in_order))]
fn note_local_type(
    alloc: Global,
    found: &mut Found,
    types: &Scope<usize>,
    part: &TypeExp,
) -> Result<(), AllocError>
    ensures { OnOk result (found.new ≡ all_noted found.old (adjacent.local_type_breaches types.now (type_exp_of part.now))) }
{
    note_type(found, types, part);
    let mut names = Names::new(alloc);
    add_type(&mut names, part)?;
    note_each(found, 12, &names);
    Ok(())
}
