//! The values of a block that need themselves.

ghost use Rattle.std.specs.Prelude.{◌≡◌, ◌+◌, OnOk, slice_index_or, false};
ghost use Rattle.hdc_written.specs.Breaches.{all_noted};
ghost use Rattle.hdc_written.specs.Mirror as mirror;
ghost use Rattle.hdc_needs.specs.Kept.{declarations_of};
ghost use Rattle.hdc_needs.specs.Needy.{value_at};
ghost use Rattle.hdc_needs.specs.Values as spec;

use crate::frames::OpenBlock;
use crate::names::next_number;
use hdc_base::At;
use hdc_graph::find_components;
use hdc_tree::{Apat, Block, Decl, Head, NextDecl};
use hdc_written::{Found, first_of_head, first_of_pat};
use std::alloc::{AllocError, Global};

/// The values of a block that need themselves.
pub(crate) fn note_needy(
    alloc: Global,
    found: &mut Found,
    block: &OpenBlock,
) -> Result<(), AllocError>
    ensures { OnOk result (spec.AreNoted block.now.graph (declarations_of block.now.declarations) found.old found.new) }
{
    if block.graph.len() > MOST_NODES {
        return Err(AllocError);
    }
    let components = find_components(alloc, &block.graph)?;
    note_values(found, components.cyclic.as_slice(), block.declarations)
}

/// As many nodes as `u32` has numbers.
pub(crate) const MOST_NODES: usize = 4_294_967_296;

#[tactic(auto, using(hdc_written::proofs::ExpressionMirror::mirrored_expressions, hdc_written::proofs::FirstBreach::in_order))]
fn note_values(found: &mut Found, cyclic: &[bool], block: Option<&Block>) -> Result<(), AllocError>
    ensures { OnOk result (found.new ≡ all_noted found.old (spec.needy_values cyclic.now 0 (declarations_of block.entry))) }
{
    match block {
        Some(block) => {
            note_value(found, is_set(cyclic, 0), block.first.get());
            note_next_values(found, cyclic, block.rest.as_slice())
        }
        None => Ok(()),
    }
}

// The declarations behind the first one.
fn note_next_values(
    found: &mut Found,
    cyclic: &[bool],
    parts: &[NextDecl],
) -> Result<(), AllocError>
    ensures { OnOk result (found.new ≡ all_noted found.old (spec.needy_values cyclic.now 1 (mirror.each_declaration mirror.next_decl_of parts.now))) }
{
    let mut number: u32 = 0;
    for part in parts {
        number = next_number(number)?;
        note_value(found, is_set(cyclic, number), &part.decl);
    }
    Ok(())
}

/// What stands at a number, or false.
pub(crate) fn is_set(cyclic: &[bool], number: u32) -> bool
    ensures { result ≡ slice_index_or cyclic.now number false }
{
    if (number as usize) < cyclic.len() {
        cyclic[number as usize]
    } else {
        false
    }
}

// A declaration that is a value, if it needs itself.
fn note_value(found: &mut Found, needs_itself: bool, part: &Decl)
    ensures { found.new ≡ all_noted found.old (spec.needy_value needs_itself (value_at (mirror.decl_of part.now))) }
{
    match first_of_value(part) {
        Some(at) => {
            if needs_itself {
                found.note(11, at);
            }
        }
        None => {}
    }
}

/// The first token of a declaration that is a value.
#[tactic(auto, using(hdc_written::proofs::ExpressionMirror::mirrored_expressions))]
pub(crate) fn first_of_value(part: &Decl) -> Option<At>
    ensures { result ≡ value_at (mirror.decl_of part.now) }
{
    match part {
        Decl::Empty => None,
        Decl::Signature(_var, _rest, _at, _signature) => None,
        Decl::Equation(head, _rhs) => first_of_plain(head),
        Decl::Binding(pat, _rhs) => Some(first_of_pat(pat)),
    }
}

// The first token of what an equation defines, if it has no parameters.
fn first_of_plain(head: &Head) -> Option<At>
    ensures { result ≡ spec.plain_at (mirror.first_of_head head.now) (mirror.head_patterns head.now) }
{
    match head {
        Head::Prefix(_var, params) => plain(first_of_head(head), params.as_slice()),
        Head::Infix(_left, _op, _right) => None,
        Head::Paren(_open_at, _left, _op, _right, _close_at, _first, _rest) => None,
    }
}

fn plain(at: At, params: &[Apat]) -> Option<At>
    ensures { result ≡ spec.plain_at at (mirror.each_pattern mirror.apat_of params.now) }
{
    if params.len() == 0 { Some(at) } else { None }
}
