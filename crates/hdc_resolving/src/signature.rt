//! Signatures.

ghost use Rattle.std.specs.Prelude.{◌≡◌, ◌++◌, IfOk, OnOk};
ghost use Rattle.hdc_resolved.specs.Mirror as made;
ghost use Rattle.hdc_resolving.specs.Locals as spec;
ghost use Rattle.hdc_written.specs.Mirror as mirror;
ghost use Rattle.hdc_written.specs.TypeMirror as types;

use crate::known::Known;
use crate::uses::signed_name;
use crate::walk::Walk;
use hdc_resolved::{Signature, SignedName};
use hdc_tree::{CommaVar, TypeExp, Var};
use hdc_type_names::resolve_signature_type;
use hdc_written::var_name;
use sqlite_items::Items;
use std::alloc::{AllocError, Global};

/// Names and their type.
pub fn resolve_signature(
    alloc: Global,
    known: &Known<'_>,
    walk: &Walk<'_>,
    first: &Var,
    rest: &[CommaVar],
    part: &TypeExp,
) -> Result<Signature, AllocError>
    ensures { IfOk result (λ s. made.signed_of s ≡ spec.resolved_signature known.now walk.now.names (mirror.signed_names first.now rest.now) (types.type_exp_of part.now)) }
{
    let mut names = Items::new(alloc);
    names.push(signed(known, walk, first))?;
    push_names(known, walk, rest, &mut names)?;
    let ty = resolve_signature_type(alloc, &known.types, part)?;
    Ok(Signature { names, ty })
}

fn signed(known: &Known<'_>, walk: &Walk<'_>, var: &Var) -> SignedName
    ensures { result ≡ spec.signed_name known.now walk.now.names (mirror.var_name var.now) }
{
    let name = var_name(var);
    SignedName {
        place: known.place(name.at),
        name: signed_name(walk, name),
    }
}

fn push_names(
    known: &Known<'_>,
    walk: &Walk<'_>,
    parts: &[CommaVar],
    names: &mut Items<SignedName>,
) -> Result<(), AllocError>
    ensures { OnOk result (names.new ≡ names.old ++ spec.signed_names known.now walk.now.names (mirror.names_behind parts.now)) }
{
    for part in parts {
        names.push(signed(known, walk, &part.var))?;
    }
    Ok(())
}
