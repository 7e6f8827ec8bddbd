//! The types of signatures.

ghost use Rattle.std.specs.Prelude.{◌≡◌, IfOk};
ghost use Rattle.hdc_resolved.specs.Mirror.{type_tree_of};
ghost use Rattle.hdc_written.specs.TypeMirror.{type_exp_of};
ghost use Rattle.hdc_type_names.specs.Variables.{signature_type};

use crate::meeting::meet_type;
use crate::resolve::resolve_type;
use crate::type_name::TypeName;
use hdc_resolved::Type;
use hdc_tree::TypeExp;
use hdc_written::Scope;
use std::alloc::{AllocError, Global};

/// The type of a signature, by what the names of types stand for; its variables are numbered from 0 in the order in which
/// they are first met.
///
/// # Errors
///
/// `AllocError` where memory is short.
pub fn resolve_signature_type(
    alloc: Global,
    names: &Scope<'_, TypeName>,
    part: &TypeExp,
) -> Result<Type, AllocError>
    ensures { IfOk result (λ t. type_tree_of t ≡ signature_type names.now (type_exp_of part.now)) }
{
    let mut variables = Scope::new(alloc);
    meet_type(&mut variables, part)?;
    resolve_type(part, alloc, names, &variables)
}
