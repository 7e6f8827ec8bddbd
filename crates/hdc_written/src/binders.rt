//! The names that patterns and declarations bind.

ghost use Rattle.std.specs.Prelude.{◌≡◌, [], ◌∷◌, OnOk};
ghost use Rattle.hdc_written.specs.Mirror as mirror;
ghost use Rattle.hdc_written.specs.Scopes.{bound_to};
ghost use Rattle.hdc_written.specs.Written as written;

use crate::name::head_name;
use crate::scope::Scope;
use hdc_tree::{Apat, Block, CommaPat, ConsPat, Decl, Head, LeftPat, Name, NextDecl, Pat, Where};
use std::alloc::AllocError;

#[cycle(bind_patterns)]
#[tactic(auto, using(crate::proofs::Scoping::in_order, crate::proofs::PatternMirror::mirrored_patterns))]
fn bind_apat<'t, T: Copy>(
    scope: &mut Scope<'t, T>,
    what: T,
    part: &'t Apat,
) -> Result<(), AllocError>
    ensures { OnOk result (scope.new ≡ bound_to what (written.variables (mirror.apat_of part.now)) scope.old) }
{
    match part {
        Apat::Var(name) => bind_name(scope, what, name),
        Apat::As(name, _at, inner) => {
            bind_name(scope, what, name)?;
            bind_apat(scope, what, inner.get())
        }
        Apat::Wildcard(_at) => Ok(()),
        Apat::Con(_name) => Ok(()),
        Apat::Literal(_at, _literal) => Ok(()),
        Apat::Unit(_open_at, _close_at) => Ok(()),
        Apat::Nil(_open_at, _close_at) => Ok(()),
        Apat::Paren(_open_at, inner, _close_at) => bind_pat(scope, what, inner.get()),
        Apat::Tuple(_open_at, first, rest, _close_at) => {
            bind_pat(scope, what, first.get())?;
            bind_comma_pats(scope, what, rest.as_slice())
        }
        Apat::List(_open_at, first, rest, _close_at) => {
            bind_pat(scope, what, first.get())?;
            bind_comma_pats(scope, what, rest.as_slice())
        }
    }
}

#[cycle(bind_patterns)]
#[tactic(auto, using(crate::proofs::Scoping::in_order, crate::proofs::PatternMirror::mirrored_patterns))]
fn bind_left_pat<'t, T: Copy>(
    scope: &mut Scope<'t, T>,
    what: T,
    part: &'t LeftPat,
) -> Result<(), AllocError>
    ensures { OnOk result (scope.new ≡ bound_to what (written.variables (mirror.left_pat_of part.now)) scope.old) }
{
    match part {
        LeftPat::Plain(inner) => bind_apat(scope, what, inner),
        LeftPat::Applied(_name, first, rest) => {
            bind_apat(scope, what, first)?;
            bind_apats(scope, what, rest.as_slice())
        }
        LeftPat::Negative(_at, _number_at, _number) => Ok(()),
    }
}

/// The variables of a pattern are bound.
#[cycle(bind_patterns)]
#[tactic(auto, using(crate::proofs::Scoping::in_order, crate::proofs::PatternMirror::mirrored_patterns))]
pub fn bind_pat<'t, T: Copy>(
    scope: &mut Scope<'t, T>,
    what: T,
    part: &'t Pat,
) -> Result<(), AllocError>
    ensures { OnOk result (scope.new ≡ bound_to what (written.variables (mirror.pat_of part.now)) scope.old) }
{
    bind_left_pat(scope, what, &part.first)?;
    bind_cons_pats(scope, what, part.rest.as_slice())
}

#[cycle(bind_patterns)]
#[tactic(auto, using(crate::proofs::Scoping::in_order, crate::proofs::PatternMirror::mirrored_patterns))]
fn bind_apats<'t, T: Copy>(
    scope: &mut Scope<'t, T>,
    what: T,
    parts: &'t [Apat],
) -> Result<(), AllocError>
    ensures { OnOk result (scope.new ≡ bound_to what (written.all_variables (mirror.each_pattern mirror.apat_of parts.now)) scope.old) }
{
    for part in parts {
        bind_apat(scope, what, part)?;
    }
    Ok(())
}

#[cycle(bind_patterns)]
#[tactic(auto, using(crate::proofs::Scoping::in_order, crate::proofs::PatternMirror::mirrored_patterns))]
fn bind_comma_pats<'t, T: Copy>(
    scope: &mut Scope<'t, T>,
    what: T,
    parts: &'t [CommaPat],
) -> Result<(), AllocError>
    ensures { OnOk result (scope.new ≡ bound_to what (written.all_variables (mirror.each_pattern mirror.comma_pat_of parts.now)) scope.old) }
{
    for part in parts {
        bind_pat(scope, what, &part.pat)?;
    }
    Ok(())
}

#[cycle(bind_patterns)]
#[tactic(auto, using(crate::proofs::Scoping::in_order, crate::proofs::PatternMirror::mirrored_patterns))]
fn bind_cons_pats<'t, T: Copy>(
    scope: &mut Scope<'t, T>,
    what: T,
    parts: &'t [ConsPat],
) -> Result<(), AllocError>
    ensures { OnOk result (scope.new ≡ bound_to what (written.all_variables (mirror.each_pattern mirror.cons_pat_of parts.now)) scope.old) }
{
    for part in parts {
        bind_left_pat(scope, what, &part.pat)?;
    }
    Ok(())
}

/// The variables of patterns are bound.
#[tactic(auto, using(crate::proofs::Scoping::in_order, crate::proofs::PatternMirror::mirrored_patterns))]
pub fn bind_params<'t, T: Copy>(
    scope: &mut Scope<'t, T>,
    what: T,
    first: &'t Apat,
    rest: &'t [Apat],
) -> Result<(), AllocError>
    ensures { OnOk result (scope.new ≡ bound_to what (written.all_variables (written.pattern (mirror.apat_of first.now) (mirror.each_pattern mirror.apat_of rest.now))) scope.old) }
{
    bind_apat(scope, what, first)?;
    bind_apats(scope, what, rest)
}

/// The variables of the parameters of an equation are bound.
#[tactic(auto, using(crate::proofs::Scoping::in_order, crate::proofs::PatternMirror::mirrored_patterns))]
pub fn bind_head<'t, T: Copy>(
    scope: &mut Scope<'t, T>,
    what: T,
    head: &'t Head,
) -> Result<(), AllocError>
    ensures { OnOk result (scope.new ≡ bound_to what (written.all_variables (mirror.head_patterns head.now)) scope.old) }
{
    match head {
        Head::Prefix(_var, params) => bind_apats(scope, what, params.as_slice()),
        Head::Infix(left, _op, right) => {
            bind_apat(scope, what, left)?;
            bind_apat(scope, what, right)
        }
        Head::Paren(_open_at, left, _op, right, _close_at, first, rest) => {
            bind_apat(scope, what, left)?;
            bind_apat(scope, what, right)?;
            bind_params(scope, what, first, rest.as_slice())
        }
    }
}

#[tactic(auto, using(crate::proofs::Scoping::in_order, crate::proofs::ExpressionMirror::mirrored_expressions))]
fn bind_decl<'t, T: Copy>(
    scope: &mut Scope<'t, T>,
    what: T,
    part: &'t Decl,
) -> Result<(), AllocError>
    ensures { OnOk result (scope.new ≡ bound_to what (written.bound (mirror.decl_of part.now)) scope.old) }
{
    match part {
        Decl::Empty => Ok(()),
        Decl::Signature(_var, _rest, _at, _signature) => Ok(()),
        Decl::Equation(head, _rhs) => bind_name(scope, what, head_name(head)),
        Decl::Binding(pat, _rhs) => bind_pat(scope, what, pat),
    }
}

#[tactic(auto, using(crate::proofs::Scoping::in_order, crate::proofs::ExpressionMirror::mirrored_expressions))]
fn bind_decls<'t, T: Copy>(
    scope: &mut Scope<'t, T>,
    what: T,
    parts: &'t [NextDecl],
) -> Result<(), AllocError>
    ensures { OnOk result (scope.new ≡ bound_to what (written.all_bound (mirror.each_declaration mirror.next_decl_of parts.now)) scope.old) }
{
    for part in parts {
        bind_decl(scope, what, &part.decl)?;
    }
    Ok(())
}

/// What declarations bind is bound.
#[tactic(auto, using(crate::proofs::Scoping::in_order, crate::proofs::ExpressionMirror::mirrored_expressions))]
pub fn bind_block<'t, T: Copy>(
    scope: &mut Scope<'t, T>,
    what: T,
    part: &'t Block,
) -> Result<(), AllocError>
    ensures { OnOk result (scope.new ≡ bound_to what (written.all_bound (mirror.block_of part.now)) scope.old) }
{
    bind_decl(scope, what, part.first.get())?;
    bind_decls(scope, what, part.rest.as_slice())
}

/// What the declarations behind `where` bind is bound.
#[tactic(auto, using(crate::proofs::Scoping::in_order, crate::proofs::ExpressionMirror::mirrored_expressions))]
pub fn bind_where<'t, T: Copy>(
    scope: &mut Scope<'t, T>,
    what: T,
    part: &'t Where,
) -> Result<(), AllocError>
    ensures { OnOk result (scope.new ≡ bound_to what (written.all_bound (mirror.where_of part.now)) scope.old) }
{
    match part {
        Where::Absent => Ok(()),
        Where::Present(_at, block) => bind_block(scope, what, block),
    }
}

fn bind_name<'t, T: Copy>(
    scope: &mut Scope<'t, T>,
    what: T,
    name: &'t Name,
) -> Result<(), AllocError>
    ensures { OnOk result (scope.new ≡ bound_to what (name.now ∷ []) scope.old) }
{
    scope.bind(name.text.as_slice(), what)
}
