//! How the operators of a text bind.

ghost use Rattle.std.specs.Prelude.{◌≡◌, [], ◌∷◌, ◌++◌, OnOk, IfOk};
ghost use Rattle.hdc_tree.specs.declared.program.Top.TheVariants as top;
ghost use Rattle.hdc_names.specs.Fixities as spec;
ghost use Rattle.hdc_written.specs.Mirror as mirror;
ghost use Rattle.hdc_written.specs.Scopes.{standing_for};
ghost use Rattle.hdc_names.specs.Sites as sites;

use crate::fixity::Fixity;
use hdc_base::At;
use hdc_tree::{Associativity, Fixity as FixityDeclaration, Name, NextTop, Op, Top, Tree};
use hdc_written::{Scope, head_name, op_name};
use std::alloc::{AllocError, Global};

/// An operator without a declaration, and so one that is bound locally, is infixl 9.
pub fn undeclared() -> Fixity
    ensures { result ≡ spec.undeclared }
{
    Fixity {
        precedence: 9,
        associativity: Associativity::Left,
    }
}

/// How an operator binds in a scope.
pub(crate) fn fixity_in(scope: &Scope<Fixity>, op: &Op) -> Fixity
    ensures { result ≡ spec.fixity_in scope.now op.now }
{
    match op {
        Op::Var(var) => fixity_of(scope, op_name(var)),
        Op::Cons(_at) => Fixity {
            precedence: 5,
            associativity: Associativity::Right,
        },
        Op::Con(_open_at, _name, _close_at) => undeclared(),
    }
}

fn fixity_of(scope: &Scope<Fixity>, name: &Name) -> Fixity
    ensures { result ≡ spec.or_undeclared (standing_for name.now.text scope.now) }
{
    match scope.find(name.text.as_slice()) {
        Some(fixity) => fixity,
        None => undeclared(),
    }
}

/// Where an operator stands.
pub(crate) fn place_of_op(op: &Op) -> At
    ensures { result ≡ sites.place_of_op op.now }
{
    match op {
        Op::Var(var) => op_name(var).at,
        Op::Cons(at) => *at,
        Op::Con(_open_at, name, _close_at) => name.at,
    }
}

/// The operators of the prelude bind before all that are bound so far. Memory may be wanting.
pub fn bind_standard(scope: &mut Scope<Fixity>) -> Result<(), AllocError>
    ensures { OnOk result (scope.new ≡ spec.standard ++ scope.old) }
{
    bind_rows(scope, &STANDARD)
}

const STANDARD: [(&[u8], u64, Associativity); 19] = [
    (b".", 9, Associativity::Right),
    (b"!!", 9, Associativity::Left),
    (b"*", 7, Associativity::Left),
    (b"div", 7, Associativity::Left),
    (b"mod", 7, Associativity::Left),
    (b"quot", 7, Associativity::Left),
    (b"rem", 7, Associativity::Left),
    (b"+", 6, Associativity::Left),
    (b"-", 6, Associativity::Left),
    (b"++", 5, Associativity::Right),
    (b"==", 4, Associativity::Neither),
    (b"/=", 4, Associativity::Neither),
    (b"<", 4, Associativity::Neither),
    (b"<=", 4, Associativity::Neither),
    (b">", 4, Associativity::Neither),
    (b">=", 4, Associativity::Neither),
    (b"&&", 3, Associativity::Right),
    (b"||", 2, Associativity::Right),
    (b"$", 0, Associativity::Right),
];

fn bind_rows(
    scope: &mut Scope<Fixity>,
    rows: &'static [(&'static [u8], u64, Associativity)],
) -> Result<(), AllocError>
    ensures { OnOk result (scope.new ≡ spec.each_row rows.now ++ scope.old) }
{
    let mut count = rows.len();
    while count > 0 {
        count -= 1;
        let (name, precedence, associativity) = rows[count];
        bind_row(scope, name, precedence, associativity)?;
    }
    Ok(())
}

fn bind_row<'t>(
    scope: &mut Scope<'t, Fixity>,
    name: &'t [u8],
    precedence: u64,
    associativity: Associativity,
) -> Result<(), AllocError>
    ensures { OnOk result (scope.new ≡ record { name = name.now; what = spec.binds precedence associativity } ∷ scope.old) }
{
    scope.bind(
        name,
        Fixity {
            precedence,
            associativity,
        },
    )
}

/// How the operators that are in scope in a program bind. Memory may be wanting.
pub fn program_scope<'t>(alloc: Global, program: &'t Tree) -> Result<Scope<'t, Fixity>, AllocError>
    ensures { IfOk result (λ scope. scope ≡ spec.program_scope (mirror.tops_of program.now)) }
{
    let mut declarations = Scope::new(alloc);
    declare_tops(&mut declarations, program.rest.as_slice())?;
    declare_top(&mut declarations, program.first.get())?;
    let mut scope = Scope::new(alloc);
    bind_standard(&mut scope)?;
    bind_tops(&mut scope, &declarations, program.rest.as_slice())?;
    bind_top(&mut scope, &declarations, program.first.get())?;
    Ok(scope)
}

fn declare_tops<'t>(
    declarations: &mut Scope<'t, Fixity>,
    tops: &'t [NextTop],
) -> Result<(), AllocError>
    ensures { OnOk result (declarations.new ≡ spec.all_declared (mirror.tops_behind tops.now) ++ declarations.old) }
{
    let mut count = tops.len();
    while count > 0 {
        count -= 1;
        declare_top(declarations, &tops[count].top)?;
    }
    Ok(())
}

fn declare_top<'t>(declarations: &mut Scope<'t, Fixity>, part: &'t Top) -> Result<(), AllocError>
    ensures { OnOk result (declarations.new ≡ spec.declared part.now ++ declarations.old) }
{
    match part {
        Top::Fixity(fixity) => declare(declarations, fixity),
        Top::Empty => Ok(()),
        Top::Data(_data) => Ok(()),
        Top::Synonym(_synonym) => Ok(()),
        Top::Signature(_first, _rest, _at, _signature) => Ok(()),
        Top::Equation(_head, _rhs) => Ok(()),
    }
}

fn declare<'t>(
    declarations: &mut Scope<'t, Fixity>,
    declaration: &'t FixityDeclaration,
) -> Result<(), AllocError>
    ensures { OnOk result (declarations.new ≡ spec.declared (top.Fixity declaration.now) ++ declarations.old) }
{
    let fixity = Fixity {
        precedence: declaration.number,
        associativity: declaration.associativity,
    };
    let rest = declaration.rest.as_slice();
    let mut count = rest.len();
    while count > 0 {
        count -= 1;
        bind_as(declarations, op_name(&rest[count].op), fixity)?;
    }
    bind_as(declarations, op_name(&declaration.first), fixity)
}

fn bind_tops<'t>(
    scope: &mut Scope<'t, Fixity>,
    declarations: &Scope<Fixity>,
    tops: &'t [NextTop],
) -> Result<(), AllocError>
    ensures { OnOk result (scope.new ≡ spec.each_own declarations.now (mirror.tops_behind tops.now) ++ scope.old) }
{
    let mut count = tops.len();
    while count > 0 {
        count -= 1;
        bind_top(scope, declarations, &tops[count].top)?;
    }
    Ok(())
}

fn bind_top<'t>(
    scope: &mut Scope<'t, Fixity>,
    declarations: &Scope<Fixity>,
    part: &'t Top,
) -> Result<(), AllocError>
    ensures { OnOk result (scope.new ≡ spec.own declarations.now part.now ++ scope.old) }
{
    match part {
        Top::Equation(head, _rhs) => {
            let name = head_name(head);
            bind_as(scope, name, fixity_of(declarations, name))
        }
        Top::Empty => Ok(()),
        Top::Data(_data) => Ok(()),
        Top::Synonym(_synonym) => Ok(()),
        Top::Fixity(_fixity) => Ok(()),
        Top::Signature(_first, _rest, _at, _signature) => Ok(()),
    }
}

fn bind_as<'t>(
    scope: &mut Scope<'t, Fixity>,
    name: &'t Name,
    fixity: Fixity,
) -> Result<(), AllocError>
    ensures { OnOk result (scope.new ≡ record { name = name.now.text; what = fixity } ∷ scope.old) }
{
    scope.bind(name.text.as_slice(), fixity)
}
