//! What is known at the top of a text.

ghost use Rattle.std.specs.Prelude.{◌≡◌, ◌∷◌, ◌++◌, OnOk, IfOk};
ghost use Rattle.hdc_written.specs.Mirror as mirror;
ghost use Rattle.hdc_rules.specs.Known as spec;

use hdc_tree::{BarConstr, Constr, Data, NextTop, Top, Tree};
use hdc_written::{Scope, head_name};
use std::alloc::{AllocError, Global};

/// The constructors with the numbers of their fields, the types with those of their parameters, and the values of
/// the prelude, which ranges and comprehensions use.
#[derive(Drop)]
pub(crate) struct Known<'t> {
    pub(crate) constructors: Scope<'t, usize>,
    pub(crate) types: Scope<'t, usize>,
    pub(crate) library: Scope<'t, ()>,
}

/// What is known in a prelude.
pub(crate) fn known_in_prelude<'t>(
    alloc: Global,
    prelude: &'t Tree,
) -> Result<Known<'t>, AllocError>
    ensures { IfOk result (λ known. known ≡ spec.prelude_known (mirror.tops_of prelude.now)) }
{
    let mut constructors = Scope::new(alloc);
    bind_built_in_constructors(&mut constructors)?;
    bind_constructors(&mut constructors, prelude)?;
    let types = types_in_prelude(alloc, prelude)?;
    let mut library = Scope::new(alloc);
    bind_values(&mut library, prelude)?;
    Ok(Known {
        constructors,
        types,
        library,
    })
}

/// The types that are known in a prelude, with the numbers of their parameters.
///
/// # Errors
///
/// `AllocError` where memory is short.
pub fn types_in_prelude<'t>(
    alloc: Global,
    prelude: &'t Tree,
) -> Result<Scope<'t, usize>, AllocError>
    ensures { IfOk result (λ types. types ≡ (spec.prelude_known (mirror.tops_of prelude.now)).types) }
{
    let mut types = Scope::new(alloc);
    bind_built_in_types(&mut types)?;
    bind_types(&mut types, prelude)?;
    Ok(types)
}

/// The types that are known in a program behind a prelude, with the numbers of their parameters.
///
/// # Errors
///
/// `AllocError` where memory is short.
pub fn types_in_program<'t>(
    alloc: Global,
    prelude: &'t Tree,
    program: &'t Tree,
) -> Result<Scope<'t, usize>, AllocError>
    ensures { IfOk result (λ types. types ≡ (spec.program_known (mirror.tops_of prelude.now) (mirror.tops_of program.now)).types) }
{
    let mut types = types_in_prelude(alloc, prelude)?;
    bind_types(&mut types, program)?;
    Ok(types)
}

/// What is known in a program behind a prelude.
pub(crate) fn known_in_program<'t>(
    alloc: Global,
    prelude: &'t Tree,
    program: &'t Tree,
) -> Result<Known<'t>, AllocError>
    ensures { IfOk result (λ known. known ≡ spec.program_known (mirror.tops_of prelude.now) (mirror.tops_of program.now)) }
{
    let mut known = known_in_prelude(alloc, prelude)?;
    bind_constructors(&mut known.constructors, program)?;
    bind_types(&mut known.types, program)?;
    Ok(known)
}

/// The values that are in scope in a prelude.
pub(crate) fn values_in_prelude<'t>(
    alloc: Global,
    prelude: &'t Tree,
) -> Result<Scope<'t, ()>, AllocError>
    ensures { IfOk result (λ values. values ≡ spec.prelude_values (mirror.tops_of prelude.now)) }
{
    let mut values = Scope::new(alloc);
    bind_built_in_values(&mut values)?;
    bind_values(&mut values, prelude)?;
    Ok(values)
}

/// The values that are in scope in a program behind a prelude.
pub(crate) fn values_in_program<'t>(
    alloc: Global,
    prelude: &'t Tree,
    program: &'t Tree,
) -> Result<Scope<'t, ()>, AllocError>
    ensures { IfOk result (λ values. values ≡ spec.program_values (mirror.tops_of prelude.now) (mirror.tops_of program.now)) }
{
    let mut values = values_in_prelude(alloc, prelude)?;
    bind_values(&mut values, program)?;
    Ok(values)
}

const BUILT_IN_VALUES: [&[u8]; 23] = [
    b"+", b"-", b"*", b"div", b"mod", b"quot", b"rem", b"negate", b"==", b"/=", b"<", b"<=", b">",
    b">=", b"&&", b"||", b"ord", b"chr", b"error", b"dcGen", b"dcDeg", b"dcDepth", b"dcElem",
];

fn bind_built_in_values(scope: &mut Scope<()>) -> Result<(), AllocError>
    ensures { OnOk result (scope.new ≡ spec.built_in_values ++ scope.old) }
{
    bind_names(scope, (), &BUILT_IN_VALUES)
}

const BUILT_IN_CONSTRUCTORS: [&[u8]; 2] = [b"False", b"True"];

fn bind_built_in_constructors(scope: &mut Scope<usize>) -> Result<(), AllocError>
    ensures { OnOk result (scope.new ≡ spec.built_in_constructors ++ scope.old) }
{
    bind_names(scope, 0, &BUILT_IN_CONSTRUCTORS)
}

const BUILT_IN_TYPES: [&[u8]; 3] = [b"Int", b"Char", b"Bool"];

fn bind_built_in_types(scope: &mut Scope<usize>) -> Result<(), AllocError>
    ensures { OnOk result (scope.new ≡ spec.built_in_types ++ scope.old) }
{
    bind_names(scope, 0, &BUILT_IN_TYPES)
}

// Each of these names is bound to one thing.
fn bind_names<T: Copy>(
    scope: &mut Scope<T>,
    what: T,
    names: &'static [&'static [u8]],
) -> Result<(), AllocError>
    ensures { OnOk result (scope.new ≡ spec.each_bound what names.now ++ scope.old) }
{
    let mut count = names.len();
    while count > 0 {
        count -= 1;
        scope.bind(names[count], what)?;
    }
    Ok(())
}

// The values of a text.
fn bind_values<'t>(scope: &mut Scope<'t, ()>, tree: &'t Tree) -> Result<(), AllocError>
    ensures { OnOk result (scope.new ≡ spec.values_of (mirror.tops_of tree.now) ++ scope.old) }
{
    bind_next_values(scope, tree.rest.as_slice())?;
    bind_top_values(scope, tree.first.get())
}

fn bind_next_values<'t>(scope: &mut Scope<'t, ()>, tops: &'t [NextTop]) -> Result<(), AllocError>
    ensures { OnOk result (scope.new ≡ spec.values_of (mirror.tops_behind tops.now) ++ scope.old) }
{
    let mut count = tops.len();
    while count > 0 {
        count -= 1;
        bind_top_values(scope, &tops[count].top)?;
    }
    Ok(())
}

fn bind_top_values<'t>(scope: &mut Scope<'t, ()>, part: &'t Top) -> Result<(), AllocError>
    ensures { OnOk result (scope.new ≡ spec.top_values part.now ++ scope.old) }
{
    match part {
        Top::Equation(head, _rhs) => scope.bind(head_name(head).text.as_slice(), ()),
        Top::Empty => Ok(()),
        Top::Data(_data) => Ok(()),
        Top::Synonym(_synonym) => Ok(()),
        Top::Fixity(_fixity) => Ok(()),
        Top::Signature(_first, _rest, _at, _signature) => Ok(()),
    }
}

// The types of a text.
fn bind_types<'t>(scope: &mut Scope<'t, usize>, tree: &'t Tree) -> Result<(), AllocError>
    ensures { OnOk result (scope.new ≡ spec.types_of (mirror.tops_of tree.now) ++ scope.old) }
{
    bind_next_types(scope, tree.rest.as_slice())?;
    bind_top_types(scope, tree.first.get())
}

fn bind_next_types<'t>(scope: &mut Scope<'t, usize>, tops: &'t [NextTop]) -> Result<(), AllocError>
    ensures { OnOk result (scope.new ≡ spec.types_of (mirror.tops_behind tops.now) ++ scope.old) }
{
    let mut count = tops.len();
    while count > 0 {
        count -= 1;
        bind_top_types(scope, &tops[count].top)?;
    }
    Ok(())
}

fn bind_top_types<'t>(scope: &mut Scope<'t, usize>, part: &'t Top) -> Result<(), AllocError>
    ensures { OnOk result (scope.new ≡ spec.top_types part.now ++ scope.old) }
{
    match part {
        Top::Data(declared) => scope.bind(declared.name.text.as_slice(), declared.params.len()),
        Top::Synonym(synonym) => scope.bind(synonym.name.text.as_slice(), synonym.params.len()),
        Top::Empty => Ok(()),
        Top::Fixity(_fixity) => Ok(()),
        Top::Signature(_first, _rest, _at, _signature) => Ok(()),
        Top::Equation(_head, _rhs) => Ok(()),
    }
}

// The constructors of a text.
fn bind_constructors<'t>(scope: &mut Scope<'t, usize>, tree: &'t Tree) -> Result<(), AllocError>
    ensures { OnOk result (scope.new ≡ spec.constructors_of (mirror.tops_of tree.now) ++ scope.old) }
{
    bind_next_constructors(scope, tree.rest.as_slice())?;
    bind_top_constructors(scope, tree.first.get())
}

fn bind_next_constructors<'t>(
    scope: &mut Scope<'t, usize>,
    tops: &'t [NextTop],
) -> Result<(), AllocError>
    ensures { OnOk result (scope.new ≡ spec.constructors_of (mirror.tops_behind tops.now) ++ scope.old) }
{
    let mut count = tops.len();
    while count > 0 {
        count -= 1;
        bind_top_constructors(scope, &tops[count].top)?;
    }
    Ok(())
}

fn bind_top_constructors<'t>(scope: &mut Scope<'t, usize>, part: &'t Top) -> Result<(), AllocError>
    ensures { OnOk result (scope.new ≡ spec.top_constructors part.now ++ scope.old) }
{
    match part {
        Top::Data(declared) => bind_data_constructors(scope, declared),
        Top::Empty => Ok(()),
        Top::Synonym(_synonym) => Ok(()),
        Top::Fixity(_fixity) => Ok(()),
        Top::Signature(_first, _rest, _at, _signature) => Ok(()),
        Top::Equation(_head, _rhs) => Ok(()),
    }
}

fn bind_data_constructors<'t>(
    scope: &mut Scope<'t, usize>,
    declared: &'t Data,
) -> Result<(), AllocError>
    ensures { OnOk result (scope.new ≡ spec.data_constructors declared.now ++ scope.old) }
{
    bind_next_data_constructors(scope, declared.rest.as_slice())?;
    bind_constructor(scope, &declared.first)
}

fn bind_next_data_constructors<'t>(
    scope: &mut Scope<'t, usize>,
    parts: &'t [BarConstr],
) -> Result<(), AllocError>
    ensures { OnOk result (scope.new ≡ spec.constructors_behind parts.now ++ scope.old) }
{
    let mut count = parts.len();
    while count > 0 {
        count -= 1;
        bind_constructor(scope, &parts[count].constr)?;
    }
    Ok(())
}

fn bind_constructor<'t>(scope: &mut Scope<'t, usize>, part: &'t Constr) -> Result<(), AllocError>
    ensures { OnOk result (scope.new ≡ spec.constructor_of part.now ∷ scope.old) }
{
    scope.bind(part.name.text.as_slice(), part.fields.len())
}
