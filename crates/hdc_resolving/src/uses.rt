//! Names where they are used.

ghost use Rattle.std.specs.Prelude.{◌≡◌, ◌++◌, IfOk, OnOk};
ghost use Rattle.hdc_resolving.specs.Locals as resolving;
ghost use Rattle.hdc_resolving.specs.Uses as spec;
ghost use Rattle.hdc_written.specs.Mirror as mirror;

use crate::known::Known;
use crate::literals::cons;
use crate::walk::Walk;
use hdc_base::{At, SkelKind};
use hdc_resolved::{Degree, Name, Use};
use hdc_tree::{Aexp, Link, Literal, Name as WrittenName, Op, Var};
use hdc_written::{first_of_aexp, first_of_op, op_name, var_name};
use sqlite_items::Items;
use std::alloc::{AllocError, Global};

// A name that stands here, in what begins there.
fn use_at(known: &Known<'_>, first: At, at: At, name: Name) -> Use
    ensures { result ≡ spec.use_at known.now.src first at name }
{
    Use {
        first: known.place(first),
        place: known.place(at),
        name,
    }
}

/// A constructor of this name.
pub fn constructor_use(known: &Known<'_>, first: At, name: &WrittenName) -> Use
    ensures { result ≡ spec.use_at known.now.src first name.now.at (spec.named_constructor known.now name.now) }
{
    let what = match known.constructors.find(name.text.as_slice()) {
        Some(constructor) => Name::Con(constructor),
        None => Name::Unknown,
    };
    use_at(known, first, name.at, what)
}

/// The constructor `:`, which stands here, in what begins there.
pub fn cons_use(known: &Known<'_>, first: At, at: At) -> Use
    ensures { result ≡ spec.cons_use known.now first at }
{
    use_at(known, first, at, Name::Con(cons()))
}

// What a name stands for.
fn named(walk: &Walk<'_>, name: &WrittenName) -> Name
    ensures { result ≡ spec.named walk.now.names name.now }
{
    match walk.names.find(name.text.as_slice()) {
        Some(what) => what,
        None => Name::Unknown,
    }
}

/// What a name in a signature stands for.
pub fn signed_name(walk: &Walk<'_>, name: &WrittenName) -> Name
    ensures { result ≡ spec.named walk.now.names name.now }
{
    named(walk, name)
}

/// An operator between its operands.
pub fn operator_use(known: &Known<'_>, walk: &Walk<'_>, op: &Op) -> Use
    ensures { result ≡ spec.operator_use op.now known.now walk.now.names }
{
    match op {
        Op::Var(var) => {
            let name = op_name(var);
            use_at(known, first_of_op(op), name.at, named(walk, name))
        }
        Op::Cons(at) => cons_use(known, *at, *at),
        Op::Con(open_at, name, _close_at) => constructor_use(known, *open_at, name),
    }
}

// The degree that the first argument of a skeleton is.
#[tactic(auto, using(hdc_written::proofs::ExpressionMirror::mirrored_expressions))]
fn degree_of(known: &Known<'_>, args: &[Aexp]) -> Degree
    ensures { result ≡ spec.first_degree known.now.src (mirror.each_operand mirror.aexp_of args.now) }
{
    match args.first() {
        Some(arg) => argument_degree(known, arg),
        None => Degree::Missing,
    }
}

#[tactic(auto, using(hdc_written::proofs::ExpressionMirror::mirrored_expressions))]
fn argument_degree(known: &Known<'_>, arg: &Aexp) -> Degree
    ensures { result ≡ spec.operand_degree known.now.src (mirror.aexp_of arg.now) }
{
    match arg {
        Aexp::Literal(at, literal) => literal_degree(known, *at, literal),
        Aexp::Var(_)
        | Aexp::Con(_)
        | Aexp::Unit(_, _)
        | Aexp::Nil(_, _)
        | Aexp::Cons(_, _, _)
        | Aexp::Paren(_, _, _)
        | Aexp::Tuple(_, _, _, _)
        | Aexp::List(_)
        | Aexp::LeftSection(_, _, _, _)
        | Aexp::RightSection(_, _, _, _) => Degree::Other(known.place(first_of_aexp(arg))),
    }
}

fn literal_degree(known: &Known<'_>, at: At, literal: &Literal) -> Degree
    ensures { result ≡ spec.literal_degree known.now.src at literal.now }
{
    match literal {
        Literal::Num(number) => Degree::Number(*number, known.place(at)),
        Literal::Chr(_code) => Degree::Other(known.place(at)),
        Literal::Str(_codes) => Degree::Other(known.place(at)),
    }
}

// A name with these arguments behind it.
#[tactic(auto, using(hdc_written::proofs::ExpressionMirror::mirrored_expressions))]
fn with_arguments(known: &Known<'_>, name: Name, args: &[Aexp]) -> Name
    ensures { result ≡ spec.with_arguments name known.now.src (mirror.each_operand mirror.aexp_of args.now) }
{
    match name {
        Name::Skeleton(kind, _degree) => match kind {
            SkelKind::Gen => Name::Skeleton(kind, Degree::Unneeded),
            SkelKind::Deg | SkelKind::Depth | SkelKind::Elem => {
                Name::Skeleton(kind, degree_of(known, args))
            }
        },
        other => other,
    }
}

/// A variable with these arguments behind it.
#[tactic(auto, using(hdc_written::proofs::ExpressionMirror::mirrored_expressions))]
pub fn variable_use(known: &Known<'_>, walk: &Walk<'_>, var: &Var, args: &[Aexp]) -> Use
    ensures { result ≡ spec.variable_use var.now (mirror.each_operand mirror.aexp_of args.now) known.now walk.now.names }
{
    let name = var_name(var);
    let what = with_arguments(known, named(walk, name), args);
    use_at(known, first_of_variable(var), name.at, what)
}

// The first token of a variable.
fn first_of_variable(var: &Var) -> At
    ensures { result ≡ spec.first_of_variable var.now }
{
    match var {
        Var::Plain(name) => name.at,
        Var::Operator(open_at, _name, _close_at) => *open_at,
    }
}

/// Whether the first argument of a name is its degree.
pub fn takes_degree(name: Name) -> bool
    ensures { result ≡ spec.takes_degree name }
{
    matches!(name, Name::Skeleton(_, Degree::Number(_, _)))
}

/// The operators of a chain.
#[tactic(auto, using(hdc_written::proofs::ExpressionMirror::mirrored_expressions))]
pub fn operator_uses(
    alloc: Global,
    known: &Known<'_>,
    walk: &Walk<'_>,
    links: &[Link],
) -> Result<Items<Use>, AllocError>
    ensures { IfOk result (λ uses. uses ≡ resolving.link_uses (mirror.each_link mirror.link_of links.now) known.now walk.now.names) }
{
    let mut uses = Items::new(alloc);
    add_uses(known, walk, links, &mut uses)?;
    Ok(uses)
}

#[tactic(auto, using(hdc_written::proofs::ExpressionMirror::mirrored_expressions))]
fn add_uses(
    known: &Known<'_>,
    walk: &Walk<'_>,
    links: &[Link],
    uses: &mut Items<Use>,
) -> Result<(), AllocError>
    ensures { OnOk result (uses.new ≡ uses.old ++ resolving.link_uses (mirror.each_link mirror.link_of links.now) known.now walk.now.names) }
{
    for link in links {
        uses.push(operator_use(known, walk, &link.op))?;
    }
    Ok(())
}
