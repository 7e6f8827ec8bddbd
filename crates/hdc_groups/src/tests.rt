//! Small programs, worked out by hand.

use super::group_bindings;
use hdc_base::{At, Place, Src};
use hdc_resolved::{
    Alt, Block, Decl, Exp, Guard, Literal, Member, Name, Numbers, Pat, Quals, Rhs, Use,
};
use sqlite_items::{Boxed, Items};
use std::alloc::{AllocError, Global};
use std::test::Fail;

const NOWHERE: Place = Place {
    src: Src::Program,
    at: At { line: 1, col: 1 },
};

fn used(name: Name) -> Exp {
    Exp::Name(Use {
        first: NOWHERE,
        place: NOWHERE,
        name,
    })
}

fn top(number: u32) -> Exp {
    used(Name::Top(number))
}

fn local(number: u32) -> Exp {
    used(Name::Local(number))
}

fn number(number: i64) -> Exp {
    Exp::Lit(NOWHERE, Literal::Int(number))
}

fn application(alloc: Global, function: Exp, argument: Exp) -> Result<Exp, AllocError> {
    Ok(Exp::App(
        NOWHERE,
        Boxed::new(alloc, function)?,
        Boxed::new(alloc, argument)?,
    ))
}

fn range(alloc: Global, function: Name, from: Exp, to: Exp) -> Result<Exp, AllocError> {
    Ok(Exp::Range(
        NOWHERE,
        function,
        Boxed::new(alloc, from)?,
        Boxed::new(alloc, to)?,
    ))
}

fn block(alloc: Global) -> Block {
    Block {
        members: Items::new(alloc),
        signatures: Items::new(alloc),
        order: Items::new(alloc),
    }
}

fn equations(alloc: Global, rhs: Rhs) -> Result<Items<Alt>, AllocError> {
    let mut equations = Items::new(alloc);
    equations.push(Alt {
        place: NOWHERE,
        pats: Items::new(alloc),
        rhs,
    })?;
    Ok(equations)
}

// A binding without a name, with this right side.
fn binding(alloc: Global, rhs: Rhs) -> Result<Decl, AllocError> {
    Ok(Decl {
        name: Items::new(alloc),
        place: NOWHERE,
        equations: equations(alloc, rhs)?,
    })
}

fn plain(alloc: Global, body: Exp) -> Result<Rhs, AllocError> {
    Ok(Rhs::Plain(Boxed::new(alloc, body)?, block(alloc)))
}

fn group(groups: &Items<Numbers>, index: usize) -> &[u32] {
    match groups.get(index) {
        Some(group) => group.as_slice(),
        None => &[],
    }
}

// 0 = [1 .. 7] by the function 3, 1 = 2 1, 2 = 1 x3, 3 = 7
#[test]
fn least_group_comes_first(rt: HostRuntime) -> Result<(), Fail> {
    let alloc = rt.alloc();
    let mut decls = Items::new(alloc);
    let first = range(alloc, Name::Top(3), top(1), number(7))?;
    decls.push(binding(alloc, plain(alloc, first)?)?)?;
    let second = application(alloc, top(2), top(1))?;
    decls.push(binding(alloc, plain(alloc, second)?)?)?;
    let third = application(alloc, top(1), local(3))?;
    decls.push(binding(alloc, plain(alloc, third)?)?)?;
    decls.push(binding(alloc, plain(alloc, number(7))?)?)?;
    let groups = group_bindings(alloc, decls.as_slice())?;
    assert_eq!(rt; groups.len(), 3);
    assert_eq!(rt; group(&groups, 0), [1, 2].as_slice());
    assert_eq!(rt; group(&groups, 1), [3].as_slice());
    assert_eq!(rt; group(&groups, 2), [0].as_slice());
    Ok(())
}

// `| 1 = x1` with `x2 = 2` behind `where`.
fn guarded(alloc: Global) -> Result<Rhs, AllocError> {
    let mut guards = Items::new(alloc);
    guards.push(Guard {
        test: top(1),
        body: local(1),
    })?;
    let mut below = block(alloc);
    let value = equations(alloc, plain(alloc, top(2))?)?;
    below.members.push(Member::Named(NOWHERE, 2, value))?;
    Ok(Rhs::Guarded(NOWHERE, guards, below))
}

// `[9 | _ <- x0]`, by the function 3.
fn comprehension(alloc: Global) -> Result<Exp, AllocError> {
    let head = Quals::Head(Boxed::new(alloc, top(9))?);
    Ok(Exp::Comp(
        NOWHERE,
        Quals::From(
            Name::Top(3),
            Pat::Any(NOWHERE),
            Boxed::new(alloc, local(0))?,
            Boxed::new(alloc, head)?,
        ),
    ))
}

// 0 uses 1 and 2, and 1 uses 3; there is no binding 9, and local names are none.
#[test]
fn guards_and_generators_count(rt: HostRuntime) -> Result<(), Fail> {
    let alloc = rt.alloc();
    let mut decls = Items::new(alloc);
    decls.push(binding(alloc, guarded(alloc)?)?)?;
    decls.push(binding(alloc, plain(alloc, comprehension(alloc)?)?)?)?;
    decls.push(binding(alloc, plain(alloc, local(0))?)?)?;
    decls.push(binding(alloc, plain(alloc, top(9))?)?)?;
    let groups = group_bindings(alloc, decls.as_slice())?;
    assert_eq!(rt; groups.len(), 4);
    assert_eq!(rt; group(&groups, 0), [2].as_slice());
    assert_eq!(rt; group(&groups, 1), [3].as_slice());
    assert_eq!(rt; group(&groups, 2), [1].as_slice());
    assert_eq!(rt; group(&groups, 3), [0].as_slice());
    Ok(())
}
