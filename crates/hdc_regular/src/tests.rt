//! Small texts, worked out by hand.

use super::{find_in_prelude, find_in_program};
use hdc_base::At;
use hdc_tree::{
    Atype, Btype, Constr, Data, Deriving, ModuleHead, Name, Synonym, Top, Tree, TypeExp,
};
use hdc_written::Breach;
use sqlite_items::{Boxed, Items};
use std::alloc::{AllocError, Global};
use std::test::Fail;

fn name(alloc: Global, text: &str, col: u32) -> Result<Name, AllocError> {
    let text = Items::from_slice(alloc, text.as_bytes())?;
    Ok(Name {
        at: At { line: 1, col },
        text,
    })
}

fn names(alloc: Global, text: &str, col: u32) -> Result<Items<Name>, AllocError> {
    let mut names = Items::new(alloc);
    names.push(name(alloc, text, col)?)?;
    Ok(names)
}

fn text_of(alloc: Global, top: Top) -> Result<Tree, AllocError> {
    let nowhere = At { line: 0, col: 0 };
    Ok(Tree {
        head: Boxed::new(alloc, ModuleHead::Absent)?,
        open_at: nowhere,
        first: Boxed::new(alloc, top)?,
        rest: Items::new(alloc),
        close_at: nowhere,
    })
}

// `type Same a = a`
fn same(alloc: Global) -> Result<Tree, AllocError> {
    let meaning = Atype::Var(name(alloc, "a", 15)?);
    let synonym = Synonym {
        at: At { line: 1, col: 1 },
        name: name(alloc, "Same", 6)?,
        params: names(alloc, "a", 11)?,
        equal: At { line: 1, col: 13 },
        meaning: TypeExp {
            first: Btype::Plain(meaning),
            rest: Items::new(alloc),
        },
    };
    text_of(alloc, Top::Synonym(synonym))
}

// `data Tree a = Node (Tree argument)`
fn tree_of(alloc: Global, argument: Atype) -> Result<Tree, AllocError> {
    let field = TypeExp {
        first: Btype::Applied(name(alloc, "Tree", 21)?, argument, Items::new(alloc)),
        rest: Items::new(alloc),
    };
    let mut fields = Items::new(alloc);
    fields.push(Atype::Paren(
        At { line: 1, col: 20 },
        Boxed::new(alloc, field)?,
        At { line: 1, col: 40 },
    ))?;
    let declared = Data {
        at: At { line: 1, col: 1 },
        name: name(alloc, "Tree", 6)?,
        params: names(alloc, "a", 11)?,
        equal: At { line: 1, col: 13 },
        first: Constr {
            name: name(alloc, "Node", 15)?,
            fields,
        },
        rest: Items::new(alloc),
        derived: Deriving::Absent,
    };
    text_of(alloc, Top::Data(declared))
}

// `(Same argument)`
fn same_as(alloc: Global, argument: Atype) -> Result<Atype, AllocError> {
    let inner = TypeExp {
        first: Btype::Applied(name(alloc, "Same", 27)?, argument, Items::new(alloc)),
        rest: Items::new(alloc),
    };
    Ok(Atype::Paren(
        At { line: 1, col: 26 },
        Boxed::new(alloc, inner)?,
        At { line: 1, col: 34 },
    ))
}

#[test]
fn variables_in_order_are_regular(rt: HostRuntime) -> Result<(), Fail> {
    let alloc = rt.alloc();
    let variable = Atype::Var(name(alloc, "a", 26)?);
    let text = tree_of(alloc, variable)?;
    let first = find_in_prelude(alloc, &text)?;
    assert_eq!(rt; first.breach, None);
    Ok(())
}

#[test]
fn another_argument_is_found(rt: HostRuntime) -> Result<(), Fail> {
    let alloc = rt.alloc();
    let constructor = Atype::Con(name(alloc, "Int", 26)?);
    let text = tree_of(alloc, constructor)?;
    let at = At { line: 1, col: 21 };
    let first = find_in_prelude(alloc, &text)?;
    assert_eq!(rt; first.breach, Some(Breach { rule: 10, at }));
    Ok(())
}

#[test]
fn synonyms_of_the_prelude_are_expanded(rt: HostRuntime) -> Result<(), Fail> {
    let alloc = rt.alloc();
    let prelude = same(alloc)?;
    let variable = Atype::Var(name(alloc, "a", 32)?);
    let argument = same_as(alloc, variable)?;
    let text = tree_of(alloc, argument)?;
    let first = find_in_program(alloc, &prelude, &text)?;
    assert_eq!(rt; first.breach, None);
    Ok(())
}

#[test]
fn unknown_names_are_not_expanded(rt: HostRuntime) -> Result<(), Fail> {
    let alloc = rt.alloc();
    let variable = Atype::Var(name(alloc, "a", 32)?);
    let argument = same_as(alloc, variable)?;
    let text = tree_of(alloc, argument)?;
    let at = At { line: 1, col: 21 };
    let first = find_in_prelude(alloc, &text)?;
    assert_eq!(rt; first.breach, Some(Breach { rule: 10, at }));
    Ok(())
}
