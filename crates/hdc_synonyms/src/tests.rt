//! Small texts, worked out by hand.

use super::find_cyclic_synonyms;
use hdc_base::At;
use hdc_tree::{Atype, Btype, ModuleHead, Name, NextTop, Synonym, Top, Tree, TypeExp};
use hdc_written::Breach;
use sqlite_items::{Boxed, Items};
use std::alloc::{AllocError, Global};
use std::test::Fail;

fn name(alloc: Global, text: &str, at: At) -> Result<Name, AllocError> {
    let text = Items::from_slice(alloc, text.as_bytes())?;
    Ok(Name { at, text })
}

// `type`, a name of one letter, `=` and a name, on a line of its own.
fn synonym(alloc: Global, line: u32, declared: &str, meaning: &str) -> Result<Synonym, AllocError> {
    let meaning = name(alloc, meaning, At { line, col: 10 })?;
    Ok(Synonym {
        at: At { line, col: 1 },
        name: name(alloc, declared, At { line, col: 6 })?,
        params: Items::new(alloc),
        equal: At { line, col: 8 },
        meaning: TypeExp {
            first: Btype::Plain(Atype::Con(meaning)),
            rest: Items::new(alloc),
        },
    })
}

// `A` means `B`, `B` means `C`, and `C` means this.
fn three_synonyms(alloc: Global, meaning: &str) -> Result<Tree, AllocError> {
    let nowhere = At { line: 0, col: 0 };
    let mut rest = Items::new(alloc);
    rest.push(NextTop {
        semicolon: nowhere,
        top: Top::Synonym(synonym(alloc, 2, "B", "C")?),
    })?;
    rest.push(NextTop {
        semicolon: nowhere,
        top: Top::Synonym(synonym(alloc, 3, "C", meaning)?),
    })?;
    Ok(Tree {
        head: Boxed::new(alloc, ModuleHead::Absent)?,
        open_at: nowhere,
        first: Boxed::new(alloc, Top::Synonym(synonym(alloc, 1, "A", "B")?))?,
        rest,
        close_at: nowhere,
    })
}

#[test]
fn first_of_a_cycle_is_found(rt: HostRuntime) -> Result<(), Fail> {
    let alloc = rt.alloc();
    let cycle = three_synonyms(alloc, "B")?;
    let at = At { line: 2, col: 6 };
    let first = find_cyclic_synonyms(alloc, &cycle)?;
    assert_eq!(rt; first.breach, Some(Breach { rule: 9, at }));
    Ok(())
}

#[test]
fn synonyms_of_other_types_are_none(rt: HostRuntime) -> Result<(), Fail> {
    let alloc = rt.alloc();
    let chain = three_synonyms(alloc, "Int")?;
    let first = find_cyclic_synonyms(alloc, &chain)?;
    assert_eq!(rt; first.breach, None);
    Ok(())
}
