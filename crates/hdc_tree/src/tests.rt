//! A tree and its tokens.

use crate::expression::{Aexp, Apply, Exp, Operand, Rhs, Where};
use crate::head::Head;
use crate::name::{Name, Sign, Var};
use crate::program::{ModuleHead, Top, Tree};
use crate::program_speller::spell;
use hdc_base::{At, Text, Tokens};
use sqlite_items::{Boxed, Items};
use std::alloc::Global;
use std::test::Fail;

fn at(col: u32) -> At {
    At { line: 1, col }
}

fn name(alloc: Global, col: u32, text: &str) -> Result<Name, Fail> {
    Ok(Name {
        at: at(col),
        text: Text::from_slice(alloc, text.as_bytes())?,
    })
}

// `- x`
fn negated(alloc: Global) -> Result<Exp, Fail> {
    let x = name(alloc, 5, "x")?;
    Ok(Exp {
        links: Items::new(alloc),
        sign: Sign::Minus(at(4)),
        last: Operand::Applied(Apply {
            head: Aexp::Var(Var::Plain(x)),
            args: Items::new(alloc),
        }),
    })
}

// `{ f = - x }`
fn tree(alloc: Global) -> Result<Tree, Fail> {
    let exp = Boxed::new(alloc, negated(alloc)?)?;
    let f = name(alloc, 2, "f")?;
    let head = Head::Prefix(Var::Plain(f), Items::new(alloc));
    let top = Top::Equation(head, Rhs::Equal(at(3), exp, Where::Absent));
    let first = Boxed::new(alloc, top)?;
    Ok(Tree {
        head: Boxed::new(alloc, ModuleHead::Absent)?,
        open_at: at(1),
        first,
        rest: Items::new(alloc),
        close_at: at(6),
    })
}

// The tokens of it.
fn spelled(alloc: Global) -> Result<Tokens, Fail> {
    let tree = tree(alloc)?;
    match spell(alloc, &tree) {
        Ok(tokens) => Ok(tokens),
        Err(_want) => Err(Fail::from("no tokens")),
    }
}

#[test]
fn a_tree_gives_its_tokens_in_order(rt: HostRuntime) -> Result<(), Fail> {
    let tokens = spelled(rt.alloc())?;
    let tokens = tokens.as_slice();
    assert_eq!(rt; tokens.len(), 6);
    for (token, place) in tokens.iter().zip(1..7) {
        assert_eq!(rt; token.at.col, place);
    }
    Ok(())
}
