//! Local values that need themselves, others that do not, and the order of their evaluation.

use super::{find_needy, find_orders};
use hdc_base::{At, Text};
use hdc_tree::{
    Aexp, Apat, Apply, Block, Decl, Expression, Head, ModuleHead, Name, NextDecl, Operand, Rhs,
    Sign, Top, Tree, Var, Where,
};
use hdc_written::Breach;
use sqlite_items::{Boxed, Items};
use std::alloc::Global;
use std::test::Fail;

fn at(col: u32) -> At {
    At { line: 1, col }
}

fn name(alloc: Global, col: u32, text: &str) -> Result<Name, Fail> {
    Ok(Name {
        at: at(col),
        text: Text::from_slice(alloc, text.as_bytes())?,
    })
}

// A variable.
fn variable(alloc: Global, col: u32, text: &str) -> Result<Expression, Fail> {
    let name = name(alloc, col, text)?;
    Ok(Expression {
        links: Items::new(alloc),
        sign: Sign::Absent,
        last: Operand::Applied(Apply {
            head: Aexp::Var(Var::Plain(name)),
            args: Items::new(alloc),
        }),
    })
}

// `\parameter -> text`
fn lambda(alloc: Global, col: u32, parameter: &str, text: &str) -> Result<Expression, Fail> {
    let parameter = Apat::Var(name(alloc, col, parameter)?);
    let body = Boxed::new(alloc, variable(alloc, col, text)?)?;
    Ok(Expression {
        links: Items::new(alloc),
        sign: Sign::Absent,
        last: Operand::Lambda(at(col), parameter, Items::new(alloc), at(col), body),
    })
}

// `text = exp`
fn value(alloc: Global, col: u32, text: &str, exp: Expression) -> Result<Decl, Fail> {
    equation(alloc, col, text, Items::new(alloc), exp)
}

// `text _ = exp`
fn function(alloc: Global, col: u32, text: &str, exp: Expression) -> Result<Decl, Fail> {
    let mut parameters = Items::new(alloc);
    parameters.push(Apat::Wildcard(at(col)))?;
    equation(alloc, col, text, parameters, exp)
}

fn equation(
    alloc: Global,
    col: u32,
    text: &str,
    parameters: Items<Apat>,
    exp: Expression,
) -> Result<Decl, Fail> {
    let head = Head::Prefix(Var::Plain(name(alloc, col, text)?), parameters);
    let right = Rhs::Equal(at(col), Boxed::new(alloc, exp)?, Where::Absent);
    Ok(Decl::Equation(head, right))
}

fn next(rest: &mut Items<NextDecl>, decl: Decl) -> Result<(), Fail> {
    rest.push(NextDecl {
        semicolon: at(1),
        decl,
    })?;
    Ok(())
}

// `f = a where { first; rest }`
fn text(alloc: Global, first: Decl, rest: Items<NextDecl>) -> Result<Top, Fail> {
    let block = Block {
        open_at: at(1),
        first: Boxed::new(alloc, first)?,
        rest,
        close_at: at(1),
    };
    let body = Boxed::new(alloc, variable(alloc, 1, "a")?)?;
    let right = Rhs::Equal(at(1), body, Where::Present(at(1), block));
    let head = Head::Prefix(Var::Plain(name(alloc, 1, "f")?), Items::new(alloc));
    Ok(Top::Equation(head, right))
}

fn tree(alloc: Global, first: Decl, rest: Items<NextDecl>) -> Result<Tree, Fail> {
    Ok(Tree {
        head: Boxed::new(alloc, ModuleHead::Absent)?,
        open_at: at(1),
        first: Boxed::new(alloc, text(alloc, first, rest)?)?,
        rest: Items::new(alloc),
        close_at: at(1),
    })
}

// The place of the first value that needs itself in it.
fn needy(alloc: Global, first: Decl, rest: Items<NextDecl>) -> Result<Option<Breach>, Fail> {
    let tree = tree(alloc, first, rest)?;
    Ok(find_needy(alloc, &tree)?.breach)
}

fn rule_11(col: u32) -> Option<Breach> {
    Some(Breach {
        rule: 11,
        at: at(col),
    })
}

// `a = a`
#[test]
fn value_needs_itself(rt: HostRuntime) -> Result<(), Fail> {
    let alloc = rt.alloc();
    let first = value(alloc, 7, "a", variable(alloc, 8, "a")?)?;
    let found = needy(alloc, first, Items::new(alloc))?;
    assert_eq!(rt; found, rule_11(7));
    Ok(())
}

// `g _ = a`, `a = g`
#[test]
fn value_needs_itself_through_a_function(rt: HostRuntime) -> Result<(), Fail> {
    let alloc = rt.alloc();
    let first = function(alloc, 3, "g", variable(alloc, 4, "a")?)?;
    let mut rest = Items::new(alloc);
    next(&mut rest, value(alloc, 5, "a", variable(alloc, 6, "g")?)?)?;
    let found = needy(alloc, first, rest)?;
    assert_eq!(rt; found, rule_11(5));
    Ok(())
}

// `a _ = a`
#[test]
fn function_may_need_itself(rt: HostRuntime) -> Result<(), Fail> {
    let alloc = rt.alloc();
    let first = function(alloc, 3, "a", variable(alloc, 4, "a")?)?;
    let found = needy(alloc, first, Items::new(alloc))?;
    assert_eq!(rt; found, None);
    Ok(())
}

// `a = \a -> a`
#[test]
fn parameter_hides_the_value(rt: HostRuntime) -> Result<(), Fail> {
    let alloc = rt.alloc();
    let first = value(alloc, 3, "a", lambda(alloc, 4, "a", "a")?)?;
    let found = needy(alloc, first, Items::new(alloc))?;
    assert_eq!(rt; found, None);
    Ok(())
}

// `a = b`, `b = a`, `b = f`: each of the two is what a use of `b` needs.
#[test]
fn first_of_two_bindings_is_needed(rt: HostRuntime) -> Result<(), Fail> {
    let alloc = rt.alloc();
    let first = value(alloc, 3, "a", variable(alloc, 4, "b")?)?;
    let mut rest = Items::new(alloc);
    next(&mut rest, value(alloc, 5, "b", variable(alloc, 6, "a")?)?)?;
    next(&mut rest, value(alloc, 7, "b", variable(alloc, 8, "f")?)?)?;
    let found = needy(alloc, first, rest)?;
    assert_eq!(rt; found, rule_11(3));
    Ok(())
}

// `a = g`, `g _ = c`, `b = x`, `c = x`. Each of their right sides has a block of its own, without declarations.
#[test]
fn needs_of_functions_come_first(rt: HostRuntime) -> Result<(), Fail> {
    let alloc = rt.alloc();
    let first = value(alloc, 3, "a", variable(alloc, 4, "g")?)?;
    let mut rest = Items::new(alloc);
    next(
        &mut rest,
        function(alloc, 5, "g", variable(alloc, 6, "c")?)?,
    )?;
    next(&mut rest, value(alloc, 7, "b", variable(alloc, 8, "x")?)?)?;
    next(&mut rest, value(alloc, 9, "c", variable(alloc, 10, "x")?)?)?;
    let tree = tree(alloc, first, rest)?;
    let orders = find_orders(alloc, &tree)?;
    assert_eq!(rt; orders.len(), 5);
    if orders.len() == 5 {
        assert_eq!(rt; orders.order(0).len(), 0);
        assert_eq!(rt; orders.order(4), [2, 3, 0].as_slice());
    }
    Ok(())
}
