//! Programs with trees as deep as may be, and programs with the place where one is too deep.

use super::chains::{answer, prelude};
use hdc_base::At;
use hdc_names::TreesStop;
use std::alloc::{AllocError, Global};
use std::test::Fail;

// A text is what comes first, something that is repeated, and what comes last.
fn text(
    alloc: Global,
    (front, part, back): (&str, &str, &str),
    count: usize,
) -> Result<String, AllocError> {
    let mut text = String::new(alloc);
    text.push_str(front)?;
    for _ in 0..count {
        text.push_str(part)?;
    }
    text.push_str(back)?;
    Ok(text)
}

// The parts of a text, how often the second one stands, and the column in the first line where a tree is too deep.
type Row = ((&'static str, &'static str, &'static str), usize, u32);

const EXPRESSIONS: [Row; 23] = [
    (("f = ", "1 : ", "[]"), 1024, 4097),
    (("f = 1", " + 1", ""), 1024, 5),
    (("f = - 1", " + 1", ""), 1023, 7),
    (("f = - 1", " + 1", ""), 1024, 5),
    (("f = (- 1)", " + 1", ""), 1023, 8),
    (("f = (- 1)", " + 1", ""), 1024, 6),
    (("f = (g x)", " + 1", ""), 1023, 6),
    (("f = g", " x", ""), 1024, 5),
    (("f = (g)", " x", ""), 1024, 6),
    (("f = (g y)", " x", ""), 1023, 6),
    (("f = g (", "1 : ", "[])"), 1023, 4096),
    (("f = (: ", "1 : ", "[])"), 1023, 4096),
    (("f = (1", " + 1", " +)"), 1023, 6),
    (("f = \\x -> ", "1 : ", "x"), 1023, 4099),
    (("f = if x then y else ", "1 : ", "x"), 1023, 4110),
    (("f = case x of { y -> ", "1 : ", "x }"), 1023, 4110),
    (("f = case x of { y | x -> ", "1 : ", "x }"), 1022, 4110),
    (("f = (x, ", "1 : ", "x)"), 1023, 4097),
    (("f = [x .. ", "1 : ", "x]"), 1023, 4099),
    (("f = [1 | ", "x, ", "x]"), 1022, 6),
    (("f = [1 | ", "x, ", "x]"), 1023, 3079),
    (("f = [1 | ", "x <- y, ", "x <- y]"), 1023, 8194),
    (("f = [1 | ", "let {}, ", "let {}]"), 1023, 8194),
];

const OTHERS: [Row; 12] = [
    (("f | x = ", "1 : ", "x"), 1023, 4097),
    (("f = let { g = ", "1 : ", "x } in g"), 1024, 4107),
    (("f = x where { g = ", "1 : ", "x }"), 1024, 4111),
    (("f = let { (g, h) = ", "1 : ", "x } in g"), 1024, 4112),
    (("f (", "x : ", "y) = 1"), 1024, 4096),
    (("f = \\(", "x : ", "y) -> 1"), 1024, 4099),
    (("f = [1 | (", "x : ", "y) <- z]"), 1024, 4103),
    (("f = case z of { ", "x : ", "y -> 1 }"), 1024, 4109),
    (("f :: ", "a -> ", "a"), 1024, 5121),
    (("f = let { g :: ", "a -> ", "a } in g"), 1024, 5131),
    (("data T = C (", "a -> ", "a)"), 1024, 5128),
    (("type T = ", "a -> ", "a"), 1024, 5125),
];

// As deep as may be.
const SHALLOW: [((&str, &str, &str), usize); 16] = [
    (("f = ", "1 : ", "[]"), 1023),
    (("f = 1", " + 1", ""), 1023),
    (("f = - 1", " + 1", ""), 1022),
    (("f = g", " x", ""), 1023),
    (("f = (g y)", " x", ""), 1022),
    (("f = (: ", "1 : ", "[])"), 1022),
    (("f = \\x -> ", "1 : ", "x"), 1022),
    (("f = case x of { y | x -> ", "1 : ", "x }"), 1021),
    (("f = [1 | ", "x <- y, ", "x <- y]"), 1021),
    (("f | x = ", "1 : ", "x"), 1022),
    (("f = let { g = ", "1 : ", "x } in g"), 1023),
    (("f (", "x : ", "y) = 1"), 1023),
    (("f :: ", "a -> ", "a"), 1023),
    (("f (C", " x", ") = 1"), 2000),
    (("f :: T", " a", ""), 2000),
    (("f", " x", " = 1"), 2000),
];

fn are_too_deep(alloc: Global, rows: &[Row]) -> Result<(), Fail> {
    let prelude = prelude(alloc)?;
    for (parts, count, col) in rows {
        let text = text(alloc, *parts, *count)?;
        let at = At { line: 1, col: *col };
        if answer(alloc, &prelude, text.as_str())? != Err(TreesStop::Depth(at)) {
            return Err(Fail::from(AllocError));
        }
    }
    Ok(())
}

#[test]
fn expressions_that_are_too_deep_have_their_place(rt: HostRuntime) -> Result<(), Fail> {
    are_too_deep(rt.alloc(), &EXPRESSIONS)
}

#[test]
fn blocks_patterns_and_types_that_are_too_deep_have_their_place(
    rt: HostRuntime,
) -> Result<(), Fail> {
    are_too_deep(rt.alloc(), &OTHERS)
}

#[test]
fn trees_are_as_deep_as_may_be(rt: HostRuntime) -> Result<(), Fail> {
    let prelude = prelude(rt.alloc())?;
    for (parts, count) in SHALLOW {
        let text = text(rt.alloc(), parts, count)?;
        let found = answer(rt.alloc(), &prelude, text.as_str())?;
        assert_eq!(rt; found, Ok(()), "of {}", parts.0);
    }
    Ok(())
}

#[test]
fn a_chain_without_a_tree_counts_before_a_tree_that_is_too_deep(
    rt: HostRuntime,
) -> Result<(), Fail> {
    let prelude = prelude(rt.alloc())?;
    let parts = ("f = ", "1 : ", "x\ng = a == b == c");
    let text = text(rt.alloc(), parts, 1024)?;
    let found = answer(rt.alloc(), &prelude, text.as_str())?;
    let at = At { line: 2, col: 12 };
    assert_eq!(rt; found, Err(TreesStop::Fixity(at)));
    Ok(())
}
