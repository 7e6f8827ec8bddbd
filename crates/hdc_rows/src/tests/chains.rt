//! Programs whose chains and sections have trees, and programs with the place where one has none.

use super::trees::laid;
use hdc_base::At;
use hdc_names::{TreesStop, check_trees};
use hdc_parse::parse;
use hdc_top::prelude_tree;
use hdc_tree::Tree;
use std::alloc::{AllocError, Global};
use std::test::Fail;

pub(super) fn prelude(alloc: Global) -> Result<Tree, Fail> {
    match prelude_tree(alloc) {
        Ok(tree) => Ok(tree),
        Err(_want) => Err(Fail::from(AllocError)),
    }
}

// What the check of trees answers of a text, behind the prelude.
pub(super) fn answer(
    alloc: Global,
    prelude: &Tree,
    text: &str,
) -> Result<Result<(), TreesStop>, Fail> {
    let (tokens, end) = laid(alloc, text.as_bytes())?;
    let Ok(tree) = parse(alloc, tokens.as_slice(), end) else {
        return Err(Fail::from(AllocError));
    };
    Ok(check_trees(alloc, prelude, &tree))
}

// Where the first chain or section stands that has no tree, behind the prelude.
fn fault(alloc: Global, prelude: &Tree, text: &str) -> Result<Option<At>, Fail> {
    match answer(alloc, prelude, text)? {
        Ok(()) => Ok(None),
        Err(TreesStop::Fixity(at)) => Ok(Some(at)),
        Err(TreesStop::Depth(_)) | Err(TreesStop::Want) => Err(Fail::from(AllocError)),
    }
}

const TREES: [&str; 24] = [
    "f = 1 + 2 * 3 - 4 == a ++ b : c",
    "f = a . b . c $ a !! b !! c",
    "f = a == b + c && d < e || - f > g $ h",
    "f = a `div` b * c `mod` d `quot` e `rem` f",
    "f = - a * b + c - d",
    "f = a == - b : c",
    "f = (- a) - (- b)",
    "f = a `g` b `C` c `g` d",
    "f = (+ a * b) (a * b +) (: a : b) (a `g` b `g`) (== a + b)",
    "f = (- a -) (a == - b &&) (a `C` b `C`) (`C` a)",
    "f = (a == b) == (c == d)",
    "infixr 5 +++\na +++ b = a\nf = a +++ b : c ++ d",
    "a + b = a\nf = a * b + c + d",
    "infixl 4 <>\ninfixl 6 <>\na <> b = a\nf = a <> b + c <> d",
    "f = a <> b <> c == d\na <> b = b\ninfixl 5 <>",
    "infixr 6 *, `g`\nf = a * b * c `g` d",
    "f = let a == b = a in x == y == z",
    "f x\n  | a == b == c = x == y == z\n  where a == b = a",
    "f = [a == b == c | x <- y, let a == b = x, a == b == c]",
    "f = [a . b `div` c | x <- a . b `div` c] where g div = div",
    "f = (let div = x in div) (a . b `div` c)",
    "f = case a == b of { div -> x; y -> a . b `div` c }",
    "f = g (\\div -> div) (a . b `div` c)",
    "a == b = a\nf = a == b == c",
];

#[test]
fn chains_and_sections_have_trees(rt: HostRuntime) -> Result<(), Fail> {
    let prelude = prelude(rt.alloc())?;
    for text in TREES {
        assert_eq!(rt; fault(rt.alloc(), &prelude, text)?, None, "of {text}");
    }
    Ok(())
}

// Chains and sections without trees, by the operators of the prelude and of the program's top.
const FAULTS: [(&str, u32, u32); 29] = [
    ("f = a == b == c", 1, 12),
    ("f = a < b + c > d", 1, 15),
    ("f = 1 - - 2", 1, 9),
    ("f = a + - b", 1, 9),
    ("f = a * b * - c", 1, 13),
    ("f = a !! - b", 1, 10),
    ("f = a == b && c == - d == e", 1, 24),
    ("f = a . b !! c", 1, 11),
    ("f = a !! b : c !! d . e", 1, 21),
    ("f = a . b `g` c", 1, 12),
    ("f = a . b `C` c", 1, 12),
    ("f = (a . b .)", 1, 12),
    ("f = (+ a + b)", 1, 6),
    ("f = (* a + b)", 1, 6),
    ("f = (a + b *)", 1, 12),
    ("f = (- a *)", 1, 10),
    ("f = (== - a == b)", 1, 6),
    ("f = (`g` a `g` b)", 1, 7),
    ("f = (a : b :)", 1, 12),
    ("f = (+ 1 == 2 == 3)", 1, 6),
    ("f = (1 == 2 == 3 +)", 1, 13),
    ("f = (a * b : c * d :)", 1, 20),
    ("infixr 6 <+>\na <+> b = a\nf = - a <+> b", 3, 9),
    ("infix 6 <+>\na <+> b = a\nf = a <+> - b", 3, 11),
    ("infixl 5 <+>\na <+> b = a\nf = a ++ b <+> c", 3, 12),
    ("a + b = a\nf = a . b + c", 2, 11),
    (
        "infix 4 <>\ninfixl 6 <>\na <> b = a\nf = a <> b <> c",
        4,
        12,
    ),
    ("f = a <> b <> c\na <> b = b\ninfix 4 <>", 1, 12),
    ("infixl 4 ==\nf = a == b == c", 2, 12),
];

#[test]
fn a_chain_or_section_without_a_tree_has_its_place(rt: HostRuntime) -> Result<(), Fail> {
    let prelude = prelude(rt.alloc())?;
    for (text, line, col) in FAULTS {
        let found = fault(rt.alloc(), &prelude, text)?;
        assert_eq!(rt; found, Some(At { line, col }), "of {text}");
    }
    Ok(())
}

// The same where a name is bound locally, and where the fault stands deep in the program.
const SCOPED: [(&str, u32, u32); 29] = [
    ("f div = a . b `div` c", 1, 16),
    ("f (x, div : y) = a . b `div` c", 1, 25),
    ("f div@x = a . b `div` c", 1, 18),
    ("(x `f` y) div = a . b `div` c", 1, 24),
    ("f = let div = x in a . b `div` c", 1, 27),
    ("f = let { (x, div) = y; g = a . b `div` c } in g", 1, 36),
    (
        "f = let { g div = x; y = a . b `div` c } in a . b !! c",
        1,
        51,
    ),
    ("f = let a ++ b = a in a . b ++ c", 1, 29),
    ("f x = y where { div = x; y = a . b `div` c }", 1, 37),
    ("f x\n  | a . b `div` c = x\n  where div = x", 2, 12),
    ("f = \\x div -> a . b `div` c", 1, 22),
    (
        "f = case x of { y -> a . b `div` c; div -> a . b `div` c }",
        1,
        51,
    ),
    ("f = case x of { div | y -> a . b `div` c }", 1, 35),
    (
        "f = [x | y <- a . b `div` c, div <- z, a . b `div` c]",
        1,
        47,
    ),
    ("f = [a . b `div` c | div <- x]", 1, 13),
    ("f = [x | let div = y, z <- a . b `div` c]", 1, 35),
    ("infixr 9 `div`\ndiv a b = a\nf div = a . b `div` c", 3, 16),
    ("f = a == b == c\ng = a . b !! c", 1, 12),
    ("f = [a == b == c | x <- a . b !! c]", 1, 13),
    ("f x = a == b == c where y = a . b !! c", 1, 14),
    ("f x\n  | a == b == c = x\n  | x = a . b !! c", 2, 12),
    (
        "f = case x of { y | z -> a . b !! c where { u = a == b == c } }",
        1,
        32,
    ),
    ("f = if a then b else c == d == e", 1, 29),
    ("f = (a, b == c == d)", 1, 16),
    ("f = [a, b == c == d]", 1, 16),
    ("f = [a .. b == c == d]", 1, 18),
    ("f = g x (a == b == c)", 1, 17),
    ("f = let g x = a == b == c in g", 1, 22),
    ("f = \\x -> let { y | z = a == b == c } in y", 1, 32),
];

#[test]
fn what_is_bound_locally_binds_as_undeclared(rt: HostRuntime) -> Result<(), Fail> {
    let prelude = prelude(rt.alloc())?;
    for (text, line, col) in SCOPED {
        let found = fault(rt.alloc(), &prelude, text)?;
        assert_eq!(rt; found, Some(At { line, col }), "of {text}");
    }
    Ok(())
}
