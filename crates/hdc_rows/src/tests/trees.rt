//! Texts that are parsed, and spelled again.

use hdc_base::{At, Tokens};
use hdc_layout::lay_out;
use hdc_lex::{Form, end_of, lex};
use hdc_parse::{ParseStop, parse};
use hdc_top::prelude_tree;
use hdc_tree::{PRELUDE, spell};
use std::alloc::{AllocError, Global};
use std::test::Fail;

// The laid-out tokens of a text, and its end.
pub(super) fn laid(alloc: Global, text: &[u8]) -> Result<(Tokens, At), Fail> {
    if text.len() > 1_048_576 {
        return Err(Fail::from(AllocError));
    }
    let Ok(tokens) = lex(alloc, text, Form::Program) else {
        return Err(Fail::from(AllocError));
    };
    let end = end_of(text);
    let Ok(laid) = lay_out(alloc, tokens, end) else {
        return Err(Fail::from(AllocError));
    };
    Ok((laid, end))
}

// Whether a text is a program whose tree spells as many tokens again.
fn comes_back(alloc: Global, text: &[u8]) -> Result<bool, Fail> {
    let (tokens, end) = laid(alloc, text)?;
    let Ok(tree) = parse(alloc, tokens.as_slice(), end) else {
        return Ok(false);
    };
    let Ok(spelled) = spell(alloc, &tree) else {
        return Ok(false);
    };
    Ok(spelled.as_slice().len() == tokens.as_slice().len())
}

// Each production of the grammar stands in one of these.
const PRODUCTIONS: [&str; 19] = [
    "module Main (main, T, (+++)) where\nmain = 1",
    "module Main where { }",
    "data T a = A | B a [a] (a, T a) ()\n  deriving (Eq, Show)\ndata U = U deriving ()\ndata V = V deriving Eq",
    "type S a = [a] -> (a -> ()) -> T a a",
    "infixl 6 +++, `plus`\ninfixr 5 <+>\ninfix 4 ===",
    "f, g, (+++) :: Int -> a\nf x = x",
    "f x y\n  | x = y\n  | y = x\n  where { x = y; ; z = 1 }",
    "x +++ y = y\n(x `op` y) z = x\n(+++) x = x",
    "f _ 1 'a' \"b\" () [] (x : xs) (x, y) [x, y] n@(C a b) C (- 1) = 1",
    "f = let { (x, y) = z; Just w = z; h : t = z; u@v = z; [] = z; g :: Int; - 1 = z } in x",
    "f = \\x (y) -> case x of { A -> 1; ; B z | z -> 2 | x -> 3 where { q = 1 } }",
    "f = if a then b else - c + d : e `op` g `C` h",
    "f = (a, b) [a, b] [a .. b] [a | x <- b, let { c = d }, x, let { e = f } in e] (a +) (+ a) (: a) (`op` a) (`C` a) (:) () [] (-) (+) (- a) (- a -) (\\x -> x +) (a) 1 'c' \"s\" C",
    "{ ; f = 1 ; ; }",
    "f = case x of { ; A -> 1 where { q = 1 }; B | x -> 1 }",
    "f (a, b, c, d, e, g, h) = (1, 2, 3, 4, 5, 6, 7)\nf :: (a, a, a, a, a, a, a)",
    "f = let { _ = x; C = x; 1 = x; 'c' = x; \"s\" = x; () = x; (y) = x; [z] = x } in x",
    "f = a + \\x -> - if a then b else c + - d",
    "x `op` y = y",
];

#[test]
fn each_production_comes_back(rt: HostRuntime) -> Result<(), Fail> {
    for text in PRODUCTIONS {
        assert!(rt; comes_back(rt.alloc(), text.as_bytes())?, "of {text}");
    }
    Ok(())
}

#[test]
fn the_prelude_has_the_tree_of_its_text(rt: HostRuntime) -> Result<(), Fail> {
    let (tokens, _end) = laid(rt.alloc(), PRELUDE)?;
    let Ok(tree) = prelude_tree(rt.alloc()) else {
        return Err(Fail::from(AllocError));
    };
    let spelled = spell(rt.alloc(), &tree)?;
    assert_eq!(rt; spelled.as_slice().len(), tokens.as_slice().len());
    Ok(())
}

const REALISTIC: &[u8] = b"\
module Main (main) where

-- Maximum segment sum: halves are joined by dcDepth.
data Seg = Seg Int Int Int Int
  deriving (Show)

data Part a = Part Int [a]

type Samples = [Int]

larger :: Int -> Int -> Int
larger a b
  | a >= b = a
  | otherwise = b

one :: Int -> Seg
one x = Seg x x x x

join :: Seg -> Seg -> Seg
join (Seg b1 p1 s1 t1) (Seg b2 p2 s2 t2) = Seg best front back (t1 + t2)
  where
    best = larger (larger b1 b2) (s1 + p2)
    front = larger p1 (t1 + p2)
    back = larger s2 (t2 + s1)

{- A part keeps its length, {- nested -} so halves are cheap. -}
pack :: [a] -> Part a
pack xs = Part (length xs) xs

halves :: Part a -> [Part a]
halves (Part n xs) =
  let h = div n 2
      (left, right) = (take h xs, drop h xs)
  in [Part h left, Part (n - h) right]

solve :: Part Int -> Seg
solve (Part _ (x : xs)) = foldl join (one x) (map one xs)

wave :: Int -> Int
wave i = mod (i * 7) 11 - 5

samples :: Samples
samples = [ y | i <- [0 .. 20], i < 16, let y = wave i ]

main :: Seg
main = dcDepth 2 3 solve halves combine (pack samples)
  where
    combine _ parts = case parts of
      [l, r] -> join l r
";

#[test]
fn a_front_of_a_program_is_refused_at_its_end(rt: HostRuntime) -> Result<(), Fail> {
    assert!(rt; comes_back(rt.alloc(), REALISTIC)?);
    let (tokens, end) = laid(rt.alloc(), REALISTIC)?;
    for count in 0..tokens.as_slice().len() {
        let at_end = match parse(rt.alloc(), &tokens.as_slice()[..count], end) {
            Ok(_tree) => true,
            Err(ParseStop::Syntax(at)) => at == end,
            Err(_stop) => false,
        };
        assert!(rt; at_end, "of {count} tokens");
    }
    Ok(())
}
