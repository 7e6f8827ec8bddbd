//! Programs, with the status and the report of each.

use super::job::{Left, Outside, serve_words};
use std::alloc::{AllocError, Global};
use std::test::Fail;

const NOT_YET: &str = "refused notyet at 1:1\n";

// The reports of one-line programs: an unfolding, on one processor.
fn value(alloc: Global, value: &str) -> Result<String, AllocError> {
    format!(in alloc; "value {value}\nunfoldings 1\nwork 1\nmessages 0\n")
}

fn overflow(alloc: Global, column: u32) -> Result<String, AllocError> {
    format!(in alloc; "trap overflow at 1:{column}\nunfoldings 1\nwork 1\nmessages 0\n")
}

fn left(alloc: Global, text: &[u8]) -> Result<Left, Fail> {
    let outside = Outside {
        name: "file",
        text,
        failing_loads: &[],
        failing_puts: &[],
        room: 1000,
    };
    serve_words(alloc, &["hdc", "run", "file"], &outside)
}

// A text and its value.
const VALUES: [(&str, &str); 32] = [
    // A literal, and the usual precedence.
    ("main = 7", "7"),
    ("main = 1 + 2 * 3", "7"),
    ("main = 1 * 2 + 3", "5"),
    ("main = 2 * 3 + 4 * 5", "26"),
    ("main = 2 + 3 * 4 + 5", "19"),
    ("main = 2 * 3 * 4", "24"),
    ("main = 2 * 3 - 4 * 5", "-14"),
    ("main = 20 - 2 * 3", "14"),
    ("main = 0 * 9223372036854775807", "0"),
    ("main = 9223372036854775807", "9223372036854775807"),
    ("main = 9223372036854775806 + 1", "9223372036854775807"),
    ("main = 0 - 9223372036854775807 - 1", "-9223372036854775808"),
    // Operators of one precedence associate to the left.
    ("main = 10 - 3 - 2", "5"),
    ("main = 10 - 3 + 2", "9"),
    ("main = 10 + 3 - 2 + 4 - 5", "10"),
    ("main = 1 - 2", "-1"),
    // Parentheses.
    ("main = (2 - 5) * 4", "-12"),
    ("main = 10 - (3 - 2)", "9"),
    ("main = 2 * (3 + 4) * 5", "70"),
    ("main = (((7)))", "7"),
    ("main = (1 + 2) * (3 + 4)", "21"),
    ("main = 100 - (1 + (2 + (3 + (4))))", "90"),
    ("main = (0 - 3) * (0 - 4)", "12"),
    ("main = (1) - (2)", "-1"),
    ("main = ((1 + 2) * 3 - (4 - 5) * 6)", "15"),
    // White, and leading zeros.
    ("main=1+2*3", "7"),
    ("main=(1-2)*(3-4)", "1"),
    ("main = ( 1 + 2 ) ", "3"),
    ("  main  =  1  +  2  \n \n\n", "3"),
    ("main = 0010 + 000000000000000000000000007", "17"),
    ("main = 1\n", "1"),
    ("main=0", "0"),
];

#[test]
fn each_program_gives_its_value(rt: HostRuntime) -> Result<(), Fail> {
    for (text, number) in VALUES {
        let left = left(rt.alloc(), text.as_bytes())?;
        let report = value(rt.alloc(), number)?;
        assert_eq!(rt; left.status, 0, "of {text}");
        assert_eq!(rt; left.output.as_slice(), report.as_bytes(), "of {text}");
    }
    Ok(())
}

// A text and the column of its trap.
const OVERFLOWS: [(&str, u32); 9] = [
    ("main = 9223372036854775807 + 1", 28),
    ("main = 4611686018427387904 * 2", 28),
    ("main = 0 - 9223372036854775807 - 2", 32),
    ("main = 1 + 9223372036854775807 * 1 + 5 * 2", 10),
    ("main=9223372036854775807*2+9223372036854775807*3", 25),
    ("main = 1 + 4611686018427387904 * 2", 32),
    ("main = 1 - (2 * (9223372036854775807 + 1))", 38),
    (
        "main = (9223372036854775807 + 1) * (9223372036854775807 + 2)",
        29,
    ),
    ("main = (1 - 2) * 9223372036854775807 - (1 + 1)", 38),
];

#[test]
fn each_trap_stands_at_its_operator(rt: HostRuntime) -> Result<(), Fail> {
    for (text, column) in OVERFLOWS {
        let left = left(rt.alloc(), text.as_bytes())?;
        let report = overflow(rt.alloc(), column)?;
        assert_eq!(rt; left.status, 3, "of {text}");
        assert_eq!(rt; left.output.as_slice(), report.as_bytes(), "of {text}");
    }
    Ok(())
}

// Lines, comments, numbers in other bases, and explicit braces: a text and its value.
const LAID_OUT: [(&str, &str); 29] = [
    ("\nmain = 1", "1"),
    ("main = 1\t", "1"),
    ("main = 1\r\n", "1"),
    ("main =\n 1 +\n 2", "3"),
    ("main = 1\n  + 2\n", "3"),
    ("main = (1\n  + 2)\n", "3"),
    ("main\n =\n 7", "7"),
    ("  main =\n   1\n   - 2\n", "-1"),
    ("main = 1 -- 2", "1"),
    ("-- first\n\nmain = 2 -- last", "2"),
    ("main = {- 1 -} 2", "2"),
    ("{- {- -} \n -} main = 3", "3"),
    ("main = 1 ---- 2\n + 4", "5"),
    ("main = 0x10 + -- x\n    1", "17"),
    ("main = 0X1f * 0o17 - 0O7", "458"),
    ("main = 0x7FFFFFFFFFFFFFFF", "9223372036854775807"),
    ("{ main = 1 + 2 }", "3"),
    ("{main=\n7\n}", "7"),
    ("  {\nmain =\n1\n-\n2\n} -- end", "-1"),
    ("{- a -}\n{ main = 4\n+ 5 }\n", "9"),
    ("main=\t(2\t*\t3)", "6"),
    ("main = 6 -- \u{e9}", "6"),
    ("main = 8 {- \x00\x07\x7F -}", "8"),
    ("\t\tmain = 5", "5"),
    // A head, empty declarations, and nothing behind `where`.
    ("module Main where\nmain = 1", "1"),
    ("module Main (main) where { main = 2 }", "2"),
    ("{ main = 1; }", "1"),
    ("{ ; main = 3 ; ; }", "3"),
    ("main = 1 where {}", "1"),
];

#[test]
fn each_laid_out_program_gives_its_value(rt: HostRuntime) -> Result<(), Fail> {
    for (text, number) in LAID_OUT {
        let left = left(rt.alloc(), text.as_bytes())?;
        let report = value(rt.alloc(), number)?;
        assert_eq!(rt; left.status, 0, "of {text}");
        assert_eq!(rt; left.output.as_slice(), report.as_bytes(), "of {text}");
    }
    Ok(())
}

// A text and its first line.
const PLACES: [(&str, u8, &str); 27] = [
    (
        "main = 9223372036854775807\n + 1",
        3,
        "trap overflow at 2:2\n",
    ),
    (
        "main =\t9223372036854775807 +\t1",
        3,
        "trap overflow at 1:29\n",
    ),
    (
        "{ main = {- -}\n\t0 - 2\n*9223372036854775807 }",
        3,
        "trap overflow at 3:1\n",
    ),
    ("main = 1 }", 1, "refused brace at 1:10\n"),
    ("main = 1\n }", 1, "refused brace at 2:2\n"),
    ("{ main = 1 } }", 1, "refused brace at 1:14\n"),
    ("{ main = 1", 1, "refused brace at 1:11\n"),
    ("{ main = 1\n", 1, "refused brace at 2:1\n"),
    ("main = 1 }\n\"", 1, "refused unclosed at 2:1\n"),
    ("main = \"a", 1, "refused unclosed at 1:8\n"),
    ("main = \"a\nb\"", 1, "refused unclosed at 1:8\n"),
    ("main = 'a", 1, "refused unclosed at 1:8\n"),
    ("{- {- -} main = 1", 1, "refused unclosed at 1:1\n"),
    ("main = 1 {-", 1, "refused unclosed at 1:10\n"),
    ("main = 1.5", 1, "refused literal at 1:8\n"),
    ("main = 1e9", 1, "refused literal at 1:8\n"),
    ("main = 9223372036854775808", 1, "refused literal at 1:8\n"),
    ("main = 0x8000000000000000", 1, "refused literal at 1:8\n"),
    (
        "main =\n - 9223372036854775808",
        1,
        "refused literal at 2:4\n",
    ),
    ("main = ''", 1, "refused literal at 1:8\n"),
    ("main = 'ab'", 1, "refused literal at 1:8\n"),
    ("main = \"\\q\"", 1, "refused literal at 1:8\n"),
    ("main = \"\\1114112\"", 1, "refused literal at 1:8\n"),
    ("main = 1 + \u{e9}", 1, "refused byte at 1:12\n"),
    ("main = 1 \x00", 1, "refused byte at 1:10\n"),
    ("\t'a\t", 1, "refused byte at 1:11\n"),
    ("main = \"\t\"", 1, "refused byte at 1:9\n"),
];

#[test]
fn each_fault_and_trap_has_its_place(rt: HostRuntime) -> Result<(), Fail> {
    for (text, status, line) in PLACES {
        let left = left(rt.alloc(), text.as_bytes())?;
        assert_eq!(rt; left.status, status, "of {text}");
        assert!(rt;
            left.output.as_slice().starts_with(line.as_bytes()),
            "of {text}"
        );
    }
    Ok(())
}

// Programs of the language that are not of the form that is built.
const NOT_BUILT: [&str; 24] = [
    "",
    // A signature, a second binding, and a binding behind `where`.
    "main :: Int\nmain = 1",
    "f = 1\nmain = 1",
    "main = 1 where { x = 2 }",
    "main = - 1",
    "main = 1 2",
    "main = (-1)",
    "main1 = 1",
    "mai = 1",
    "main = 'a'",
    "main = \"a\"",
    "main = ()",
    "main = (1) (2)",
    "main = (1 +) 2",
    "main = let in 1",
    // A name that hides another, functions that need one another, and equations with an empty member between.
    "f x = let x = 1 in x\nmain = f 1",
    "main = let f x = g x; g x = f x in f 1",
    "{ f 0 = 1; ; f x = 2; main = 1 }",
    // What the prelude has, and what a program declares under a name of the prelude's.
    "main = map abs [x | Just x <- [Nothing]]",
    "data Maybe = Nothing\nf Nothing = 1\nmain = 1",
    // A synonym whose parameter goes, and one that only hands it on.
    "type S a = Int\ndata T a = K (S (T [a]))\nmain = 1",
    "type S a = a\ndata T a = K (T (S a))\nmain = 1",
    "type A = [B]\ntype B = Int\nmain = 1",
    "data T a = K (U [a])\ndata U a = L a\nmain = 1",
];

#[test]
fn other_programs_are_not_built(rt: HostRuntime) -> Result<(), Fail> {
    for text in NOT_BUILT {
        let left = left(rt.alloc(), text.as_bytes())?;
        assert_eq!(rt; left.status, 1, "of {text}");
        assert_eq!(rt; left.output.as_slice(), NOT_YET.as_bytes(), "of {text}");
    }
    Ok(())
}

fn long_chain(alloc: Global, count: usize) -> Result<Vec<u8>, AllocError> {
    let mut text = Vec::from_slice(alloc, b"main = ")?;
    for _ in 0..count {
        text.extend_from_slice(b"1 : ")?;
    }
    text.extend_from_slice(b"[]")?;
    Ok(text)
}

#[test]
fn a_tree_is_1024_deep(rt: HostRuntime) -> Result<(), Fail> {
    let text = long_chain(rt.alloc(), 1023)?;
    let shallow = left(rt.alloc(), text.as_slice())?;
    assert_eq!(rt; shallow.status, 1);
    assert_eq!(rt; shallow.output.as_slice(), NOT_YET.as_bytes());
    let text = long_chain(rt.alloc(), 1024)?;
    let deep = left(rt.alloc(), text.as_slice())?;
    assert_eq!(rt; deep.status, 8);
    assert_eq!(rt;
        deep.output.as_slice(),
        b"limit depth at 1:4100\n".as_slice()
    );
    Ok(())
}

// Texts that are no program, and the place where that shows.
const SYNTAX: [(&str, &str); 49] = [
    ("main", "1:5"),
    ("main =", "1:7"),
    ("main = 1 +", "1:11"),
    ("main = (1 +", "1:12"),
    ("main = + 1", "1:8"),
    ("main = 1 + * 2", "1:12"),
    ("main == 1", "1:10"),
    ("main =\n1", "2:1"),
    ("main = (1\n+ 2)", "2:1"),
    ("module main where main = 1", "1:8"),
    ("main = (1", "1:10"),
    ("main = 1)", "1:9"),
    ("main = )1(", "1:8"),
    // The eighth member of a tuple, and a precedence of two digits.
    ("main = (1,2,3,4,5,6,7,8)", "1:22"),
    ("infixl 10 +\nmain = 1", "1:8"),
    // No alternative, no `else`, and no pattern behind a backslash.
    ("main = case 1 of { }", "1:20"),
    ("main = if 1 then 2", "1:19"),
    ("main = \\ -> 1", "1:10"),
    // No pattern is bound at top level.
    ("x : xs = 1", "1:3"),
    ("(x, y) = 1", "1:8"),
    ("Just x = 1", "1:6"),
    // The further of two readings of a qualifier.
    ("main = [x | x + y <- z]", "1:19"),
    ("main = [x | x <- )", "1:18"),
    ("main = [x | (x, 1 + 2) <- z]", "1:24"),
    // A name of symbols that begins with a colon, a reserved word, and a section's second operator.
    ("main = 1 :+ 2", "1:10"),
    ("class A", "1:1"),
    ("main = (1 + +)", "1:13"),
    // The eighth member of a tuple of types and of patterns.
    ("f :: (a,a,a,a,a,a,a,a)", "1:20"),
    ("f (a,b,c,d,e,f,g,h) = 1", "1:17"),
    // Operators that have no fixity declaration, alternatives that are all empty, and a section of `-`.
    ("infixr 5 :", "1:10"),
    ("infixr 5 `K`", "1:11"),
    ("main = case 1 of { ; }", "1:22"),
    ("main = case 1 of", "1:17"),
    ("main = (- - 1)", "1:11"),
    // An open operand behind a function, and a token behind the program.
    ("main = f \\x -> x", "1:10"),
    ("{ main = 1 } x", "1:14"),
    // What other languages of this family have.
    ("import A", "1:1"),
    ("f :: Eq a => a", "1:11"),
    ("f ~x = 1", "1:3"),
    ("f (n + 1) = n", "1:6"),
    ("main = (1 :: Int)", "1:11"),
    ("main = do x", "1:8"),
    ("data T = T { x :: Int }", "1:12"),
    ("data T = A :+ B", "1:12"),
    ("main = (,) 1 2", "1:9"),
    ("main = [1, 2 .. 3]", "1:14"),
    ("main = [1 ..]", "1:13"),
    ("main = let infixl 6 + in 1", "1:12"),
    ("Just x + y = 1", "1:6"),
];

#[test]
fn what_is_no_program_is_refused_at_its_place(rt: HostRuntime) -> Result<(), Fail> {
    for (text, place) in SYNTAX {
        let left = left(rt.alloc(), text.as_bytes())?;
        let line = format!(in rt.alloc(); "refused syntax at {place}\n")?;
        assert_eq!(rt; left.status, 1, "of {text}");
        assert_eq!(rt; left.output.as_slice(), line.as_bytes(), "of {text}");
    }
    Ok(())
}

// Programs with a chain or a section that has no tree, and its place.
const FIXITY: [(&str, &str); 6] = [
    ("main = 1 - - 2", "1:12"),
    ("main = 1 == 2 == 3", "1:15"),
    ("main = (+ 1 == 2 == 3)", "1:9"),
    ("main = f 1 where\n  f x = a . b !! x", "2:15"),
    ("main = 1 + 2\ninfix 6 +\na + b = a\nf = 1 + 2 + 3", "4:11"),
    ("main = let div = 1 in a . b `div` c", "1:30"),
];

#[test]
fn each_chain_without_a_tree_has_its_place(rt: HostRuntime) -> Result<(), Fail> {
    for (text, place) in FIXITY {
        let left = left(rt.alloc(), text.as_bytes())?;
        let line = format!(in rt.alloc(); "refused fixity at {place}\n")?;
        assert_eq!(rt; left.status, 1, "of {text}");
        assert_eq!(rt; left.output.as_slice(), line.as_bytes(), "of {text}");
    }
    Ok(())
}

// Programs that break a rule on names, and the rule with its place.
const NAMES: [(&str, &str); 48] = [
    ("f = 1\nmain = 1\nf = 2", "N2 at 3:1"),
    ("f x x = 1\nmain = 1", "N3 at 1:5"),
    ("f 0 = 1\nf x y = 2\nmain = 1", "N4 at 2:1"),
    ("g :: Int\nmain = 1", "N5 at 1:1"),
    ("f (Just x y) = 1\nmain = 1", "N6 at 1:4"),
    ("f :: Maybe\nf = 1\nmain = 1", "N7 at 1:6"),
    ("data T a = K b\nmain = 1", "N8 at 1:14"),
    ("type A = [B]\ntype B = A\nmain = 1", "N9 at 1:6"),
    ("data T a = K (T [a])\nmain = 1", "N10 at 1:15"),
    ("main = let x = y; y = x in 1", "N11 at 1:12"),
    ("main = let i :: a -> a; i x = x in 1", "N12 at 1:17"),
    // Uses of what is not in scope: variables, operators, constructors and types.
    ("main = x", "N1 at 1:8"),
    ("main = 1 --> 2", "N1 at 1:10"),
    ("main = 1 `f` 2", "N1 at 1:11"),
    ("main = (--> 1)", "N1 at 1:9"),
    ("main = Foo", "N1 at 1:8"),
    ("f Foo = 1\nmain = 1", "N1 at 1:3"),
    ("f :: Foo\nf = 1\nmain = 1", "N1 at 1:6"),
    ("main = [x | x <- x]", "N1 at 1:18"),
    ("main = (\\x -> 1) x", "N1 at 1:18"),
    ("f = 1 where x = 1\nmain = x", "N1 at 2:8"),
    // Names that are bound twice, or are those of skeletons.
    ("main = 1\nmain = 2", "N2 at 2:1"),
    ("f 0 = 1\nf :: Int -> Int\nf x = 2\nmain = 1", "N2 at 3:1"),
    ("x +++ y = 1\nmain = 1\nx +++ y = 2", "N2 at 3:3"),
    ("main = let x = 1; x = 2 in x", "N2 at 1:19"),
    ("main = let (x, y) = 1; x = 2 in x", "N2 at 1:24"),
    ("data T a a = K\nmain = 1", "N2 at 1:10"),
    ("data T = K\ntype T = Int\nmain = 1", "N2 at 2:6"),
    ("data T = K | K\nmain = 1", "N2 at 1:14"),
    ("dcGen = 1\nmain = 1", "N2 at 1:1"),
    ("main = \\dcElem -> 1", "N2 at 1:9"),
    // The second variable of one equation, lambda, alternative or generator.
    ("main = \\x x -> 1", "N3 at 1:11"),
    ("main = case 1 of { (x, [x]) -> 1 }", "N3 at 1:25"),
    ("main = [1 | (x, x@y) <- []]", "N3 at 1:17"),
    // Signatures and fixities.
    ("f :: Int\nf :: Int\nf = 1\nmain = 1", "N5 at 2:1"),
    ("infixl 6 +++\nmain = 1", "N5 at 1:10"),
    ("main = let f :: Int in 1", "N5 at 1:12"),
    // Arguments of constructors and of types.
    ("main = case 1 of { Just -> 1 }", "N6 at 1:20"),
    ("f :: Int Int\nf = 1\nmain = 1", "N7 at 1:6"),
    ("type S a = b\nmain = 1", "N8 at 1:12"),
    // A synonym that only reaches one that reaches itself.
    ("type A = B\ntype B = C\ntype C = B\nmain = 1", "N9 at 2:6"),
    // Data types that use their group at other arguments, also through synonyms.
    ("data T a b = K (T b a)\nmain = 1", "N10 at 1:17"),
    (
        "data T a = K (U [a])\ndata U a = L (T a)\nmain = 1",
        "N10 at 1:15",
    ),
    (
        "type S a = T [a]\ndata T a = K (S a)\nmain = 1",
        "N10 at 2:15",
    ),
    // Values that need themselves through functions.
    ("main = let f x = y; y = f 1 in y", "N11 at 1:21"),
    ("main = 1 where (x, y) = (y, 1)", "N11 at 1:16"),
    // The least place, and there the lowest rule.
    ("main = x\nmain = y", "N1 at 1:8"),
    ("main = let i :: T a; i = 1 in x", "N1 at 1:17"),
];

#[test]
fn each_broken_rule_on_names_has_its_place(rt: HostRuntime) -> Result<(), Fail> {
    for (text, rule) in NAMES {
        let left = left(rt.alloc(), text.as_bytes())?;
        let line = format!(in rt.alloc(); "refused name {rule}\n")?;
        assert_eq!(rt; left.status, 1, "of {text}");
        assert_eq!(rt; left.output.as_slice(), line.as_bytes(), "of {text}");
    }
    Ok(())
}

// `main =` and so many open parentheses, and then a text.
fn parentheses(alloc: Global, count: usize, end: &[u8]) -> Result<Vec<u8>, AllocError> {
    let mut text = Vec::new(alloc);
    text.extend_from_slice(b"main = ")?;
    for _ in 0..count {
        text.extend_from_slice(b"(")?;
    }
    text.extend_from_slice(end)?;
    Ok(text)
}

#[test]
fn tokens_nest_256_deep(rt: HostRuntime) -> Result<(), Fail> {
    let rows: [(usize, &[u8], u8, &str); 6] = [
        // The number stands 256 deep, or one deeper.
        (255, b"1", 1, "refused syntax at 1:264\n"),
        (256, b"1", 8, "limit nesting at 1:264\n"),
        (300, b"1", 8, "limit nesting at 1:264\n"),
        // At one token the syntax is refused, and at an earlier one too.
        (256, b"=", 1, "refused syntax at 1:264\n"),
        (255, b"= (", 1, "refused syntax at 1:263\n"),
        // Behind a backslash a token nests one deeper.
        (255, b"\\x -> 1", 8, "limit nesting at 1:264\n"),
    ];
    for (count, end, status, line) in rows {
        let text = parentheses(rt.alloc(), count, end)?;
        let left = left(rt.alloc(), text.as_slice())?;
        assert_eq!(rt; left.status, status, "of {line}");
        assert_eq!(rt; left.output.as_slice(), line.as_bytes(), "of {line}");
    }
    let mut text = Vec::from_slice(rt.alloc(), b"main = ")?;
    push_deep(&mut text, 300)?;
    let left = left(rt.alloc(), text.as_slice())?;
    assert_eq!(rt; left.status, 8);
    assert_eq!(rt;
        left.output.as_slice(),
        b"limit nesting at 1:264\n".as_slice()
    );
    Ok(())
}

// So many lexemes, each with a space behind it, and then a text.
fn lexemes(alloc: Global, count: usize, end: &[u8]) -> Result<Vec<u8>, AllocError> {
    let mut text = Vec::new(alloc);
    for _ in 0..count {
        text.extend_from_slice(b"1 ")?;
    }
    text.extend_from_slice(end)?;
    Ok(text)
}

#[test]
fn there_may_be_131072_lexemes(rt: HostRuntime) -> Result<(), Fail> {
    let rows: [(&[u8], u8, &str); 5] = [
        (b"", 1, "refused syntax at 1:3\n"),
        (b"-- 1", 1, "refused syntax at 1:3\n"),
        (b"}", 8, "limit tokens at 1:262145\n"),
        (b"1.5", 1, "refused literal at 1:262145\n"),
        (b"\x80", 1, "refused byte at 1:262145\n"),
    ];
    for (end, status, line) in rows {
        let text = lexemes(rt.alloc(), 131_072, end)?;
        let left = left(rt.alloc(), text.as_slice())?;
        assert_eq!(rt; left.status, status);
        assert_eq!(rt; left.output.as_slice(), line.as_bytes());
    }
    Ok(())
}

// `main = (1 + 1) + 1 + ..` with so many operators, one of them in parentheses.
fn long_sum(alloc: Global, operators: usize) -> Result<Vec<u8>, AllocError> {
    let mut text = Vec::from_slice(alloc, b"main = (1 + 1)")?;
    for _ in 1..operators {
        text.extend_from_slice(b" + 1")?;
    }
    Ok(text)
}

// `main = (..(1)..) - (..(1)..)` with so many parentheses open at once.
fn deep_difference(alloc: Global, depth: usize) -> Result<Vec<u8>, AllocError> {
    let mut text = Vec::from_slice(alloc, b"main = ")?;
    push_deep(&mut text, depth)?;
    text.extend_from_slice(b" - ")?;
    push_deep(&mut text, depth)?;
    Ok(text)
}

fn push_deep(text: &mut Vec<u8>, depth: usize) -> Result<(), AllocError> {
    for _ in 0..depth {
        text.extend_from_slice(b"(")?;
    }
    text.extend_from_slice(b"1")?;
    for _ in 0..depth {
        text.extend_from_slice(b")")?;
    }
    Ok(())
}

// No count of operators is too great but by depth, and as many parentheses may be open at once as may nest.
#[test]
fn arithmetic_goes_as_far_as_the_limits(rt: HostRuntime) -> Result<(), Fail> {
    let sum = long_sum(rt.alloc(), 1000)?;
    let report = value(rt.alloc(), "1001")?;
    let left_of_sum = left(rt.alloc(), sum.as_slice())?;
    assert_eq!(rt; left_of_sum.output.as_slice(), report.as_bytes());
    let difference = deep_difference(rt.alloc(), 255)?;
    let report = value(rt.alloc(), "0")?;
    let left_of_difference = left(rt.alloc(), difference.as_slice())?;
    assert_eq!(rt; left_of_difference.output.as_slice(), report.as_bytes());
    Ok(())
}
