//! Texts and their lexemes, worked out by hand.

use super::{Form, LexStop, end_of, lex};
use hdc_base::{At, Word};
use std::alloc::Global;
use std::test::Fail;

fn show_word(alloc: Global, word: &Word) -> Result<String, Fail> {
    Ok(match word {
        Word::Var(name) => format!(in alloc; "var {}", std::str::from_utf8(name.as_slice())?)?,
        Word::Con(name) => format!(in alloc; "con {}", std::str::from_utf8(name.as_slice())?)?,
        Word::Sym(name) => format!(in alloc; "sym {}", std::str::from_utf8(name.as_slice())?)?,
        Word::Num(number) => format!(in alloc; "num {number}")?,
        Word::Chr(code) => format!(in alloc; "chr {code}")?,
        Word::Str(codes) => {
            let mut shown = String::new(alloc);
            shown.push_str("str")?;
            for code in codes.as_slice() {
                shown.push_str(format!(in alloc; " {code}")?.as_str())?;
            }
            shown
        }
        Word::Key(key) => format!(in alloc; "{key:?}")?,
    })
}

// The places and the words of a text's lexemes, or its stop.
fn show(alloc: Global, text: &[u8], form: Form) -> Result<String, Fail> {
    let mut shown = String::new(alloc);
    if text.len() > 1_048_576 {
        return Err(Fail::from("too long"));
    }
    match lex(alloc, text, form) {
        Ok(tokens) => {
            for token in tokens.as_slice() {
                if !shown.is_empty() {
                    shown.push_str("; ")?;
                }
                let word = show_word(alloc, &token.word)?;
                shown.push_str(format!(in alloc;
                    "{}:{} {word}",
                    token.at.line, token.at.col
                )?.as_str())?;
            }
        }
        Err(stop) => shown.push_str(format!(in alloc; "{stop}")?.as_str())?,
    }
    Ok(shown)
}

const NAMES: [(&str, &str); 13] = [
    // Nothing, and white.
    ("", ""),
    (" \t\r\n", ""),
    // Names.
    ("x", "1:1 var x"),
    ("_x1'a_B", "1:1 var _x1'a_B"),
    ("x'", "1:1 var x'"),
    ("_", "1:1 KUnderscore"),
    ("__", "1:1 var __"),
    ("Ab'1_", "1:1 con Ab'1_"),
    ("aB Ba", "1:1 var aB; 1:4 con Ba"),
    ("A.b", "1:1 con A; 1:2 sym .; 1:3 var b"),
    // Reserved words, and names that begin with them.
    (
        "case class data default deriving do else if import in infix",
        "1:1 KCase; 1:6 KClass; 1:12 KData; 1:17 KDefault; 1:25 KDeriving; 1:34 KDo; 1:37 KElse; 1:42 KIf; 1:45 KImport; 1:52 KIn; 1:55 KInfix",
    ),
    (
        "infixl infixr instance let module newtype of then type where",
        "1:1 KInfixl; 1:8 KInfixr; 1:15 KInstance; 1:24 KLet; 1:28 KModule; 1:35 KNewtype; 1:43 KOf; 1:46 KThen; 1:51 KType; 1:56 KWhere",
    ),
    ("inx if' Case", "1:1 var inx; 1:5 var if'; 1:9 con Case"),
];

#[test]
fn names(rt: HostRuntime) -> Result<(), Fail> {
    let alloc = rt.alloc();
    for (text, lexemes) in NAMES {
        assert_eq!(rt;
            show(alloc, text.as_bytes(), Form::Program)?.as_str(),
            lexemes,
            "{text}"
        );
    }
    Ok(())
}

const SYMBOLS: [(&str, &str); 7] = [
    // Names of symbols, and reserved operators.
    ("!#$%&*+./<=>?@\\^-~:|", "1:1 sym !#$%&*+./<=>?@\\^-~:|"),
    (
        ".. : :: = \\ | <- -> @ ~ =>",
        "1:1 KDots; 1:4 KColon; 1:6 KDoubleColon; 1:9 KEqual; 1:11 KBackslash; 1:13 KBar; 1:15 KLeftArrow; 1:18 KRightArrow; 1:21 KAt; 1:23 KTilde; 1:25 KDoubleArrow",
    ),
    (">=", "1:1 sym >="),
    (
        "== ... :+ <-- ->>",
        "1:1 sym ==; 1:4 sym ...; 1:8 sym :+; 1:11 sym <--; 1:15 sym ->>",
    ),
    (
        "\\x->x",
        "1:1 KBackslash; 1:2 var x; 1:3 KRightArrow; 1:5 var x",
    ),
    ("- -1", "1:1 sym -; 1:3 sym -; 1:4 num 1"),
    // Special bytes.
    (
        "(),;[]{}`",
        "1:1 KOpenParen; 1:2 KCloseParen; 1:3 KComma; 1:4 KSemicolon; 1:5 KOpenBracket; 1:6 KCloseBracket; 1:7 KOpenBrace; 1:8 KCloseBrace; 1:9 KBackquote",
    ),
];

#[test]
fn symbols(rt: HostRuntime) -> Result<(), Fail> {
    let alloc = rt.alloc();
    for (text, lexemes) in SYMBOLS {
        assert_eq!(rt;
            show(alloc, text.as_bytes(), Form::Program)?.as_str(),
            lexemes,
            "{text}"
        );
    }
    Ok(())
}

const NUMBERS: [(&str, &str); 22] = [
    // Numbers.
    ("0 007 42", "1:1 num 0; 1:3 num 7; 1:7 num 42"),
    ("0x1F 0Xff", "1:1 num 31; 1:6 num 255"),
    ("0o17 0O7", "1:1 num 15; 1:6 num 7"),
    (
        "0x 0xg 0o8",
        "1:1 num 0; 1:2 var x; 1:4 num 0; 1:5 var xg; 1:8 num 0; 1:9 var o8",
    ),
    ("0o18", "1:1 num 1; 1:4 num 8"),
    ("1x", "1:1 num 1; 1:2 var x"),
    ("9223372036854775807", "1:1 num 9223372036854775807"),
    ("9223372036854775808", "literal at 1:1"),
    ("-9223372036854775808", "literal at 1:2"),
    ("0x7fffffffffffffff", "1:1 num 9223372036854775807"),
    ("0x8000000000000000", "literal at 1:1"),
    ("0xffffffffffffffffffff", "literal at 1:1"),
    ("0o777777777777777777777", "1:1 num 9223372036854775807"),
    ("99999999999999999999999", "literal at 1:1"),
    ("main = 1.5", "literal at 1:8"),
    (
        "1. 1.x",
        "1:1 num 1; 1:2 sym .; 1:4 num 1; 1:5 sym .; 1:6 var x",
    ),
    ("1..5", "1:1 num 1; 1:2 KDots; 1:4 num 5"),
    ("1e5", "literal at 1:1"),
    ("2E-3", "literal at 1:1"),
    ("2e+3", "literal at 1:1"),
    (
        "1e 1e+ 1ex",
        "1:1 num 1; 1:2 var e; 1:4 num 1; 1:5 var e; 1:6 sym +; 1:8 num 1; 1:9 var ex",
    ),
    ("0x1.5", "1:1 num 1; 1:4 sym .; 1:5 num 5"),
];

#[test]
fn numbers(rt: HostRuntime) -> Result<(), Fail> {
    let alloc = rt.alloc();
    for (text, lexemes) in NUMBERS {
        assert_eq!(rt;
            show(alloc, text.as_bytes(), Form::Program)?.as_str(),
            lexemes,
            "{text}"
        );
    }
    Ok(())
}

const CHARACTERS: [(&str, &str); 21] = [
    // Characters.
    (
        "'a' ' ' '\"' '~'",
        "1:1 chr 97; 1:5 chr 32; 1:9 chr 34; 1:13 chr 126",
    ),
    (
        "'\\a''\\b''\\f''\\n''\\r''\\t''\\v'",
        "1:1 chr 7; 1:5 chr 8; 1:9 chr 12; 1:13 chr 10; 1:17 chr 13; 1:21 chr 9; 1:25 chr 11",
    ),
    ("'\\\\''\\\"''\\''", "1:1 chr 92; 1:5 chr 34; 1:9 chr 39"),
    (
        "'\\65' '\\x41' '\\o101'",
        "1:1 chr 65; 1:7 chr 65; 1:14 chr 65",
    ),
    (
        "'\\1114111' '\\x10fFfF'",
        "1:1 chr 1114111; 1:12 chr 1114111",
    ),
    ("'\\1114112'", "literal at 1:1"),
    ("'\\x110000'", "literal at 1:1"),
    ("''", "literal at 1:1"),
    ("'ab'", "literal at 1:1"),
    ("'\\&'", "literal at 1:1"),
    ("'\\q'", "literal at 1:1"),
    ("'\\xg'", "literal at 1:1"),
    ("'\\X41'", "literal at 1:1"),
    ("'", "unclosed at 1:1"),
    ("x 'a", "unclosed at 1:3"),
    ("'\\", "unclosed at 1:1"),
    ("'\n'", "unclosed at 1:1"),
    ("'a\n'", "unclosed at 1:1"),
    ("'\t'", "byte at 1:2"),
    ("'a\t'", "byte at 1:3"),
    ("a'b'", "1:1 var a'b'"),
];

#[test]
fn characters(rt: HostRuntime) -> Result<(), Fail> {
    let alloc = rt.alloc();
    for (text, lexemes) in CHARACTERS {
        assert_eq!(rt;
            show(alloc, text.as_bytes(), Form::Program)?.as_str(),
            lexemes,
            "{text}"
        );
    }
    Ok(())
}

const STRINGS: [(&str, &str); 14] = [
    // Strings.
    ("\"\" \"ab\"", "1:1 str; 1:4 str 97 98"),
    ("\"it's\"", "1:1 str 105 116 39 115"),
    ("\"\\\"\\\\\\'\"", "1:1 str 34 92 39"),
    ("\"\\1\\&2\\&\"", "1:1 str 1 50"),
    ("\"\\12a\\xAg\\o78\"", "1:1 str 12 97 10 103 7 56"),
    ("main = \"a", "unclosed at 1:8"),
    ("\"a\nb\"", "unclosed at 1:1"),
    ("\"a\\", "unclosed at 1:1"),
    ("\"a\\\n\\b\"", "unclosed at 1:1"),
    ("\"ab\\q\tc", "literal at 1:1"),
    ("\"ab\tc\\q\"", "byte at 1:4"),
    ("\"a\\\tb\"", "byte at 1:4"),
    ("\"\\1114112", "literal at 1:1"),
    ("\"--{-\"", "1:1 str 45 45 123 45"),
];

#[test]
fn strings(rt: HostRuntime) -> Result<(), Fail> {
    let alloc = rt.alloc();
    for (text, lexemes) in STRINGS {
        assert_eq!(rt;
            show(alloc, text.as_bytes(), Form::Program)?.as_str(),
            lexemes,
            "{text}"
        );
    }
    Ok(())
}

const COMMENTS: [(&str, &str); 14] = [
    // Comments to the line's end.
    ("x -- y\nz", "1:1 var x; 2:1 var z"),
    ("--", ""),
    ("-----\tx", ""),
    ("--x\"'\n1", "2:1 num 1"),
    ("--| x", "1:1 sym --|; 1:5 var x"),
    ("|-- x", "1:1 sym |--; 1:5 var x"),
    ("--> --", "1:1 sym -->"),
    ("--{- x\ny", "2:1 var y"),
    // Comments that nest.
    ("{- a -} b", "1:9 var b"),
    ("{--}x{-{--}-}y{-\n-}z", "1:5 var x; 1:14 var y; 2:3 var z"),
    ("{-}-}x", "1:6 var x"),
    ("{- {- -} main = 1", "unclosed at 1:1"),
    ("x {-", "unclosed at 1:3"),
    (
        "{ -} x",
        "1:1 KOpenBrace; 1:3 sym -; 1:4 KCloseBrace; 1:6 var x",
    ),
];

#[test]
fn comments(rt: HostRuntime) -> Result<(), Fail> {
    let alloc = rt.alloc();
    for (text, lexemes) in COMMENTS {
        assert_eq!(rt;
            show(alloc, text.as_bytes(), Form::Program)?.as_str(),
            lexemes,
            "{text}"
        );
    }
    Ok(())
}

const LINES: [(&str, &str); 3] = [
    // Lines of programs.
    (
        "main = 0x10 + -- x\n    1",
        "1:1 var main; 1:6 KEqual; 1:8 num 16; 1:13 sym +; 2:5 num 1",
    ),
    (
        "main = 1 --> 2",
        "1:1 var main; 1:6 KEqual; 1:8 num 1; 1:10 sym -->; 1:14 num 2",
    ),
    // Tabs go to columns 9, 17 and so on; a carriage return is one column.
    (
        "\tx\ty\n1234567\tz\r8",
        "1:9 var x; 1:17 var y; 2:1 num 1234567; 2:9 var z; 2:11 num 8",
    ),
];

#[test]
fn lines(rt: HostRuntime) -> Result<(), Fail> {
    let alloc = rt.alloc();
    for (text, lexemes) in LINES {
        assert_eq!(rt;
            show(alloc, text.as_bytes(), Form::Program)?.as_str(),
            lexemes,
            "{text}"
        );
    }
    Ok(())
}

#[test]
fn inputs(rt: HostRuntime) -> Result<(), Fail> {
    let alloc = rt.alloc();
    let inputs = [
        ("[1, 9223372036854775808]", "literal at 1:5"),
        (
            "-9223372036854775808",
            "1:1 sym -; 1:2 num 9223372036854775808",
        ),
        (
            "- {- -} --\n 0x8000000000000000",
            "1:1 sym -; 2:2 num 9223372036854775808",
        ),
        ("-9223372036854775809", "literal at 1:2"),
        ("--9223372036854775808", ""),
        ("+-9223372036854775808", "literal at 1:3"),
        ("- 1 9223372036854775808", "literal at 1:5"),
    ];
    for (text, lexemes) in inputs {
        assert_eq!(rt;
            show(alloc, text.as_bytes(), Form::Input)?.as_str(),
            lexemes,
            "{text}"
        );
    }
    Ok(())
}

#[test]
fn bytes_behind_127(rt: HostRuntime) -> Result<(), Fail> {
    let alloc = rt.alloc();
    assert_eq!(rt;
        show(alloc, b"a \x80", Form::Program)?.as_str(),
        "byte at 1:3"
    );
    assert_eq!(rt;
        show(alloc, b"-- \xff\n{- \xc3\xa4 -}x", Form::Program)?.as_str(),
        "2:9 var x"
    );
    assert_eq!(rt;
        show(alloc, b"\"a\x7f\"", Form::Program)?.as_str(),
        "byte at 1:3"
    );
    assert_eq!(rt;
        show(alloc, b"'\\\xff'", Form::Program)?.as_str(),
        "byte at 1:3"
    );
    assert_eq!(rt;
        show(alloc, b"\x0b", Form::Program)?.as_str(),
        "byte at 1:1"
    );
    Ok(())
}

#[test]
fn the_place_of_the_end(rt: HostRuntime) -> Result<(), Fail> {
    assert_eq!(rt; end_of(b""), At { line: 1, col: 1 });
    assert_eq!(rt; end_of(b"a\tb\n\n \t\t"), At { line: 3, col: 17 });
    Ok(())
}

#[test]
fn at_most_131072_lexemes(rt: HostRuntime) -> Result<(), Fail> {
    let alloc = rt.alloc();
    let ends = [
        (" {--} ", ""),
        (" {--} y", "too many lexemes at 131073:7"),
        (" {--} y \u{0}", "too many lexemes at 131073:7"),
        ("\u{0} y", "byte at 131073:1"),
    ];
    for (end, stop) in ends {
        let mut text = Vec::new(alloc);
        for _ in 0..131_072 {
            text.extend_from_slice(b"x\n")?;
        }
        text.extend_from_slice(end.as_bytes())?;
        assert_eq!(rt; stop_text(alloc, text.as_slice())?.as_str(), stop, "{end}");
    }
    Ok(())
}

// The stop of a program, or nothing.
fn stop_text(alloc: Global, text: &[u8]) -> Result<String, Fail> {
    if text.len() > 1_048_576 {
        return Err(Fail::from("too long"));
    }
    Ok(match lex(alloc, text, Form::Program) {
        Ok(_) => String::new(alloc),
        Err(stop) => format!(in alloc; "{stop}")?,
    })
}
