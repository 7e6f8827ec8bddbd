//! Tokens and their layouts, worked out by hand.

use super::{keeps_tokens, lay_out, places_inserted};
use hdc_base::{At, Key, Text, Token, Tokens, Word};
use std::alloc::Global;
use std::test::Fail;

const KEYS: [(&str, Key); 19] = [
    ("{", Key::KOpenBrace),
    (";", Key::KSemicolon),
    ("}", Key::KCloseBrace),
    ("let", Key::KLet),
    ("in", Key::KIn),
    ("if", Key::KIf),
    ("then", Key::KThen),
    ("else", Key::KElse),
    ("case", Key::KCase),
    ("of", Key::KOf),
    ("where", Key::KWhere),
    ("module", Key::KModule),
    ("(", Key::KOpenParen),
    (")", Key::KCloseParen),
    ("[", Key::KOpenBracket),
    ("]", Key::KCloseBracket),
    (",", Key::KComma),
    ("|", Key::KBar),
    ("=", Key::KEqual),
];

fn word_of(alloc: Global, name: &[u8]) -> Result<Word, Fail> {
    for (text, key) in KEYS {
        if text.as_bytes() == name {
            return Ok(Word::Key(key));
        }
    }
    Ok(Word::Var(Text::from_slice(alloc, name)?))
}

// The words of a text, which has only spaces and line feeds between them, with their places, and its end.
fn read(alloc: Global, text: &str) -> Result<(Tokens, At), Fail> {
    let mut tokens = Tokens::new(alloc);
    let mut name: Vec<u8> = Vec::new(alloc);
    let mut start = At { line: 1, col: 1 };
    let mut at = start;
    for byte in text.bytes() {
        if byte == b' ' || byte == b'\n' {
            if !name.is_empty() {
                let word = word_of(alloc, name.as_slice())?;
                tokens.push(Token { at: start, word })?;
                name.clear();
            }
        } else {
            if name.is_empty() {
                start = at;
            }
            name.push(byte)?;
        }
        at = if byte == b'\n' {
            At {
                line: at.line.saturating_add(1),
                col: 1,
            }
        } else {
            At {
                line: at.line,
                col: at.col.saturating_add(1),
            }
        };
    }
    if !name.is_empty() {
        let word = word_of(alloc, name.as_slice())?;
        tokens.push(Token { at: start, word })?;
    }
    Ok((tokens, at))
}

fn show_key(key: Key) -> &'static str {
    for (text, other) in KEYS {
        if key == other {
            return text;
        }
    }
    "?"
}

// A word; for a brace and a semicolon with its place.
fn show_token(alloc: Global, token: &Token) -> Result<String, Fail> {
    Ok(match &token.word {
        Word::Key(key) => {
            let shown = show_key(*key);
            match key {
                Key::KOpenBrace | Key::KSemicolon | Key::KCloseBrace => {
                    format!(in alloc; "{shown}{}:{}", token.at.line, token.at.col)?
                }
                _ => String::from_str(alloc, shown)?,
            }
        }
        Word::Var(name) => String::from_str(alloc, std::str::from_utf8(name.as_slice())?)?,
        _ => String::from_str(alloc, "?")?,
    })
}

// The laid-out words of a text, or the stop.
fn show(alloc: Global, text: &str) -> Result<String, Fail> {
    let (tokens, end) = read(alloc, text)?;
    let mut shown = String::new(alloc);
    match lay_out(alloc, tokens, end) {
        Ok(laid) => {
            for token in laid.as_slice() {
                if !shown.is_empty() {
                    shown.push_str(" ")?;
                }
                let word = show_token(alloc, token)?;
                shown.push_str(word.as_str())?;
            }
        }
        Err(stop) => shown.push_str(format!(in alloc; "{stop}")?.as_str())?,
    }
    Ok(shown)
}

const LINES: [(&str, &str); 22] = [
    // A block stands around a text.
    ("", "{1:1 }1:1"),
    ("a", "{1:1 a }1:2"),
    // A line at the block's column, to its right, and to its left.
    ("a\nb", "{1:1 a ;2:1 b }2:2"),
    ("a\n b", "{1:1 a b }2:3"),
    ("  a\nb", "{1:3 a }2:1 b"),
    ("a\n\n\nb c", "{1:1 a ;4:1 b c }4:4"),
    ("a\n", "{1:1 a }2:1"),
    // Blocks behind `where`.
    ("f where\n x\n y", "{1:1 f where {2:2 x ;3:2 y }3:3 }3:3"),
    (
        "f = x\n where y = a\ng",
        "{1:1 f = x where {2:8 y = a }3:1 ;3:1 g }3:2",
    ),
    (
        "f where g where h",
        "{1:1 f where {1:9 g where {1:17 h }1:18 }1:18 }1:18",
    ),
    // Empty blocks, before a line and at the end.
    ("f where\ng", "{1:1 f where {2:1 }2:1 ;2:1 g }2:2"),
    ("f where", "{1:1 f where {1:8 }1:8 }1:8"),
    ("case x of", "{1:1 case x of {1:10 }1:10 }1:10"),
    ("let\n", "{1:1 let {2:1 }2:1 }2:1"),
    (
        "f where\n g where\n h",
        "{1:1 f where {2:2 g where {3:2 }3:2 ;3:2 h }3:3 }3:3",
    ),
    // Lines that end several blocks.
    (
        "f where\n g where\n  h\ni",
        "{1:1 f where {2:2 g where {3:3 h }4:1 }4:1 ;4:1 i }4:2",
    ),
    (
        "    a where\n   b where\n  c",
        "{1:5 a where {2:4 }2:4 }2:4 b where {3:3 c }3:4",
    ),
    // `where` at a block's own column, and to its right.
    (
        "f where\n x\n where y\ng",
        "{1:1 f where {2:2 x }3:2 where {3:8 y }4:1 ;4:1 g }4:2",
    ),
    ("f\nwhere g", "{1:1 f }2:1 where {2:7 g }2:8"),
    ("f\n where g", "{1:1 f where {2:8 g }2:9 }2:9"),
    (
        "case a of\nwhere",
        "{1:1 case a of {2:1 }2:1 }2:1 where {2:6 }2:6",
    ),
    // What stands open above a block goes with it.
    (
        "f where\n a (\ng )",
        "{1:1 f where {2:2 a ( }3:1 ;3:1 g ) }3:4",
    ),
];

#[test]
fn lines_and_blocks(rt: HostRuntime) -> Result<(), Fail> {
    keeps_tokens();
    places_inserted();
    let alloc = rt.alloc();
    for (text, laid) in LINES {
        assert_eq!(rt; show(alloc, text)?.as_str(), laid, "{text}");
    }
    Ok(())
}

const BRACES: [(&str, &str); 20] = [
    // `module` first, and a brace first.
    ("module M where\nf", "module M where {2:1 f }2:2"),
    ("module M where { f }", "module M where {1:16 f }1:20"),
    ("{ a\nb }", "{1:1 a b }2:3"),
    ("{ a ; b }", "{1:1 a ;1:5 b }1:9"),
    ("{ }\na", "{1:1 }1:3 a"),
    // Lines in explicit blocks, and blocks in them.
    (
        "f where { g\nh }\nk",
        "{1:1 f where {1:9 g h }2:3 ;3:1 k }3:2",
    ),
    ("{ let\n x\n}", "{1:1 let {2:2 x }3:1 }3:1"),
    ("{ f where\ng\n}", "brace at 3:1"),
    ("let\n{ a }", "{1:1 let ;2:1 {2:1 a }2:5 }2:6"),
    ("{ ( }", "{1:1 ( }1:5"),
    ("{ ( } )", "{1:1 ( }1:5 )"),
    // A brace that ends no explicit block, and an end in an explicit block.
    ("}", "brace at 1:1"),
    ("a }", "brace at 1:3"),
    ("{ a", "brace at 1:4"),
    ("{ { a }", "brace at 1:8"),
    ("{ a } }", "brace at 1:7"),
    ("{ let x }", "brace at 1:9"),
    ("{ let x", "brace at 1:8"),
    ("f where { a }\n}", "brace at 2:1"),
    ("f where {\ng where\nh } }", "brace at 3:3"),
];

#[test]
fn braces(rt: HostRuntime) -> Result<(), Fail> {
    let alloc = rt.alloc();
    for (text, laid) in BRACES {
        assert_eq!(rt; show(alloc, text)?.as_str(), laid, "{text}");
    }
    Ok(())
}

const KEYWORDS: [(&str, &str); 20] = [
    // `in` ends the blocks above its `let`.
    ("let x in y", "{1:1 let {1:5 x }1:7 in y }1:11"),
    (
        "main = let x = 1 in x",
        "{1:1 main = let {1:12 x = 1 }1:18 in x }1:22",
    ),
    ("a = let x\n    in y", "{1:1 a = let {1:9 x }2:5 in y }2:9"),
    ("let x\nin y", "{1:1 let {1:5 x }2:1 ;2:1 in y }2:5"),
    (
        "a let b where c in d",
        "{1:1 a let {1:7 b where {1:15 c }1:17 }1:17 in d }1:21",
    ),
    (
        "let a let b in c in d",
        "{1:1 let {1:5 a let {1:11 b }1:13 in c }1:18 in d }1:22",
    ),
    // Without its `let`, and with one that it does not reach.
    ("a in b", "{1:1 a in b }1:7"),
    ("let { a in b }", "{1:1 let {1:5 a in b }1:14 }1:15"),
    ("let a ( in b", "{1:1 let {1:5 a ( in b }1:13 }1:13"),
    ("let a [ in b", "{1:1 let {1:5 a [ in b }1:13 }1:13"),
    // `then` and `else`.
    ("if a then b else c", "{1:1 if a then b else c }1:19"),
    (
        "if case a of b then c",
        "{1:1 if case a of {1:14 b }1:16 then c }1:22",
    ),
    (
        "if a then case b of c else d",
        "{1:1 if a then case b of {1:21 c }1:23 else d }1:29",
    ),
    ("if a of b else c", "{1:1 if a of {1:9 b else c }1:17 }1:17"),
    (
        "if case a of b then c of d then e",
        "{1:1 if case a of {1:14 b }1:16 then c of {1:26 d then e }1:34 }1:34",
    ),
    (
        "if a then b else case c of d else e",
        "{1:1 if a then b else case c of {1:28 d else e }1:36 }1:36",
    ),
    // `of`.
    (
        "case let a of b in c",
        "{1:1 case let {1:10 a }1:12 of {1:15 b in c }1:21 }1:21",
    ),
    (
        "case a of b of c",
        "{1:1 case a of {1:11 b of {1:16 c }1:17 }1:17 }1:17",
    ),
    // `where` and a bar end nothing.
    (
        "case a of b | c where d",
        "{1:1 case a of {1:11 b | c where {1:23 d }1:24 }1:24 }1:24",
    ),
    (
        "let a where b in c",
        "{1:1 let {1:5 a where {1:13 b }1:15 }1:15 in c }1:19",
    ),
];

#[test]
fn keywords(rt: HostRuntime) -> Result<(), Fail> {
    let alloc = rt.alloc();
    for (text, laid) in KEYWORDS {
        assert_eq!(rt; show(alloc, text)?.as_str(), laid, "{text}");
    }
    Ok(())
}

const BRACKETS: [(&str, &str); 16] = [
    // Brackets end the blocks inside them.
    ("( case a of b )", "{1:1 ( case a of {1:13 b }1:15 ) }1:16"),
    ("[ let a ]", "{1:1 [ let {1:7 a }1:9 ] }1:10"),
    ("( ( a ) , b )", "{1:1 ( ( a ) , b ) }1:14"),
    ("a (\nb )", "{1:1 a ( ;2:1 b ) }2:4"),
    // Without its opener, and stopped at the other kind and at a block.
    ("a )", "{1:1 a ) }1:4"),
    ("( [ let a )", "{1:1 ( [ let {1:9 a ) }1:12 }1:12"),
    ("[ ( let a ]", "{1:1 [ ( let {1:9 a ] }1:12 }1:12"),
    ("( let { of a ) }", "brace at 1:16"),
    ("( let { a ) } )", "{1:1 ( let {1:7 a ) }1:13 ) }1:16"),
    // A comma ends them, and leaves its opener.
    (
        "( let a , let b )",
        "{1:1 ( let {1:7 a }1:9 , let {1:15 b }1:17 ) }1:18",
    ),
    ("[ let a , b ]", "{1:1 [ let {1:7 a }1:9 , b ] }1:14"),
    (
        "[ case a of b , c , let d ]",
        "{1:1 [ case a of {1:13 b }1:15 , c , let {1:25 d }1:27 ] }1:28",
    ),
    ("a , b", "{1:1 a , b }1:6"),
    ("let a , b in c", "{1:1 let {1:5 a , b }1:11 in c }1:15"),
    ("( let { a , b } )", "{1:1 ( let {1:7 a , b }1:15 ) }1:18"),
    // A closed bracket is gone.
    (
        "( ( let a ) let b , c )",
        "{1:1 ( ( let {1:9 a }1:11 ) let {1:17 b }1:19 , c ) }1:24",
    ),
];

#[test]
fn brackets(rt: HostRuntime) -> Result<(), Fail> {
    let alloc = rt.alloc();
    for (text, laid) in BRACKETS {
        assert_eq!(rt; show(alloc, text)?.as_str(), laid, "{text}");
    }
    Ok(())
}

const MANY: u32 = 131_072;

fn place(tokens: &mut Tokens, key: Key, line: u32, col: u32) -> Result<(), Fail> {
    tokens.push(Token {
        at: At { line, col },
        word: Word::Key(key),
    })?;
    Ok(())
}

fn count_laid(alloc: Global, tokens: Tokens) -> Result<usize, Fail> {
    match lay_out(alloc, tokens, At { line: MANY, col: 1 }) {
        Ok(laid) => Ok(laid.len()),
        Err(_) => Err(Fail::from("no layout")),
    }
}

// Each of these would take hours if a token walked over the stack and left it as it is.
#[test]
fn openers_on_lines(rt: HostRuntime) -> Result<(), Fail> {
    let alloc = rt.alloc();
    for key in [Key::KOpenParen, Key::KIf, Key::KCase] {
        let mut tokens = Tokens::new(alloc);
        for line in 0..MANY {
            place(&mut tokens, key, line, 1)?;
        }
        // A block, and a semicolon before each line but the first.
        assert_eq!(rt; count_laid(alloc, tokens)?, 131_072 + 2 + 131_071);
    }
    Ok(())
}

#[test]
fn answers_that_find_nothing(rt: HostRuntime) -> Result<(), Fail> {
    let alloc = rt.alloc();
    let mut tokens = Tokens::new(alloc);
    for _ in 0..MANY {
        place(&mut tokens, Key::KIf, 1, 1)?;
    }
    for _ in 0..MANY {
        place(&mut tokens, Key::KIn, 1, 1)?;
        place(&mut tokens, Key::KCloseParen, 1, 1)?;
        place(&mut tokens, Key::KComma, 1, 1)?;
    }
    assert_eq!(rt; count_laid(alloc, tokens)?, 4 * 131_072 + 2);
    Ok(())
}

#[test]
fn blocks_that_one_answer_ends(rt: HostRuntime) -> Result<(), Fail> {
    let alloc = rt.alloc();
    let mut tokens = Tokens::new(alloc);
    place(&mut tokens, Key::KLet, 1, 1)?;
    for col in 2..MANY {
        place(&mut tokens, Key::KWhere, 1, col)?;
    }
    place(&mut tokens, Key::KBar, 1, MANY)?;
    place(&mut tokens, Key::KIn, 1, MANY)?;
    // A block for the text and one behind each of the first 131,071 tokens, two braces each.
    assert_eq!(rt; count_laid(alloc, tokens)?, 131_073 + 2 * 131_072);
    Ok(())
}

#[test]
fn lines_at_falling_columns(rt: HostRuntime) -> Result<(), Fail> {
    let alloc = rt.alloc();
    let mut tokens = Tokens::new(alloc);
    for col in 1..MANY {
        place(&mut tokens, Key::KWhere, 1, col)?;
    }
    place(&mut tokens, Key::KBar, 1, MANY)?;
    for line in 2..MANY {
        place(&mut tokens, Key::KBar, line, MANY.saturating_sub(line))?;
    }
    // A block at each of the columns from 1 to 131,072, and a semicolon before each later line.
    assert_eq!(rt;
        count_laid(alloc, tokens)?,
        131_072 + 131_070 + 2 * 131_072 + 131_070
    );
    Ok(())
}
