//! Texts and the first tokens past a limit in them, worked out by hand.

use super::{
    at_most_the_tokens_before, first_past, stands_as_the_brackets_match, up_to_the_token_alone,
};
use hdc_base::{At, Key, Text, Token, Tokens, Word};
use std::alloc::Global;
use std::test::Fail;

const KEYS: [(&str, Key); 18] = [
    ("(", Key::KOpenParen),
    ("[", Key::KOpenBracket),
    ("{", Key::KOpenBrace),
    (")", Key::KCloseParen),
    ("]", Key::KCloseBracket),
    ("}", Key::KCloseBrace),
    ("\\", Key::KBackslash),
    ("@", Key::KAt),
    ("if", Key::KIf),
    ("case", Key::KCase),
    ("let", Key::KLet),
    (";", Key::KSemicolon),
    (",", Key::KComma),
    ("=", Key::KEqual),
    ("->", Key::KRightArrow),
    ("then", Key::KThen),
    ("of", Key::KOf),
    ("in", Key::KIn),
];

fn word_of(alloc: Global, name: &str) -> Result<Word, Fail> {
    for (text, key) in KEYS {
        if text == name {
            return Ok(Word::Key(key));
        }
    }
    Ok(Word::Var(Text::from_slice(alloc, name.as_bytes())?))
}

// The words of a text, which stand apart.
fn read(alloc: Global, text: &str) -> Result<Tokens, Fail> {
    let mut tokens = Tokens::new(alloc);
    for name in text.split_whitespace() {
        tokens.push(Token {
            at: At { line: 1, col: 1 },
            word: word_of(alloc, name)?,
        })?;
    }
    Ok(tokens)
}

fn many(alloc: Global, key: Key, count: u32) -> Result<Tokens, Fail> {
    let mut tokens = Tokens::new(alloc);
    for _ in 0..count {
        tokens.push(Token {
            at: At { line: 1, col: 1 },
            word: Word::Key(key),
        })?;
    }
    Ok(tokens)
}

fn past(alloc: Global, tokens: &Tokens, limit: u64) -> Result<Option<usize>, Fail> {
    match first_past(alloc, tokens.as_slice(), limit) {
        Ok(found) => Ok(found),
        Err(_) => Err(Fail::from("want of memory")),
    }
}

const TEXTS: [(&str, u64, Option<usize>); 33] = [
    ("", 0, None),
    ("a b ;", 0, None),
    // The nestings are 0 0 0 1 2 2 2 3 3 2.
    ("f = ( \\ x -> [ x ] )", 0, Some(3)),
    ("f = ( \\ x -> [ x ] )", 1, Some(4)),
    ("f = ( \\ x -> [ x ] )", 2, Some(7)),
    ("f = ( \\ x -> [ x ] )", 3, None),
    // The nestings are 0 0 1 1 2.
    ("x @ y @ z", 0, Some(2)),
    ("x @ y @ z", 1, Some(4)),
    ("x @ y @ z", 2, None),
    // Behind a semicolon or a comma nothing before it counts: 0 1 1 0 1, and 0 1 2 3 3 1 2.
    ("\\ a ; \\ b", 0, Some(1)),
    ("\\ a ; \\ b", 1, None),
    ("[ \\ @ b , \\ d", 2, Some(3)),
    ("[ \\ @ b , \\ d", 3, None),
    // They stand in their own bracket alone: 0 1 2 2 2 3.
    ("\\ ( a , ( b", 1, Some(2)),
    ("\\ ( a , ( b", 2, Some(5)),
    ("\\ ( a ; ( b", 2, Some(5)),
    ("\\ ( a , ( b", 3, None),
    // What stands in a closed bracket does not count: 0 1 2 3 3 1 2.
    ("\\ ( if a ) ( b", 2, Some(3)),
    ("\\ ( if a ) ( b", 3, None),
    ("( \\ a , b ) ( c", 1, Some(2)),
    // A closing token stands in what it closes.
    ("( )", 0, Some(1)),
    ("( )", 1, None),
    // The nestings are 0 1 1 1 2 2 2 2 2 2 2 2 1.
    ("case x of { a -> b ; c -> d } y", 0, Some(1)),
    ("case x of { a -> b ; c -> d } y", 1, Some(4)),
    ("case x of { a -> b ; c -> d } y", 2, None),
    // The nestings are 0 1 2 2 2 3 3 3 3 2 2 1 1 2.
    ("let { a = if b then c ; d } in ( e", 1, Some(2)),
    ("let { a = if b then c ; d } in ( e", 2, Some(5)),
    ("let { a = if b then c ; d } in ( e", 3, None),
    // Where nothing is open a closing token changes nothing: 0 0 1 1 1.
    (") \\ a ) b", 0, Some(2)),
    (") \\ a ) b", 1, None),
    // A closing token closes a bracket of any kind: 0 1 0 1 0.
    ("( ] { ) a", 0, Some(1)),
    ("( ] { ) a", 1, None),
    ("a ( [ { b } ] )", 2, Some(4)),
];

#[test]
fn texts(rt: HostRuntime) -> Result<(), Fail> {
    let alloc = rt.alloc();
    for (text, limit, found) in TEXTS {
        let tokens = read(alloc, text)?;
        assert_eq!(rt; past(alloc, &tokens, limit)?, found, "{text} past {limit}");
    }
    at_most_the_tokens_before();
    up_to_the_token_alone();
    stands_as_the_brackets_match();
    Ok(())
}

#[test]
fn many_tokens(rt: HostRuntime) -> Result<(), Fail> {
    let alloc = rt.alloc();
    for key in [
        Key::KOpenParen,
        Key::KOpenBracket,
        Key::KOpenBrace,
        Key::KBackslash,
        Key::KIf,
    ] {
        let tokens = many(alloc, key, 300)?;
        assert_eq!(rt; past(alloc, &tokens, 256)?, Some(257));
        assert_eq!(rt; past(alloc, &tokens, 298)?, Some(299));
        assert_eq!(rt; past(alloc, &tokens, 299)?, None);
    }
    let tokens = many(alloc, Key::KOpenParen, 1_000_000)?;
    assert_eq!(rt; past(alloc, &tokens, u64::MAX)?, None);
    assert_eq!(rt; past(alloc, &tokens, 999_998)?, Some(999_999));
    Ok(())
}
