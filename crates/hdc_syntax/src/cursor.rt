//! A place in a list of tokens.

ghost use Rattle.std.specs.Prelude.{◌≡◌, length};
ghost use Rattle.hdc_syntax.specs.Parser as parser;
ghost use Rattle.hdc_syntax.specs.Words as words;
ghost use Rattle.hdc_syntax.specs.Results.{Reads};

use crate::stop::Stop;
use hdc_base::{At, Key, Runes, Text, Token, Word};
use hdc_tree::{Literal, Name};
use std::alloc::Global;

/// The tokens that are still to be read.
#[derive(Clone, Copy)]
pub struct Cursor<'a> {
    pub alloc: Global,
    pub rest: &'a [Token],
}

/// The number of a key.
fn code(key: Key) -> u8
    ensures { result ≡ words.code key }
{
    match key {
        Key::KCase => 0,
        Key::KClass => 1,
        Key::KData => 2,
        Key::KDefault => 3,
        Key::KDeriving => 4,
        Key::KDo => 5,
        Key::KElse => 6,
        Key::KIf => 7,
        Key::KImport => 8,
        Key::KIn => 9,
        Key::KInfix => 10,
        Key::KInfixl => 11,
        Key::KInfixr => 12,
        Key::KInstance => 13,
        Key::KLet => 14,
        Key::KModule => 15,
        Key::KNewtype => 16,
        Key::KOf => 17,
        Key::KThen => 18,
        Key::KType => 19,
        Key::KWhere => 20,
        Key::KUnderscore => 21,
        Key::KDots => 22,
        Key::KColon => 23,
        Key::KDoubleColon => 24,
        Key::KEqual => 25,
        Key::KBackslash => 26,
        Key::KBar => 27,
        Key::KLeftArrow => 28,
        Key::KRightArrow => 29,
        Key::KAt => 30,
        Key::KTilde => 31,
        Key::KDoubleArrow => 32,
        Key::KOpenParen => 33,
        Key::KCloseParen => 34,
        Key::KComma => 35,
        Key::KSemicolon => 36,
        Key::KOpenBracket => 37,
        Key::KCloseBracket => 38,
        Key::KOpenBrace => 39,
        Key::KCloseBrace => 40,
        Key::KBackquote => 41,
    }
}

impl<'a> Cursor<'a> {
    /// The refusal of the next token.
    pub fn refuse(&self) -> Stop
        ensures { result ≡ Stop.Syntax (length self.now.rest.now) }
    {
        Stop::Syntax(self.rest.len())
    }

    /// The next token is this key.
    pub fn sees(&self, key: Key) -> bool
        ensures { result ≡ words.is key (parser.head self.now.rest.now) }
    {
        match self.rest {
            [] => false,
            [first, ..] => match &first.word {
                Word::Key(found) => code(*found) == code(key),
                _ => false,
            },
        }
    }

    /// This key, and its place.
    pub fn key(&mut self, key: Key) -> Result<At, Stop>
        ensures { Reads (words.fixed key self.old.rest.now) result self.new.rest.now }
    {
        match self.rest {
            [] => Err(self.refuse()),
            [first, rest @ ..] => match &first.word {
                Word::Key(found) if code(*found) == code(key) => {
                    self.rest = rest;
                    Ok(first.at)
                }
                _ => Err(self.refuse()),
            },
        }
    }

    /// The next token is a name that begins with a small letter.
    pub fn sees_small(&self) -> bool
        ensures { result ≡ words.is_small (parser.head self.now.rest.now) }
    {
        match self.rest {
            [] => false,
            [first, ..] => matches!(&first.word, Word::Var(_)),
        }
    }

    /// A name that begins with a small letter.
    pub fn small(&mut self) -> Result<Name, Stop>
        ensures { Reads (words.small self.old.rest.now) result self.new.rest.now }
    {
        match self.rest {
            [] => Err(self.refuse()),
            [first, rest @ ..] => match &first.word {
                Word::Var(text) => {
                    let text = Text::from_slice(self.alloc, text.as_slice())?;
                    self.rest = rest;
                    Ok(Name { at: first.at, text })
                }
                _ => Err(self.refuse()),
            },
        }
    }

    /// The next token is a name that begins with a capital letter.
    pub fn sees_capital(&self) -> bool
        ensures { result ≡ words.is_capital (parser.head self.now.rest.now) }
    {
        match self.rest {
            [] => false,
            [first, ..] => matches!(&first.word, Word::Con(_)),
        }
    }

    /// A name that begins with a capital letter.
    pub fn capital(&mut self) -> Result<Name, Stop>
        ensures { Reads (words.capital self.old.rest.now) result self.new.rest.now }
    {
        match self.rest {
            [] => Err(self.refuse()),
            [first, rest @ ..] => match &first.word {
                Word::Con(text) => {
                    let text = Text::from_slice(self.alloc, text.as_slice())?;
                    self.rest = rest;
                    Ok(Name { at: first.at, text })
                }
                _ => Err(self.refuse()),
            },
        }
    }

    /// The next token is a name of symbols.
    pub fn sees_symbol(&self) -> bool
        ensures { result ≡ words.is_symbol (parser.head self.now.rest.now) }
    {
        match self.rest {
            [] => false,
            [first, ..] => matches!(&first.word, Word::Sym(_)),
        }
    }

    /// A name of symbols.
    pub fn symbol(&mut self) -> Result<Name, Stop>
        ensures { Reads (words.symbol self.old.rest.now) result self.new.rest.now }
    {
        match self.rest {
            [] => Err(self.refuse()),
            [first, rest @ ..] => match &first.word {
                Word::Sym(text) => {
                    let text = Text::from_slice(self.alloc, text.as_slice())?;
                    self.rest = rest;
                    Ok(Name { at: first.at, text })
                }
                _ => Err(self.refuse()),
            },
        }
    }

    /// The next token is the sign `-`.
    pub fn sees_minus(&self) -> bool
        ensures { result ≡ words.is_minus (parser.head self.now.rest.now) }
    {
        match self.rest {
            [] => false,
            [first, ..] => match &first.word {
                Word::Sym(text) => text.as_slice() == b"-".as_slice(),
                _ => false,
            },
        }
    }

    /// The sign `-`, and its place.
    pub fn minus(&mut self) -> Result<At, Stop>
        ensures { Reads (words.minus self.old.rest.now) result self.new.rest.now }
    {
        match self.rest {
            [] => Err(self.refuse()),
            [first, rest @ ..] => match &first.word {
                Word::Sym(text) if text.as_slice() == b"-".as_slice() => {
                    self.rest = rest;
                    Ok(first.at)
                }
                _ => Err(self.refuse()),
            },
        }
    }

    /// A number, and its place.
    pub fn number(&mut self) -> Result<(At, u64), Stop>
        ensures { Reads (words.number self.old.rest.now) result self.new.rest.now }
    {
        match self.rest {
            [] => Err(self.refuse()),
            [first, rest @ ..] => match &first.word {
                Word::Num(number) => {
                    self.rest = rest;
                    Ok((first.at, *number))
                }
                _ => Err(self.refuse()),
            },
        }
    }

    /// The next token is a literal.
    pub fn sees_literal(&self) -> bool
        ensures { result ≡ words.is_literal (parser.head self.now.rest.now) }
    {
        match self.rest {
            [] => false,
            [first, ..] => matches!(&first.word, Word::Num(_) | Word::Chr(_) | Word::Str(_)),
        }
    }

    /// A literal, and its place.
    pub fn literal(&mut self) -> Result<(At, Literal), Stop>
        ensures { Reads (words.literal self.old.rest.now) result self.new.rest.now }
    {
        match self.rest {
            [] => Err(self.refuse()),
            [first, rest @ ..] => match &first.word {
                Word::Num(number) => {
                    self.rest = rest;
                    Ok((first.at, Literal::Num(*number)))
                }
                Word::Chr(code) => {
                    self.rest = rest;
                    Ok((first.at, Literal::Chr(*code)))
                }
                Word::Str(codes) => {
                    let codes = Runes::from_slice(self.alloc, codes.as_slice())?;
                    self.rest = rest;
                    Ok((first.at, Literal::Str(codes)))
                }
                _ => Err(self.refuse()),
            },
        }
    }
}
