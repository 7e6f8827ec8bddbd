//! From a text to its lexemes.

ghost use Rattle.std.specs.Prelude.{◌≡◌, ◌≤◌, ◌^◌, length, nat_le};
ghost use Rattle.hdc_lex.specs.Characters.{offset_of};
ghost use Rattle.hdc_lex.specs.Lexing.{is_minus, most_lexemes, stop_of, Lexes};
ghost use Rattle.hdc_lex.specs.Numbers.{greatest_number};
ghost use Rattle.hdc_lex.specs.Place.{ForAtMost};
ghost use Rattle.hdc_lex.specs.declared.lexer.LexStop.TheVariants as stop;

use crate::lexeme::{Fault, Form, Piece};
use crate::piece::piece_at;
use crate::place::behind_all;
use crate::run::{behind, front};
use hdc_base::{At, Token, Tokens, Want, Word};
use std::alloc::{AllocError, Global};
use thiserror::Error;

/// Why a text has no lexemes.
#[derive(Clone, Copy, Debug, Drop, Error, PartialEq, Eq)]
pub enum LexStop {
    /// The byte at the place begins no lexeme, or may not stand in a literal.
    #[error("byte at {}:{}", .0.line, .0.col)]
    Byte(At),
    /// The literal that begins at the place is malformed or too large.
    #[error("literal at {}:{}", .0.line, .0.col)]
    Literal(At),
    /// The comment, string or character that begins at the place is cut off.
    #[error("unclosed at {}:{}", .0.line, .0.col)]
    Unclosed(At),
    /// The lexeme at the place is the 131,073rd.
    #[error("too many lexemes at {}:{}", .0.line, .0.col)]
    Tokens(At),
    /// Want of memory.
    #[error("want of memory")]
    Want,
}

impl From<Want> for LexStop {
    ghost from_gives = { λ _ s. s ≡ stop.Want };

    fn from(_want: Want) -> LexStop {
        LexStop::Want
    }
}

impl From<AllocError> for LexStop {
    ghost from_gives = { λ _ s. s ≡ stop.Want };

    fn from(_error: AllocError) -> LexStop {
        LexStop::Want
    }
}

/// The lexemes of a text of at most 1,048,576 bytes, with the places of their first bytes. The stop
/// comes of the first place where no lexeme, comment or white byte begins, or of lexeme 131,073. It
/// has that place; `Byte` has the place of the byte.
pub fn lex(alloc: Global, text: &[u8], form: Form) -> Result<Tokens, LexStop>
    requires { length text.now ≤ 1048576 }
    ensures { Lexes form text.now result }
{
    let mut tokens = Tokens::new(alloc);
    let mut minus = false;
    let mut at = At { line: 1, col: 1 };
    let mut offset = 0;
    while offset < text.len() {
        let rest = behind(text, offset);
        match piece_at(alloc, greatest_number(form, minus), rest)? {
            Ok((piece, size)) => {
                let next = behind_all(at, front(rest, size));
                match piece {
                    Piece::White => {}
                    Piece::Comment => {}
                    Piece::Lexeme(word) => {
                        if is_full(&tokens) {
                            return Err(LexStop::Tokens(at));
                        }
                        minus = is_minus(&word);
                        tokens.push(Token { at, word })?;
                    }
                }
                at = next;
                offset += size;
            }
            Err(fault) => return Err(stop_of(at, rest, fault)),
        }
    }
    Ok(tokens)
}

// Whether a text may have no more lexemes.
fn is_full(tokens: &Tokens) -> bool
    ensures { result ≡ nat_le most_lexemes (length tokens.now) }
{
    tokens.len() >= 131_072
}

fn greatest_number(form: Form, minus: bool) -> u64
    ensures found { result ≡ greatest_number form minus }
    ensures small { result ≤ 2 ^ 63 }
{
    if minus && form == Form::Input {
        1 << 63
    } else {
        (1 << 63) - 1
    }
}

fn is_minus(word: &Word) -> bool
    ensures { result ≡ is_minus word.now }
{
    match word {
        Word::Sym(name) => name.as_slice() == b"-".as_slice(),
        _ => false,
    }
}

fn stop_of(at: At, rest: &[u8], fault: Fault) -> LexStop
    requires near { offset_of fault ≤ length rest.now }
    requires room { ForAtMost (length rest.now) at }
    ensures { result ≡ stop_of at rest.now fault }
{
    match fault {
        Fault::Byte(offset) => LexStop::Byte(behind_all(at, front(rest, offset))),
        Fault::Literal => LexStop::Literal(at),
        Fault::Unclosed => LexStop::Unclosed(at),
    }
}
