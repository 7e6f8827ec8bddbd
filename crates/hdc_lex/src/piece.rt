//! Pieces of a text.

ghost use Rattle.std.specs.Prelude.{◌≡◌, ◌≤◌, ◌<◌, ◌+◌, ◌^◌, length, IfOk, IfErr, Ok, not, ◌==◌};
ghost use Rattle.std.specs.List.{list_all, prefix_len};
ghost use Rattle.hdc_lex.specs.Bytes.{is_name_byte, is_symbol};
ghost use Rattle.hdc_lex.specs.Characters.{offset_of};
ghost use Rattle.hdc_lex.specs.Pieces.{character_literal, line_size, name_size, piece_at, piece_by, special_at, string_literal, symbol_size, symbols_at};

use crate::character::{character_at, stop_at};
use crate::class::{Class, class_of, is_name_byte, is_symbol};
use crate::comment::{begins_with_both, comment_end};
use crate::lexeme::{Fault, Piece};
use crate::number::number_at;
use crate::run::{behind, front};
use crate::string::{begins_with, further, string_codes};
use crate::word::{symbol, variable};
use hdc_base::{Key, Text, Want, Word};
use std::alloc::Global;

/// The piece at the front of a text, with how many bytes it has.
pub fn piece_at(
    alloc: Global,
    greatest: u64,
    text: &[u8],
) -> Result<Result<(Piece, usize), Fault>, Want>
    requires small { greatest ≤ 2 ^ 63 }
    requires size { length text.now ≤ 1048576 }
    ensures found { IfOk result (λ r. r ≡ piece_at greatest text.now) }
    ensures some { IfOk result (λ r. IfOk r (λ p. 0 < p.1)) }
    ensures within { IfOk result (λ r. IfOk r (λ p. p.1 ≤ length text.now)) }
    ensures near { IfOk result (λ r. IfErr r (λ f. offset_of f ≤ length text.now)) }
{
    match text {
        [] => Ok(Err(Fault::Unclosed)),
        [first, ..] => piece_by(alloc, class_of(*first), greatest, text),
    }
}

// The piece that a byte of the class begins.
fn piece_by(
    alloc: Global,
    class: Class,
    greatest: u64,
    text: &[u8],
) -> Result<Result<(Piece, usize), Fault>, Want>
    requires small { greatest ≤ 2 ^ 63 }
    requires size { length text.now ≤ 1048576 }
    requires some { 1 ≤ length text.now }
    ensures found { IfOk result (λ r. r ≡ piece_by class greatest text.now) }
    ensures some { IfOk result (λ r. IfOk r (λ p. 0 < p.1)) }
    ensures within { IfOk result (λ r. IfOk r (λ p. p.1 ≤ length text.now)) }
    ensures near { IfOk result (λ r. IfErr r (λ f. offset_of f ≤ length text.now)) }
{
    match class {
        Class::White => Ok(Ok((Piece::White, 1))),
        Class::Small => {
            let size = name_size(text);
            Ok(Ok((Piece::Lexeme(variable(alloc, front(text, size))?), size)))
        }
        Class::Capital => {
            let size = name_size(text);
            let name = Text::from_slice(alloc, front(text, size))?;
            Ok(Ok((Piece::Lexeme(Word::Con(name)), size)))
        }
        Class::Digit => match number_at(greatest, text) {
            Ok((number, size)) => Ok(Ok((Piece::Lexeme(Word::Num(number)), size))),
            Err(fault) => Ok(Err(fault)),
        },
        Class::Symbol => Ok(Ok(symbols_at(alloc, text)?)),
        Class::Special(key) => Ok(special_at(key, text)),
        Class::Quote => Ok(character_literal(behind(text, 1))),
        Class::DoubleQuote => string_literal(alloc, behind(text, 1)),
        Class::Other => Ok(Err(Fault::Byte(0))),
    }
}

fn name_size(text: &[u8]) -> usize
    requires some { 1 ≤ length text.now }
    requires size { length text.now ≤ 1048576 }
    ensures size { result ≡ name_size text.now }
    ensures some { 0 < result }
    ensures within { result ≤ length text.now }
{
    1 + count_name(behind(text, 1))
}

fn count_name(text: &[u8]) -> usize
    ensures count { result ≡ prefix_len is_name_byte text.now }
    ensures within { result ≤ length text.now }
{
    text.iter().take_while(|b| is_name_byte(**b)).count()
}

fn symbol_size(text: &[u8]) -> usize
    requires some { 1 ≤ length text.now }
    requires size { length text.now ≤ 1048576 }
    ensures size { result ≡ symbol_size text.now }
    ensures some { 0 < result }
    ensures within { result ≤ length text.now }
{
    1 + count_symbols(behind(text, 1))
}

fn count_symbols(text: &[u8]) -> usize
    ensures count { result ≡ prefix_len is_symbol text.now }
    ensures within { result ≤ length text.now }
{
    text.iter().take_while(|b| is_symbol(**b)).count()
}

fn line_size(text: &[u8]) -> usize
    requires some { 1 ≤ length text.now }
    requires size { length text.now ≤ 1048576 }
    ensures size { result ≡ line_size text.now }
    ensures some { 0 < result }
    ensures within { result ≤ length text.now }
{
    1 + count_line(behind(text, 1))
}

fn count_line(text: &[u8]) -> usize
    ensures count { result ≡ prefix_len (λ b. not (b == 10)) text.now }
    ensures within { result ≤ length text.now }
{
    text.iter().take_while(|b| **b != b'\n').count()
}

fn is_dashes(text: &[u8]) -> bool
    ensures { result ≡ list_all (λ b. b == 45) text.now }
{
    text.iter().all(|b| *b == b'-')
}

// The name of symbols or the comment that begins with a symbol.
fn symbols_at(alloc: Global, text: &[u8]) -> Result<(Piece, usize), Want>
    requires some { 1 ≤ length text.now }
    requires size { length text.now ≤ 1048576 }
    ensures found { IfOk result (λ p. p ≡ symbols_at text.now) }
    ensures some { IfOk result (λ p. 0 < p.1) }
    ensures within { IfOk result (λ p. p.1 ≤ length text.now) }
{
    let size = symbol_size(text);
    let symbols = front(text, size);
    if size >= 2 && is_dashes(symbols) {
        return Ok((Piece::Comment, line_size(text)));
    }
    Ok((Piece::Lexeme(symbol(alloc, symbols)?), size))
}

// A special byte, or a comment.
fn special_at(key: Key, text: &[u8]) -> Result<(Piece, usize), Fault>
    requires some { 1 ≤ length text.now }
    requires size { length text.now ≤ 1048576 }
    ensures found { result ≡ special_at key text.now }
    ensures some { IfOk result (λ p. 0 < p.1) }
    ensures within { IfOk result (λ p. p.1 ≤ length text.now) }
    ensures near { IfErr result (λ f. offset_of f ≤ 0) }
{
    if begins_with_both(b'{', b'-', text) {
        return match comment_end(text) {
            Some(size) => Ok((Piece::Comment, size)),
            None => Err(Fault::Unclosed),
        };
    }
    Ok((Piece::Lexeme(Word::Key(key)), 1))
}

// The character whose quote stands before the text.
fn character_literal(text: &[u8]) -> Result<(Piece, usize), Fault>
    requires size { length text.now ≤ 1048576 }
    ensures found { result ≡ character_literal text.now }
    ensures some { IfOk result (λ p. 0 < p.1) }
    ensures within { IfOk result (λ p. p.1 ≤ 1 + length text.now) }
    ensures near { IfErr result (λ f. offset_of f ≤ 1 + length text.now) }
{
    if begins_with(b'\'', text) {
        return Err(Fault::Literal);
    }
    match character_at(b'\'', text) {
        Ok((Some(code), size)) => {
            let rest = behind(text, size);
            if begins_with(b'\'', rest) {
                Ok((Piece::Lexeme(Word::Chr(code)), size + 2))
            } else {
                Err(further(1, stop_at(size, rest)))
            }
        }
        Ok((None, _)) => Err(Fault::Literal),
        Err(fault) => Err(further(1, fault)),
    }
}

// The string whose quote stands before the text.
fn string_literal(alloc: Global, text: &[u8]) -> Result<Result<(Piece, usize), Fault>, Want>
    requires size { length text.now ≤ 1048576 }
    ensures found { IfOk result (λ r. r ≡ string_literal text.now) }
    ensures some { IfOk result (λ r. IfOk r (λ p. 0 < p.1)) }
    ensures within { IfOk result (λ r. IfOk r (λ p. p.1 ≤ 1 + length text.now)) }
    ensures near { IfOk result (λ r. IfErr r (λ f. offset_of f ≤ 1 + length text.now)) }
{
    Ok(match string_codes(alloc, text)? {
        Ok((codes, size)) => Ok((Piece::Lexeme(Word::Str(codes)), size + 1)),
        Err(fault) => Err(further(1, fault)),
    })
}
