//! Characters of literals.

ghost use Rattle.std.specs.Prelude.{◌≡◌, ◌≤◌, ◌<◌, ◌+◌, length, IfOk, IfErr};
ghost use Rattle.hdc_lex.specs.Characters.{character_at, code_escape, coded, escape_at, offset_of};
ghost use Rattle.hdc_lex.specs.Fronts.{stop_at};
ghost use Rattle.hdc_lex.specs.Grammar.{simple_escape};

use crate::class::{is_digit, is_printable};
use crate::lexeme::Fault;
use crate::number::{count_decimal, count_hexadecimal, count_octal, value};
use crate::run::front;

/// The character, or none, at the front of a text behind the quote of a literal, with how many bytes
/// it has.
pub fn character_at(quote: u8, text: &[u8]) -> Result<(Option<u32>, usize), Fault>
    requires { length text.now ≤ 1048576 }
    ensures found { result ≡ character_at quote text.now }
    ensures some { IfOk result (λ c. 0 < c.1) }
    ensures within { IfOk result (λ c. c.1 ≤ length text.now) }
    ensures near { IfErr result (λ f. offset_of f ≤ length text.now) }
{
    match text {
        [] => Err(Fault::Unclosed),
        [b'\\', rest @ ..] => escape_at(quote, rest),
        [byte, ..] if is_printable(*byte) => Ok((Some(u32::from(*byte)), 1)),
        _ => Err(stop_at(0, text)),
    }
}

// The escape behind a backslash.
fn escape_at(quote: u8, text: &[u8]) -> Result<(Option<u32>, usize), Fault>
    requires { length text.now ≤ 1048576 }
    ensures found { result ≡ escape_at quote text.now }
    ensures some { IfOk result (λ c. 0 < c.1) }
    ensures within { IfOk result (λ c. c.1 ≤ 1 + length text.now) }
    ensures near { IfErr result (λ f. offset_of f ≤ 1 + length text.now) }
{
    match text {
        [] => Err(Fault::Unclosed),
        [byte, ..] if is_digit(*byte) => code_escape(10, 1, count_decimal(text), text),
        [b'x', digits @ ..] => code_escape(16, 2, count_hexadecimal(digits), digits),
        [b'o', digits @ ..] => code_escape(8, 2, count_octal(digits), digits),
        [b'&', ..] => {
            if quote == b'"' {
                Ok((None, 2))
            } else {
                Err(Fault::Literal)
            }
        }
        [byte, ..] => match simple_escape(*byte) {
            Some(code) => Ok((Some(code), 2)),
            None => Err(stop_at(1, text)),
        },
    }
}

// The escape by a code of so many digits.
#[tactic(auto, using(crate::proofs::Characters::code_steps))]
fn code_escape(
    radix: u64,
    offset: usize,
    size: usize,
    text: &[u8],
) -> Result<(Option<u32>, usize), Fault>
    requires radix { 0 < radix }
    requires size { size ≤ length text.now }
    requires small { length text.now ≤ 1048576 }
    requires offset { offset ≤ 2 }
    ensures found { result ≡ code_escape radix offset size text.now }
    ensures some { IfOk result (λ c. 0 < c.1) }
    ensures within { IfOk result (λ c. c.1 ≤ offset + length text.now) }
    ensures near { IfErr result (λ f. offset_of f ≤ offset) }
{
    if size == 0 {
        return Err(stop_at(offset, text));
    }
    coded(value(radix, front(text, size)), offset + size)
}

// The character of a code, where there is one.
fn coded(code: u64, size: usize) -> Result<(Option<u32>, usize), Fault>
    ensures found { result ≡ coded code size }
    ensures same { IfOk result (λ c. c.1 ≡ size) }
    ensures near { IfErr result (λ f. offset_of f ≡ 0) }
{
    if code <= 1_114_111 {
        Ok((Some(code as u32), size))
    } else {
        Err(Fault::Literal)
    }
}

/// What is wrong where a literal stops.
pub fn stop_at(offset: usize, text: &[u8]) -> Fault
    ensures found { result ≡ stop_at offset text.now }
    ensures near { offset_of result ≤ offset }
{
    match text {
        [] | [b'\n', ..] => Fault::Unclosed,
        [byte, ..] if is_printable(*byte) => Fault::Literal,
        _ => Fault::Byte(offset),
    }
}

fn simple_escape(byte: u8) -> Option<u32>
    ensures { result ≡ simple_escape byte }
{
    match byte {
        b'a' => Some(7),
        b'b' => Some(8),
        b'f' => Some(12),
        b'n' => Some(10),
        b'r' => Some(13),
        b't' => Some(9),
        b'v' => Some(11),
        b'\\' => Some(92),
        b'"' => Some(34),
        b'\'' => Some(39),
        _ => None,
    }
}
