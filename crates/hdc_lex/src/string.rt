//! Strings.

ghost use Rattle.std.specs.Prelude.{◌≡◌, ◌≤◌, ◌<◌, ◌+◌, ◌^◌, length, true, IfOk, IfErr};
ghost use Rattle.hdc_lex.specs.Characters.{offset_of};
ghost use Rattle.hdc_lex.specs.Pieces.{begins_with, further, string_codes};

use crate::character::character_at;
use crate::lexeme::Fault;
use crate::run::behind;
use hdc_base::{Runes, Want};
use std::alloc::Global;

/// The codes of the characters up to the closing quote, with how many bytes these have and it.
pub fn string_codes(alloc: Global, text: &[u8]) -> Result<Result<(Runes, usize), Fault>, Want>
    requires { length text.now ≤ 1048576 }
    ensures found { IfOk result (λ r. r ≡ string_codes (length text.now) text.now) }
    ensures within { IfOk result (λ r. IfOk r (λ f. f.1 ≤ length text.now)) }
    ensures near { IfOk result (λ r. IfErr r (λ f. offset_of f ≤ length text.now)) }
{
    let mut codes = Runes::new(alloc);
    let mut offset = 0;
    loop {
        let rest = behind(text, offset);
        if begins_with(b'"', rest) {
            return Ok(Ok((codes, offset + 1)));
        }
        match character_at(b'"', rest) {
            Ok((Some(code), size)) => {
                codes.push(code)?;
                offset += size;
            }
            Ok((None, size)) => offset += size,
            Err(fault) => return Ok(Err(further(offset, fault))),
        }
    }
}

/// Whether the byte stands at the front.
pub fn begins_with(byte: u8, text: &[u8]) -> bool
    ensures found { result ≡ begins_with byte text.now }
    ensures some { result ≡ true → 1 ≤ length text.now }
{
    match text {
        [first, ..] => *first == byte,
        _ => false,
    }
}

/// A fault, told from a place so many bytes before.
pub fn further(size: usize, fault: Fault) -> Fault
    requires { size + offset_of fault < 2 ^ 64 }
    ensures found { result ≡ further size fault }
    ensures near { offset_of result ≤ size + offset_of fault }
{
    match fault {
        Fault::Byte(offset) => Fault::Byte(size + offset),
        _ => fault,
    }
}
