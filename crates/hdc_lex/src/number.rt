//! Numbers.

ghost use Rattle.std.specs.Prelude.{◌≡◌, ◌≤◌, ◌<◌, ◌^◌, ◌-◌, length, min, true, IfOk, IfErr};
ghost use Rattle.hdc_lex.specs.Characters.{offset_of};
ghost use Rattle.std.specs.List.{prefix_len};
ghost use Rattle.hdc_lex.specs.Bytes.{is_digit, is_hexadecimal, is_octal};
ghost use Rattle.hdc_lex.specs.Numbers.{digit_value, has_fraction, number_of};
ghost use Rattle.hdc_lex.specs.Pieces.{has_radix, number_at, number_within};

use crate::class::{is_digit, is_hexadecimal, is_octal};
use crate::lexeme::Fault;
use crate::run::{behind, front};

/// The number at the front of a text that begins with a digit, with how many bytes it has.
#[tactic(auto, using(crate::proofs::Numbers::number_steps))]
pub fn number_at(greatest: u64, text: &[u8]) -> Result<(u64, usize), Fault>
    requires small { greatest ≤ 2 ^ 63 }
    requires size { length text.now ≤ 1048576 }
    requires some { 1 ≤ length text.now }
    ensures found { result ≡ number_at greatest text.now }
    ensures some { IfOk result (λ n. 0 < n.1) }
    ensures within { IfOk result (λ n. n.1 ≤ length text.now) }
    ensures near { IfErr result (λ f. offset_of f ≡ 0) }
{
    if has_hexadecimal(text) {
        let digits = behind(text, 2);
        let size = count_hexadecimal(digits);
        return within(greatest, value(16, front(digits, size)), 2 + size);
    }
    if has_octal(text) {
        let digits = behind(text, 2);
        let size = count_octal(digits);
        return within(greatest, value(8, front(digits, size)), 2 + size);
    }
    let size = 1 + count_decimal(behind(text, 1));
    if has_fraction(behind(text, size)) {
        return Err(Fault::Literal);
    }
    within(greatest, value(10, front(text, size)), size)
}

/// How many decimal digits stand at the front.
pub fn count_decimal(text: &[u8]) -> usize
    ensures count { result ≡ prefix_len is_digit text.now }
    ensures within { result ≤ length text.now }
{
    text.iter().take_while(|b| is_digit(**b)).count()
}

/// How many hexadecimal digits stand at the front.
pub fn count_hexadecimal(text: &[u8]) -> usize
    ensures count { result ≡ prefix_len is_hexadecimal text.now }
    ensures within { result ≤ length text.now }
{
    text.iter().take_while(|b| is_hexadecimal(**b)).count()
}

/// How many octal digits stand at the front.
pub fn count_octal(text: &[u8]) -> usize
    ensures count { result ≡ prefix_len is_octal text.now }
    ensures within { result ≤ length text.now }
{
    text.iter().take_while(|b| is_octal(**b)).count()
}

// The number, where it is not too large.
fn within(greatest: u64, number: u64, size: usize) -> Result<(u64, usize), Fault>
    ensures found { result ≡ number_within greatest number size }
    ensures same { IfOk result (λ n. n.1 ≡ size) }
    ensures near { IfErr result (λ f. offset_of f ≡ 0) }
{
    if number <= greatest {
        Ok((number, size))
    } else {
        Err(Fault::Literal)
    }
}

fn has_hexadecimal(text: &[u8]) -> bool
    ensures found { result ≡ has_radix 120 88 is_hexadecimal text.now }
    ensures long { result ≡ true → 3 ≤ length text.now }
{
    match text {
        [b'0', b'x' | b'X', digit, ..] => is_hexadecimal(*digit),
        _ => false,
    }
}

fn has_octal(text: &[u8]) -> bool
    ensures found { result ≡ has_radix 111 79 is_octal text.now }
    ensures long { result ≡ true → 3 ≤ length text.now }
{
    match text {
        [b'0', b'o' | b'O', digit, ..] => is_octal(*digit),
        _ => false,
    }
}

// Whether a point and a digit, or an exponent, stand at the front.
fn has_fraction(text: &[u8]) -> bool
    ensures { result ≡ has_fraction text.now }
{
    match text {
        [b'.', digit, ..] => is_digit(*digit),
        [b'e' | b'E', b'+' | b'-', digit, ..] => is_digit(*digit),
        [b'e' | b'E', digit, ..] => is_digit(*digit),
        _ => false,
    }
}

/// The number that digits write, or 2^64 - 1 where it is greater.
#[tactic(auto, using(crate::proofs::Numbers::value_steps))]
pub fn value(radix: u64, digits: &[u8]) -> u64
    requires { 0 < radix }
    ensures { result ≡ min (number_of radix digits.now) (2 ^ 64 - 1) }
{
    let mut value: u64 = 0;
    for digit in digits {
        value = value
            .saturating_mul(radix)
            .saturating_add(digit_value(*digit));
    }
    value
}

fn digit_value(byte: u8) -> u64
    ensures { result ≡ digit_value byte }
{
    let offset = match byte {
        b'0'..=b'9' => b'0',
        b'a'..=b'f' => 87,
        _ => 55,
    };
    u64::from(byte.saturating_sub(offset))
}
