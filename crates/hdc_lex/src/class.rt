//! Classes of bytes.

ghost use Rattle.std.specs.Prelude.{◌≡◌};
ghost use Rattle.hdc_lex.specs.Bytes.{class_of, is_digit, is_name_byte, is_symbol, is_hexadecimal, is_octal, is_printable};

use hdc_base::Key;

/// What may begin with a byte.
#[derive(Clone, Copy, Debug, PartialEq, Eq)]
pub enum Class {
    /// White.
    White,
    /// A variable, or a reserved word.
    Small,
    /// A constructor.
    Capital,
    /// A number.
    Digit,
    /// A name of symbols.
    Symbol,
    /// A special byte.
    Special(Key),
    /// A character.
    Quote,
    /// A string.
    DoubleQuote,
    /// Nothing.
    Other,
}

/// What may begin with the byte.
pub fn class_of(byte: u8) -> Class
    ensures { result ≡ class_of byte }
{
    match byte {
        b'\t' | b'\n' | b'\r' | b' ' => Class::White,
        b'a'..=b'z' | b'_' => Class::Small,
        b'A'..=b'Z' => Class::Capital,
        b'0'..=b'9' => Class::Digit,
        b'!'
        | b'#'
        | b'$'
        | b'%'
        | b'&'
        | b'*'
        | b'+'
        | b'.'
        | b'/'
        | b'<'
        | b'='
        | b'>'
        | b'?'
        | b'@'
        | b'\\'
        | b'^'
        | b'-'
        | b'~'
        | b':'
        | b'|' => Class::Symbol,
        b'(' => Class::Special(Key::KOpenParen),
        b')' => Class::Special(Key::KCloseParen),
        b',' => Class::Special(Key::KComma),
        b';' => Class::Special(Key::KSemicolon),
        b'[' => Class::Special(Key::KOpenBracket),
        b']' => Class::Special(Key::KCloseBracket),
        b'{' => Class::Special(Key::KOpenBrace),
        b'}' => Class::Special(Key::KCloseBrace),
        b'`' => Class::Special(Key::KBackquote),
        b'\'' => Class::Quote,
        b'"' => Class::DoubleQuote,
        _ => Class::Other,
    }
}

/// Whether the byte goes on with a name.
pub fn is_name_byte(byte: u8) -> bool
    ensures { result ≡ is_name_byte byte }
{
    matches!(byte, b'a'..=b'z' | b'_' | b'A'..=b'Z' | b'0'..=b'9' | b'\'')
}

/// Whether the byte goes on with a name of symbols.
pub fn is_symbol(byte: u8) -> bool
    ensures { result ≡ is_symbol byte }
{
    class_of(byte) == Class::Symbol
}

/// Whether the byte is a decimal digit.
pub fn is_digit(byte: u8) -> bool
    ensures { result ≡ is_digit byte }
{
    byte.is_ascii_digit()
}

/// Whether the byte is a hexadecimal digit.
pub fn is_hexadecimal(byte: u8) -> bool
    ensures { result ≡ is_hexadecimal byte }
{
    byte.is_ascii_hexdigit()
}

/// Whether the byte is an octal digit.
pub fn is_octal(byte: u8) -> bool
    ensures { result ≡ is_octal byte }
{
    matches!(byte, b'0'..=b'7')
}

/// Whether the byte may stand for itself in a literal.
pub fn is_printable(byte: u8) -> bool
    ensures { result ≡ is_printable byte }
{
    matches!(byte, 32..=126)
}
