//! Literals, and the constructor `:`.

ghost use Rattle.std.specs.Prelude.{◌≡◌, IfOk};
ghost use Rattle.hdc_resolving.specs.Literals as literals;

use hdc_base::Runes;
use hdc_resolved::{Constructor, Family, Literal};
use hdc_tree::Literal as WrittenLiteral;
use std::alloc::{AllocError, Global};

/// The constructor `:`.
pub fn cons() -> Constructor
    ensures { result ≡ literals.cons }
{
    Constructor {
        family: Family::OfList,
        tag: 1,
        fields: 2,
    }
}

/// A number as an integer.
pub(crate) fn fitted(number: u64) -> u64
    ensures { result ≡ literals.fitted number }
{
    if number < 1 << 63 {
        number
    } else {
        (1 << 63) - 1
    }
}

/// A literal.
pub fn literal_of(alloc: Global, literal: &WrittenLiteral) -> Result<Literal, AllocError>
    ensures { IfOk result (λ l. l ≡ literals.literal_of literal.now) }
{
    match literal {
        WrittenLiteral::Num(number) => Ok(Literal::Int(fitted(*number) as i64)),
        WrittenLiteral::Chr(code) => Ok(Literal::Chr(*code)),
        WrittenLiteral::Str(codes) => Ok(Literal::Str(Runes::from_slice(alloc, codes.as_slice())?)),
    }
}
