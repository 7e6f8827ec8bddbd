//! Texts, built piece by piece.

ghost use Rattle.std.specs.Prelude.{◌≡◌, ◌++◌, OnOk};
ghost use Rattle.std.specs.Fmt.{decimal, signed_decimal};

use hdc_base::Want;
use itoa::Buffer;

/// Puts a piece at the end.
pub fn put(text: &mut Vec<u8>, piece: &str) -> Result<(), Want>
    ensures { OnOk result (text.new.items ≡ text.old.items ++ piece.now) }
{
    text.extend_from_slice(piece.as_bytes())?;
    Ok(())
}

/// Puts a number at the end, in decimal.
pub fn put_number(text: &mut Vec<u8>, number: u64) -> Result<(), Want>
    ensures { OnOk result (text.new.items ≡ text.old.items ++ decimal number) }
{
    put(text, Buffer::new().format(number))
}

/// Puts an integer at the end, in decimal, with `-` where it is negative.
pub fn put_integer(text: &mut Vec<u8>, integer: i64) -> Result<(), Want>
    ensures { OnOk result (text.new.items ≡ text.old.items ++ signed_decimal integer) }
{
    put(text, Buffer::new().format(integer))
}
