//! Places in a text.

ghost use Rattle.std.specs.Prelude.{◌≡◌, ◌≤◌, length};
ghost use Rattle.hdc_lex.specs.Place.{behind, behind_all, first_place, ForAtMost};

use hdc_base::At;

/// The place behind the last byte of a text of at most 1,048,576 bytes. Takes no memory.
pub fn end_of(text: &[u8]) -> At
    requires { length text.now ≤ 1048576 }
    ensures { result ≡ behind_all first_place text.now }
{
    behind_all(At { line: 1, col: 1 }, text)
}

/// The place behind some bytes.
pub fn behind_all(at: At, bytes: &[u8]) -> At
    requires { ForAtMost (length bytes.now) at }
    ensures { result ≡ behind_all at bytes.now }
{
    let mut at = at;
    for byte in bytes {
        at = behind(at, *byte);
    }
    at
}

// The place behind a byte.
fn behind(at: At, byte: u8) -> At
    requires { ForAtMost 1 at }
    ensures { result ≡ behind at byte }
{
    match byte {
        b'\n' => At {
            line: at.line + 1,
            col: 1,
        },
        b'\t' => At {
            line: at.line,
            col: at.col.saturating_sub(1) / 8 * 8 + 9,
        },
        _ => At {
            line: at.line,
            col: at.col + 1,
        },
    }
}
