//! Why tokens are no program.

ghost use Rattle.std.specs.Prelude.{◌≡◌};
ghost use Rattle.hdc_parse.specs.declared.stop.ParseStop.TheVariants as stop;

use hdc_base::{At, Want};
use thiserror::Error;

/// Why tokens are no program.
#[derive(Clone, Copy, Debug, Drop, Error, PartialEq, Eq)]
pub enum ParseStop {
    /// No program goes on with the token at the place, or ends there.
    #[error("syntax at {}:{}", .0.line, .0.col)]
    Syntax(At),
    /// The token at the place nests too deep.
    #[error("nesting at {}:{}", .0.line, .0.col)]
    Nesting(At),
    /// Want of memory.
    #[error("want of memory")]
    Want,
}

impl From<Want> for ParseStop {
    ghost from_gives = { λ _ s. s ≡ stop.Want };

    fn from(_want: Want) -> ParseStop {
        ParseStop::Want
    }
}
