//! Why a parser gives no tree.

ghost use Rattle.std.specs.Prelude.{◌≡◌};
ghost use Rattle.hdc_syntax.specs.declared.stop.Stop.TheVariants as stop;

use std::alloc::AllocError;

/// Why a parser gives no tree.
#[derive(Clone, Copy, Debug, Drop, PartialEq, Eq)]
pub enum Stop {
    /// Want of memory.
    Want,
    /// The text has more parts in a row, or nests deeper, than the parser was told.
    Deep,
    /// No text goes on with a token. The number counts the tokens from it on, and is 0 at the end.
    Syntax(usize),
}

impl From<AllocError> for Stop {
    ghost from_gives = { λ _ s. s ≡ stop.Want };

    fn from(_error: AllocError) -> Stop {
        Stop::Want
    }
}
