//! Why tokens have no layout.

ghost use Rattle.std.specs.Prelude.{◌≡◌};
ghost use Rattle.hdc_layout.specs.declared.stop.LayoutStop.TheVariants as stop;

use hdc_base::{At, Want};
use std::alloc::AllocError;
use thiserror::Error;

/// Why tokens have no layout.
#[derive(Clone, Copy, Debug, Drop, Error, PartialEq, Eq)]
pub enum LayoutStop {
    /// The `}` at the place ends no explicit block, or the end at the place stands in one.
    #[error("brace at {}:{}", .0.line, .0.col)]
    Brace(At),
    /// Want of memory.
    #[error("want of memory")]
    Want,
}

impl From<Want> for LayoutStop {
    ghost from_gives = { λ _ s. s ≡ stop.Want };

    fn from(_want: Want) -> LayoutStop {
        LayoutStop::Want
    }
}

impl From<AllocError> for LayoutStop {
    ghost from_gives = { λ _ s. s ≡ stop.Want };

    fn from(_error: AllocError) -> LayoutStop {
        LayoutStop::Want
    }
}
