//! The first token that is nested too deep.

ghost use Rattle.std.specs.Prelude.{IfOk, MatchOption};
ghost use Rattle.hdc_nesting.specs.Nesting.{IsFirstPast, NonePasses};

use crate::counts::Counts;
use hdc_base::{Token, Want};
use std::alloc::Global;

/// The place in the list of the first token whose nesting passes the limit, or `None` where none does.
pub fn first_past(alloc: Global, tokens: &[Token], limit: u64) -> Result<Option<usize>, Want>
    ensures { IfOk result (λ found. MatchOption found (NonePasses limit tokens.now) (IsFirstPast limit tokens.now)) }
{
    let mut counts = Counts::new(alloc);
    for (i, token) in tokens.iter().enumerate() {
        if counts.nesting() > limit {
            return Ok(Some(i));
        }
        counts.pass(token)?;
    }
    Ok(None)
}
