//! From tokens to laid-out tokens.

ghost use Rattle.hdc_layout.specs.LaidOut.{laid_out, IsLaidOut};

use crate::ahead::Ahead;
use crate::mark::{Before, behind, mark_at_end, mark_before};
use crate::role::{is_where, role_of};
use crate::rules::Layout;
use crate::stop::LayoutStop;
use hdc_base::{At, Tokens};
use std::alloc::Global;

/// The tokens of a text with the braces and semicolons of its layout, which have the place of the
/// token before which they stand, or the end. `Brace` stands at the first `}` that ends no explicit
/// block, or at the end where that stands in an explicit block.
pub fn lay_out(alloc: Global, tokens: Tokens, end: At) -> Result<Tokens, LayoutStop>
    ensures { IsLaidOut (laid_out tokens end) result }
{
    let mut layout = Layout::new(alloc, tokens.len())?;
    let mut ahead = Ahead::of(alloc, tokens)?;
    let mut before = Before::Beginning;
    while let Some(token) = ahead.next() {
        let mark = mark_before(before, &token);
        layout.mark(mark, is_where(role_of(&token.word)), token.at)?;
        before = behind(&token);
        layout.token(token)?;
    }
    layout.mark(mark_at_end(before), false, end)?;
    layout.finish(end)
}
