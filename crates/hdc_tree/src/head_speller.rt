//! The tokens of what equations define.

ghost use Rattle.std.specs.Prelude.{◌≡◌, OnOk};
ghost use Rattle.hdc_tree.specs.HeadSpelling.{head_onto};

use crate::head::Head;
use crate::pattern_speller::{put_apat, put_apats};
use crate::speller::Speller;
use hdc_base::{Key, Want};

/// What an equation defines, before other tokens.
pub fn put_head(out: &mut Speller, head: &Head) -> Result<(), Want>
    ensures { OnOk result (out.new ≡ head_onto head.now out.old) }
{
    match head {
        Head::Prefix(var, params) => {
            put_apats(out, params.as_slice())?;
            out.var(var)
        }
        Head::Infix(left, op, right) => {
            put_apat(out, right)?;
            out.var_op(op)?;
            put_apat(out, left)
        }
        Head::Paren(open_at, left, op, right, close_at, first, rest) => {
            put_apats(out, rest.as_slice())?;
            put_apat(out, first)?;
            out.key(*close_at, Key::KCloseParen)?;
            put_apat(out, right)?;
            out.var_op(op)?;
            put_apat(out, left)?;
            out.key(*open_at, Key::KOpenParen)
        }
    }
}
