//! The prelude.

ghost use Rattle.std.specs.Prelude.{IfOk};
ghost use Rattle.std.specs.Prelude.{◌≡◌, ◌≤◌, length};
ghost use Rattle.hdc_top.specs.Prelude.{no_declarations, IsPrelude, IsStored};

use crate::reader::laid_tokens;
use hdc_base::{At, Stop, Want};
use hdc_lex::end_of;
use hdc_parse::{ParseStop, parse};
use hdc_tree::{ModuleHead, PRELUDE, Top, Tree};
use sqlite_items::{Boxed, Items};
use std::alloc::{AllocError, Global};

/// The tree of the stored text of the prelude, by the calls that read a program; where one of these
/// refuses the text for another cause than memory, the tree without declarations.
pub fn prelude_tree(alloc: Global) -> Result<Tree, Want>
    ensures { IfOk result IsPrelude }
{
    match stored_tree(alloc)? {
        Some(tree) => Ok(tree),
        None => Ok(no_declarations(alloc)?),
    }
}

// The tree of the stored text, if it has one.
fn stored_tree(alloc: Global) -> Result<Option<Tree>, Want>
    ensures { IfOk result IsStored }
{
    match laid_tokens(alloc, PRELUDE) {
        Ok(laid) => match parse(alloc, laid.as_slice(), end_of(PRELUDE)) {
            Ok(tree) => Ok(Some(tree)),
            Err(ParseStop::Syntax(_at)) => Ok(None),
            Err(ParseStop::Nesting(_at)) => Ok(None),
            Err(ParseStop::Want) => Err(Want),
        },
        Err(Stop::Refused(_refusal)) => Ok(None),
        Err(Stop::Limit(_limit)) => Ok(None),
        Err(Stop::Want) => Err(Want),
    }
}

// The tree without declarations.
fn no_declarations(alloc: Global) -> Result<Tree, AllocError>
    ensures { IfOk result (λ tree. tree ≡ no_declarations) }
{
    let first = At { line: 1, col: 1 };
    Ok(Tree {
        head: Boxed::new(alloc, ModuleHead::Absent)?,
        open_at: first,
        first: Boxed::new(alloc, Top::Empty)?,
        rest: Items::new(alloc),
        close_at: first,
    })
}
