//! The parser of a program.

ghost use Rattle.std.specs.Prelude.{◌≡◌, ◌+◌, length};
ghost use Rattle.hdc_expression.specs.Nested.{nested};
ghost use Rattle.hdc_syntax.specs.Results.{Reads};
ghost use Rattle.hdc_parse.specs.ProgramReader as reader;
ghost use Rattle.hdc_parse.specs.Answer.{ReadsAll};

use crate::head::module_head;
use crate::top::{next_tops, top};
use hdc_base::{Key, Token};
use hdc_syntax::{Cursor, Stop};
use hdc_tree::Tree;
use sqlite_items::Boxed;
use std::alloc::Global;

/// How deep what nests in a program may nest.
const DEPTH: usize = 258;

/// The program that the tokens are, where they nest no deeper than 258.
#[tactic(auto, unfolding(crate::specs::ProgramReader::program))]
pub fn whole_program(alloc: Global, tokens: &[Token]) -> Result<Tree, Stop>
    ensures { ReadsAll (reader.program (length tokens.now + 1) 258 tokens.now) result }
{
    let mut cursor = Cursor {
        alloc,
        rest: tokens,
    };
    let found = tree(&mut cursor, tokens.len() + 1, DEPTH)?;
    end(&cursor)?;
    Ok(found)
}

#[tactic(auto, unfolding(crate::specs::ProgramReader::tree))]
fn tree(tokens: &mut Cursor<'_>, turns: usize, depth: usize) -> Result<Tree, Stop>
    ensures { Reads (reader.tree turns (nested turns depth) tokens.old.rest.now) result tokens.new.rest.now }
{
    let head = Boxed::new(tokens.alloc, module_head(tokens, turns)?)?;
    let open_at = tokens.key(Key::KOpenBrace)?;
    let first = Boxed::new(tokens.alloc, top(tokens, turns, depth)?)?;
    let rest = next_tops(tokens, turns, depth)?;
    let close_at = tokens.key(Key::KCloseBrace)?;
    Ok(Tree {
        head,
        open_at,
        first,
        rest,
        close_at,
    })
}

// Nothing more.
fn end(tokens: &Cursor<'_>) -> Result<(), Stop>
    ensures { ReadsAll (reader.at_end tokens.now.rest.now) result }
{
    match tokens.rest {
        [] => Ok(()),
        _ => Err(tokens.refuse()),
    }
}
