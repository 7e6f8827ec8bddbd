//! Top declarations.

ghost use Rattle.std.specs.Prelude.{◌≡◌, []};
ghost use Rattle.hdc_syntax.specs.Results.{Reads};
ghost use Rattle.hdc_expression.specs.Nested.{nested};
ghost use Rattle.hdc_parse.specs.ProgramReader as reader;

use crate::data::{data_top, synonym_top};
use crate::fixity::fixity_top;
use crate::nested::stated_top;
use hdc_base::Key;
use hdc_syntax::{Cursor, Stop};
use hdc_tree::{Associativity, NextTop, Top};
use sqlite_items::Items;

/// A top declaration, which may be empty.
#[tactic(auto, unfolding(crate::specs::ProgramReader::top))]
pub fn top(tokens: &mut Cursor<'_>, turns: usize, depth: usize) -> Result<Top, Stop>
    ensures { Reads (reader.top turns (nested turns depth) tokens.old.rest.now) result tokens.new.rest.now }
{
    if tokens.sees(Key::KSemicolon) || tokens.sees(Key::KCloseBrace) {
        return Ok(Top::Empty);
    }
    if tokens.sees(Key::KData) {
        return data_top(tokens, turns, depth);
    }
    if tokens.sees(Key::KType) {
        return synonym_top(tokens, turns, depth);
    }
    if tokens.sees(Key::KInfix) {
        return fixity_top(tokens, turns, Key::KInfix, Associativity::Neither);
    }
    if tokens.sees(Key::KInfixl) {
        return fixity_top(tokens, turns, Key::KInfixl, Associativity::Left);
    }
    if tokens.sees(Key::KInfixr) {
        return fixity_top(tokens, turns, Key::KInfixr, Associativity::Right);
    }
    stated_top(tokens, turns, depth)
}

#[tactic(auto, unfolding(crate::specs::ProgramReader::next_top))]
fn next_top(tokens: &mut Cursor<'_>, turns: usize, depth: usize) -> Result<NextTop, Stop>
    ensures { Reads (reader.next_top turns (nested turns depth) tokens.old.rest.now) result tokens.new.rest.now }
{
    let semicolon = tokens.key(Key::KSemicolon)?;
    let top = top(tokens, turns, depth)?;
    Ok(NextTop { semicolon, top })
}

/// Top declarations with `;` before each, as many as there are.
pub fn next_tops(
    tokens: &mut Cursor<'_>,
    turns: usize,
    depth: usize,
) -> Result<Items<NextTop>, Stop>
    ensures { Reads (reader.next_tops turns (nested turns depth) tokens.old.rest.now) result tokens.new.rest.now }
{
    let mut found = Items::new(tokens.alloc);
    for _turn in 0..turns {
        if !tokens.sees(Key::KSemicolon) {
            return Ok(found);
        }
        found.push(next_top(tokens, turns, depth)?)?;
    }
    Err(Stop::Deep)
}
