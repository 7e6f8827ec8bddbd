//! The head of a program.

ghost use Rattle.std.specs.Prelude.{◌≡◌, []};
ghost use Rattle.hdc_syntax.specs.Results.{Reads};
ghost use Rattle.hdc_parse.specs.ProgramReader as reader;

use hdc_base::{At, Key};
use hdc_syntax::{Cursor, Stop};
use hdc_tree::{CommaExport, Export, ModuleHead, Name};
use sqlite_items::Items;

/// The head of a program, or nothing.
#[tactic(auto, unfolding(crate::specs::ProgramReader::module_head))]
pub fn module_head(tokens: &mut Cursor<'_>, turns: usize) -> Result<ModuleHead, Stop>
    ensures { Reads (reader.module_head turns tokens.old.rest.now) result tokens.new.rest.now }
{
    if tokens.sees(Key::KModule) {
        return named_head(tokens, turns);
    }
    Ok(ModuleHead::Absent)
}

#[tactic(auto, unfolding(crate::specs::ProgramReader::named_head))]
fn named_head(tokens: &mut Cursor<'_>, turns: usize) -> Result<ModuleHead, Stop>
    ensures { Reads (reader.named_head turns tokens.old.rest.now) result tokens.new.rest.now }
{
    let at = tokens.key(Key::KModule)?;
    let name = tokens.capital()?;
    if tokens.sees(Key::KOpenParen) {
        return exporting(tokens, turns, at, name);
    }
    let where_at = tokens.key(Key::KWhere)?;
    Ok(ModuleHead::Plain(at, name, where_at))
}

#[tactic(auto, unfolding(crate::specs::ProgramReader::exporting))]
fn exporting(tokens: &mut Cursor<'_>, turns: usize, at: At, name: Name) -> Result<ModuleHead, Stop>
    ensures { Reads (reader.exporting turns at name tokens.old.rest.now) result tokens.new.rest.now }
{
    let open_at = tokens.key(Key::KOpenParen)?;
    let first = export(tokens)?;
    let rest = comma_exports(tokens, turns)?;
    let close_at = tokens.key(Key::KCloseParen)?;
    let where_at = tokens.key(Key::KWhere)?;
    Ok(ModuleHead::Exporting(at, name, open_at, first, rest, close_at, where_at))
}

#[tactic(auto, unfolding(crate::specs::ProgramReader::export))]
fn export(tokens: &mut Cursor<'_>) -> Result<Export, Stop>
    ensures { Reads (reader.export tokens.old.rest.now) result tokens.new.rest.now }
{
    if tokens.sees_capital() {
        return Ok(Export::Con(tokens.capital()?));
    }
    Ok(Export::Var(tokens.var()?))
}

#[tactic(auto, unfolding(crate::specs::ProgramReader::comma_export))]
fn comma_export(tokens: &mut Cursor<'_>) -> Result<CommaExport, Stop>
    ensures { Reads (reader.comma_export tokens.old.rest.now) result tokens.new.rest.now }
{
    let comma = tokens.key(Key::KComma)?;
    let export = export(tokens)?;
    Ok(CommaExport { comma, export })
}

fn comma_exports(tokens: &mut Cursor<'_>, turns: usize) -> Result<Items<CommaExport>, Stop>
    ensures { Reads (reader.comma_exports turns tokens.old.rest.now) result tokens.new.rest.now }
{
    let mut found = Items::new(tokens.alloc);
    for _turn in 0..turns {
        if !tokens.sees(Key::KComma) {
            return Ok(found);
        }
        found.push(comma_export(tokens)?)?;
    }
    Err(Stop::Deep)
}
