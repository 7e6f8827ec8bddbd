//! Data types and synonyms.

ghost use Rattle.std.specs.Prelude.{◌≡◌, []};
ghost use Rattle.hdc_syntax.specs.Results.{Reads};
ghost use Rattle.hdc_expression.specs.Nested.{nested};
ghost use Rattle.hdc_parse.specs.ProgramReader as reader;

use hdc_base::{At, Key};
use hdc_syntax::{Cursor, Stop, atypes, type_exp};
use hdc_tree::{BarConstr, CommaName, Constr, Data, Deriving, Name, Synonym, Top};
use sqlite_items::Items;

/// A data type.
#[tactic(auto, unfolding(crate::specs::ProgramReader::data_top))]
pub fn data_top(tokens: &mut Cursor<'_>, turns: usize, depth: usize) -> Result<Top, Stop>
    ensures { Reads (reader.data_top turns (nested turns depth) tokens.old.rest.now) result tokens.new.rest.now }
{
    let at = tokens.key(Key::KData)?;
    let name = tokens.capital()?;
    let params = params(tokens, turns)?;
    let equal = tokens.key(Key::KEqual)?;
    let first = constr(tokens, turns, depth)?;
    let rest = bar_constrs(tokens, turns, depth)?;
    let derived = derived(tokens, turns)?;
    Ok(Top::Data(Data {
        at,
        name,
        params,
        equal,
        first,
        rest,
        derived,
    }))
}

/// A synonym of a type.
#[tactic(auto, unfolding(crate::specs::ProgramReader::synonym_top), using(crate::proofs::NestedTypes::nested_atype))]
pub fn synonym_top(tokens: &mut Cursor<'_>, turns: usize, depth: usize) -> Result<Top, Stop>
    ensures { Reads (reader.synonym_top turns (nested turns depth) tokens.old.rest.now) result tokens.new.rest.now }
{
    let at = tokens.key(Key::KType)?;
    let name = tokens.capital()?;
    let params = params(tokens, turns)?;
    let equal = tokens.key(Key::KEqual)?;
    let meaning = type_exp(tokens, turns, depth)?;
    Ok(Top::Synonym(Synonym {
        at,
        name,
        params,
        equal,
        meaning,
    }))
}

fn params(tokens: &mut Cursor<'_>, turns: usize) -> Result<Items<Name>, Stop>
    ensures { Reads (reader.params turns tokens.old.rest.now) result tokens.new.rest.now }
{
    let mut found = Items::new(tokens.alloc);
    for _turn in 0..turns {
        if !tokens.sees_small() {
            return Ok(found);
        }
        found.push(tokens.small()?)?;
    }
    Err(Stop::Deep)
}

#[tactic(auto, unfolding(crate::specs::ProgramReader::constr), using(crate::proofs::NestedTypes::nested_atype))]
fn constr(tokens: &mut Cursor<'_>, turns: usize, depth: usize) -> Result<Constr, Stop>
    ensures { Reads (reader.constr turns (nested turns depth) tokens.old.rest.now) result tokens.new.rest.now }
{
    let name = tokens.capital()?;
    let fields = atypes(tokens, turns, depth)?;
    Ok(Constr { name, fields })
}

#[tactic(auto, unfolding(crate::specs::ProgramReader::bar_constr))]
fn bar_constr(tokens: &mut Cursor<'_>, turns: usize, depth: usize) -> Result<BarConstr, Stop>
    ensures { Reads (reader.bar_constr turns (nested turns depth) tokens.old.rest.now) result tokens.new.rest.now }
{
    let bar = tokens.key(Key::KBar)?;
    let constr = constr(tokens, turns, depth)?;
    Ok(BarConstr { bar, constr })
}

fn bar_constrs(
    tokens: &mut Cursor<'_>,
    turns: usize,
    depth: usize,
) -> Result<Items<BarConstr>, Stop>
    ensures { Reads (reader.bar_constrs turns (nested turns depth) tokens.old.rest.now) result tokens.new.rest.now }
{
    let mut found = Items::new(tokens.alloc);
    for _turn in 0..turns {
        if !tokens.sees(Key::KBar) {
            return Ok(found);
        }
        found.push(bar_constr(tokens, turns, depth)?)?;
    }
    Err(Stop::Deep)
}

// What is derived, or nothing.
#[tactic(auto, unfolding(crate::specs::ProgramReader::derived))]
fn derived(tokens: &mut Cursor<'_>, turns: usize) -> Result<Deriving, Stop>
    ensures { Reads (reader.derived turns tokens.old.rest.now) result tokens.new.rest.now }
{
    if !tokens.sees(Key::KDeriving) {
        return Ok(Deriving::Absent);
    }
    let at = tokens.key(Key::KDeriving)?;
    if tokens.sees_capital() {
        return Ok(Deriving::Con(at, tokens.capital()?));
    }
    derived_parens(tokens, turns, at)
}

#[tactic(auto, unfolding(crate::specs::ProgramReader::derived_parens))]
fn derived_parens(tokens: &mut Cursor<'_>, turns: usize, at: At) -> Result<Deriving, Stop>
    ensures { Reads (reader.derived_parens turns at tokens.old.rest.now) result tokens.new.rest.now }
{
    let open_at = tokens.key(Key::KOpenParen)?;
    if tokens.sees(Key::KCloseParen) {
        let close_at = tokens.key(Key::KCloseParen)?;
        return Ok(Deriving::Unit(at, open_at, close_at));
    }
    derived_list(tokens, turns, at, open_at)
}

#[tactic(auto, unfolding(crate::specs::ProgramReader::derived_list))]
fn derived_list(
    tokens: &mut Cursor<'_>,
    turns: usize,
    at: At,
    open_at: At,
) -> Result<Deriving, Stop>
    ensures { Reads (reader.derived_list turns at open_at tokens.old.rest.now) result tokens.new.rest.now }
{
    let first = tokens.capital()?;
    let rest = comma_names(tokens, turns)?;
    let close_at = tokens.key(Key::KCloseParen)?;
    Ok(Deriving::List(at, open_at, first, rest, close_at))
}

#[tactic(auto, unfolding(crate::specs::ProgramReader::comma_name))]
fn comma_name(tokens: &mut Cursor<'_>) -> Result<CommaName, Stop>
    ensures { Reads (reader.comma_name tokens.old.rest.now) result tokens.new.rest.now }
{
    let comma = tokens.key(Key::KComma)?;
    let name = tokens.capital()?;
    Ok(CommaName { comma, name })
}

fn comma_names(tokens: &mut Cursor<'_>, turns: usize) -> Result<Items<CommaName>, Stop>
    ensures { Reads (reader.comma_names turns tokens.old.rest.now) result tokens.new.rest.now }
{
    let mut found = Items::new(tokens.alloc);
    for _turn in 0..turns {
        if !tokens.sees(Key::KComma) {
            return Ok(found);
        }
        found.push(comma_name(tokens)?)?;
    }
    Err(Stop::Deep)
}
