//! Types. A depth of n admits what nests less than n deep.

ghost use Rattle.std.specs.Prelude.{◌≡◌, [], ◌∷◌};
ghost use Rattle.hdc_base.specs.declared.token.Key.TheVariants as key;
ghost use Rattle.hdc_syntax.specs.Parser as parser;
ghost use Rattle.hdc_syntax.specs.Words as words;
ghost use Rattle.hdc_syntax.specs.Results.{Reads};
ghost use Rattle.hdc_syntax.specs.TypeReader as reader;

use crate::cursor::Cursor;
use crate::stop::Stop;
use hdc_base::{At, Key};
use hdc_tree::{ArrowType, Atype, Btype, CommaType, Name, TypeExp};
use sqlite_items::{Boxed, Items};

/// The next token begins a type that may be an argument.
pub fn sees_atype(tokens: &Cursor<'_>) -> bool
    ensures { result ≡ reader.starts_atype (parser.head tokens.now.rest.now) }
{
    tokens.sees_small()
        || tokens.sees_capital()
        || tokens.sees(Key::KOpenParen)
        || tokens.sees(Key::KOpenBracket)
}

/// A type that may be an argument.
#[cycle(types)]
#[tactic(auto, unfolding(crate::specs::TypeReader::atype))]
pub fn atype(tokens: &mut Cursor<'_>, turns: usize, depth: usize) -> Result<Atype, Stop>
    ensures { Reads (reader.atype turns depth tokens.old.rest.now) result tokens.new.rest.now }
{
    if depth == 0 {
        return Err(Stop::Deep);
    }
    atype_level(tokens, turns, depth - 1)
}

#[cycle(types)]
#[tactic(auto, unfolding(crate::specs::TypeReader::atype_level))]
fn atype_level(tokens: &mut Cursor<'_>, turns: usize, depth: usize) -> Result<Atype, Stop>
    ensures { Reads (reader.atype_level turns (reader.atype turns depth) tokens.old.rest.now) result tokens.new.rest.now }
{
    if tokens.sees_small() {
        return Ok(Atype::Var(tokens.small()?));
    }
    if tokens.sees_capital() {
        return Ok(Atype::Con(tokens.capital()?));
    }
    if tokens.sees(Key::KOpenParen) {
        return parens_type(tokens, turns, depth);
    }
    if tokens.sees(Key::KOpenBracket) {
        return list_type(tokens, turns, depth);
    }
    Err(tokens.refuse())
}

#[cycle(types)]
#[tactic(auto, unfolding(crate::specs::TypeReader::parens_type))]
fn parens_type(tokens: &mut Cursor<'_>, turns: usize, depth: usize) -> Result<Atype, Stop>
    ensures { Reads (reader.parens_type turns (reader.atype turns depth) tokens.old.rest.now) result tokens.new.rest.now }
{
    let open_at = tokens.key(Key::KOpenParen)?;
    if tokens.sees(Key::KCloseParen) {
        let close_at = tokens.key(Key::KCloseParen)?;
        return Ok(Atype::Unit(open_at, close_at));
    }
    let first = Boxed::new(tokens.alloc, type_exp(tokens, turns, depth)?)?;
    parens_type_behind(tokens, turns, depth, open_at, first)
}

#[cycle(types)]
fn parens_type_behind(
    tokens: &mut Cursor<'_>,
    turns: usize,
    depth: usize,
    open_at: At,
    first: Boxed<TypeExp>,
) -> Result<Atype, Stop>
    ensures { Reads (reader.parens_type_behind turns (reader.atype turns depth) open_at first tokens.old.rest.now) result tokens.new.rest.now }
{
    if tokens.sees(Key::KCloseParen) {
        let close_at = tokens.key(Key::KCloseParen)?;
        return Ok(Atype::Paren(open_at, first, close_at));
    }
    tuple_type(tokens, turns, depth, open_at, first)
}

#[cycle(types)]
#[tactic(auto, unfolding(crate::specs::TypeReader::tuple_type))]
fn tuple_type(
    tokens: &mut Cursor<'_>,
    turns: usize,
    depth: usize,
    open_at: At,
    first: Boxed<TypeExp>,
) -> Result<Atype, Stop>
    ensures { Reads (reader.tuple_type turns (reader.atype turns depth) open_at first tokens.old.rest.now) result tokens.new.rest.now }
{
    let second = comma_type(tokens, turns, depth)?;
    let rest = members(tokens, turns, depth, second)?;
    let close_at = tokens.key(Key::KCloseParen)?;
    Ok(Atype::Tuple(open_at, first, rest, close_at))
}

/// A second member, and five more at most.
#[cycle(types)]
fn members(
    tokens: &mut Cursor<'_>,
    turns: usize,
    depth: usize,
    second: CommaType,
) -> Result<Items<CommaType>, Stop>
    ensures { Reads (parser.at_most_from (words.is key.KComma) (reader.comma_type turns (reader.atype turns depth)) 5 (second ∷ []) tokens.old.rest.now) result tokens.new.rest.now }
{
    let mut found = Items::new(tokens.alloc);
    found.push(second)?;
    for _turn in 0..5_usize {
        if !tokens.sees(Key::KComma) {
            return Ok(found);
        }
        found.push(comma_type(tokens, turns, depth)?)?;
    }
    Ok(found)
}

#[cycle(types)]
#[tactic(auto, unfolding(crate::specs::TypeReader::list_type))]
fn list_type(tokens: &mut Cursor<'_>, turns: usize, depth: usize) -> Result<Atype, Stop>
    ensures { Reads (reader.list_type turns (reader.atype turns depth) tokens.old.rest.now) result tokens.new.rest.now }
{
    let open_at = tokens.key(Key::KOpenBracket)?;
    let inner = Boxed::new(tokens.alloc, type_exp(tokens, turns, depth)?)?;
    let close_at = tokens.key(Key::KCloseBracket)?;
    Ok(Atype::List(open_at, inner, close_at))
}

/// Types that may be arguments, as many as there are.
#[cycle(types)]
pub fn atypes(tokens: &mut Cursor<'_>, turns: usize, depth: usize) -> Result<Items<Atype>, Stop>
    ensures { Reads (reader.atypes turns (reader.atype turns depth) tokens.old.rest.now) result tokens.new.rest.now }
{
    let mut found = Items::new(tokens.alloc);
    for _turn in 0..turns {
        if !sees_atype(tokens) {
            return Ok(found);
        }
        found.push(atype(tokens, turns, depth)?)?;
    }
    Err(Stop::Deep)
}

#[cycle(types)]
#[tactic(auto, unfolding(crate::specs::TypeReader::applied_type))]
fn applied_type(
    tokens: &mut Cursor<'_>,
    turns: usize,
    depth: usize,
    name: Name,
) -> Result<Btype, Stop>
    ensures { Reads (reader.applied_type turns (reader.atype turns depth) name tokens.old.rest.now) result tokens.new.rest.now }
{
    let first = atype(tokens, turns, depth)?;
    let rest = atypes(tokens, turns, depth)?;
    Ok(Btype::Applied(name, first, rest))
}

#[cycle(types)]
#[tactic(auto, unfolding(crate::specs::TypeReader::constructor_type))]
fn constructor_type(tokens: &mut Cursor<'_>, turns: usize, depth: usize) -> Result<Btype, Stop>
    ensures { Reads (reader.constructor_type turns (reader.atype turns depth) tokens.old.rest.now) result tokens.new.rest.now }
{
    let name = tokens.capital()?;
    if sees_atype(tokens) {
        return applied_type(tokens, turns, depth, name);
    }
    Ok(Btype::Plain(Atype::Con(name)))
}

#[cycle(types)]
#[tactic(auto, unfolding(crate::specs::TypeReader::btype))]
fn btype(tokens: &mut Cursor<'_>, turns: usize, depth: usize) -> Result<Btype, Stop>
    ensures { Reads (reader.btype turns (reader.atype turns depth) tokens.old.rest.now) result tokens.new.rest.now }
{
    if tokens.sees_capital() {
        return constructor_type(tokens, turns, depth);
    }
    Ok(Btype::Plain(atype(tokens, turns, depth)?))
}

#[cycle(types)]
#[tactic(auto, unfolding(crate::specs::TypeReader::arrow_type))]
fn arrow_type(tokens: &mut Cursor<'_>, turns: usize, depth: usize) -> Result<ArrowType, Stop>
    ensures { Reads (reader.arrow_type turns (reader.atype turns depth) tokens.old.rest.now) result tokens.new.rest.now }
{
    let arrow = tokens.key(Key::KRightArrow)?;
    let part = btype(tokens, turns, depth)?;
    Ok(ArrowType { arrow, part })
}

#[cycle(types)]
fn arrow_types(
    tokens: &mut Cursor<'_>,
    turns: usize,
    depth: usize,
) -> Result<Items<ArrowType>, Stop>
    ensures { Reads (reader.arrow_types turns (reader.atype turns depth) tokens.old.rest.now) result tokens.new.rest.now }
{
    let mut found = Items::new(tokens.alloc);
    for _turn in 0..turns {
        if !tokens.sees(Key::KRightArrow) {
            return Ok(found);
        }
        found.push(arrow_type(tokens, turns, depth)?)?;
    }
    Err(Stop::Deep)
}

/// A type.
#[cycle(types)]
#[tactic(auto, unfolding(crate::specs::TypeReader::type_exp))]
pub fn type_exp(tokens: &mut Cursor<'_>, turns: usize, depth: usize) -> Result<TypeExp, Stop>
    ensures { Reads (reader.type_exp turns (reader.atype turns depth) tokens.old.rest.now) result tokens.new.rest.now }
{
    let first = btype(tokens, turns, depth)?;
    let rest = arrow_types(tokens, turns, depth)?;
    Ok(TypeExp { first, rest })
}

#[cycle(types)]
#[tactic(auto, unfolding(crate::specs::TypeReader::comma_type))]
fn comma_type(tokens: &mut Cursor<'_>, turns: usize, depth: usize) -> Result<CommaType, Stop>
    ensures { Reads (reader.comma_type turns (reader.atype turns depth) tokens.old.rest.now) result tokens.new.rest.now }
{
    let comma = tokens.key(Key::KComma)?;
    let part = type_exp(tokens, turns, depth)?;
    Ok(CommaType { comma, part })
}
