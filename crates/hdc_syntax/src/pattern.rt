//! Patterns. A depth of n admits what nests less than n deep.

ghost use Rattle.std.specs.Prelude.{◌≡◌, ℕ, [], ◌∷◌};
ghost use Rattle.hdc_base.specs.declared.token.Key.TheVariants as key;
ghost use Rattle.hdc_syntax.specs.Parser as parser;
ghost use Rattle.hdc_syntax.specs.Parser.{Parser};
ghost use Rattle.hdc_tree.specs.declared.pattern.Apat.{Apat};
ghost use Rattle.hdc_syntax.specs.Words as words;
ghost use Rattle.hdc_syntax.specs.Results.{Reads};
ghost use Rattle.hdc_syntax.specs.PatternReader as reader;

use crate::cursor::Cursor;
use crate::stop::Stop;
use hdc_base::{At, Key};
use hdc_tree::{Apat, CommaPat, ConsPat, LeftPat, Name, Pat};
use sqlite_items::{Boxed, Items};

/// The next token begins a pattern that may be an argument.
pub fn sees_apat(tokens: &Cursor<'_>) -> bool
    ensures { result ≡ reader.starts_apat (parser.head tokens.now.rest.now) }
{
    tokens.sees_small()
        || tokens.sees_capital()
        || tokens.sees_literal()
        || tokens.sees(Key::KUnderscore)
        || tokens.sees(Key::KOpenParen)
        || tokens.sees(Key::KOpenBracket)
}

/// A pattern that may be an argument.
#[cycle(patterns)]
#[tactic(auto, unfolding(crate::specs::PatternReader::apat))]
pub fn apat(tokens: &mut Cursor<'_>, turns: usize, depth: usize) -> Result<Apat, Stop>
    ensures { Reads (reader.apat turns depth tokens.old.rest.now) result tokens.new.rest.now }
{
    if depth == 0 {
        return Err(Stop::Deep);
    }
    apat_level(tokens, turns, depth - 1)
}

#[cycle(patterns)]
#[tactic(auto, unfolding(crate::specs::PatternReader::apat_level))]
fn apat_level(tokens: &mut Cursor<'_>, turns: usize, depth: usize) -> Result<Apat, Stop>
    ensures { Reads (reader.apat_level turns (reader.apat turns depth) tokens.old.rest.now) result tokens.new.rest.now }
{
    if tokens.sees_small() {
        return named_pat(tokens, turns, depth);
    }
    if tokens.sees_capital() {
        return Ok(Apat::Con(tokens.capital()?));
    }
    if tokens.sees_literal() {
        let (at, literal) = tokens.literal()?;
        return Ok(Apat::Literal(at, literal));
    }
    if tokens.sees(Key::KUnderscore) {
        return Ok(Apat::Wildcard(tokens.key(Key::KUnderscore)?));
    }
    if tokens.sees(Key::KOpenParen) {
        return parens_pat(tokens, turns, depth);
    }
    if tokens.sees(Key::KOpenBracket) {
        return list_pat(tokens, turns, depth);
    }
    Err(tokens.refuse())
}

#[cycle(patterns)]
#[tactic(auto, unfolding(crate::specs::PatternReader::named_pat))]
fn named_pat(tokens: &mut Cursor<'_>, turns: usize, depth: usize) -> Result<Apat, Stop>
    ensures { Reads (reader.named_pat turns (reader.apat turns depth) tokens.old.rest.now) result tokens.new.rest.now }
{
    let name = tokens.small()?;
    if tokens.sees(Key::KAt) {
        let at = tokens.key(Key::KAt)?;
        let inner = Boxed::new(tokens.alloc, apat(tokens, turns, depth)?)?;
        return Ok(Apat::As(name, at, inner));
    }
    Ok(Apat::Var(name))
}

#[cycle(patterns)]
#[tactic(auto, unfolding(crate::specs::PatternReader::parens_pat))]
fn parens_pat(tokens: &mut Cursor<'_>, turns: usize, depth: usize) -> Result<Apat, Stop>
    ensures { Reads (reader.parens_pat turns (reader.apat turns depth) tokens.old.rest.now) result tokens.new.rest.now }
{
    let open_at = tokens.key(Key::KOpenParen)?;
    if tokens.sees(Key::KCloseParen) {
        let close_at = tokens.key(Key::KCloseParen)?;
        return Ok(Apat::Unit(open_at, close_at));
    }
    let first = Boxed::new(tokens.alloc, pat(tokens, turns, depth)?)?;
    parens_behind(tokens, turns, depth, open_at, first)
}

/// What stands behind the first pattern in parentheses.
#[cycle(patterns)]
pub fn parens_behind(
    tokens: &mut Cursor<'_>,
    turns: usize,
    depth: usize,
    open_at: At,
    first: Boxed<Pat>,
) -> Result<Apat, Stop>
    ensures { Reads (reader.parens_behind turns (reader.apat turns depth) open_at first tokens.old.rest.now) result tokens.new.rest.now }
{
    if tokens.sees(Key::KCloseParen) {
        let close_at = tokens.key(Key::KCloseParen)?;
        return Ok(Apat::Paren(open_at, first, close_at));
    }
    tuple_pat(tokens, turns, depth, open_at, first)
}

#[cycle(patterns)]
#[tactic(auto, unfolding(crate::specs::PatternReader::tuple_pat))]
fn tuple_pat(
    tokens: &mut Cursor<'_>,
    turns: usize,
    depth: usize,
    open_at: At,
    first: Boxed<Pat>,
) -> Result<Apat, Stop>
    ensures { Reads (reader.tuple_pat turns (reader.apat turns depth) open_at first tokens.old.rest.now) result tokens.new.rest.now }
{
    let second = comma_pat(tokens, turns, depth)?;
    let rest = members(tokens, turns, depth, second)?;
    let close_at = tokens.key(Key::KCloseParen)?;
    Ok(Apat::Tuple(open_at, first, rest, close_at))
}

/// A second member, and five more at most.
#[cycle(patterns)]
fn members(
    tokens: &mut Cursor<'_>,
    turns: usize,
    depth: usize,
    second: CommaPat,
) -> Result<Items<CommaPat>, Stop>
    ensures { Reads (parser.at_most_from (words.is key.KComma) (reader.comma_pat turns (reader.apat turns depth)) 5 (second ∷ []) tokens.old.rest.now) result tokens.new.rest.now }
{
    let mut found = Items::new(tokens.alloc);
    found.push(second)?;
    for _turn in 0..5_usize {
        if !tokens.sees(Key::KComma) {
            return Ok(found);
        }
        found.push(comma_pat(tokens, turns, depth)?)?;
    }
    Ok(found)
}

#[cycle(patterns)]
#[tactic(auto, unfolding(crate::specs::PatternReader::list_pat))]
fn list_pat(tokens: &mut Cursor<'_>, turns: usize, depth: usize) -> Result<Apat, Stop>
    ensures { Reads (reader.list_pat turns (reader.apat turns depth) tokens.old.rest.now) result tokens.new.rest.now }
{
    let open_at = tokens.key(Key::KOpenBracket)?;
    if tokens.sees(Key::KCloseBracket) {
        let close_at = tokens.key(Key::KCloseBracket)?;
        return Ok(Apat::Nil(open_at, close_at));
    }
    members_pat(tokens, turns, depth, open_at)
}

#[cycle(patterns)]
#[tactic(auto, unfolding(crate::specs::PatternReader::members_pat))]
fn members_pat(
    tokens: &mut Cursor<'_>,
    turns: usize,
    depth: usize,
    open_at: At,
) -> Result<Apat, Stop>
    ensures { Reads (reader.members_pat turns (reader.apat turns depth) open_at tokens.old.rest.now) result tokens.new.rest.now }
{
    let first = Boxed::new(tokens.alloc, pat(tokens, turns, depth)?)?;
    let rest = comma_pats(tokens, turns, depth)?;
    let close_at = tokens.key(Key::KCloseBracket)?;
    Ok(Apat::List(open_at, first, rest, close_at))
}

/// Patterns that may be arguments, as many as there are.
#[cycle(patterns)]
pub fn apats(tokens: &mut Cursor<'_>, turns: usize, depth: usize) -> Result<Items<Apat>, Stop>
    ensures { Reads (reader.apats turns (reader.apat turns depth) tokens.old.rest.now) result tokens.new.rest.now }
{
    let mut found = Items::new(tokens.alloc);
    for _turn in 0..turns {
        if !sees_apat(tokens) {
            return Ok(found);
        }
        found.push(apat(tokens, turns, depth)?)?;
    }
    Err(Stop::Deep)
}

/// The arguments of a constructor: one, and as many more as there are.
#[cycle(patterns)]
#[tactic(auto, unfolding(crate::specs::PatternReader::applied_pat))]
pub fn applied_pat(
    tokens: &mut Cursor<'_>,
    turns: usize,
    depth: usize,
    name: Name,
) -> Result<LeftPat, Stop>
    ensures { Reads (reader.applied_pat turns (reader.apat turns depth) name tokens.old.rest.now) result tokens.new.rest.now }
{
    let first = apat(tokens, turns, depth)?;
    let rest = apats(tokens, turns, depth)?;
    Ok(LeftPat::Applied(name, first, rest))
}

#[cycle(patterns)]
#[tactic(auto, unfolding(crate::specs::PatternReader::constructor_pat))]
fn constructor_pat(tokens: &mut Cursor<'_>, turns: usize, depth: usize) -> Result<LeftPat, Stop>
    ensures { Reads (reader.constructor_pat turns (reader.apat turns depth) tokens.old.rest.now) result tokens.new.rest.now }
{
    let name = tokens.capital()?;
    if sees_apat(tokens) {
        return applied_pat(tokens, turns, depth, name);
    }
    Ok(LeftPat::Plain(Apat::Con(name)))
}

/// `-` and a number.
#[tactic(auto, unfolding(crate::specs::PatternReader::negative_pat))]
pub fn negative_pat(tokens: &mut Cursor<'_>) -> Result<LeftPat, Stop>
    ensures { (turns : ℕ) (apat : Parser Apat) → Reads (reader.negative_pat turns apat tokens.old.rest.now) result tokens.new.rest.now }
{
    let at = tokens.minus()?;
    let (number_at, number) = tokens.number()?;
    Ok(LeftPat::Negative(at, number_at, number))
}

/// A pattern that may stand beside a `:`.
#[cycle(patterns)]
#[tactic(auto, unfolding(crate::specs::PatternReader::left_pat))]
pub fn left_pat(tokens: &mut Cursor<'_>, turns: usize, depth: usize) -> Result<LeftPat, Stop>
    ensures { Reads (reader.left_pat turns (reader.apat turns depth) tokens.old.rest.now) result tokens.new.rest.now }
{
    if tokens.sees_capital() {
        return constructor_pat(tokens, turns, depth);
    }
    if tokens.sees_minus() {
        return negative_pat(tokens);
    }
    Ok(LeftPat::Plain(apat(tokens, turns, depth)?))
}

/// `:` and a pattern.
#[cycle(patterns)]
#[tactic(auto, unfolding(crate::specs::PatternReader::cons_pat))]
pub fn cons_pat(tokens: &mut Cursor<'_>, turns: usize, depth: usize) -> Result<ConsPat, Stop>
    ensures { Reads (reader.cons_pat turns (reader.apat turns depth) tokens.old.rest.now) result tokens.new.rest.now }
{
    let colon = tokens.key(Key::KColon)?;
    let pat = left_pat(tokens, turns, depth)?;
    Ok(ConsPat { colon, pat })
}

/// Patterns with `:` before each, as many as there are.
#[cycle(patterns)]
pub fn cons_pats(
    tokens: &mut Cursor<'_>,
    turns: usize,
    depth: usize,
) -> Result<Items<ConsPat>, Stop>
    ensures { Reads (reader.cons_pats turns (reader.apat turns depth) tokens.old.rest.now) result tokens.new.rest.now }
{
    let mut found = Items::new(tokens.alloc);
    for _turn in 0..turns {
        if !tokens.sees(Key::KColon) {
            return Ok(found);
        }
        found.push(cons_pat(tokens, turns, depth)?)?;
    }
    Err(Stop::Deep)
}

/// A pattern.
#[cycle(patterns)]
#[tactic(auto, unfolding(crate::specs::PatternReader::pat))]
pub fn pat(tokens: &mut Cursor<'_>, turns: usize, depth: usize) -> Result<Pat, Stop>
    ensures { Reads (reader.pat turns (reader.apat turns depth) tokens.old.rest.now) result tokens.new.rest.now }
{
    let first = left_pat(tokens, turns, depth)?;
    pat_behind(tokens, turns, depth, first)
}

/// A pattern whose first part is read.
#[cycle(patterns)]
pub fn pat_behind(
    tokens: &mut Cursor<'_>,
    turns: usize,
    depth: usize,
    first: LeftPat,
) -> Result<Pat, Stop>
    ensures { Reads (reader.pat_behind turns (reader.apat turns depth) first tokens.old.rest.now) result tokens.new.rest.now }
{
    let rest = cons_pats(tokens, turns, depth)?;
    Ok(Pat { first, rest })
}

/// `,` and a pattern.
#[cycle(patterns)]
#[tactic(auto, unfolding(crate::specs::PatternReader::comma_pat))]
pub fn comma_pat(tokens: &mut Cursor<'_>, turns: usize, depth: usize) -> Result<CommaPat, Stop>
    ensures { Reads (reader.comma_pat turns (reader.apat turns depth) tokens.old.rest.now) result tokens.new.rest.now }
{
    let comma = tokens.key(Key::KComma)?;
    let pat = pat(tokens, turns, depth)?;
    Ok(CommaPat { comma, pat })
}

/// Patterns with `,` before each, as many as there are.
#[cycle(patterns)]
pub fn comma_pats(
    tokens: &mut Cursor<'_>,
    turns: usize,
    depth: usize,
) -> Result<Items<CommaPat>, Stop>
    ensures { Reads (reader.comma_pats turns (reader.apat turns depth) tokens.old.rest.now) result tokens.new.rest.now }
{
    let mut found = Items::new(tokens.alloc);
    for _turn in 0..turns {
        if !tokens.sees(Key::KComma) {
            return Ok(found);
        }
        found.push(comma_pat(tokens, turns, depth)?)?;
    }
    Err(Stop::Deep)
}
