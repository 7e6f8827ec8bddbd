//! Declarations in braces.

ghost use Rattle.hdc_syntax.specs.Results.{Reads};
ghost use Rattle.hdc_expression.specs.DeclarationReader as reader;
ghost use Rattle.hdc_expression.specs.Nested.{nested};
ghost use Rattle.hdc_expression.specs.Nests.{Nests};

use crate::alternative::ends_member;
use crate::left_side::{apat_behind, constructed, named, negative};
use crate::parentheses::parens;
use hdc_base::Key;
use hdc_expression::Grammar;
use hdc_syntax::{Cursor, Stop};
use hdc_tree::{Alts, Block, Decl, Expression, NextDecl, Op, Sign};
use sqlite_items::{Boxed, Items};

/// A declaration that is not empty. At top level, where the flag is set, none binds a pattern.
#[tactic(auto, unfolding(hdc_expression::specs::DeclarationReader::stated))]
pub fn stated<
    E: Fn(&mut Cursor<'_>, usize, usize, bool, Sign) -> Result<(Expression, Option<Op>), Stop>,
    B: Fn(&mut Cursor<'_>, usize, usize) -> Result<Block, Stop>,
    A: Fn(&mut Cursor<'_>, usize, usize) -> Result<Alts, Stop>,
>(grammar: &Grammar<E, B, A>, tokens: &mut Cursor<'_>, top: bool) -> Result<Decl, Stop>
    requires { Nests grammar.now.turns grammar.now.depth (E.pre grammar.now.exp) (E.post grammar.now.exp) (B.pre grammar.now.block) (B.post grammar.now.block) (A.pre grammar.now.alts) (A.post grammar.now.alts) }
    ensures { Reads (reader.stated grammar.now.turns (nested grammar.now.turns grammar.now.depth) top tokens.old.rest.now) result tokens.new.rest.now }
{
    if tokens.sees_small() {
        return named(grammar, tokens, top);
    }
    if tokens.sees(Key::KOpenParen) {
        return parens(grammar, tokens, top);
    }
    if tokens.sees_capital() {
        return constructed(grammar, tokens, top);
    }
    if !top && tokens.sees_minus() {
        return negative(grammar, tokens);
    }
    let first = grammar.apat(tokens)?;
    apat_behind(grammar, tokens, top, first)
}

/// A declaration, which may be empty.
#[tactic(auto, unfolding(hdc_expression::specs::DeclarationReader::decl))]
fn decl<
    E: Fn(&mut Cursor<'_>, usize, usize, bool, Sign) -> Result<(Expression, Option<Op>), Stop>,
    B: Fn(&mut Cursor<'_>, usize, usize) -> Result<Block, Stop>,
    A: Fn(&mut Cursor<'_>, usize, usize) -> Result<Alts, Stop>,
>(grammar: &Grammar<E, B, A>, tokens: &mut Cursor<'_>) -> Result<Decl, Stop>
    requires { Nests grammar.now.turns grammar.now.depth (E.pre grammar.now.exp) (E.post grammar.now.exp) (B.pre grammar.now.block) (B.post grammar.now.block) (A.pre grammar.now.alts) (A.post grammar.now.alts) }
    ensures { Reads (reader.decl grammar.now.turns (nested grammar.now.turns grammar.now.depth) tokens.old.rest.now) result tokens.new.rest.now }
{
    if ends_member(tokens) {
        return Ok(Decl::Empty);
    }
    stated(grammar, tokens, false)
}

/// `;` and a declaration.
#[tactic(auto, unfolding(hdc_expression::specs::DeclarationReader::next_decl))]
fn next_decl<
    E: Fn(&mut Cursor<'_>, usize, usize, bool, Sign) -> Result<(Expression, Option<Op>), Stop>,
    B: Fn(&mut Cursor<'_>, usize, usize) -> Result<Block, Stop>,
    A: Fn(&mut Cursor<'_>, usize, usize) -> Result<Alts, Stop>,
>(grammar: &Grammar<E, B, A>, tokens: &mut Cursor<'_>) -> Result<NextDecl, Stop>
    requires { Nests grammar.now.turns grammar.now.depth (E.pre grammar.now.exp) (E.post grammar.now.exp) (B.pre grammar.now.block) (B.post grammar.now.block) (A.pre grammar.now.alts) (A.post grammar.now.alts) }
    ensures { Reads (reader.next_decl grammar.now.turns (nested grammar.now.turns grammar.now.depth) tokens.old.rest.now) result tokens.new.rest.now }
{
    let semicolon = tokens.key(Key::KSemicolon)?;
    let decl = decl(grammar, tokens)?;
    Ok(NextDecl { semicolon, decl })
}

/// Declarations with `;` before each, as many as there are.
fn next_decls<
    E: Fn(&mut Cursor<'_>, usize, usize, bool, Sign) -> Result<(Expression, Option<Op>), Stop>,
    B: Fn(&mut Cursor<'_>, usize, usize) -> Result<Block, Stop>,
    A: Fn(&mut Cursor<'_>, usize, usize) -> Result<Alts, Stop>,
>(grammar: &Grammar<E, B, A>, tokens: &mut Cursor<'_>) -> Result<Items<NextDecl>, Stop>
    requires { Nests grammar.now.turns grammar.now.depth (E.pre grammar.now.exp) (E.post grammar.now.exp) (B.pre grammar.now.block) (B.post grammar.now.block) (A.pre grammar.now.alts) (A.post grammar.now.alts) }
    ensures { Reads (reader.next_decls grammar.now.turns (nested grammar.now.turns grammar.now.depth) tokens.old.rest.now) result tokens.new.rest.now }
{
    let mut found = Items::new(tokens.alloc);
    for _turn in 0..grammar.turns {
        if !tokens.sees(Key::KSemicolon) {
            return Ok(found);
        }
        found.push(next_decl(grammar, tokens)?)?;
    }
    Err(Stop::Deep)
}

/// Declarations in braces.
#[tactic(auto, unfolding(hdc_expression::specs::DeclarationReader::block))]
pub fn block<
    E: Fn(&mut Cursor<'_>, usize, usize, bool, Sign) -> Result<(Expression, Option<Op>), Stop>,
    B: Fn(&mut Cursor<'_>, usize, usize) -> Result<Block, Stop>,
    A: Fn(&mut Cursor<'_>, usize, usize) -> Result<Alts, Stop>,
>(grammar: &Grammar<E, B, A>, tokens: &mut Cursor<'_>) -> Result<Block, Stop>
    requires { Nests grammar.now.turns grammar.now.depth (E.pre grammar.now.exp) (E.post grammar.now.exp) (B.pre grammar.now.block) (B.post grammar.now.block) (A.pre grammar.now.alts) (A.post grammar.now.alts) }
    ensures { Reads (reader.block grammar.now.turns (nested grammar.now.turns grammar.now.depth) tokens.old.rest.now) result tokens.new.rest.now }
{
    let open_at = tokens.key(Key::KOpenBrace)?;
    let first = Boxed::new(tokens.alloc, decl(grammar, tokens)?)?;
    let rest = next_decls(grammar, tokens)?;
    let close_at = tokens.key(Key::KCloseBrace)?;
    Ok(Block {
        open_at,
        first,
        rest,
        close_at,
    })
}
