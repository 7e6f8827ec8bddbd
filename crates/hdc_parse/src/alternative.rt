//! Alternatives.

ghost use Rattle.std.specs.Prelude.{◌≡◌};
ghost use Rattle.hdc_tree.specs.Form.{any_of};
ghost use Rattle.hdc_tree.specs.ExpressionForm.{filled_alt, filled_next_alt};
ghost use Rattle.hdc_syntax.specs.Parser as parser;
ghost use Rattle.hdc_syntax.specs.Results.{Reads};
ghost use Rattle.hdc_expression.specs.DeclarationReader as reader;
ghost use Rattle.hdc_expression.specs.Nested.{nested};
ghost use Rattle.hdc_expression.specs.Nests.{Nests};

use hdc_base::{At, Key};
use hdc_expression::Grammar;
use hdc_syntax::{Cursor, Stop};
use hdc_tree::{Alt, Alts, ArrowGuard, Block, Expression, NextAlt, Op, Pat, Sign, Where};
use sqlite_items::{Boxed, Items};

/// The next token ends a member of a block.
pub(crate) fn ends_member(tokens: &Cursor<'_>) -> bool
    ensures { result ≡ reader.ends_member (parser.head tokens.now.rest.now) }
{
    tokens.sees(Key::KSemicolon) || tokens.sees(Key::KCloseBrace)
}

/// `where` and declarations, or nothing.
#[tactic(auto, unfolding(hdc_expression::specs::DeclarationReader::local))]
pub(crate) fn local<
    E: Fn(&mut Cursor<'_>, usize, usize, bool, Sign) -> Result<(Expression, Option<Op>), Stop>,
    B: Fn(&mut Cursor<'_>, usize, usize) -> Result<Block, Stop>,
    A: Fn(&mut Cursor<'_>, usize, usize) -> Result<Alts, Stop>,
>(grammar: &Grammar<E, B, A>, tokens: &mut Cursor<'_>) -> Result<Where, Stop>
    requires { Nests grammar.now.turns grammar.now.depth (E.pre grammar.now.exp) (E.post grammar.now.exp) (B.pre grammar.now.block) (B.post grammar.now.block) (A.pre grammar.now.alts) (A.post grammar.now.alts) }
    ensures { Reads (reader.local grammar.now.turns (nested grammar.now.turns grammar.now.depth) tokens.old.rest.now) result tokens.new.rest.now }
{
    if tokens.sees(Key::KWhere) {
        let at = tokens.key(Key::KWhere)?;
        let decls = grammar.inner_block(tokens)?;
        return Ok(Where::Present(at, decls));
    }
    Ok(Where::Absent)
}

/// `|`, a condition, `->` and an expression.
#[tactic(auto, unfolding(hdc_expression::specs::DeclarationReader::arrow_guard))]
fn arrow_guard<
    E: Fn(&mut Cursor<'_>, usize, usize, bool, Sign) -> Result<(Expression, Option<Op>), Stop>,
    B: Fn(&mut Cursor<'_>, usize, usize) -> Result<Block, Stop>,
    A: Fn(&mut Cursor<'_>, usize, usize) -> Result<Alts, Stop>,
>(grammar: &Grammar<E, B, A>, tokens: &mut Cursor<'_>) -> Result<ArrowGuard, Stop>
    requires { Nests grammar.now.turns grammar.now.depth (E.pre grammar.now.exp) (E.post grammar.now.exp) (B.pre grammar.now.block) (B.post grammar.now.block) (A.pre grammar.now.alts) (A.post grammar.now.alts) }
    ensures { Reads (reader.arrow_guard grammar.now.turns (nested grammar.now.turns grammar.now.depth) tokens.old.rest.now) result tokens.new.rest.now }
{
    let bar = tokens.key(Key::KBar)?;
    let condition = Boxed::new(tokens.alloc, grammar.whole(tokens)?)?;
    let arrow = tokens.key(Key::KRightArrow)?;
    let exp = grammar.whole(tokens)?;
    Ok(ArrowGuard {
        bar,
        condition: condition.into_inner(),
        arrow,
        exp,
    })
}

/// Guards, as many as there are.
fn arrow_guards<
    E: Fn(&mut Cursor<'_>, usize, usize, bool, Sign) -> Result<(Expression, Option<Op>), Stop>,
    B: Fn(&mut Cursor<'_>, usize, usize) -> Result<Block, Stop>,
    A: Fn(&mut Cursor<'_>, usize, usize) -> Result<Alts, Stop>,
>(grammar: &Grammar<E, B, A>, tokens: &mut Cursor<'_>) -> Result<Items<ArrowGuard>, Stop>
    requires { Nests grammar.now.turns grammar.now.depth (E.pre grammar.now.exp) (E.post grammar.now.exp) (B.pre grammar.now.block) (B.post grammar.now.block) (A.pre grammar.now.alts) (A.post grammar.now.alts) }
    ensures { Reads (reader.arrow_guards grammar.now.turns (nested grammar.now.turns grammar.now.depth) tokens.old.rest.now) result tokens.new.rest.now }
{
    let mut found = Items::new(tokens.alloc);
    for _turn in 0..grammar.turns {
        if !tokens.sees(Key::KBar) {
            return Ok(found);
        }
        found.push(arrow_guard(grammar, tokens)?)?;
    }
    Err(Stop::Deep)
}

#[tactic(auto, unfolding(hdc_expression::specs::DeclarationReader::arrow_alt))]
fn arrow_alt<
    E: Fn(&mut Cursor<'_>, usize, usize, bool, Sign) -> Result<(Expression, Option<Op>), Stop>,
    B: Fn(&mut Cursor<'_>, usize, usize) -> Result<Block, Stop>,
    A: Fn(&mut Cursor<'_>, usize, usize) -> Result<Alts, Stop>,
>(grammar: &Grammar<E, B, A>, tokens: &mut Cursor<'_>, pat: Boxed<Pat>) -> Result<Alt, Stop>
    requires { Nests grammar.now.turns grammar.now.depth (E.pre grammar.now.exp) (E.post grammar.now.exp) (B.pre grammar.now.block) (B.post grammar.now.block) (A.pre grammar.now.alts) (A.post grammar.now.alts) }
    ensures { Reads (reader.arrow_alt grammar.now.turns (nested grammar.now.turns grammar.now.depth) pat tokens.old.rest.now) result tokens.new.rest.now }
{
    let arrow = tokens.key(Key::KRightArrow)?;
    let exp = Boxed::new(tokens.alloc, grammar.whole(tokens)?)?;
    let decls = local(grammar, tokens)?;
    Ok(Alt::Arrow(pat.into_inner(), arrow, exp, decls))
}

#[tactic(auto, unfolding(hdc_expression::specs::DeclarationReader::guarded_alt))]
fn guarded_alt<
    E: Fn(&mut Cursor<'_>, usize, usize, bool, Sign) -> Result<(Expression, Option<Op>), Stop>,
    B: Fn(&mut Cursor<'_>, usize, usize) -> Result<Block, Stop>,
    A: Fn(&mut Cursor<'_>, usize, usize) -> Result<Alts, Stop>,
>(grammar: &Grammar<E, B, A>, tokens: &mut Cursor<'_>, pat: Boxed<Pat>) -> Result<Alt, Stop>
    requires { Nests grammar.now.turns grammar.now.depth (E.pre grammar.now.exp) (E.post grammar.now.exp) (B.pre grammar.now.block) (B.post grammar.now.block) (A.pre grammar.now.alts) (A.post grammar.now.alts) }
    ensures { Reads (reader.guarded_alt grammar.now.turns (nested grammar.now.turns grammar.now.depth) pat tokens.old.rest.now) result tokens.new.rest.now }
{
    let first = Boxed::new(tokens.alloc, arrow_guard(grammar, tokens)?)?;
    let rest = arrow_guards(grammar, tokens)?;
    let decls = local(grammar, tokens)?;
    Ok(Alt::Guarded(pat.into_inner(), first, rest, decls))
}

/// An alternative that is not empty.
#[tactic(auto, unfolding(hdc_expression::specs::DeclarationReader::filled))]
fn filled<
    E: Fn(&mut Cursor<'_>, usize, usize, bool, Sign) -> Result<(Expression, Option<Op>), Stop>,
    B: Fn(&mut Cursor<'_>, usize, usize) -> Result<Block, Stop>,
    A: Fn(&mut Cursor<'_>, usize, usize) -> Result<Alts, Stop>,
>(grammar: &Grammar<E, B, A>, tokens: &mut Cursor<'_>) -> Result<Alt, Stop>
    requires { Nests grammar.now.turns grammar.now.depth (E.pre grammar.now.exp) (E.post grammar.now.exp) (B.pre grammar.now.block) (B.post grammar.now.block) (A.pre grammar.now.alts) (A.post grammar.now.alts) }
    ensures { Reads (reader.filled grammar.now.turns (nested grammar.now.turns grammar.now.depth) tokens.old.rest.now) result tokens.new.rest.now }
{
    let pat = Boxed::new(tokens.alloc, grammar.pat(tokens)?)?;
    if tokens.sees(Key::KBar) {
        return guarded_alt(grammar, tokens, pat);
    }
    arrow_alt(grammar, tokens, pat)
}

/// An alternative, which may be empty.
#[tactic(auto, unfolding(hdc_expression::specs::DeclarationReader::alt))]
fn alt<
    E: Fn(&mut Cursor<'_>, usize, usize, bool, Sign) -> Result<(Expression, Option<Op>), Stop>,
    B: Fn(&mut Cursor<'_>, usize, usize) -> Result<Block, Stop>,
    A: Fn(&mut Cursor<'_>, usize, usize) -> Result<Alts, Stop>,
>(grammar: &Grammar<E, B, A>, tokens: &mut Cursor<'_>) -> Result<Alt, Stop>
    requires { Nests grammar.now.turns grammar.now.depth (E.pre grammar.now.exp) (E.post grammar.now.exp) (B.pre grammar.now.block) (B.post grammar.now.block) (A.pre grammar.now.alts) (A.post grammar.now.alts) }
    ensures { Reads (reader.alt grammar.now.turns (nested grammar.now.turns grammar.now.depth) tokens.old.rest.now) result tokens.new.rest.now }
{
    if ends_member(tokens) {
        return Ok(Alt::Blank);
    }
    filled(grammar, tokens)
}

/// `;` and an alternative.
#[tactic(auto, unfolding(hdc_expression::specs::DeclarationReader::next_alt))]
fn next_alt<
    E: Fn(&mut Cursor<'_>, usize, usize, bool, Sign) -> Result<(Expression, Option<Op>), Stop>,
    B: Fn(&mut Cursor<'_>, usize, usize) -> Result<Block, Stop>,
    A: Fn(&mut Cursor<'_>, usize, usize) -> Result<Alts, Stop>,
>(grammar: &Grammar<E, B, A>, tokens: &mut Cursor<'_>) -> Result<NextAlt, Stop>
    requires { Nests grammar.now.turns grammar.now.depth (E.pre grammar.now.exp) (E.post grammar.now.exp) (B.pre grammar.now.block) (B.post grammar.now.block) (A.pre grammar.now.alts) (A.post grammar.now.alts) }
    ensures { Reads (reader.next_alt grammar.now.turns (nested grammar.now.turns grammar.now.depth) tokens.old.rest.now) result tokens.new.rest.now }
{
    let semicolon = tokens.key(Key::KSemicolon)?;
    let alt = alt(grammar, tokens)?;
    Ok(NextAlt { semicolon, alt })
}

/// Alternatives with `;` before each, as many as there are.
fn next_alts<
    E: Fn(&mut Cursor<'_>, usize, usize, bool, Sign) -> Result<(Expression, Option<Op>), Stop>,
    B: Fn(&mut Cursor<'_>, usize, usize) -> Result<Block, Stop>,
    A: Fn(&mut Cursor<'_>, usize, usize) -> Result<Alts, Stop>,
>(grammar: &Grammar<E, B, A>, tokens: &mut Cursor<'_>) -> Result<Items<NextAlt>, Stop>
    requires { Nests grammar.now.turns grammar.now.depth (E.pre grammar.now.exp) (E.post grammar.now.exp) (B.pre grammar.now.block) (B.post grammar.now.block) (A.pre grammar.now.alts) (A.post grammar.now.alts) }
    ensures { Reads (reader.next_alts grammar.now.turns (nested grammar.now.turns grammar.now.depth) tokens.old.rest.now) result tokens.new.rest.now }
{
    let mut found = Items::new(tokens.alloc);
    for _turn in 0..grammar.turns {
        if !tokens.sees(Key::KSemicolon) {
            return Ok(found);
        }
        found.push(next_alt(grammar, tokens)?)?;
    }
    Err(Stop::Deep)
}

/// The alternative is not empty.
#[tactic(auto, using(crate::proofs::Filled::filled_rules))]
fn is_filled(alt: &Alt) -> bool
    ensures { result ≡ filled_alt alt.now }
{
    match alt {
        Alt::Blank => false,
        Alt::Arrow(..) | Alt::Guarded(..) => true,
    }
}

/// One of the alternatives is not empty.
#[tactic(auto, using(crate::proofs::Filled::filled_rules))]
fn any_filled(rest: &[NextAlt]) -> bool
    ensures { result ≡ any_of filled_next_alt rest.now }
{
    for next in rest {
        if is_filled(&next.alt) {
            return true;
        }
    }
    false
}

fn alts_closed<
    E: Fn(&mut Cursor<'_>, usize, usize, bool, Sign) -> Result<(Expression, Option<Op>), Stop>,
    B: Fn(&mut Cursor<'_>, usize, usize) -> Result<Block, Stop>,
    A: Fn(&mut Cursor<'_>, usize, usize) -> Result<Alts, Stop>,
>(
    grammar: &Grammar<E, B, A>,
    tokens: &mut Cursor<'_>,
    open_at: At,
    first: Boxed<Alt>,
    rest: Items<NextAlt>,
) -> Result<Alts, Stop>
    ensures { Reads (reader.alts_closed grammar.now.turns (nested grammar.now.turns grammar.now.depth) open_at first rest tokens.old.rest.now) result tokens.new.rest.now }
{
    let close_at = tokens.key(Key::KCloseBrace)?;
    Ok(Alts {
        open_at,
        first,
        rest,
        close_at,
    })
}

/// Alternatives in braces, one of which is not empty.
#[tactic(auto, unfolding(hdc_expression::specs::DeclarationReader::alts))]
pub fn alts<
    E: Fn(&mut Cursor<'_>, usize, usize, bool, Sign) -> Result<(Expression, Option<Op>), Stop>,
    B: Fn(&mut Cursor<'_>, usize, usize) -> Result<Block, Stop>,
    A: Fn(&mut Cursor<'_>, usize, usize) -> Result<Alts, Stop>,
>(grammar: &Grammar<E, B, A>, tokens: &mut Cursor<'_>) -> Result<Alts, Stop>
    requires { Nests grammar.now.turns grammar.now.depth (E.pre grammar.now.exp) (E.post grammar.now.exp) (B.pre grammar.now.block) (B.post grammar.now.block) (A.pre grammar.now.alts) (A.post grammar.now.alts) }
    ensures { Reads (reader.alts grammar.now.turns (nested grammar.now.turns grammar.now.depth) tokens.old.rest.now) result tokens.new.rest.now }
{
    let open_at = tokens.key(Key::KOpenBrace)?;
    let first = Boxed::new(tokens.alloc, alt(grammar, tokens)?)?;
    let rest = next_alts(grammar, tokens)?;
    if is_filled(first.get()) || any_filled(rest.as_slice()) {
        return alts_closed(grammar, tokens, open_at, first, rest);
    }
    Err(tokens.refuse())
}
