//! Right sides of declarations.

ghost use Rattle.hdc_syntax.specs.Results.{Reads};
ghost use Rattle.hdc_expression.specs.DeclarationReader as reader;
ghost use Rattle.hdc_expression.specs.Nested.{nested};
ghost use Rattle.hdc_expression.specs.Nests.{Nests};

use crate::alternative::local;
use hdc_base::Key;
use hdc_expression::Grammar;
use hdc_syntax::{Cursor, Stop};
use hdc_tree::{Alts, Block, EqualGuard, Expression, Op, Rhs, Sign};
use sqlite_items::{Boxed, Items};

/// `|`, a condition, `=` and an expression.
#[tactic(auto, unfolding(hdc_expression::specs::DeclarationReader::equal_guard))]
fn equal_guard<
    E: Fn(&mut Cursor<'_>, usize, usize, bool, Sign) -> Result<(Expression, Option<Op>), Stop>,
    B: Fn(&mut Cursor<'_>, usize, usize) -> Result<Block, Stop>,
    A: Fn(&mut Cursor<'_>, usize, usize) -> Result<Alts, Stop>,
>(grammar: &Grammar<E, B, A>, tokens: &mut Cursor<'_>) -> Result<EqualGuard, Stop>
    requires { Nests grammar.now.turns grammar.now.depth (E.pre grammar.now.exp) (E.post grammar.now.exp) (B.pre grammar.now.block) (B.post grammar.now.block) (A.pre grammar.now.alts) (A.post grammar.now.alts) }
    ensures { Reads (reader.equal_guard grammar.now.turns (nested grammar.now.turns grammar.now.depth) tokens.old.rest.now) result tokens.new.rest.now }
{
    let bar = tokens.key(Key::KBar)?;
    let condition = Boxed::new(tokens.alloc, grammar.whole(tokens)?)?;
    let equal = tokens.key(Key::KEqual)?;
    let exp = grammar.whole(tokens)?;
    Ok(EqualGuard {
        bar,
        condition: condition.into_inner(),
        equal,
        exp,
    })
}

/// Guards, as many as there are.
fn equal_guards<
    E: Fn(&mut Cursor<'_>, usize, usize, bool, Sign) -> Result<(Expression, Option<Op>), Stop>,
    B: Fn(&mut Cursor<'_>, usize, usize) -> Result<Block, Stop>,
    A: Fn(&mut Cursor<'_>, usize, usize) -> Result<Alts, Stop>,
>(grammar: &Grammar<E, B, A>, tokens: &mut Cursor<'_>) -> Result<Items<EqualGuard>, Stop>
    requires { Nests grammar.now.turns grammar.now.depth (E.pre grammar.now.exp) (E.post grammar.now.exp) (B.pre grammar.now.block) (B.post grammar.now.block) (A.pre grammar.now.alts) (A.post grammar.now.alts) }
    ensures { Reads (reader.equal_guards grammar.now.turns (nested grammar.now.turns grammar.now.depth) tokens.old.rest.now) result tokens.new.rest.now }
{
    let mut found = Items::new(tokens.alloc);
    for _turn in 0..grammar.turns {
        if !tokens.sees(Key::KBar) {
            return Ok(found);
        }
        found.push(equal_guard(grammar, tokens)?)?;
    }
    Err(Stop::Deep)
}

#[tactic(auto, unfolding(hdc_expression::specs::DeclarationReader::equal_rhs))]
fn equal_rhs<
    E: Fn(&mut Cursor<'_>, usize, usize, bool, Sign) -> Result<(Expression, Option<Op>), Stop>,
    B: Fn(&mut Cursor<'_>, usize, usize) -> Result<Block, Stop>,
    A: Fn(&mut Cursor<'_>, usize, usize) -> Result<Alts, Stop>,
>(grammar: &Grammar<E, B, A>, tokens: &mut Cursor<'_>) -> Result<Rhs, Stop>
    requires { Nests grammar.now.turns grammar.now.depth (E.pre grammar.now.exp) (E.post grammar.now.exp) (B.pre grammar.now.block) (B.post grammar.now.block) (A.pre grammar.now.alts) (A.post grammar.now.alts) }
    ensures { Reads (reader.equal_rhs grammar.now.turns (nested grammar.now.turns grammar.now.depth) tokens.old.rest.now) result tokens.new.rest.now }
{
    let equal = tokens.key(Key::KEqual)?;
    let exp = Boxed::new(tokens.alloc, grammar.whole(tokens)?)?;
    let decls = local(grammar, tokens)?;
    Ok(Rhs::Equal(equal, exp, decls))
}

#[tactic(auto, unfolding(hdc_expression::specs::DeclarationReader::guards_rhs))]
fn guards_rhs<
    E: Fn(&mut Cursor<'_>, usize, usize, bool, Sign) -> Result<(Expression, Option<Op>), Stop>,
    B: Fn(&mut Cursor<'_>, usize, usize) -> Result<Block, Stop>,
    A: Fn(&mut Cursor<'_>, usize, usize) -> Result<Alts, Stop>,
>(grammar: &Grammar<E, B, A>, tokens: &mut Cursor<'_>) -> Result<Rhs, Stop>
    requires { Nests grammar.now.turns grammar.now.depth (E.pre grammar.now.exp) (E.post grammar.now.exp) (B.pre grammar.now.block) (B.post grammar.now.block) (A.pre grammar.now.alts) (A.post grammar.now.alts) }
    ensures { Reads (reader.guards_rhs grammar.now.turns (nested grammar.now.turns grammar.now.depth) tokens.old.rest.now) result tokens.new.rest.now }
{
    let first = Boxed::new(tokens.alloc, equal_guard(grammar, tokens)?)?;
    let rest = equal_guards(grammar, tokens)?;
    let decls = local(grammar, tokens)?;
    Ok(Rhs::Guards(first, rest, decls))
}

/// A right side.
#[tactic(auto, unfolding(hdc_expression::specs::DeclarationReader::rhs))]
pub(crate) fn rhs<
    E: Fn(&mut Cursor<'_>, usize, usize, bool, Sign) -> Result<(Expression, Option<Op>), Stop>,
    B: Fn(&mut Cursor<'_>, usize, usize) -> Result<Block, Stop>,
    A: Fn(&mut Cursor<'_>, usize, usize) -> Result<Alts, Stop>,
>(grammar: &Grammar<E, B, A>, tokens: &mut Cursor<'_>) -> Result<Rhs, Stop>
    requires { Nests grammar.now.turns grammar.now.depth (E.pre grammar.now.exp) (E.post grammar.now.exp) (B.pre grammar.now.block) (B.post grammar.now.block) (A.pre grammar.now.alts) (A.post grammar.now.alts) }
    ensures { Reads (reader.rhs grammar.now.turns (nested grammar.now.turns grammar.now.depth) tokens.old.rest.now) result tokens.new.rest.now }
{
    if tokens.sees(Key::KBar) {
        return guards_rhs(grammar, tokens);
    }
    equal_rhs(grammar, tokens)
}
