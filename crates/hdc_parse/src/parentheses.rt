//! What begins with a parenthesis.

ghost use Rattle.std.specs.Prelude.{◌≡◌};
ghost use Rattle.hdc_syntax.specs.Parser as parser;
ghost use Rattle.hdc_syntax.specs.Words as words;
ghost use Rattle.hdc_syntax.specs.Results.{Reads};
ghost use Rattle.hdc_expression.specs.DeclarationReader as reader;
ghost use Rattle.hdc_expression.specs.Nested.{nested};
ghost use Rattle.hdc_expression.specs.Nests.{Nests};

use crate::left_side::{apat_behind, var_behind};
use crate::part::{applied_pat, parens_behind, pat_behind};
use crate::right_side::rhs;
use hdc_base::{At, Key};
use hdc_expression::Grammar;
use hdc_syntax::{Cursor, Stop};
use hdc_tree::{Alts, Apat, Block, Decl, Expression, Head, LeftPat, Name, Op, Sign, Var};
use sqlite_items::Boxed;

/// An operator between its first parameters.
#[tactic(auto, unfolding(hdc_expression::specs::DeclarationReader::paren_infix))]
fn paren_infix<
    E: Fn(&mut Cursor<'_>, usize, usize, bool, Sign) -> Result<(Expression, Option<Op>), Stop>,
    B: Fn(&mut Cursor<'_>, usize, usize) -> Result<Block, Stop>,
    A: Fn(&mut Cursor<'_>, usize, usize) -> Result<Alts, Stop>,
>(
    grammar: &Grammar<E, B, A>,
    tokens: &mut Cursor<'_>,
    open_at: At,
    first: Boxed<Apat>,
) -> Result<Decl, Stop>
    requires { Nests grammar.now.turns grammar.now.depth (E.pre grammar.now.exp) (E.post grammar.now.exp) (B.pre grammar.now.block) (B.post grammar.now.block) (A.pre grammar.now.alts) (A.post grammar.now.alts) }
    ensures { Reads (reader.paren_infix grammar.now.turns (nested grammar.now.turns grammar.now.depth) open_at first tokens.old.rest.now) result tokens.new.rest.now }
{
    let op = Boxed::new(tokens.alloc, tokens.var_op()?)?;
    let second = Boxed::new(tokens.alloc, grammar.apat(tokens)?)?;
    let close_at = tokens.key(Key::KCloseParen)?;
    let third = Boxed::new(tokens.alloc, grammar.apat(tokens)?)?;
    let rest = grammar.apats(tokens)?;
    let right = rhs(grammar, tokens)?;
    let head = Head::Paren(
        open_at,
        first.into_inner(),
        op.into_inner(),
        second.into_inner(),
        close_at,
        third.into_inner(),
        rest,
    );
    Ok(Decl::Equation(head, right))
}

/// What stands behind the first part of a pattern.
#[tactic(auto, unfolding(hdc_expression::specs::DeclarationReader::paren_left))]
fn paren_left<
    E: Fn(&mut Cursor<'_>, usize, usize, bool, Sign) -> Result<(Expression, Option<Op>), Stop>,
    B: Fn(&mut Cursor<'_>, usize, usize) -> Result<Block, Stop>,
    A: Fn(&mut Cursor<'_>, usize, usize) -> Result<Alts, Stop>,
>(
    grammar: &Grammar<E, B, A>,
    tokens: &mut Cursor<'_>,
    top: bool,
    open_at: At,
    first: LeftPat,
) -> Result<Decl, Stop>
    requires { Nests grammar.now.turns grammar.now.depth (E.pre grammar.now.exp) (E.post grammar.now.exp) (B.pre grammar.now.block) (B.post grammar.now.block) (A.pre grammar.now.alts) (A.post grammar.now.alts) }
    ensures { Reads (reader.paren_left grammar.now.turns (nested grammar.now.turns grammar.now.depth) top open_at first tokens.old.rest.now) result tokens.new.rest.now }
{
    let pat = Boxed::new(tokens.alloc, pat_behind(grammar, tokens, first)?)?;
    let apat = parens_behind(grammar, tokens, open_at, pat)?;
    apat_behind(grammar, tokens, top, apat)
}

/// What stands behind a pattern that may be an argument.
fn paren_behind<
    E: Fn(&mut Cursor<'_>, usize, usize, bool, Sign) -> Result<(Expression, Option<Op>), Stop>,
    B: Fn(&mut Cursor<'_>, usize, usize) -> Result<Block, Stop>,
    A: Fn(&mut Cursor<'_>, usize, usize) -> Result<Alts, Stop>,
>(
    grammar: &Grammar<E, B, A>,
    tokens: &mut Cursor<'_>,
    top: bool,
    open_at: At,
    first: Apat,
) -> Result<Decl, Stop>
    requires { Nests grammar.now.turns grammar.now.depth (E.pre grammar.now.exp) (E.post grammar.now.exp) (B.pre grammar.now.block) (B.post grammar.now.block) (A.pre grammar.now.alts) (A.post grammar.now.alts) }
    ensures { Reads (reader.paren_behind grammar.now.turns (nested grammar.now.turns grammar.now.depth) top open_at first tokens.old.rest.now) result tokens.new.rest.now }
{
    if tokens.sees_var_op() {
        let first = Boxed::new(tokens.alloc, first)?;
        return paren_infix(grammar, tokens, open_at, first);
    }
    paren_left(grammar, tokens, top, open_at, LeftPat::Plain(first))
}

fn operator_decl<
    E: Fn(&mut Cursor<'_>, usize, usize, bool, Sign) -> Result<(Expression, Option<Op>), Stop>,
    B: Fn(&mut Cursor<'_>, usize, usize) -> Result<Block, Stop>,
    A: Fn(&mut Cursor<'_>, usize, usize) -> Result<Alts, Stop>,
>(
    grammar: &Grammar<E, B, A>,
    tokens: &mut Cursor<'_>,
    open_at: At,
    name: Name,
) -> Result<Decl, Stop>
    requires { Nests grammar.now.turns grammar.now.depth (E.pre grammar.now.exp) (E.post grammar.now.exp) (B.pre grammar.now.block) (B.post grammar.now.block) (A.pre grammar.now.alts) (A.post grammar.now.alts) }
    ensures { Reads (reader.operator_decl grammar.now.turns (nested grammar.now.turns grammar.now.depth) open_at name tokens.old.rest.now) result tokens.new.rest.now }
{
    let close_at = tokens.key(Key::KCloseParen)?;
    var_behind(grammar, tokens, Var::Operator(open_at, name, close_at))
}

/// What stands behind `-`.
fn minus_decl<
    E: Fn(&mut Cursor<'_>, usize, usize, bool, Sign) -> Result<(Expression, Option<Op>), Stop>,
    B: Fn(&mut Cursor<'_>, usize, usize) -> Result<Block, Stop>,
    A: Fn(&mut Cursor<'_>, usize, usize) -> Result<Alts, Stop>,
>(
    grammar: &Grammar<E, B, A>,
    tokens: &mut Cursor<'_>,
    top: bool,
    open_at: At,
    name: Name,
) -> Result<Decl, Stop>
    requires { Nests grammar.now.turns grammar.now.depth (E.pre grammar.now.exp) (E.post grammar.now.exp) (B.pre grammar.now.block) (B.post grammar.now.block) (A.pre grammar.now.alts) (A.post grammar.now.alts) }
    ensures { Reads (reader.minus_decl grammar.now.turns (nested grammar.now.turns grammar.now.depth) top open_at name tokens.old.rest.now) result tokens.new.rest.now }
{
    let (number_at, number) = tokens.number()?;
    let first = LeftPat::Negative(name.at, number_at, number);
    paren_left(grammar, tokens, top, open_at, first)
}

/// The name is `-`.
fn is_minus(name: &Name) -> bool
    ensures { result ≡ words.is_minus_text name.now.text }
{
    name.text.as_slice() == b"-".as_slice()
}

/// What stands behind a name of symbols.
fn symbol_by<
    E: Fn(&mut Cursor<'_>, usize, usize, bool, Sign) -> Result<(Expression, Option<Op>), Stop>,
    B: Fn(&mut Cursor<'_>, usize, usize) -> Result<Block, Stop>,
    A: Fn(&mut Cursor<'_>, usize, usize) -> Result<Alts, Stop>,
>(
    grammar: &Grammar<E, B, A>,
    tokens: &mut Cursor<'_>,
    top: bool,
    open_at: At,
    name: Name,
) -> Result<Decl, Stop>
    requires { Nests grammar.now.turns grammar.now.depth (E.pre grammar.now.exp) (E.post grammar.now.exp) (B.pre grammar.now.block) (B.post grammar.now.block) (A.pre grammar.now.alts) (A.post grammar.now.alts) }
    ensures { Reads (reader.symbol_by grammar.now.turns (nested grammar.now.turns grammar.now.depth) top open_at name (parser.head tokens.old.rest.now) tokens.old.rest.now) result tokens.new.rest.now }
{
    if tokens.sees(Key::KCloseParen) {
        return operator_decl(grammar, tokens, open_at, name);
    }
    if is_minus(&name) {
        return minus_decl(grammar, tokens, top, open_at, name);
    }
    Err(tokens.refuse())
}

#[tactic(auto, unfolding(hdc_expression::specs::DeclarationReader::symbol_decl))]
fn symbol_decl<
    E: Fn(&mut Cursor<'_>, usize, usize, bool, Sign) -> Result<(Expression, Option<Op>), Stop>,
    B: Fn(&mut Cursor<'_>, usize, usize) -> Result<Block, Stop>,
    A: Fn(&mut Cursor<'_>, usize, usize) -> Result<Alts, Stop>,
>(grammar: &Grammar<E, B, A>, tokens: &mut Cursor<'_>, top: bool, open_at: At) -> Result<Decl, Stop>
    requires { Nests grammar.now.turns grammar.now.depth (E.pre grammar.now.exp) (E.post grammar.now.exp) (B.pre grammar.now.block) (B.post grammar.now.block) (A.pre grammar.now.alts) (A.post grammar.now.alts) }
    ensures { Reads (reader.symbol_decl grammar.now.turns (nested grammar.now.turns grammar.now.depth) top open_at tokens.old.rest.now) result tokens.new.rest.now }
{
    let name = tokens.symbol()?;
    symbol_by(grammar, tokens, top, open_at, name)
}

fn unit_decl<
    E: Fn(&mut Cursor<'_>, usize, usize, bool, Sign) -> Result<(Expression, Option<Op>), Stop>,
    B: Fn(&mut Cursor<'_>, usize, usize) -> Result<Block, Stop>,
    A: Fn(&mut Cursor<'_>, usize, usize) -> Result<Alts, Stop>,
>(grammar: &Grammar<E, B, A>, tokens: &mut Cursor<'_>, top: bool, open_at: At) -> Result<Decl, Stop>
    requires { Nests grammar.now.turns grammar.now.depth (E.pre grammar.now.exp) (E.post grammar.now.exp) (B.pre grammar.now.block) (B.post grammar.now.block) (A.pre grammar.now.alts) (A.post grammar.now.alts) }
    ensures { Reads (reader.unit_decl grammar.now.turns (nested grammar.now.turns grammar.now.depth) top open_at tokens.old.rest.now) result tokens.new.rest.now }
{
    let close_at = tokens.key(Key::KCloseParen)?;
    apat_behind(grammar, tokens, top, Apat::Unit(open_at, close_at))
}

fn paren_applied<
    E: Fn(&mut Cursor<'_>, usize, usize, bool, Sign) -> Result<(Expression, Option<Op>), Stop>,
    B: Fn(&mut Cursor<'_>, usize, usize) -> Result<Block, Stop>,
    A: Fn(&mut Cursor<'_>, usize, usize) -> Result<Alts, Stop>,
>(
    grammar: &Grammar<E, B, A>,
    tokens: &mut Cursor<'_>,
    top: bool,
    open_at: At,
    name: Name,
) -> Result<Decl, Stop>
    requires { Nests grammar.now.turns grammar.now.depth (E.pre grammar.now.exp) (E.post grammar.now.exp) (B.pre grammar.now.block) (B.post grammar.now.block) (A.pre grammar.now.alts) (A.post grammar.now.alts) }
    ensures { Reads (reader.paren_applied grammar.now.turns (nested grammar.now.turns grammar.now.depth) top open_at name tokens.old.rest.now) result tokens.new.rest.now }
{
    let first = applied_pat(grammar, tokens, name)?;
    paren_left(grammar, tokens, top, open_at, first)
}

#[tactic(auto, unfolding(hdc_expression::specs::DeclarationReader::paren_constructed))]
fn paren_constructed<
    E: Fn(&mut Cursor<'_>, usize, usize, bool, Sign) -> Result<(Expression, Option<Op>), Stop>,
    B: Fn(&mut Cursor<'_>, usize, usize) -> Result<Block, Stop>,
    A: Fn(&mut Cursor<'_>, usize, usize) -> Result<Alts, Stop>,
>(grammar: &Grammar<E, B, A>, tokens: &mut Cursor<'_>, top: bool, open_at: At) -> Result<Decl, Stop>
    requires { Nests grammar.now.turns grammar.now.depth (E.pre grammar.now.exp) (E.post grammar.now.exp) (B.pre grammar.now.block) (B.post grammar.now.block) (A.pre grammar.now.alts) (A.post grammar.now.alts) }
    ensures { Reads (reader.paren_constructed grammar.now.turns (nested grammar.now.turns grammar.now.depth) top open_at tokens.old.rest.now) result tokens.new.rest.now }
{
    let name = tokens.capital()?;
    if hdc_syntax::sees_apat(tokens) {
        return paren_applied(grammar, tokens, top, open_at, name);
    }
    paren_behind(grammar, tokens, top, open_at, Apat::Con(name))
}

/// What stands behind the parenthesis.
fn parens_by<
    E: Fn(&mut Cursor<'_>, usize, usize, bool, Sign) -> Result<(Expression, Option<Op>), Stop>,
    B: Fn(&mut Cursor<'_>, usize, usize) -> Result<Block, Stop>,
    A: Fn(&mut Cursor<'_>, usize, usize) -> Result<Alts, Stop>,
>(grammar: &Grammar<E, B, A>, tokens: &mut Cursor<'_>, top: bool, open_at: At) -> Result<Decl, Stop>
    requires { Nests grammar.now.turns grammar.now.depth (E.pre grammar.now.exp) (E.post grammar.now.exp) (B.pre grammar.now.block) (B.post grammar.now.block) (A.pre grammar.now.alts) (A.post grammar.now.alts) }
    ensures { Reads (reader.parens_by grammar.now.turns (nested grammar.now.turns grammar.now.depth) top open_at (parser.head tokens.old.rest.now) tokens.old.rest.now) result tokens.new.rest.now }
{
    if tokens.sees_symbol() {
        return symbol_decl(grammar, tokens, top, open_at);
    }
    if tokens.sees(Key::KCloseParen) {
        return unit_decl(grammar, tokens, top, open_at);
    }
    if tokens.sees_capital() {
        return paren_constructed(grammar, tokens, top, open_at);
    }
    let first = grammar.apat(tokens)?;
    paren_behind(grammar, tokens, top, open_at, first)
}

/// What begins with a parenthesis.
#[tactic(auto, unfolding(hdc_expression::specs::DeclarationReader::parens))]
pub(crate) fn parens<
    E: Fn(&mut Cursor<'_>, usize, usize, bool, Sign) -> Result<(Expression, Option<Op>), Stop>,
    B: Fn(&mut Cursor<'_>, usize, usize) -> Result<Block, Stop>,
    A: Fn(&mut Cursor<'_>, usize, usize) -> Result<Alts, Stop>,
>(grammar: &Grammar<E, B, A>, tokens: &mut Cursor<'_>, top: bool) -> Result<Decl, Stop>
    requires { Nests grammar.now.turns grammar.now.depth (E.pre grammar.now.exp) (E.post grammar.now.exp) (B.pre grammar.now.block) (B.post grammar.now.block) (A.pre grammar.now.alts) (A.post grammar.now.alts) }
    ensures { Reads (reader.parens grammar.now.turns (nested grammar.now.turns grammar.now.depth) top tokens.old.rest.now) result tokens.new.rest.now }
{
    let open_at = tokens.key(Key::KOpenParen)?;
    parens_by(grammar, tokens, top, open_at)
}
