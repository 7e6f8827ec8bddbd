//! What begins with a variable, or with a pattern that is bound.

ghost use Rattle.hdc_syntax.specs.Parser as parser;
ghost use Rattle.hdc_syntax.specs.Results.{Reads};
ghost use Rattle.hdc_expression.specs.DeclarationReader as reader;
ghost use Rattle.hdc_expression.specs.Nested.{nested};
ghost use Rattle.hdc_expression.specs.Nests.{Nests};

use crate::part::{applied_pat, cons_pat, cons_pats, pat_behind, type_exp};
use crate::right_side::rhs;
use hdc_base::Key;
use hdc_expression::Grammar;
use hdc_syntax::{Cursor, Stop};
use hdc_tree::{
    Alts, Apat, Block, CommaVar, Decl, Expression, Head, LeftPat, Name, Op, Pat, Sign, Var,
};
use sqlite_items::{Boxed, Items};

/// `,` and a variable.
#[tactic(auto, unfolding(hdc_expression::specs::DeclarationReader::comma_var))]
fn comma_var<
    E: Fn(&mut Cursor<'_>, usize, usize, bool, Sign) -> Result<(Expression, Option<Op>), Stop>,
    B: Fn(&mut Cursor<'_>, usize, usize) -> Result<Block, Stop>,
    A: Fn(&mut Cursor<'_>, usize, usize) -> Result<Alts, Stop>,
>(grammar: &Grammar<E, B, A>, tokens: &mut Cursor<'_>) -> Result<CommaVar, Stop>
    ensures { Reads (reader.comma_var grammar.now.turns (nested grammar.now.turns grammar.now.depth) tokens.old.rest.now) result tokens.new.rest.now }
{
    let comma = tokens.key(Key::KComma)?;
    let var = tokens.var()?;
    Ok(CommaVar { comma, var })
}

/// Variables with `,` before each, as many as there are.
fn comma_vars<
    E: Fn(&mut Cursor<'_>, usize, usize, bool, Sign) -> Result<(Expression, Option<Op>), Stop>,
    B: Fn(&mut Cursor<'_>, usize, usize) -> Result<Block, Stop>,
    A: Fn(&mut Cursor<'_>, usize, usize) -> Result<Alts, Stop>,
>(grammar: &Grammar<E, B, A>, tokens: &mut Cursor<'_>) -> Result<Items<CommaVar>, Stop>
    ensures { Reads (reader.comma_vars grammar.now.turns (nested grammar.now.turns grammar.now.depth) tokens.old.rest.now) result tokens.new.rest.now }
{
    let mut found = Items::new(tokens.alloc);
    for _turn in 0..grammar.turns {
        if !tokens.sees(Key::KComma) {
            return Ok(found);
        }
        found.push(comma_var(grammar, tokens)?)?;
    }
    Err(Stop::Deep)
}

#[tactic(auto, unfolding(hdc_expression::specs::DeclarationReader::signature))]
fn signature<
    E: Fn(&mut Cursor<'_>, usize, usize, bool, Sign) -> Result<(Expression, Option<Op>), Stop>,
    B: Fn(&mut Cursor<'_>, usize, usize) -> Result<Block, Stop>,
    A: Fn(&mut Cursor<'_>, usize, usize) -> Result<Alts, Stop>,
>(grammar: &Grammar<E, B, A>, tokens: &mut Cursor<'_>, first: Var) -> Result<Decl, Stop>
    ensures { Reads (reader.signature grammar.now.turns (nested grammar.now.turns grammar.now.depth) first tokens.old.rest.now) result tokens.new.rest.now }
{
    let rest = comma_vars(grammar, tokens)?;
    let at = tokens.key(Key::KDoubleColon)?;
    let part = type_exp(grammar, tokens)?;
    Ok(Decl::Signature(first, rest, at, part))
}

#[tactic(auto, unfolding(hdc_expression::specs::DeclarationReader::prefix_decl))]
fn prefix_decl<
    E: Fn(&mut Cursor<'_>, usize, usize, bool, Sign) -> Result<(Expression, Option<Op>), Stop>,
    B: Fn(&mut Cursor<'_>, usize, usize) -> Result<Block, Stop>,
    A: Fn(&mut Cursor<'_>, usize, usize) -> Result<Alts, Stop>,
>(grammar: &Grammar<E, B, A>, tokens: &mut Cursor<'_>, var: Var) -> Result<Decl, Stop>
    requires { Nests grammar.now.turns grammar.now.depth (E.pre grammar.now.exp) (E.post grammar.now.exp) (B.pre grammar.now.block) (B.post grammar.now.block) (A.pre grammar.now.alts) (A.post grammar.now.alts) }
    ensures { Reads (reader.prefix_decl grammar.now.turns (nested grammar.now.turns grammar.now.depth) var tokens.old.rest.now) result tokens.new.rest.now }
{
    let params = grammar.apats(tokens)?;
    let right = rhs(grammar, tokens)?;
    Ok(Decl::Equation(Head::Prefix(var, params), right))
}

/// What stands behind a variable that is no pattern.
pub(crate) fn var_behind<
    E: Fn(&mut Cursor<'_>, usize, usize, bool, Sign) -> Result<(Expression, Option<Op>), Stop>,
    B: Fn(&mut Cursor<'_>, usize, usize) -> Result<Block, Stop>,
    A: Fn(&mut Cursor<'_>, usize, usize) -> Result<Alts, Stop>,
>(grammar: &Grammar<E, B, A>, tokens: &mut Cursor<'_>, var: Var) -> Result<Decl, Stop>
    requires { Nests grammar.now.turns grammar.now.depth (E.pre grammar.now.exp) (E.post grammar.now.exp) (B.pre grammar.now.block) (B.post grammar.now.block) (A.pre grammar.now.alts) (A.post grammar.now.alts) }
    ensures { Reads (reader.var_behind grammar.now.turns (nested grammar.now.turns grammar.now.depth) var tokens.old.rest.now) result tokens.new.rest.now }
{
    if tokens.sees(Key::KComma) || tokens.sees(Key::KDoubleColon) {
        return signature(grammar, tokens, var);
    }
    prefix_decl(grammar, tokens, var)
}

#[tactic(auto, unfolding(hdc_expression::specs::DeclarationReader::infix_decl))]
fn infix_decl<
    E: Fn(&mut Cursor<'_>, usize, usize, bool, Sign) -> Result<(Expression, Option<Op>), Stop>,
    B: Fn(&mut Cursor<'_>, usize, usize) -> Result<Block, Stop>,
    A: Fn(&mut Cursor<'_>, usize, usize) -> Result<Alts, Stop>,
>(grammar: &Grammar<E, B, A>, tokens: &mut Cursor<'_>, first: Boxed<Apat>) -> Result<Decl, Stop>
    requires { Nests grammar.now.turns grammar.now.depth (E.pre grammar.now.exp) (E.post grammar.now.exp) (B.pre grammar.now.block) (B.post grammar.now.block) (A.pre grammar.now.alts) (A.post grammar.now.alts) }
    ensures { Reads (reader.infix_decl grammar.now.turns (nested grammar.now.turns grammar.now.depth) first tokens.old.rest.now) result tokens.new.rest.now }
{
    let op = Boxed::new(tokens.alloc, tokens.var_op()?)?;
    let second = Boxed::new(tokens.alloc, grammar.apat(tokens)?)?;
    let right = rhs(grammar, tokens)?;
    let head = Head::Infix(first.into_inner(), op.into_inner(), second.into_inner());
    Ok(Decl::Equation(head, right))
}

fn binding<
    E: Fn(&mut Cursor<'_>, usize, usize, bool, Sign) -> Result<(Expression, Option<Op>), Stop>,
    B: Fn(&mut Cursor<'_>, usize, usize) -> Result<Block, Stop>,
    A: Fn(&mut Cursor<'_>, usize, usize) -> Result<Alts, Stop>,
>(grammar: &Grammar<E, B, A>, tokens: &mut Cursor<'_>, pat: Boxed<Pat>) -> Result<Decl, Stop>
    requires { Nests grammar.now.turns grammar.now.depth (E.pre grammar.now.exp) (E.post grammar.now.exp) (B.pre grammar.now.block) (B.post grammar.now.block) (A.pre grammar.now.alts) (A.post grammar.now.alts) }
    ensures { Reads (reader.binding grammar.now.turns (nested grammar.now.turns grammar.now.depth) pat tokens.old.rest.now) result tokens.new.rest.now }
{
    let right = rhs(grammar, tokens)?;
    Ok(Decl::Binding(pat.into_inner(), right))
}

/// What stands behind the first part of a pattern that is bound.
#[tactic(auto, unfolding(hdc_expression::specs::DeclarationReader::left_behind))]
pub(crate) fn left_behind<
    E: Fn(&mut Cursor<'_>, usize, usize, bool, Sign) -> Result<(Expression, Option<Op>), Stop>,
    B: Fn(&mut Cursor<'_>, usize, usize) -> Result<Block, Stop>,
    A: Fn(&mut Cursor<'_>, usize, usize) -> Result<Alts, Stop>,
>(grammar: &Grammar<E, B, A>, tokens: &mut Cursor<'_>, first: LeftPat) -> Result<Decl, Stop>
    requires { Nests grammar.now.turns grammar.now.depth (E.pre grammar.now.exp) (E.post grammar.now.exp) (B.pre grammar.now.block) (B.post grammar.now.block) (A.pre grammar.now.alts) (A.post grammar.now.alts) }
    ensures { Reads (reader.left_behind grammar.now.turns (nested grammar.now.turns grammar.now.depth) first tokens.old.rest.now) result tokens.new.rest.now }
{
    let pat = Boxed::new(tokens.alloc, pat_behind(grammar, tokens, first)?)?;
    binding(grammar, tokens, pat)
}

/// What stands behind a pattern that may be an argument.
pub(crate) fn apat_behind<
    E: Fn(&mut Cursor<'_>, usize, usize, bool, Sign) -> Result<(Expression, Option<Op>), Stop>,
    B: Fn(&mut Cursor<'_>, usize, usize) -> Result<Block, Stop>,
    A: Fn(&mut Cursor<'_>, usize, usize) -> Result<Alts, Stop>,
>(grammar: &Grammar<E, B, A>, tokens: &mut Cursor<'_>, top: bool, first: Apat) -> Result<Decl, Stop>
    requires { Nests grammar.now.turns grammar.now.depth (E.pre grammar.now.exp) (E.post grammar.now.exp) (B.pre grammar.now.block) (B.post grammar.now.block) (A.pre grammar.now.alts) (A.post grammar.now.alts) }
    ensures { Reads (reader.apat_behind grammar.now.turns (nested grammar.now.turns grammar.now.depth) top first tokens.old.rest.now) result tokens.new.rest.now }
{
    if top || tokens.sees_var_op() {
        let first = Boxed::new(tokens.alloc, first)?;
        return infix_decl(grammar, tokens, first);
    }
    left_behind(grammar, tokens, LeftPat::Plain(first))
}

#[tactic(auto, unfolding(hdc_expression::specs::DeclarationReader::as_decl))]
fn as_decl<
    E: Fn(&mut Cursor<'_>, usize, usize, bool, Sign) -> Result<(Expression, Option<Op>), Stop>,
    B: Fn(&mut Cursor<'_>, usize, usize) -> Result<Block, Stop>,
    A: Fn(&mut Cursor<'_>, usize, usize) -> Result<Alts, Stop>,
>(grammar: &Grammar<E, B, A>, tokens: &mut Cursor<'_>, top: bool, name: Name) -> Result<Decl, Stop>
    requires { Nests grammar.now.turns grammar.now.depth (E.pre grammar.now.exp) (E.post grammar.now.exp) (B.pre grammar.now.block) (B.post grammar.now.block) (A.pre grammar.now.alts) (A.post grammar.now.alts) }
    ensures { Reads (reader.as_decl grammar.now.turns (nested grammar.now.turns grammar.now.depth) top name tokens.old.rest.now) result tokens.new.rest.now }
{
    let at = tokens.key(Key::KAt)?;
    let inner = Boxed::new(tokens.alloc, grammar.apat(tokens)?)?;
    apat_behind(grammar, tokens, top, Apat::As(name, at, inner))
}

/// A plain name and `:`.
#[tactic(auto, unfolding(hdc_expression::specs::DeclarationReader::cons_decl))]
fn cons_decl<
    E: Fn(&mut Cursor<'_>, usize, usize, bool, Sign) -> Result<(Expression, Option<Op>), Stop>,
    B: Fn(&mut Cursor<'_>, usize, usize) -> Result<Block, Stop>,
    A: Fn(&mut Cursor<'_>, usize, usize) -> Result<Alts, Stop>,
>(grammar: &Grammar<E, B, A>, tokens: &mut Cursor<'_>, name: Name) -> Result<Decl, Stop>
    requires { Nests grammar.now.turns grammar.now.depth (E.pre grammar.now.exp) (E.post grammar.now.exp) (B.pre grammar.now.block) (B.post grammar.now.block) (A.pre grammar.now.alts) (A.post grammar.now.alts) }
    ensures { Reads (reader.cons_decl grammar.now.turns (nested grammar.now.turns grammar.now.depth) name tokens.old.rest.now) result tokens.new.rest.now }
{
    let first = cons_pat(grammar, tokens)?;
    let rest = cons_pats(grammar, tokens, first)?;
    let first = LeftPat::Plain(Apat::Var(name));
    let pat = Boxed::new(tokens.alloc, Pat { first, rest })?;
    binding(grammar, tokens, pat)
}

/// What stands behind a name that begins with a small letter.
fn named_by<
    E: Fn(&mut Cursor<'_>, usize, usize, bool, Sign) -> Result<(Expression, Option<Op>), Stop>,
    B: Fn(&mut Cursor<'_>, usize, usize) -> Result<Block, Stop>,
    A: Fn(&mut Cursor<'_>, usize, usize) -> Result<Alts, Stop>,
>(grammar: &Grammar<E, B, A>, tokens: &mut Cursor<'_>, top: bool, name: Name) -> Result<Decl, Stop>
    requires { Nests grammar.now.turns grammar.now.depth (E.pre grammar.now.exp) (E.post grammar.now.exp) (B.pre grammar.now.block) (B.post grammar.now.block) (A.pre grammar.now.alts) (A.post grammar.now.alts) }
    ensures { Reads (reader.named_by grammar.now.turns (nested grammar.now.turns grammar.now.depth) top name (parser.head tokens.old.rest.now) tokens.old.rest.now) result tokens.new.rest.now }
{
    if tokens.sees(Key::KAt) {
        return as_decl(grammar, tokens, top, name);
    }
    if !top && tokens.sees(Key::KColon) {
        return cons_decl(grammar, tokens, name);
    }
    if tokens.sees_var_op() {
        let first = Boxed::new(tokens.alloc, Apat::Var(name))?;
        return infix_decl(grammar, tokens, first);
    }
    var_behind(grammar, tokens, Var::Plain(name))
}

/// What begins with a name that begins with a small letter.
#[tactic(auto, unfolding(hdc_expression::specs::DeclarationReader::named))]
pub(crate) fn named<
    E: Fn(&mut Cursor<'_>, usize, usize, bool, Sign) -> Result<(Expression, Option<Op>), Stop>,
    B: Fn(&mut Cursor<'_>, usize, usize) -> Result<Block, Stop>,
    A: Fn(&mut Cursor<'_>, usize, usize) -> Result<Alts, Stop>,
>(grammar: &Grammar<E, B, A>, tokens: &mut Cursor<'_>, top: bool) -> Result<Decl, Stop>
    requires { Nests grammar.now.turns grammar.now.depth (E.pre grammar.now.exp) (E.post grammar.now.exp) (B.pre grammar.now.block) (B.post grammar.now.block) (A.pre grammar.now.alts) (A.post grammar.now.alts) }
    ensures { Reads (reader.named grammar.now.turns (nested grammar.now.turns grammar.now.depth) top tokens.old.rest.now) result tokens.new.rest.now }
{
    let name = tokens.small()?;
    named_by(grammar, tokens, top, name)
}

fn applied_behind<
    E: Fn(&mut Cursor<'_>, usize, usize, bool, Sign) -> Result<(Expression, Option<Op>), Stop>,
    B: Fn(&mut Cursor<'_>, usize, usize) -> Result<Block, Stop>,
    A: Fn(&mut Cursor<'_>, usize, usize) -> Result<Alts, Stop>,
>(grammar: &Grammar<E, B, A>, tokens: &mut Cursor<'_>, name: Name) -> Result<Decl, Stop>
    requires { Nests grammar.now.turns grammar.now.depth (E.pre grammar.now.exp) (E.post grammar.now.exp) (B.pre grammar.now.block) (B.post grammar.now.block) (A.pre grammar.now.alts) (A.post grammar.now.alts) }
    ensures { Reads (reader.applied_behind grammar.now.turns (nested grammar.now.turns grammar.now.depth) name tokens.old.rest.now) result tokens.new.rest.now }
{
    let first = applied_pat(grammar, tokens, name)?;
    left_behind(grammar, tokens, first)
}

/// What begins with a constructor.
#[tactic(auto, unfolding(hdc_expression::specs::DeclarationReader::constructed))]
pub(crate) fn constructed<
    E: Fn(&mut Cursor<'_>, usize, usize, bool, Sign) -> Result<(Expression, Option<Op>), Stop>,
    B: Fn(&mut Cursor<'_>, usize, usize) -> Result<Block, Stop>,
    A: Fn(&mut Cursor<'_>, usize, usize) -> Result<Alts, Stop>,
>(grammar: &Grammar<E, B, A>, tokens: &mut Cursor<'_>, top: bool) -> Result<Decl, Stop>
    requires { Nests grammar.now.turns grammar.now.depth (E.pre grammar.now.exp) (E.post grammar.now.exp) (B.pre grammar.now.block) (B.post grammar.now.block) (A.pre grammar.now.alts) (A.post grammar.now.alts) }
    ensures { Reads (reader.constructed grammar.now.turns (nested grammar.now.turns grammar.now.depth) top tokens.old.rest.now) result tokens.new.rest.now }
{
    let name = tokens.capital()?;
    if !top && hdc_syntax::sees_apat(tokens) {
        return applied_behind(grammar, tokens, name);
    }
    apat_behind(grammar, tokens, top, Apat::Con(name))
}

/// What begins with `-`.
#[tactic(auto, unfolding(hdc_expression::specs::DeclarationReader::negative))]
pub(crate) fn negative<
    E: Fn(&mut Cursor<'_>, usize, usize, bool, Sign) -> Result<(Expression, Option<Op>), Stop>,
    B: Fn(&mut Cursor<'_>, usize, usize) -> Result<Block, Stop>,
    A: Fn(&mut Cursor<'_>, usize, usize) -> Result<Alts, Stop>,
>(grammar: &Grammar<E, B, A>, tokens: &mut Cursor<'_>) -> Result<Decl, Stop>
    requires { Nests grammar.now.turns grammar.now.depth (E.pre grammar.now.exp) (E.post grammar.now.exp) (B.pre grammar.now.block) (B.post grammar.now.block) (A.pre grammar.now.alts) (A.post grammar.now.alts) }
    ensures { Reads (reader.negative grammar.now.turns (nested grammar.now.turns grammar.now.depth) tokens.old.rest.now) result tokens.new.rest.now }
{
    let first = hdc_syntax::negative_pat(tokens)?;
    left_behind(grammar, tokens, first)
}
