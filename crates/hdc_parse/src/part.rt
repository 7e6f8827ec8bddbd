//! Patterns and types, as deep as a grammar says.

ghost use Rattle.std.specs.Prelude.{[], ◌∷◌};
ghost use Rattle.hdc_base.specs.declared.token.Key.TheVariants as key;
ghost use Rattle.hdc_syntax.specs.Parser as parser;
ghost use Rattle.hdc_syntax.specs.Words as words;
ghost use Rattle.hdc_syntax.specs.Results.{Reads};
ghost use Rattle.hdc_syntax.specs.PatternReader as patterns;
ghost use Rattle.hdc_syntax.specs.TypeReader as types;
ghost use Rattle.hdc_expression.specs.Nested.{nested};

use hdc_base::{At, Key};
use hdc_expression::Grammar;
use hdc_syntax::{Cursor, Stop};
use hdc_tree::{Apat, ConsPat, LeftPat, Name, Pat, TypeExp};
use sqlite_items::{Boxed, Items};

/// A constructor whose name is read, with its arguments.
#[tactic(auto, using(hdc_expression::proofs::NestedPatterns::nested_apat))]
pub(crate) fn applied_pat<E, B, A>(
    grammar: &Grammar<E, B, A>,
    tokens: &mut Cursor<'_>,
    name: Name,
) -> Result<LeftPat, Stop>
    ensures { Reads (patterns.applied_pat grammar.now.turns (nested grammar.now.turns grammar.now.depth).apat name tokens.old.rest.now) result tokens.new.rest.now }
{
    hdc_syntax::applied_pat(tokens, grammar.turns, grammar.depth, name)
}

/// `:` and a pattern.
#[tactic(auto, using(hdc_expression::proofs::NestedPatterns::nested_apat))]
pub(crate) fn cons_pat<E, B, A>(
    grammar: &Grammar<E, B, A>,
    tokens: &mut Cursor<'_>,
) -> Result<ConsPat, Stop>
    ensures { Reads (patterns.cons_pat grammar.now.turns (nested grammar.now.turns grammar.now.depth).apat tokens.old.rest.now) result tokens.new.rest.now }
{
    hdc_syntax::cons_pat(tokens, grammar.turns, grammar.depth)
}

/// A pattern with `:` before it that is read, and as many more as there are.
pub(crate) fn cons_pats<E, B, A>(
    grammar: &Grammar<E, B, A>,
    tokens: &mut Cursor<'_>,
    first: ConsPat,
) -> Result<Items<ConsPat>, Stop>
    ensures { Reads (parser.many_from (words.is key.KColon) (patterns.cons_pat grammar.now.turns (nested grammar.now.turns grammar.now.depth).apat) grammar.now.turns (first ∷ []) tokens.old.rest.now) result tokens.new.rest.now }
{
    let mut found = Items::new(tokens.alloc);
    found.push(first)?;
    for _turn in 0..grammar.turns {
        if !tokens.sees(Key::KColon) {
            return Ok(found);
        }
        found.push(cons_pat(grammar, tokens)?)?;
    }
    Err(Stop::Deep)
}

/// A pattern whose first part is read.
#[tactic(auto, using(hdc_expression::proofs::NestedPatterns::nested_apat))]
pub(crate) fn pat_behind<E, B, A>(
    grammar: &Grammar<E, B, A>,
    tokens: &mut Cursor<'_>,
    first: LeftPat,
) -> Result<Pat, Stop>
    ensures { Reads (patterns.pat_behind grammar.now.turns (nested grammar.now.turns grammar.now.depth).apat first tokens.old.rest.now) result tokens.new.rest.now }
{
    hdc_syntax::pat_behind(tokens, grammar.turns, grammar.depth, first)
}

/// What stands behind the first pattern in parentheses.
#[tactic(auto, using(hdc_expression::proofs::NestedPatterns::nested_apat))]
pub(crate) fn parens_behind<E, B, A>(
    grammar: &Grammar<E, B, A>,
    tokens: &mut Cursor<'_>,
    open_at: At,
    first: Boxed<Pat>,
) -> Result<Apat, Stop>
    ensures { Reads (patterns.parens_behind grammar.now.turns (nested grammar.now.turns grammar.now.depth).apat open_at first tokens.old.rest.now) result tokens.new.rest.now }
{
    hdc_syntax::parens_behind(tokens, grammar.turns, grammar.depth, open_at, first)
}

/// A type.
#[tactic(auto, using(hdc_expression::proofs::NestedPatterns::nested_atype))]
pub(crate) fn type_exp<E, B, A>(
    grammar: &Grammar<E, B, A>,
    tokens: &mut Cursor<'_>,
) -> Result<TypeExp, Stop>
    ensures { Reads (types.type_exp grammar.now.turns (nested grammar.now.turns grammar.now.depth).atype tokens.old.rest.now) result tokens.new.rest.now }
{
    hdc_syntax::type_exp(tokens, grammar.turns, grammar.depth)
}
