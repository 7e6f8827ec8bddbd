//! What nests, to a depth. Each function makes the rules of one depth less, which read by these same
//! functions what nests in them.

ghost use Rattle.hdc_syntax.specs.Results.{Reads};
ghost use Rattle.hdc_expression.specs.Nested.{nested};
ghost use Rattle.hdc_parse.specs.ProgramReader as reader;

use crate::declaration::stated;
use hdc_expression::Grammar;
use hdc_syntax::{Cursor, Stop};
use hdc_tree::{Alts, Block, Decl, Expression, Op, Sign, Top};

/// An expression, and the operator that ends it in a section; `taken` is the sign of its first operand,
/// where that is read.
#[cycle(nesting)]
pub fn nested_exp(
    tokens: &mut Cursor<'_>,
    turns: usize,
    depth: usize,
    section: bool,
    taken: Sign,
) -> Result<(Expression, Option<Op>), Stop>
    ensures { Reads ((nested turns depth).exp section taken tokens.old.rest.now) result tokens.new.rest.now }
{
    if depth == 0 {
        return Err(Stop::Deep);
    }
    let grammar = Grammar {
        turns,
        depth: depth - 1,
        exp: nested_exp,
        block: nested_block,
        alts: nested_alts,
    };
    grammar.exp_level(tokens, section, taken)
}

/// Declarations in braces.
#[cycle(nesting)]
pub fn nested_block(tokens: &mut Cursor<'_>, turns: usize, depth: usize) -> Result<Block, Stop>
    ensures { Reads ((nested turns depth).block tokens.old.rest.now) result tokens.new.rest.now }
{
    if depth == 0 {
        return Err(Stop::Deep);
    }
    let grammar = Grammar {
        turns,
        depth: depth - 1,
        exp: nested_exp,
        block: nested_block,
        alts: nested_alts,
    };
    crate::declaration::block(&grammar, tokens)
}

/// Alternatives in braces.
#[cycle(nesting)]
pub fn nested_alts(tokens: &mut Cursor<'_>, turns: usize, depth: usize) -> Result<Alts, Stop>
    ensures { Reads ((nested turns depth).alts tokens.old.rest.now) result tokens.new.rest.now }
{
    if depth == 0 {
        return Err(Stop::Deep);
    }
    let grammar = Grammar {
        turns,
        depth: depth - 1,
        exp: nested_exp,
        block: nested_block,
        alts: nested_alts,
    };
    crate::alternative::alts(&grammar, tokens)
}

/// A declaration of top level, which binds no pattern.
pub fn stated_top(tokens: &mut Cursor<'_>, turns: usize, depth: usize) -> Result<Top, Stop>
    ensures { Reads (reader.stated_top turns (nested turns depth) tokens.old.rest.now) result tokens.new.rest.now }
{
    let grammar = Grammar {
        turns,
        depth,
        exp: nested_exp,
        block: nested_block,
        alts: nested_alts,
    };
    match stated(&grammar, tokens, true)? {
        Decl::Signature(first, rest, at, part) => Ok(Top::Signature(first, rest, at, part)),
        Decl::Equation(what, right) => Ok(Top::Equation(what, right)),
        _ => Err(tokens.refuse()),
    }
}
