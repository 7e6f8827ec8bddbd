//! Fixity declarations.

ghost use Rattle.std.specs.Prelude.{◌≡◌, []};
ghost use Rattle.hdc_syntax.specs.Results.{Reads};
ghost use Rattle.hdc_parse.specs.ProgramReader as reader;

use hdc_base::{At, Key, Word};
use hdc_syntax::{Cursor, Stop};
use hdc_tree::{Associativity, CommaVarOp, Fixity, Top};
use sqlite_items::Items;

/// The greatest precedence.
const MOST_PRECEDENCE: u64 = 9;

/// The fixity of operators, which this key declares to associate so.
#[tactic(auto, unfolding(crate::specs::ProgramReader::fixity_top))]
pub fn fixity_top(
    tokens: &mut Cursor<'_>,
    turns: usize,
    key: Key,
    associativity: Associativity,
) -> Result<Top, Stop>
    ensures { Reads (reader.fixity_top turns key associativity tokens.old.rest.now) result tokens.new.rest.now }
{
    let at = tokens.key(key)?;
    let (number_at, number) = precedence(tokens)?;
    let first = tokens.var_op()?;
    let rest = comma_var_ops(tokens, turns)?;
    Ok(Top::Fixity(Fixity {
        at,
        associativity,
        number_at,
        number,
        first,
        rest,
    }))
}

fn precedence(tokens: &mut Cursor<'_>) -> Result<(At, u64), Stop>
    ensures { Reads (reader.precedence tokens.old.rest.now) result tokens.new.rest.now }
{
    match tokens.rest {
        [] => Err(tokens.refuse()),
        [first, rest @ ..] => match &first.word {
            Word::Num(number) if *number <= MOST_PRECEDENCE => {
                tokens.rest = rest;
                Ok((first.at, *number))
            }
            _ => Err(tokens.refuse()),
        },
    }
}

#[tactic(auto, unfolding(crate::specs::ProgramReader::comma_var_op))]
fn comma_var_op(tokens: &mut Cursor<'_>) -> Result<CommaVarOp, Stop>
    ensures { Reads (reader.comma_var_op tokens.old.rest.now) result tokens.new.rest.now }
{
    let comma = tokens.key(Key::KComma)?;
    let op = tokens.var_op()?;
    Ok(CommaVarOp { comma, op })
}

fn comma_var_ops(tokens: &mut Cursor<'_>, turns: usize) -> Result<Items<CommaVarOp>, Stop>
    ensures { Reads (reader.comma_var_ops turns tokens.old.rest.now) result tokens.new.rest.now }
{
    let mut found = Items::new(tokens.alloc);
    for _turn in 0..turns {
        if !tokens.sees(Key::KComma) {
            return Ok(found);
        }
        found.push(comma_var_op(tokens)?)?;
    }
    Err(Stop::Deep)
}
