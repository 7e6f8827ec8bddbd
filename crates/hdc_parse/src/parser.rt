//! The parser of laid-out tokens.

ghost use Rattle.std.specs.Prelude.{◌≡◌, ℕ, ◌<◌, ◌≤◌, length};
ghost use Rattle.hdc_nesting.specs.Nesting.{nesting, IsFirstPast};
ghost use Rattle.hdc_syntax.specs.Regular as spec;
ghost use Rattle.hdc_parse.specs.Exact.{most_nesting, place_of};
ghost use Rattle.hdc_parse.specs.Answer.{IsAnswer};

use crate::program::whole_program;
use crate::stop::ParseStop;
use hdc_base::{At, Token};
use hdc_nesting::first_past;
use hdc_syntax::{Stop, regular_count};
use hdc_tree::Tree;
use std::alloc::Global;

/// How deep a token may nest.
const MOST_NESTING: u64 = 256;

/// The tree that laid-out tokens spell, where no token nests deeper than 256; `end` is the place behind
/// them. `Syntax` stands at the first token with which no program goes on, or at the end, `Nesting` at the
/// first token that nests too deep; of the two the one at the earlier token comes, and at one token
/// `Syntax`.
pub fn parse(alloc: Global, tokens: &[Token], end: At) -> Result<Tree, ParseStop>
    ensures { IsAnswer tokens.now end result }
{
    let regular = regular_count(tokens);
    match first_past(alloc, tokens, MOST_NESTING)? {
        Some(index) => {
            if index < regular {
                parse_nested(alloc, tokens, end, index)
            } else {
                parse_regular(alloc, tokens, end, regular)
            }
        }
        None => parse_regular(alloc, tokens, end, regular),
    }
}

// Where the token of this index is the first that nests too deep.
fn parse_nested(alloc: Global, tokens: &[Token], end: At, index: usize) -> Result<Tree, ParseStop>
    requires past { IsFirstPast most_nesting tokens.now index }
    requires regular { index < spec.regular_count tokens.now }
    ensures { IsAnswer tokens.now end result }
{
    match whole_program(alloc, &tokens[..index + 1]) {
        Ok(_tree) => Err(ParseStop::Nesting(place_of(tokens, end, index))),
        Err(stop) => match stop {
            Stop::Want => Err(ParseStop::Want),
            Stop::Deep => unreachable!(),
            Stop::Syntax(0) => Err(ParseStop::Nesting(place_of(tokens, end, index))),
            Stop::Syntax(left) => {
                Err(ParseStop::Syntax(place_of(tokens, end, index + 1 - left)))
            }
        },
    }
}

// Where only so many tokens may stand in a program, and none of these nests too deep.
fn parse_regular(
    alloc: Global,
    tokens: &[Token],
    end: At,
    regular: usize,
) -> Result<Tree, ParseStop>
    requires count { regular ≡ spec.regular_count tokens.now }
    requires nests { (k : ℕ) → k < regular → nesting tokens.now k ≤ most_nesting }
    ensures { IsAnswer tokens.now end result }
{
    match whole_program(alloc, &tokens[..regular]) {
        Ok(tree) => {
            if regular == tokens.len() {
                Ok(tree)
            } else {
                Err(ParseStop::Syntax(place_of(tokens, end, regular)))
            }
        }
        Err(stop) => match stop {
            Stop::Want => Err(ParseStop::Want),
            Stop::Deep => unreachable!(),
            Stop::Syntax(left) => { Err(ParseStop::Syntax(place_of(tokens, end, regular - left))) }
        },
    }
}

// The place of a token, or of the end.
#[tactic(auto, using(crate::proofs::Places::place_behind))]
fn place_of(tokens: &[Token], end: At, index: usize) -> At
    requires { index ≤ length tokens.now }
    ensures { result ≡ place_of tokens.now end index }
{
    match &tokens[index..] {
        [] => end,
        [first, ..] => first.at,
    }
}
