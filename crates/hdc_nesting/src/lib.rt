//! Nesting: how deep the tokens of a text stand in one another.
//!
//! The nesting of a token is a sum. Each bracket or brace that is open before the token adds one. Each
//! of them, and the whole text as the outermost, also adds the number of `\`, `@`, `if`, `case` and
//! `let` that stand directly in it before the token. Of these only those count that come after the
//! last `;` or `,` directly in it, where there is one. A token stands directly in the innermost bracket
//! or brace around it.
//!
//! A closing token closes the innermost open bracket or brace, of whatever kind, and stands in what it
//! closes. Where none is open it stands directly in the whole text and changes nothing: a parser
//! refuses such a text at that token or at one before it.
//!
//! `first_past` answers the first token whose nesting passes a limit. It goes once over the tokens, up
//! to that one, and keeps a count for each open bracket in place of the tokens that stand in it.
//! `at_most_the_tokens_before`, `up_to_the_token_alone` and `stands_as_the_brackets_match` are laws of
//! the nesting. The last says what stands in which bracket with no reading from left to right.
#![tactic(auto)]

mod counts;
mod laws;
mod nesting;
mod role;

pub use laws::{at_most_the_tokens_before, stands_as_the_brackets_match, up_to_the_token_alone};
pub use nesting::first_past;

#[cfg(test)]
mod tests;
