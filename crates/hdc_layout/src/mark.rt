//! The marks between tokens.

ghost use Rattle.std.specs.Prelude.{◌≡◌};
ghost use Rattle.hdc_layout.specs.Marks.{behind, mark_at_end, mark_before, starts_block};

use crate::role::{Role, begins_block, is_open_brace, role_of};
use hdc_base::Token;

/// What stands before a place of a text.
#[derive(Clone, Copy, Debug, PartialEq, Eq)]
pub enum Before {
    /// Nothing.
    Beginning,
    /// A token, by its line and its role.
    Token(u32, Role),
}

/// What is marked at a place.
#[derive(Clone, Copy, Debug, PartialEq, Eq)]
pub enum Mark {
    /// Nothing.
    Nothing,
    /// That a block begins, at a column.
    Block(u32),
    /// That a line begins, at a column.
    Line(u32),
}

/// The mark between what stands before a token and the token.
pub fn mark_before(before: Before, token: &Token) -> Mark
    ensures { result ≡ mark_before before token.now }
{
    let role = role_of(&token.word);
    match before {
        Before::Beginning => {
            if starts_block(role) {
                Mark::Block(token.at.col)
            } else {
                Mark::Line(token.at.col)
            }
        }
        Before::Token(line, before) => {
            if begins_block(before) && !is_open_brace(role) {
                Mark::Block(token.at.col)
            } else if line == token.at.line {
                Mark::Nothing
            } else {
                Mark::Line(token.at.col)
            }
        }
    }
}

/// The mark behind the last token of a text.
pub fn mark_at_end(before: Before) -> Mark
    ensures { result ≡ mark_at_end before }
{
    match before {
        Before::Beginning => Mark::Block(0),
        Before::Token(_, role) => {
            if begins_block(role) {
                Mark::Block(0)
            } else {
                Mark::Nothing
            }
        }
    }
}

/// What stands before the next place, behind a token.
pub fn behind(token: &Token) -> Before
    ensures { result ≡ behind token.now }
{
    Before::Token(token.at.line, role_of(&token.word))
}

// Whether a text that begins with the token stands in an implicit block.
fn starts_block(role: Role) -> bool
    ensures { result ≡ starts_block role }
{
    !matches!(role, Role::OpenBrace | Role::Module)
}
