//! From a text to its lexemes.
//!
//! `lex` answers the lexemes of a text with the places of their first bytes, or the first place where
//! the text has no lexeme, comment or white byte, with what is wrong there. `end_of` is the place
//! behind the last byte. What a lexeme is stands in `specs/`, apart from how it is found; `one_answer`
//! says that no text has two answers.
#![tactic(auto)]

mod character;
mod class;
mod comment;
mod laws;
mod lexeme;
mod lexer;
mod number;
mod piece;
mod place;
mod run;
mod string;
mod word;

pub use laws::one_answer;
pub use lexeme::Form;
pub use lexer::{LexStop, lex};
pub use place::end_of;

#[cfg(test)]
mod tests;
