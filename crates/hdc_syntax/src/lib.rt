//! Parsers over lists of tokens, and those of patterns and types.
//!
//! A rule of a grammar is a function from the tokens that are left to what it reads and the tokens behind
//! it, or to why it stops (`specs/Parser.antt`). `Cursor` runs such rules on a slice of tokens; each of its
//! methods gives what its rule gives, unless memory is wanting (`specs/Results.antt`). The rules of tokens
//! are in `specs/Words.antt`, those of variables and operators in `specs/Names.antt`. The functions that
//! parse patterns and types do the same for their rules (`specs/PatternReader.antt`,
//! `specs/TypeReader.antt`).
#![tactic(auto)]

mod cursor;
mod name;
mod pattern;
mod regular;
mod stop;
mod type_tree;

pub use cursor::Cursor;
pub use pattern::{
    apat, apats, applied_pat, comma_pat, comma_pats, cons_pat, cons_pats, left_pat, negative_pat,
    parens_behind, pat, pat_behind, sees_apat,
};
pub use regular::regular_count;
pub use stop::Stop;
pub use type_tree::{atype, atypes, sees_atype, type_exp};
