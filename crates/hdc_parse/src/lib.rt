//! The parser of a program.
//!
//! `parse` answers the tree that laid-out tokens spell, or the place where no program goes on, or where
//! one nests too deep (`specs/Exact.antt`, `specs/Answer.antt`). `exact_rules` says that the rules that it
//! follows are exact, and `one_spelling` that no two well-formed trees have one spelling. The rules of
//! expressions and of declarations stand in `hdc_expression`, with the functions of expressions; those of a
//! program stand here (`specs/ProgramReader.antt`), with the functions of declarations and of programs.
#![tactic(auto)]

mod alternative;
mod data;
mod declaration;
mod fixity;
mod head;
mod laws;
mod left_side;
mod nested;
mod parentheses;
mod parser;
mod part;
mod program;
mod right_side;
mod stop;
mod top;

pub use laws::{exact_rules, one_spelling};
pub use parser::parse;
pub use stop::ParseStop;
