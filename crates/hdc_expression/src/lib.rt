//! The parser of expressions.
//!
//! `Grammar` has a method for each rule, which gives what the rule gives (`specs/ExpressionReader.antt`),
//! unless memory is wanting. What nests is read by function values (`specs/Nests.antt`), so that each rule
//! is proved by itself.
#![tactic(auto)]

mod argument;
mod brackets;
mod chain;
mod grammar;
mod operand;
mod parentheses;
mod qualifier;

pub use grammar::Grammar;
pub use qualifier::QualHead;
