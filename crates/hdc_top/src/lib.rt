//! The top call: words in, a report and a status out.
//!
//! `serve` reads the words, loads the file, divides its text into lexemes, lays these out, parses them, asks whether the
//! prelude and the program keep the rules on chains, depths and names, resolves them, makes code of what the program
//! binds to `main`, runs the code on the machine and writes the report by one put.
//! Its contract says what is due for the words and the text, in terms of lexemes, layout, the program's syntax, the trees
//! of its chains, the rules on its names, its resolved bindings and the meaning of arithmetic alone (`specs/Due.antt`),
//! and gives each other answer but want of memory its cause.
#![tactic(auto)]

mod blocks;
mod compiler;
mod generator;
mod job;
mod laws;
mod machine;
mod names;
mod plain;
mod prelude;
mod reader;
mod report;
mod resolve;
mod status;
mod text;
mod tree;
mod words;

pub use job::serve;
pub use laws::one_due;
pub use prelude::prelude_tree;
pub use status::{LIMIT, NOT_READ, NOT_WRITTEN, REFUSED, TRAP, USAGE, VALUE, WANT};
pub use tree::resolved_tree;
