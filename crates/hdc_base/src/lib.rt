//! What every layer speaks of: places, skeletons, refusals and limits, and the two ways to the outside.
//!
//! A text comes in through a `Store` and a report goes out through a `Sink`. Both are traits, so
//! that the compiler is proved over any of them. Their contracts say what was read and taken, where
//! that is told, and that a fault is answered only where it was counted.
//!
//! `MemStore` and `MemSink` stand for the outside in memory, and fail at the calls whose numbers they
//! are given, so their contracts say each answer exactly. `FileStore` and `StdSink` are the files and
//! the standard output of a runtime: no contract can tell what these hold, so theirs speak of faults.
#![tactic(auto)]

mod count;
mod file_store;
mod mem_sink;
mod mem_store;
mod outside;
mod place;
mod refusal;
mod skeleton;
mod std_sink;
mod text;
mod token;

pub use file_store::FileStore;
pub use mem_sink::MemSink;
pub use mem_store::MemStore;
pub use outside::{Load, Put, Sink, Store};
pub use place::{At, Place, Src};
pub use refusal::{Kind, Limit, Refusal, Stop, Want, Which};
pub use skeleton::SkelKind;
pub use std_sink::StdSink;
pub use text::{Calls, Runes, Text, Texts};
pub use token::{Key, Token, Tokens, Word};

#[cfg(test)]
mod tests;
