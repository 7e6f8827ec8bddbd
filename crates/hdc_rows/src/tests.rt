//! The tables: what each program gives, and what comes of other words, long files and failures.

mod chains;
mod depths;
mod job;
mod outside;
mod resolved;
mod rows;
mod trees;
