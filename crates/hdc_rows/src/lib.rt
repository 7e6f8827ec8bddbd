//! Whole runs of `serve` over stores and sinks in memory, as tables. It has tests alone.
#![tactic(auto)]

#[cfg(test)]
mod tests;
