//! Layout: the braces and semicolons that the columns of a text stand for.
//!
//! `lay_out` answers the tokens of a text with those inserted, or the place of the brace that ends no
//! explicit block, or of the end in an explicit one. What they are is said in `specs/`: marks are put
//! between the tokens, and the rules are applied to the list of both with a stack of blocks and
//! openers. The code goes once over the tokens and makes no such list. An entry of its stack knows
//! what stands below it, so that it only walks over entries that it removes. `keeps_tokens` says that
//! without the inserted tokens the answer is the list that was given, and `places_inserted` where the
//! inserted ones stand.
#![tactic(auto)]

mod ahead;
mod laws;
mod layout;
mod mark;
mod role;
mod rules;
mod stack;
mod stop;
mod summary;

pub use laws::{keeps_tokens, places_inserted};
pub use layout::lay_out;
pub use stop::LayoutStop;

#[cfg(test)]
mod tests;
