//! The data types of a prelude and of a program behind it, in which synonyms are expanded.
//!
//! `resolve_datas` gives them with the types of their fields in prefix order (`specs/Datas.antt`), where a synonym counts as
//! what it means (`specs/Expanded.antt`) and none reaches itself (`specs/Needs.antt`). It gives up for want of memory alone,
//! or where a field takes 2^64 steps, before which memory ends.
//!
//! Each field is expanded on demand, straight into the list that is put out (`expand.rt`): arguments of synonyms are kept as
//! they are written, with the arguments in which they stand, so that one which a synonym drops is never gone through. There
//! is no table of meanings, and no recursion along synonyms.
//!
//! It takes time linear in the texts, but for the tables of names, and for each field in its nodes that are put out, the
//! synonyms that are gone through on the way, and their arguments as they are written. A chain of synonyms that only rename
//! one another, with the same parameters, counts as one (`renaming.rt`), and a synonym that means one of its arguments is
//! passed over where it is written (`projection.rt`). So between two nodes each other synonym is gone through at most once.
//! Other chains count each time: n uses along n synonyms `type A2 a b = A1 b a` and so on put 3 n nodes out in some n * n
//! steps.
//!
//! Where a synonym reaches itself, which the rules on names refuse, there are no data types.
#![tactic(auto)]

mod datas;
mod expand;
mod graph;
mod meanings;
mod order;
mod projection;
mod renaming;
mod resolve;
mod used;

pub use resolve::resolve_datas;
