//! The resolved tree of a program: operator trees in place of chains, and numbers in place of names.
//!
//! `Resolved` is what is made of a prelude and a program behind it. Its bindings (`Decl`) stand in the order of the text, the
//! prelude's first. A function is one binding with its equations; a plain name is one with a single equation without
//! patterns. Definitions speak of the same trees as plain data, without the memory that holds them (`specs/Syntax.antt`);
//! `specs/Mirror.antt` is the fold that leads there, and `proofs/Mirror.antt` has an equation for each variant.
#![tactic(auto)]

mod expression;
mod name;
mod pattern;
mod program;
mod type_exp;

pub use expression::{Alt, Block, Exp, Guard, Member, Quals, Rhs, Signature, SignedName};
pub use name::{
    Constructor, Degree, Family, Literal, Name, Numbers, Primitive, RowKind, Side, Use,
};
pub use pattern::Pat;
pub use program::{Decl, Resolved, Synonym};
pub use type_exp::Type;
