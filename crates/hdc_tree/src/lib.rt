//! Trees as they are written, and their spelling.
//!
//! `Tree` is a program of the whole language as it is written; `spell` gives its tokens
//! (`specs/ProgramSpelling.antt`). Which trees are well formed is said in `specs/ProgramForm.antt` and the
//! files that it names. `PRELUDE` is the text of the prelude.
#![tactic(auto)]

mod expression;
mod expression_speller;
mod head;
mod head_speller;
mod name;
mod pattern;
mod pattern_speller;
mod prelude;
mod program;
mod program_speller;
mod speller;
mod type_speller;
mod type_tree;

pub use expression::{
    Aexp, Alt, Alts, Apply, ArrowGuard, Block, CommaExp, CommaQual, Decl, EqualGuard,
    Exp as Expression, Link, ListExp, NextAlt, NextDecl, Operand, Qual, Rhs, Where,
};
pub use head::Head;
pub use name::{CommaVar, Literal, Name, Op, Sign, Var, VarOp};
pub use pattern::{Apat, CommaPat, ConsPat, LeftPat, Pat};
pub use prelude::PRELUDE;
pub use program::{
    Associativity, BarConstr, CommaExport, CommaName, CommaVarOp, Constr, Data, Deriving, Export,
    Fixity, ModuleHead, NextTop, Synonym, Top, Tree,
};
pub use program_speller::spell;
pub use type_tree::{ArrowType, Atype, Btype, CommaType, TypeExp};

#[cfg(test)]
mod tests;
