//! What equations define.

use crate::name::{Var, VarOp};
use crate::pattern::Apat;
use hdc_base::At;
use sqlite_items::Items;

/// What an equation defines, with its parameters.
#[derive(Drop)]
pub enum Head {
    /// A variable and its parameters.
    Prefix(Var, Items<Apat>),
    /// An operator between its parameters.
    Infix(Apat, VarOp, Apat),
    /// An operator between its first parameters in parentheses, and the others.
    Paren(At, Apat, VarOp, Apat, At, Apat, Items<Apat>),
}
