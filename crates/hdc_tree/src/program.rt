//! Programs as they are written.

use crate::expression::Rhs;
use crate::head::Head;
use crate::name::{CommaVar, Name, Var, VarOp};
use crate::type_tree::{Atype, TypeExp};
use hdc_base::At;
use sqlite_items::{Boxed, Items};

/// A program: its head, and top declarations in braces with `;` between them.
#[derive(Drop)]
pub struct Tree {
    pub head: Boxed<ModuleHead>,
    pub open_at: At,
    pub first: Boxed<Top>,
    pub rest: Items<NextTop>,
    pub close_at: At,
}

/// The head of a program, or nothing.
#[derive(Drop)]
pub enum ModuleHead {
    Absent,
    /// `module`, a name, `where`.
    Plain(At, Name, At),
    /// `module`, a name, what it exports in parentheses, `where`.
    Exporting(At, Name, At, Export, Items<CommaExport>, At, At),
}

/// A name that a program exports.
#[derive(Drop)]
pub enum Export {
    Var(Var),
    Con(Name),
}

/// `,` and a name that a program exports.
#[derive(Drop)]
pub struct CommaExport {
    pub comma: At,
    pub export: Export,
}

/// `;` and a top declaration.
#[derive(Drop)]
pub struct NextTop {
    pub semicolon: At,
    pub top: Top,
}

/// A top declaration, which may be empty.
#[derive(Drop)]
pub enum Top {
    Empty,
    Data(Data),
    Synonym(Synonym),
    Fixity(Fixity),
    /// Variables, `::` and a type.
    Signature(Var, Items<CommaVar>, At, TypeExp),
    /// An equation of a function, or a plain name and what it stands for.
    Equation(Head, Rhs),
}

/// `data`, a type with its variables, `=`, constructors with `|` between them, and what is derived.
#[derive(Drop)]
pub struct Data {
    pub at: At,
    pub name: Name,
    pub params: Items<Name>,
    pub equal: At,
    pub first: Constr,
    pub rest: Items<BarConstr>,
    pub derived: Deriving,
}

/// A constructor and the types of its fields.
#[derive(Drop)]
pub struct Constr {
    pub name: Name,
    pub fields: Items<Atype>,
}

/// `|` and a constructor.
#[derive(Drop)]
pub struct BarConstr {
    pub bar: At,
    pub constr: Constr,
}

/// What is derived, or nothing.
#[derive(Drop)]
pub enum Deriving {
    Absent,
    /// `deriving` and a name.
    Con(At, Name),
    /// `deriving` `(` `)`
    Unit(At, At, At),
    /// `deriving` and names in parentheses.
    List(At, At, Name, Items<CommaName>, At),
}

/// `,` and a name that begins with a capital letter.
#[derive(Drop)]
pub struct CommaName {
    pub comma: At,
    pub name: Name,
}

/// `type`, a name with its variables, `=` and a type.
#[derive(Drop)]
pub struct Synonym {
    pub at: At,
    pub name: Name,
    pub params: Items<Name>,
    pub equal: At,
    pub meaning: TypeExp,
}

/// `infix`, `infixl` or `infixr`, a precedence, which the grammar has from 0 to 9, and operators.
#[derive(Drop)]
pub struct Fixity {
    pub at: At,
    pub associativity: Associativity,
    pub number_at: At,
    pub number: u64,
    pub first: VarOp,
    pub rest: Items<CommaVarOp>,
}

/// To which side operators of one precedence associate.
#[derive(Clone, Copy, Debug, PartialEq, Eq)]
pub enum Associativity {
    Neither,
    Left,
    Right,
}

/// `,` and an operator that is a variable.
#[derive(Drop)]
pub struct CommaVarOp {
    pub comma: At,
    pub op: VarOp,
}
