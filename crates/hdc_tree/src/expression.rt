//! Expressions and declarations as they are written.

use crate::head::Head;
use crate::name::{CommaVar, Literal, Name, Op, Sign, Var};
use crate::pattern::{Apat, Pat};
use crate::type_tree::TypeExp;
use hdc_base::At;
use sqlite_items::{Boxed, Items};

/// Operands that an operator follows, and the last one.
#[cycle(expressions)]
#[derive(Drop)]
pub struct Exp {
    pub links: Items<Link>,
    pub sign: Sign,
    pub last: Operand,
}

/// An operand and the operator behind it.
#[cycle(expressions)]
#[derive(Drop)]
pub struct Link {
    pub sign: Sign,
    pub left: Apply,
    pub op: Op,
}

/// A function and its arguments, or one expression alone.
#[cycle(expressions)]
#[derive(Drop)]
pub struct Apply {
    pub head: Aexp,
    pub args: Items<Aexp>,
}

/// The last operand of a chain.
#[cycle(expressions)]
#[derive(Drop)]
pub enum Operand {
    /// An operand that may stand elsewhere too.
    Applied(Apply),
    /// `\`, patterns, `->` and an expression.
    Lambda(At, Apat, Items<Apat>, At, Boxed<Exp>),
    /// `let`, declarations, `in` and an expression.
    Let(At, Block, At, Boxed<Exp>),
    /// `if`, `then` and `else`, each with an expression.
    If(At, Boxed<Exp>, At, Boxed<Exp>, At, Boxed<Exp>),
    /// `case`, an expression, `of` and alternatives.
    Case(At, Boxed<Exp>, At, Alts),
}

/// An expression that may be an argument.
#[cycle(expressions)]
#[derive(Drop)]
pub enum Aexp {
    /// A variable.
    Var(Var),
    /// A constructor.
    Con(Name),
    /// A literal.
    Literal(At, Literal),
    /// `(` `)`
    Unit(At, At),
    /// `[` `]`
    Nil(At, At),
    /// `(` `:` `)`
    Cons(At, At, At),
    /// An expression in parentheses.
    Paren(At, Boxed<Exp>, At),
    /// Expressions in parentheses, of which the grammar has two to seven.
    Tuple(At, Boxed<Exp>, Items<CommaExp>, At),
    /// A list.
    List(ListExp),
    /// `(`, an expression, an operator, `)`.
    LeftSection(At, Boxed<Exp>, Op, At),
    /// `(`, an operator, which the grammar does not have as `-`, an expression, `)`.
    RightSection(At, Op, Boxed<Exp>, At),
}

/// What stands in brackets.
#[cycle(expressions)]
#[derive(Drop)]
pub enum ListExp {
    /// Expressions in brackets.
    Members(At, Boxed<Exp>, Items<CommaExp>, At),
    /// `[`, an expression, `..`, an expression, `]`.
    Range(At, Boxed<Exp>, At, Boxed<Exp>, At),
    /// `[`, an expression, `|`, qualifiers, `]`.
    Comprehension(At, Boxed<Exp>, At, Qual, Items<CommaQual>, At),
}

/// `,` and an expression.
#[cycle(expressions)]
#[derive(Drop)]
pub struct CommaExp {
    pub comma: At,
    pub exp: Exp,
}

/// A part of a comprehension behind its `|`.
#[cycle(expressions)]
#[derive(Drop)]
pub enum Qual {
    /// A pattern, `<-` and an expression.
    Generator(Pat, At, Boxed<Exp>),
    /// An expression.
    Condition(Boxed<Exp>),
    /// `let` and declarations.
    Local(At, Block),
}

/// `,` and a part of a comprehension.
#[cycle(expressions)]
#[derive(Drop)]
pub struct CommaQual {
    pub comma: At,
    pub qual: Qual,
}

/// Alternatives in braces, with `;` between them; the grammar has one that is not empty.
#[cycle(expressions)]
#[derive(Drop)]
pub struct Alts {
    pub open_at: At,
    pub first: Boxed<Alt>,
    pub rest: Items<NextAlt>,
    pub close_at: At,
}

/// `;` and an alternative.
#[cycle(expressions)]
#[derive(Drop)]
pub struct NextAlt {
    pub semicolon: At,
    pub alt: Alt,
}

/// An alternative, which may be empty.
#[cycle(expressions)]
#[derive(Drop)]
pub enum Alt {
    Blank,
    /// A pattern, `->`, an expression, and local declarations.
    Arrow(Pat, At, Boxed<Exp>, Where),
    /// A pattern, guarded expressions with `->`, and local declarations.
    Guarded(Pat, Boxed<ArrowGuard>, Items<ArrowGuard>, Where),
}

/// `|`, a condition, `->` and an expression.
#[cycle(expressions)]
#[derive(Drop)]
pub struct ArrowGuard {
    pub bar: At,
    pub condition: Exp,
    pub arrow: At,
    pub exp: Exp,
}

/// `|`, a condition, `=` and an expression.
#[cycle(expressions)]
#[derive(Drop)]
pub struct EqualGuard {
    pub bar: At,
    pub condition: Exp,
    pub equal: At,
    pub exp: Exp,
}

/// `where` and declarations, or nothing.
#[cycle(expressions)]
#[derive(Drop)]
pub enum Where {
    Absent,
    Present(At, Block),
}

/// Declarations in braces, with `;` between them.
#[cycle(expressions)]
#[derive(Drop)]
pub struct Block {
    pub open_at: At,
    pub first: Boxed<Decl>,
    pub rest: Items<NextDecl>,
    pub close_at: At,
}

/// `;` and a declaration.
#[cycle(expressions)]
#[derive(Drop)]
pub struct NextDecl {
    pub semicolon: At,
    pub decl: Decl,
}

/// A declaration, which may be empty.
#[cycle(expressions)]
#[derive(Drop)]
pub enum Decl {
    Empty,
    /// Variables, `::` and a type.
    Signature(Var, Items<CommaVar>, At, TypeExp),
    /// An equation of a function, or a plain name and what it stands for.
    Equation(Head, Rhs),
    /// A pattern, which the grammar does not have as a plain name, and what it stands for.
    Binding(Pat, Rhs),
}

/// The right side of an equation or a binding.
#[cycle(expressions)]
#[derive(Drop)]
pub enum Rhs {
    /// `=`, an expression, and local declarations.
    Equal(At, Boxed<Exp>, Where),
    /// Guarded expressions with `=`, and local declarations.
    Guards(Boxed<EqualGuard>, Items<EqualGuard>, Where),
}
