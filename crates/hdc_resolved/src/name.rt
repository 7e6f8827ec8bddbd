//! Names by what they stand for, and literals.

use hdc_base::{Place, Runes, SkelKind};
use sqlite_items::Items;

/// A list of numbers.
pub type Numbers = Items<u32>;

/// A function that is built in.
#[derive(Clone, Copy, Debug, PartialEq, Eq)]
pub enum Primitive {
    Add,
    Sub,
    Mul,
    Div,
    Mod,
    Quot,
    Rem,
    Negate,
    Equal,
    Unequal,
    Less,
    AtMost,
    Greater,
    AtLeast,
    And,
    Or,
    Ord,
    Chr,
    Error,
}

/// What a constructor makes: lists, or values of a data type, by its number.
#[derive(Clone, Copy, Debug, PartialEq, Eq)]
pub enum Family {
    OfList,
    OfData(u32),
}

/// A constructor: what it makes, its place among the constructors of that, from 0, and how many fields it has. The empty
/// list is no constructor here, but a row without members.
#[derive(Clone, Copy, Debug, PartialEq, Eq)]
pub struct Constructor {
    pub family: Family,
    pub tag: u32,
    pub fields: u32,
}

/// What stands directly behind the name of a skeleton. A literal there is no argument of the name.
#[derive(Clone, Copy, Debug, PartialEq, Eq)]
pub enum Degree {
    /// The skeleton has none.
    Unneeded,
    /// A number, with its place.
    Number(u64, Place),
    /// Another argument, with the place of its first token.
    Other(Place),
    /// No argument, or the name stands in parentheses or backquotes.
    Missing,
}

/// What a name stands for.
#[derive(Clone, Copy, Debug, PartialEq, Eq)]
pub enum Name {
    /// A binding at the top, by its place among them.
    Top(u32),
    /// A local variable or function; no two that are in scope at one place have one number.
    Local(u32),
    /// A constructor.
    Con(Constructor),
    /// A function that is built in.
    Primitive(Primitive),
    /// A skeleton.
    Skeleton(SkelKind, Degree),
    /// Nothing; the rules on names refuse each such use.
    Unknown,
}

/// A name where it is used. Its node begins at `first`, which is a backquote or a parenthesis where the name stands in
/// them; rules and traps stand at `place`, the name itself.
#[derive(Clone, Copy, Debug, PartialEq, Eq)]
pub struct Use {
    pub first: Place,
    pub place: Place,
    pub name: Name,
}

/// A literal.
#[derive(Drop)]
pub enum Literal {
    /// An integer.
    Int(i64),
    /// A character, by its code.
    Chr(u32),
    /// A string, by the codes of its characters.
    Str(Runes),
}

/// What members in brackets or parentheses make.
#[derive(Clone, Copy, Debug, PartialEq, Eq)]
pub enum RowKind {
    /// A tuple; without members it is the unit.
    OfTuple,
    /// A list.
    OfList,
}

/// Where the operand of a section stands.
#[derive(Clone, Copy, Debug, PartialEq, Eq)]
pub enum Side {
    Left,
    Right,
}
