//! Types, and definitions of data types.

use hdc_base::Text;
use sqlite_items::{Boxed, Items};

/// A type. The unit type is the tuple of nothing.
#[cycle(types)]
#[derive(Drop)]
pub enum Ty {
    Int,
    Char,
    List(Boxed<Ty>),
    Tuple(Items<Ty>),
    /// The type of the argument, and that of the result.
    Fun(Boxed<Ty>, Boxed<Ty>),
    /// A data type, by its number, and its arguments.
    Data(u32, Items<Ty>),
    /// A variable, by its number.
    Var(u32),
}

/// A list of types.
pub type Tys = Items<Ty>;

/// The root of a type, whose parts follow it where a type is written in prefix order.
#[derive(Clone, Copy, Debug, PartialEq, Eq)]
pub enum TypeNode {
    Int,
    Char,
    /// One part follows.
    List,
    /// So many parts follow.
    Tuple(u32),
    /// The type of the argument follows, and that of the result.
    Fun,
    /// A data type, by its number, of which so many arguments follow.
    Data(u32, u32),
    /// A variable, by its number.
    Var(u32),
}

/// A type in prefix order. Types of fields, in which synonyms are expanded, may be nested as deeply as memory lasts, and so
/// are lists, over which loops go.
pub type FlatType = Items<TypeNode>;

/// A constructor, and the types of its fields.
#[derive(Drop)]
pub struct Con {
    pub name: Text,
    pub fields: Items<FlatType>,
}

/// A list of constructors.
pub type Cons = Items<Con>;

/// A data type: its name, how many parameters it has, and its constructors.
#[derive(Drop)]
pub struct DataDef {
    pub name: Text,
    pub params: u32,
    pub cons: Cons,
}

/// A list of data types.
pub type Datas = Items<DataDef>;
