//! Programs.

use crate::expression::{Alt, Signature};
use crate::name::Numbers;
use crate::type_exp::Type;
use hdc_base::{Place, Text};
use hdc_value::Datas;
use sqlite_items::Items;

/// A binding at the top: its name, the place of the name in its first equation, and its equations.
#[derive(Drop)]
pub struct Decl {
    pub name: Text,
    pub place: Place,
    pub equations: Items<Alt>,
}

/// A synonym: its name, how many parameters it has, and its meaning.
#[derive(Drop)]
pub struct Synonym {
    pub name: Text,
    pub params: u32,
    pub meaning: Type,
}

/// A prelude and a program behind it.
#[derive(Drop)]
pub struct Resolved {
    /// The bindings at the top in the order of the text, the prelude's first.
    pub decls: Items<Decl>,
    /// The signatures at the top in the order of the text, the prelude's first.
    pub signatures: Items<Signature>,
    /// The largest sets of bindings that reach one another by uses, in the order in which they are typed.
    pub groups: Items<Numbers>,
    /// The data types: `Bool`, and those that are declared, the prelude's first; synonyms are expanded in them.
    pub datas: Datas,
    /// The synonyms in the order of the text, the prelude's first.
    pub synonyms: Items<Synonym>,
}
