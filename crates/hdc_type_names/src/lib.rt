//! Types by what their names stand for.
//!
//! `bind_prelude_types` and `bind_program_types` bind the names of types (`specs/TypeNames.antt`), `resolve_signature_type`
//! and `resolve_field` resolve types (`specs/ResolvedTypes.antt`, `specs/Variables.antt`), and `resolve_synonyms` all synonyms
//! of a prelude and a program behind it (`specs/Synonyms.antt`). They take time linear in the texts, but for the tables of
//! names, and give up for want of memory alone.
#![tactic(auto)]

mod meeting;
mod naming;
mod parameters;
mod resolve;
mod signature;
mod synonyms;
#[cfg(test)]
mod tests;
mod type_name;

pub use naming::{Naming, bind_prelude_types, bind_program_types};
pub use parameters::{bind_parameters, place_of};
pub use resolve::resolve_field;
pub use signature::resolve_signature_type;
pub use synonyms::resolve_synonyms;
pub use type_name::TypeName;
