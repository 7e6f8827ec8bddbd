//! What is known at the top of a text.

ghost use Rattle.std.specs.Prelude.{◌≡◌};
ghost use Rattle.hdc_resolving.specs.Literals.{place_in};

use hdc_base::{At, Place, Src};
use hdc_resolved::{Constructor, Name, Numbers};
use hdc_type_names::TypeName;
use hdc_written::Scope;
use sqlite_items::Items;

/// Which text it is, its constructors and types, the functions of the prelude that ranges and generators call, and the orders
/// in which the values of its blocks are evaluated, one for each block in the order in which they end.
#[derive(Drop)]
pub struct Known<'t> {
    pub src: Src,
    pub constructors: Scope<'t, Constructor>,
    pub types: Scope<'t, TypeName>,
    pub range: Name,
    pub generator: Name,
    pub orders: Items<Numbers>,
}

impl<'t> Known<'t> {
    /// A place in the text.
    pub fn place(&self, at: At) -> Place
        ensures { result ≡ place_in self.now.src at }
    {
        Place { src: self.src, at }
    }
}
