//! The names of types are bound.

ghost use Rattle.std.specs.Prelude.{◌≡◌, ◌<◌, ◌^◌, suc, OnOk, IfOk, IsOk};
ghost use Rattle.hdc_written.specs.Mirror as mirror;
ghost use Rattle.hdc_type_names.specs.TypeNames as spec;

use crate::type_name::TypeName;
use hdc_tree::{NextTop, Top, Tree};
use hdc_written::Scope;
use std::alloc::{AllocError, Global};

/// What the names of types stand for in a prelude.
///
/// # Errors
///
/// `AllocError` where memory is short.
pub fn bind_prelude_types<'t>(
    alloc: Global,
    prelude: &'t Tree,
) -> Result<Scope<'t, TypeName>, AllocError>
    ensures { IfOk result (λ names. names ≡ spec.prelude_types (mirror.tops_of prelude.now)) }
{
    let mut naming = Naming::built_in(alloc)?;
    naming.add_tops(prelude)?;
    Ok(naming.names)
}

/// What the names of types stand for in a program behind a prelude.
///
/// # Errors
///
/// `AllocError` where memory is short.
pub fn bind_program_types<'t>(
    alloc: Global,
    prelude: &'t Tree,
    program: &'t Tree,
) -> Result<Scope<'t, TypeName>, AllocError>
    ensures { IfOk result (λ names. names ≡ spec.program_types (mirror.tops_of prelude.now) (mirror.tops_of program.now)) }
{
    let mut naming = Naming::built_in(alloc)?;
    naming.add_tops(prelude)?;
    naming.add_tops(program)?;
    Ok(naming.names)
}

/// The names that are bound so far, and the numbers of the next data type and of the next synonym.
#[derive(Drop)]
pub struct Naming<'t> {
    pub names: Scope<'t, TypeName>,
    pub datas: u32,
    pub synonyms: u32,
}

impl<'t> Naming<'t> {
    // The names that are built in.
    fn built_in(alloc: Global) -> Result<Naming<'t>, AllocError>
        ensures { IfOk result (λ naming. naming ≡ spec.built_in) }
    {
        let mut names = Scope::new(alloc);
        names.bind(b"Bool", TypeName::Data(0))?;
        names.bind(b"Char", TypeName::Char)?;
        names.bind(b"Int", TypeName::Int)?;
        Ok(Naming {
            names,
            datas: 1,
            synonyms: 0,
        })
    }

    fn add_tops(&mut self, tree: &'t Tree) -> Result<(), AllocError>
        ensures { OnOk result (self.new ≡ spec.with_tops self.old (mirror.tops_of tree.now)) }
    {
        self.add_top(tree.first.get())?;
        self.add_next_tops(tree.rest.as_slice())
    }

    fn add_next_tops(&mut self, tops: &'t [NextTop]) -> Result<(), AllocError>
        ensures { OnOk result (self.new ≡ spec.with_tops self.old (mirror.tops_behind tops.now)) }
    {
        for next in tops {
            self.add_top(&next.top)?;
        }
        Ok(())
    }

    fn add_top(&mut self, part: &'t Top) -> Result<(), AllocError>
        ensures { OnOk result (self.new ≡ spec.with_top self.old part.now) }
    {
        match part {
            Top::Data(declared) => {
                let name = TypeName::Data(self.datas);
                self.datas = number_behind(self.datas)?;
                self.names.bind(declared.name.text.as_slice(), name)
            }
            Top::Synonym(synonym) => {
                let name = TypeName::Synonym(self.synonyms);
                self.synonyms = number_behind(self.synonyms)?;
                self.names.bind(synonym.name.text.as_slice(), name)
            }
            Top::Empty => Ok(()),
            Top::Fixity(_fixity) => Ok(()),
            Top::Signature(_first, _rest, _at, _signature) => Ok(()),
            Top::Equation(_head, _rhs) => Ok(()),
        }
    }
}

// The number behind this one.
fn number_behind(number: u32) -> Result<u32, AllocError>
    ensures room { suc number < 2 ^ 32 → IsOk result }
    ensures what { IfOk result (λ next. next ≡ suc number) }
{
    match number.checked_add(1) {
        Some(next) => Ok(next),
        None => Err(AllocError),
    }
}
