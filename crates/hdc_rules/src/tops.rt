//! What is broken in the top declarations of a text, but for the right sides.

ghost use Rattle.std.specs.Prelude.{◌≡◌, [], ◌∷◌, ◌++◌, None, OnOk, IfOk};
ghost use Rattle.hdc_written.specs.Breaches.{all_noted};
ghost use Rattle.hdc_written.specs.Mirror as mirror;
ghost use Rattle.hdc_rules.specs.Adjacent as adjacent;
ghost use Rattle.hdc_rules.specs.Bindings as spec;

use crate::equations::OpenFunction;
use crate::listed::{note_bound, note_missing, note_repeated};
use crate::names::Names;
use crate::signed::add_signed;
use crate::types::{note_data, note_synonym, note_type};
use hdc_tree::{BarConstr, CommaVarOp, Constr, NextTop, Top, Tree, VarOp};
use hdc_written::{Found, Scope, op_name};
use std::alloc::{AllocError, Global};

/// What is declared is declared once, and signed and given a fixity once at most; what is signed or has a fixity is
/// bound; the equations of a function have as many parameters each; and the types are known, with the variables of
/// their heads.
#[tactic(auto, using(hdc_written::proofs::FirstBreach::in_order))]
pub(crate) fn note_tops(
    alloc: Global,
    found: &mut Found,
    types: &Scope<usize>,
    tree: &Tree,
) -> Result<(), AllocError>
    ensures { OnOk result (found.new ≡ all_noted found.old (spec.tops_breaches types.now (mirror.tops_of tree.now))) }
{
    let bound = bindings_of(alloc, tree)?;
    let mut declared = Declared::new(alloc);
    declared.add_tree(tree)?;
    note_bound(alloc, found, &bound, &declared.signed)?;
    note_repeated(alloc, found, 2, &declared.types)?;
    note_repeated(alloc, found, 2, &declared.constructors)?;
    note_missing(alloc, found, 5, &bound, &declared.fixed)?;
    note_repeated(alloc, found, 5, &declared.fixed)?;
    note_uneven(found, tree);
    note_typed(alloc, found, types, tree)
}

// The names of the bindings.
#[tactic(auto, using(crate::proofs::Adjacent::split_tops))]
fn bindings_of(alloc: Global, tree: &Tree) -> Result<Names<'_>, AllocError>
    ensures { IfOk result (λ names. names ≡ spec.top_bindings None (mirror.tops_of tree.now)) }
{
    let mut names = Names::new(alloc);
    let mut going = OpenFunction::none();
    add_bound(&mut names, &mut going, tree.first.get())?;
    add_next_bound(&mut names, &mut going, tree.rest.as_slice())?;
    Ok(names)
}

#[tactic(auto, using(crate::proofs::Listing::in_order))]
fn add_next_bound<'t>(
    names: &mut Names<'t>,
    going: &mut OpenFunction<'t>,
    parts: &'t [NextTop],
) -> Result<(), AllocError>
    ensures { OnOk result (names.new ≡ names.old ++ spec.top_bindings going.old (mirror.tops_behind parts.now)) }
{
    for part in parts {
        add_bound(names, going, &part.top)?;
    }
    Ok(())
}

#[tactic(auto, using(crate::proofs::Listing::in_order))]
fn add_bound<'t>(
    names: &mut Names<'t>,
    going: &mut OpenFunction<'t>,
    part: &'t Top,
) -> Result<(), AllocError>
    ensures added { OnOk result (names.new ≡ names.old ++ adjacent.bound_at_top going.old part.now) }
    ensures behind { OnOk result (going.new ≡ adjacent.going_behind_top going.old part.now) }
{
    match part {
        Top::Empty => Ok(()),
        Top::Equation(head, _rhs) => going.add_equation(names, head),
        Top::Data(_data) => {
            going.close();
            Ok(())
        }
        Top::Synonym(_synonym) => {
            going.close();
            Ok(())
        }
        Top::Fixity(_fixity) => {
            going.close();
            Ok(())
        }
        Top::Signature(_first, _rest, _at, _signature) => {
            going.close();
            Ok(())
        }
    }
}

// The equations of a function have as many parameters each.
#[tactic(auto, using(crate::proofs::Adjacent::split_tops, hdc_written::proofs::FirstBreach::in_order))]
fn note_uneven(found: &mut Found, tree: &Tree)
    ensures { found.new ≡ all_noted found.old (spec.uneven_tops None (mirror.tops_of tree.now)) }
{
    let mut going = OpenFunction::none();
    note_uneven_at(found, &mut going, tree.first.get());
    note_next_uneven(found, &mut going, tree.rest.as_slice());
}

#[tactic(auto, using(hdc_written::proofs::FirstBreach::in_order))]
fn note_next_uneven<'t>(found: &mut Found, going: &mut OpenFunction<'t>, parts: &'t [NextTop])
    ensures { found.new ≡ all_noted found.old (spec.uneven_tops going.old (mirror.tops_behind parts.now)) }
{
    for part in parts {
        note_uneven_at(found, going, &part.top);
    }
}

fn note_uneven_at<'t>(found: &mut Found, going: &mut OpenFunction<'t>, part: &'t Top)
    ensures noted { found.new ≡ all_noted found.old (adjacent.uneven_at_top going.old part.now) }
    ensures behind { going.new ≡ adjacent.going_behind_top going.old part.now }
{
    match part {
        Top::Empty => {}
        Top::Equation(head, _rhs) => going.note_equation(found, head),
        Top::Data(_data) => going.close(),
        Top::Synonym(_synonym) => going.close(),
        Top::Fixity(_fixity) => going.close(),
        Top::Signature(_first, _rest, _at, _signature) => going.close(),
    }
}

// The types, the constructors, the names with signatures and those with fixities that a text declares.
#[derive(Drop)]
struct Declared<'t> {
    types: Names<'t>,
    constructors: Names<'t>,
    signed: Names<'t>,
    fixed: Names<'t>,
}

impl<'t> Declared<'t> {
    fn new(alloc: Global) -> Declared<'t>
        ensures types { result.types ≡ [] }
        ensures constructors { result.constructors ≡ [] }
        ensures signed { result.signed ≡ [] }
        ensures fixed { result.fixed ≡ [] }
    {
        Declared {
            types: Names::new(alloc),
            constructors: Names::new(alloc),
            signed: Names::new(alloc),
            fixed: Names::new(alloc),
        }
    }

    #[tactic(auto, using(crate::proofs::Listing::in_order))]
    fn add_tree(&mut self, tree: &'t Tree) -> Result<(), AllocError>
        ensures types { OnOk result (self.new.types ≡ self.old.types ++ spec.each_named spec.types_named (mirror.tops_of tree.now)) }
        ensures constructors { OnOk result (self.new.constructors ≡ self.old.constructors ++ spec.each_named spec.constructed_in (mirror.tops_of tree.now)) }
        ensures signed { OnOk result (self.new.signed ≡ self.old.signed ++ spec.each_named spec.signed_at (mirror.tops_of tree.now)) }
        ensures fixed { OnOk result (self.new.fixed ≡ self.old.fixed ++ spec.each_named spec.fixed_at (mirror.tops_of tree.now)) }
    {
        self.add(tree.first.get())?;
        self.add_tops(tree.rest.as_slice())
    }

    #[tactic(auto, using(crate::proofs::Listing::in_order))]
    fn add_tops(&mut self, parts: &'t [NextTop]) -> Result<(), AllocError>
        ensures types { OnOk result (self.new.types ≡ self.old.types ++ spec.each_named spec.types_named (mirror.tops_behind parts.now)) }
        ensures constructors { OnOk result (self.new.constructors ≡ self.old.constructors ++ spec.each_named spec.constructed_in (mirror.tops_behind parts.now)) }
        ensures signed { OnOk result (self.new.signed ≡ self.old.signed ++ spec.each_named spec.signed_at (mirror.tops_behind parts.now)) }
        ensures fixed { OnOk result (self.new.fixed ≡ self.old.fixed ++ spec.each_named spec.fixed_at (mirror.tops_behind parts.now)) }
    {
        for part in parts {
            self.add(&part.top)?;
        }
        Ok(())
    }

    #[tactic(auto, using(crate::proofs::Listing::in_order))]
    fn add(&mut self, part: &'t Top) -> Result<(), AllocError>
        ensures types { OnOk result (self.new.types ≡ self.old.types ++ spec.types_named part.now) }
        ensures constructors { OnOk result (self.new.constructors ≡ self.old.constructors ++ spec.constructed_in part.now) }
        ensures signed { OnOk result (self.new.signed ≡ self.old.signed ++ spec.signed_at part.now) }
        ensures fixed { OnOk result (self.new.fixed ≡ self.old.fixed ++ spec.fixed_at part.now) }
    {
        match part {
            Top::Empty => Ok(()),
            Top::Equation(_head, _rhs) => Ok(()),
            Top::Data(declared) => {
                self.types.push(&declared.name)?;
                add_constructors(
                    &mut self.constructors,
                    &declared.first,
                    declared.rest.as_slice(),
                )
            }
            Top::Synonym(synonym) => self.types.push(&synonym.name),
            Top::Fixity(fixity) => {
                add_operators(&mut self.fixed, &fixity.first, fixity.rest.as_slice())
            }
            Top::Signature(first, rest, _at, _signature) => {
                add_signed(&mut self.signed, first, rest.as_slice())
            }
        }
    }
}

#[tactic(auto, using(crate::proofs::Listing::in_order))]
fn add_constructors<'t>(
    names: &mut Names<'t>,
    first: &'t Constr,
    rest: &'t [BarConstr],
) -> Result<(), AllocError>
    ensures { OnOk result (names.new ≡ names.old ++ first.now.name ∷ spec.constructors_named rest.now) }
{
    names.push(&first.name)?;
    for part in rest {
        names.push(&part.constr.name)?;
    }
    Ok(())
}

#[tactic(auto, using(crate::proofs::Listing::in_order))]
fn add_operators<'t>(
    names: &mut Names<'t>,
    first: &'t VarOp,
    rest: &'t [CommaVarOp],
) -> Result<(), AllocError>
    ensures { OnOk result (names.new ≡ names.old ++ mirror.op_name first.now ∷ spec.operators_named rest.now) }
{
    names.push(op_name(first))?;
    for part in rest {
        names.push(op_name(&part.op))?;
    }
    Ok(())
}

// The types of the declarations are known, with the variables of their heads.
#[tactic(auto, using(hdc_written::proofs::FirstBreach::in_order))]
fn note_typed(
    alloc: Global,
    found: &mut Found,
    types: &Scope<usize>,
    tree: &Tree,
) -> Result<(), AllocError>
    ensures { OnOk result (found.new ≡ all_noted found.old (spec.each_typed types.now (mirror.tops_of tree.now))) }
{
    note_typed_at(alloc, found, types, tree.first.get())?;
    note_next_typed(alloc, found, types, tree.rest.as_slice())
}

#[tactic(auto, using(hdc_written::proofs::FirstBreach::in_order))]
fn note_next_typed(
    alloc: Global,
    found: &mut Found,
    types: &Scope<usize>,
    parts: &[NextTop],
) -> Result<(), AllocError>
    ensures { OnOk result (found.new ≡ all_noted found.old (spec.each_typed types.now (mirror.tops_behind parts.now))) }
{
    for part in parts {
        note_typed_at(alloc, found, types, &part.top)?;
    }
    Ok(())
}

/// What is broken in the types of a top declaration.
///
/// # Errors
///
/// `AllocError` where memory is short.
pub fn note_typed_at(
    alloc: Global,
    found: &mut Found,
    types: &Scope<usize>,
    part: &Top,
) -> Result<(), AllocError>
    ensures { OnOk result (found.new ≡ all_noted found.old (spec.typed_breaches types.now part.now)) }
{
    match part {
        Top::Data(declared) => note_data(alloc, found, types, declared),
        Top::Synonym(synonym) => note_synonym(alloc, found, types, synonym),
        Top::Signature(_first, _rest, _at, signature) => {
            note_type(found, types, signature);
            Ok(())
        }
        Top::Empty => Ok(()),
        Top::Fixity(_fixity) => Ok(()),
        Top::Equation(_head, _rhs) => Ok(()),
    }
}
