//! Data types, in whose fields synonyms are expanded.

ghost use Rattle.std.specs.Prelude.{◌≡◌, ◌∷◌, [], ◌++◌, OnOk, IfOk};
ghost use Rattle.hdc_type_names.specs.Variables.{places_from};
ghost use Rattle.hdc_written.specs.Mirror as mirror;
ghost use Rattle.hdc_datas.specs.Expanded.{expanded};
ghost use Rattle.hdc_datas.specs.Settled.{HoldsFor, synonyms_of};
ghost use Rattle.hdc_datas.specs.Datas as spec;

use crate::expand::add_expanded;
use crate::meanings::Meanings;
use hdc_base::Text;
use hdc_tree::{Atype, BarConstr, Constr, Data, NextTop, Top, Tree};
use hdc_type_names::{TypeName, bind_parameters, place_of, resolve_field};
use hdc_value::{Con, Cons, DataDef, Datas, FlatType};
use hdc_written::Scope;
use sqlite_items::Items;
use std::alloc::{AllocError, Global};

/// Adds the built-in type of truth values.
pub(crate) fn add_bool(alloc: Global, datas: &mut Datas) -> Result<(), AllocError>
    ensures { OnOk result (datas.new ≡ datas.old ++ spec.bool_type ∷ []) }
{
    let mut cons = Items::new(alloc);
    cons.push(Con {
        name: text(alloc, b"False")?,
        fields: Items::new(alloc),
    })?;
    cons.push(Con {
        name: text(alloc, b"True")?,
        fields: Items::new(alloc),
    })?;
    datas.push(DataDef {
        name: text(alloc, b"Bool")?,
        params: 0,
        cons,
    })
}

fn text(alloc: Global, bytes: &[u8]) -> Result<Text, AllocError>
    ensures { IfOk result (λ made. made ≡ bytes.now) }
{
    Items::from_slice(alloc, bytes)
}

/// Adds the data types of a text.
#[tactic(auto, using(crate::proofs::Listing::in_order))]
pub(crate) fn add_datas(
    alloc: Global,
    datas: &mut Datas,
    meanings: &Meanings<'_>,
    names: &Scope<'_, TypeName>,
    tree: &Tree,
) -> Result<(), AllocError>
    requires { HoldsFor meanings.now }
    ensures { OnOk result (datas.new ≡ datas.old ++ spec.each_data (expanded (synonyms_of meanings.now)) names.now (mirror.tops_of tree.now)) }
{
    add_top(alloc, datas, meanings, names, tree.first.get())?;
    add_next_tops(alloc, datas, meanings, names, tree.rest.as_slice())
}

#[tactic(auto, using(crate::proofs::Listing::in_order))]
fn add_next_tops(
    alloc: Global,
    datas: &mut Datas,
    meanings: &Meanings<'_>,
    names: &Scope<'_, TypeName>,
    tops: &[NextTop],
) -> Result<(), AllocError>
    requires { HoldsFor meanings.now }
    ensures { OnOk result (datas.new ≡ datas.old ++ spec.each_data (expanded (synonyms_of meanings.now)) names.now (mirror.tops_behind tops.now)) }
{
    for next in tops {
        add_top(alloc, datas, meanings, names, &next.top)?;
    }
    Ok(())
}

#[tactic(auto, using(crate::proofs::Listing::in_order))]
fn add_top(
    alloc: Global,
    datas: &mut Datas,
    meanings: &Meanings<'_>,
    names: &Scope<'_, TypeName>,
    part: &Top,
) -> Result<(), AllocError>
    requires { HoldsFor meanings.now }
    ensures { OnOk result (datas.new ≡ datas.old ++ spec.top_datas (expanded (synonyms_of meanings.now)) names.now part.now) }
{
    match part {
        Top::Data(declared) => {
            let made = data_of(alloc, meanings, names, declared)?;
            datas.push(made)
        }
        Top::Empty => Ok(()),
        Top::Synonym(_synonym) => Ok(()),
        Top::Fixity(_fixity) => Ok(()),
        Top::Signature(_first, _rest, _at, _signature) => Ok(()),
        Top::Equation(_head, _rhs) => Ok(()),
    }
}

fn data_of(
    alloc: Global,
    meanings: &Meanings<'_>,
    names: &Scope<'_, TypeName>,
    declared: &Data,
) -> Result<DataDef, AllocError>
    requires { HoldsFor meanings.now }
    ensures { IfOk result (λ made. made ≡ spec.data_of (expanded (synonyms_of meanings.now)) names.now declared.now) }
{
    let variables = bind_parameters(alloc, declared.params.as_slice())?;
    let mut cons = Items::new(alloc);
    let first = constructor_of(alloc, meanings, names, &variables, &declared.first)?;
    cons.push(first)?;
    add_constructors(
        alloc,
        &mut cons,
        meanings,
        names,
        &variables,
        declared.rest.as_slice(),
    )?;
    Ok(DataDef {
        name: text(alloc, declared.name.text.as_slice())?,
        params: place_of(declared.params.len())?,
        cons,
    })
}

#[tactic(auto, using(crate::proofs::Listing::in_order))]
fn add_constructors(
    alloc: Global,
    cons: &mut Cons,
    meanings: &Meanings<'_>,
    names: &Scope<'_, TypeName>,
    variables: &Scope<'_, u32>,
    parts: &[BarConstr],
) -> Result<(), AllocError>
    requires { HoldsFor meanings.now }
    ensures { OnOk result (cons.new ≡ cons.old ++ spec.constructors_behind (expanded (synonyms_of meanings.now)) names.now variables.now parts.now) }
{
    for part in parts {
        let made = constructor_of(alloc, meanings, names, variables, &part.constr)?;
        cons.push(made)?;
    }
    Ok(())
}

fn constructor_of(
    alloc: Global,
    meanings: &Meanings<'_>,
    names: &Scope<'_, TypeName>,
    variables: &Scope<'_, u32>,
    part: &Constr,
) -> Result<Con, AllocError>
    requires { HoldsFor meanings.now }
    ensures { IfOk result (λ made. made ≡ spec.constructor_of (expanded (synonyms_of meanings.now)) names.now variables.now part.now) }
{
    Ok(Con {
        name: text(alloc, part.name.text.as_slice())?,
        fields: fields_of(alloc, meanings, names, variables, part.fields.as_slice())?,
    })
}

#[tactic(auto, using(crate::proofs::Listing::in_order))]
fn fields_of(
    alloc: Global,
    meanings: &Meanings<'_>,
    names: &Scope<'_, TypeName>,
    variables: &Scope<'_, u32>,
    parts: &[Atype],
) -> Result<Items<FlatType>, AllocError>
    requires { HoldsFor meanings.now }
    ensures { IfOk result (λ fields. fields ≡ spec.fields_of (expanded (synonyms_of meanings.now)) names.now variables.now parts.now) }
{
    let mut fields = Items::new(alloc);
    for part in parts {
        let resolved = resolve_field(alloc, names, variables, part)?;
        let mut nodes = Items::new(alloc);
        add_expanded(
            alloc,
            &mut nodes,
            meanings.synonyms,
            meanings.ends,
            meanings.projections,
            &resolved,
        )?;
        fields.push(nodes)?;
    }
    Ok(fields)
}
