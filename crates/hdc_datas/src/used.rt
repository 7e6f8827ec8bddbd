//! The synonyms that types name.

ghost use Rattle.std.specs.Prelude.{◌≡◌, ◌++◌, map, OnOk};
ghost use Rattle.hdc_resolved.specs.Mirror.{type_tree_of, types};
ghost use Rattle.hdc_datas.specs.Needs as spec;

use hdc_resolved::Type;
use sqlite_items::Items;
use std::alloc::AllocError;

/// Adds the synonyms that a type names, in its order.
#[cycle(add_used)]
#[tactic(auto, using(crate::proofs::Listing::in_order, hdc_resolved::proofs::Mirror::mirrored_types))]
pub(crate) fn add_used(part: &Type, numbers: &mut Items<u32>) -> Result<(), AllocError>
    ensures { OnOk result (numbers.new ≡ numbers.old ++ spec.synonyms_in (type_tree_of part.now)) }
{
    match part {
        Type::Int => Ok(()),
        Type::Char => Ok(()),
        Type::List(element) => add_used(element.get(), numbers),
        Type::Tuple(members) => add_all_used(members.as_slice(), numbers),
        Type::Fun(argument, behind) => {
            add_used(argument.get(), numbers)?;
            add_used(behind.get(), numbers)
        }
        Type::Data(_number, arguments) => add_all_used(arguments.as_slice(), numbers),
        Type::Synonym(number, arguments) => {
            numbers.push(*number)?;
            add_all_used(arguments.as_slice(), numbers)
        }
        Type::Var(_number) => Ok(()),
        Type::Unknown(_arguments) => Ok(()),
    }
}

#[cycle(add_used)]
#[tactic(auto, using(crate::proofs::Listing::in_order, hdc_resolved::proofs::Mirror::mirrored_types))]
fn add_all_used(parts: &[Type], numbers: &mut Items<u32>) -> Result<(), AllocError>
    ensures { OnOk result (numbers.new ≡ numbers.old ++ spec.each_synonyms_in (types (map type_tree_of parts.now))) }
{
    for part in parts {
        add_used(part, numbers)?;
    }
    Ok(())
}
