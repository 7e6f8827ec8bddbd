//! What stands in types that are built.

ghost use Rattle.std.specs.Prelude.{◌≡◌, ◌++◌, [], OnOk, IfOk};
ghost use Rattle.hdc_regular.specs.PartMirror.{part_of, parts_of};
ghost use Rattle.hdc_regular.specs.Walk.{alias_of, each_alias_of};
ghost use Rattle.hdc_regular.specs.Contents as spec;

use crate::part::Part;
use hdc_base::At;
use sqlite_items::Items;
use std::alloc::{AllocError, Global};

/// A use of what a declaration declares.
#[derive(Drop)]
pub(crate) struct Usage {
    /// The number of the declaration.
    pub(crate) number: u32,
    /// Where it is used.
    pub(crate) at: At,
    /// The variables that its arguments are, where they are some.
    pub(crate) arguments: Items<Option<u32>>,
}

/// Adds the variables and the uses in a type, in its order.
#[cycle(collect)]
#[tactic(auto, using(crate::proofs::Collecting::in_order, crate::proofs::PartMirror::mirrored_parts))]
pub(crate) fn collect_part(
    part: &Part,
    alloc: Global,
    variables: &mut Items<u32>,
    uses: &mut Items<Usage>,
) -> Result<(), AllocError>
    ensures variables { OnOk result (variables.new ≡ variables.old ++ spec.variables_in (part_of part.now)) }
    ensures uses { OnOk result (uses.new ≡ uses.old ++ spec.uses_in (part_of part.now)) }
{
    match part {
        Part::Parameter(place) => variables.push(*place),
        Part::Use(number, at, parts) => {
            let arguments = aliases(alloc, parts.as_slice())?;
            uses.push(Usage {
                number: *number,
                at: *at,
                arguments,
            })?;
            collect_parts(parts.as_slice(), alloc, variables, uses)
        }
        Part::Other(parts) => collect_parts(parts.as_slice(), alloc, variables, uses),
    }
}

/// The same of each type.
#[cycle(collect)]
#[tactic(auto, using(crate::proofs::Collecting::in_order, crate::proofs::PartMirror::mirrored_parts))]
pub(crate) fn collect_parts(
    parts: &[Part],
    alloc: Global,
    variables: &mut Items<u32>,
    uses: &mut Items<Usage>,
) -> Result<(), AllocError>
    ensures variables { OnOk result (variables.new ≡ variables.old ++ spec.each_variables_in (parts_of parts.now)) }
    ensures uses { OnOk result (uses.new ≡ uses.old ++ spec.each_uses_in (parts_of parts.now)) }
{
    for part in parts {
        collect_part(part, alloc, variables, uses)?;
    }
    Ok(())
}

// The variables that types are, where they are some.
#[tactic(auto, using(crate::proofs::Collecting::in_order))]
fn aliases(alloc: Global, parts: &[Part]) -> Result<Items<Option<u32>>, AllocError>
    ensures { IfOk result (λ aliases. aliases ≡ each_alias_of (parts_of parts.now)) }
{
    let mut aliases = Items::new(alloc);
    for part in parts {
        aliases.push(alias(part))?;
    }
    Ok(aliases)
}

/// The variable that a type is, if it is one.
#[tactic(auto, using(crate::proofs::PartMirror::mirrored_parts))]
pub(crate) fn alias(part: &Part) -> Option<u32>
    ensures { result ≡ alias_of (part_of part.now) }
{
    match part {
        Part::Parameter(place) => Some(*place),
        Part::Use(_number, _at, _parts) => None,
        Part::Other(_parts) => None,
    }
}

/// Flags that are set at these places.
pub(crate) fn flags_at(alloc: Global, places: &[u32]) -> Result<Items<bool>, AllocError>
    ensures { IfOk result (λ flags. flags ≡ spec.flags_set [] places.now) }
{
    let mut flags = Items::new(alloc);
    for place in places {
        set_flag(&mut flags, *place as usize)?;
    }
    Ok(flags)
}

#[tactic(auto, using(crate::proofs::Flags::flags_one_by_one))]
fn set_flag(flags: &mut Items<bool>, place: usize) -> Result<(), AllocError>
    ensures { OnOk result (flags.new ≡ spec.flag_set flags.old place) }
{
    while flags.len() <= place {
        flags.push(false)?;
    }
    flags.set(place, true);
    Ok(())
}
