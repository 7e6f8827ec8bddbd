//! All data types.

ghost use Rattle.std.specs.Prelude.{◌≡◌, map, IfOk};
ghost use Rattle.hdc_resolved.specs.Mirror.{synonym_of};
ghost use Rattle.hdc_written.specs.Mirror as mirror;
ghost use Rattle.hdc_datas.specs.Datas.{datas_with};
ghost use Rattle.hdc_datas.specs.Needs.{NoSynonymReachesItself};
ghost use Rattle.hdc_datas.specs.Settled.{HoldsFor, synonyms_of};

use crate::datas::{add_bool, add_datas};
use crate::meanings::Meanings;
use crate::order::order_of;
use crate::projection::projections_of;
use crate::renaming::ends_of;
use hdc_resolved::Synonym;
use hdc_tree::Tree;
use hdc_type_names::{bind_prelude_types, bind_program_types};
use hdc_value::Datas;
use sqlite_items::Items;
use std::alloc::{AllocError, Global};

/// The data types of a prelude and of a program behind it, where these are their synonyms and none reaches itself: `Bool`,
/// and the others in the order of the text, the prelude's first.
///
/// # Errors
///
/// `AllocError` where memory is short.
pub fn resolve_datas(
    alloc: Global,
    prelude: &Tree,
    program: &Tree,
    synonyms: &[Synonym],
) -> Result<Datas, AllocError>
    ensures { NoSynonymReachesItself (map synonym_of synonyms.now) → IfOk result (λ datas. datas ≡ datas_with (map synonym_of synonyms.now) (mirror.tops_of prelude.now) (mirror.tops_of program.now)) }
{
    match order_of(alloc, synonyms)? {
        Some(order) => {
            let projections = projections_of(alloc, synonyms, order.as_slice())?;
            let ends = ends_of(alloc, synonyms, projections.as_slice(), order.as_slice())?;
            let meanings = Meanings {
                synonyms,
                ends: ends.as_slice(),
                projections: projections.as_slice(),
            };
            datas_of(alloc, prelude, program, &meanings)
        }
        None => Ok(Items::new(alloc)),
    }
}

// The data types, by what synonyms mean.
#[tactic(auto, using(crate::proofs::Listing::in_order))]
fn datas_of(
    alloc: Global,
    prelude: &Tree,
    program: &Tree,
    meanings: &Meanings<'_>,
) -> Result<Datas, AllocError>
    requires { HoldsFor meanings.now }
    ensures { IfOk result (λ datas. datas ≡ datas_with (synonyms_of meanings.now) (mirror.tops_of prelude.now) (mirror.tops_of program.now)) }
{
    let mut datas = Items::new(alloc);
    add_bool(alloc, &mut datas)?;
    let prelude_names = bind_prelude_types(alloc, prelude)?;
    add_datas(alloc, &mut datas, meanings, &prelude_names, prelude)?;
    let program_names = bind_program_types(alloc, prelude, program)?;
    add_datas(alloc, &mut datas, meanings, &program_names, program)?;
    Ok(datas)
}
