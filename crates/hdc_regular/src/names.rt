//! What the names of types stand for in a text.

ghost use Rattle.std.specs.Prelude.{◌≡◌, ◌+◌, suc, ◌++◌, OnOk, IfOk};
ghost use Rattle.hdc_written.specs.Mirror as mirror;
ghost use Rattle.hdc_regular.specs.Standings as spec;
ghost use Rattle.hdc_regular.specs.Resolving.{params_from};

use crate::outline::flag;
use crate::standing::Standing;
use hdc_tree::{Name, NextTop, Top, Tree};
use hdc_written::Scope;
use std::alloc::{AllocError, Global};

/// Binds the types of a text, whose declarations are numbered from this number on.
pub(crate) fn bind_standings<'t>(
    names: &mut Scope<'t, Standing>,
    sounds: &[bool],
    base: u32,
    tree: &'t Tree,
) -> Result<(), AllocError>
    ensures { OnOk result (names.new ≡ spec.each_standing sounds.now base (mirror.tops_of tree.now) ++ names.old) }
{
    bind_next_standings(names, sounds, base, tree.rest.as_slice())?;
    bind_standing(names, flag(sounds, base as usize), base, tree.first.get())
}

// The last one first, so that the first declaration of a name counts.
fn bind_next_standings<'t>(
    names: &mut Scope<'t, Standing>,
    sounds: &[bool],
    base: u32,
    tops: &'t [NextTop],
) -> Result<(), AllocError>
    ensures { OnOk result (names.new ≡ spec.each_standing sounds.now (suc base) (mirror.tops_behind tops.now) ++ names.old) }
{
    let mut count = tops.len();
    while count > 0 {
        count -= 1;
        let number = number_behind(base, count)?;
        bind_standing(
            names,
            flag(sounds, number as usize),
            number,
            &tops[count].top,
        )?;
    }
    Ok(())
}

// The number of the declaration so many behind the one after this.
fn number_behind(base: u32, count: usize) -> Result<u32, AllocError>
    ensures { IfOk result (λ number. number ≡ suc base + count) }
{
    let Some(behind) = count.checked_add(1) else {
        return Err(AllocError);
    };
    let Some(number) = behind.checked_add(base as usize) else {
        return Err(AllocError);
    };
    match u32::try_from(number) {
        Ok(number) => Ok(number),
        Err(_error) => Err(AllocError),
    }
}

fn bind_standing<'t>(
    names: &mut Scope<'t, Standing>,
    is_sound: bool,
    number: u32,
    part: &'t Top,
) -> Result<(), AllocError>
    ensures { OnOk result (names.new ≡ spec.top_standings is_sound number part.now ++ names.old) }
{
    match part {
        Top::Data(declared) => names.bind(
            declared.name.text.as_slice(),
            Standing::DataType(number),
        ),
        Top::Synonym(synonym) => {
            let standing = synonym_standing(is_sound, number, synonym.params.len());
            names.bind(synonym.name.text.as_slice(), standing)
        }
        Top::Empty => Ok(()),
        Top::Fixity(_fixity) => Ok(()),
        Top::Signature(_first, _rest, _at, _signature) => Ok(()),
        Top::Equation(_head, _rhs) => Ok(()),
    }
}

fn synonym_standing(is_sound: bool, number: u32, count: usize) -> Standing
    ensures { result ≡ spec.synonym_standing is_sound number count }
{
    if is_sound {
        Standing::Synonym(number, count)
    } else {
        Standing::NotExpanded
    }
}

/// The variables of a head by their places: of two with one name the first counts.
pub(crate) fn bind_params<'t>(
    alloc: Global,
    params: &'t [Name],
) -> Result<Scope<'t, u32>, AllocError>
    ensures { IfOk result (λ scope. scope ≡ params_from 0 params.now) }
{
    let mut scope = Scope::new(alloc);
    let mut count = params.len();
    while count > 0 {
        count -= 1;
        let place = place_of(count)?;
        scope.bind(params[count].text.as_slice(), place)?;
    }
    Ok(scope)
}

/// A place as that of a variable.
pub(crate) fn place_of(count: usize) -> Result<u32, AllocError>
    ensures { IfOk result (λ place. place ≡ count) }
{
    match u32::try_from(count) {
        Ok(place) => Ok(place),
        Err(_error) => Err(AllocError),
    }
}
