//! The variables of heads.

ghost use Rattle.std.specs.Prelude.{◌≡◌, ◌<◌, ◌^◌, IfOk, IsOk};
ghost use Rattle.hdc_type_names.specs.Variables.{places_from};

use hdc_tree::Name;
use hdc_written::Scope;
use std::alloc::{AllocError, Global};

/// The variables of a head by their places: of two with one name the first counts.
///
/// # Errors
///
/// `AllocError` where memory is short.
pub fn bind_parameters<'t>(
    alloc: Global,
    parameters: &'t [Name],
) -> Result<Scope<'t, u32>, AllocError>
    ensures { IfOk result (λ scope. scope ≡ places_from 0 parameters.now) }
{
    let mut scope = Scope::new(alloc);
    let mut count = parameters.len();
    while count > 0 {
        count -= 1;
        let place = place_of(count)?;
        scope.bind(parameters[count].text.as_slice(), place)?;
    }
    Ok(scope)
}

/// A place as a number of 32 bits.
///
/// # Errors
///
/// `AllocError` where there are too many.
pub fn place_of(count: usize) -> Result<u32, AllocError>
    ensures room { count < 2 ^ 32 → IsOk result }
    ensures what { IfOk result (λ place. place ≡ count) }
{
    match u32::try_from(count) {
        Ok(place) => Ok(place),
        Err(_error) => Err(AllocError),
    }
}
