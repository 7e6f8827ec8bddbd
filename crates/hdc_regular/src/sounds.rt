//! Which declarations are sound.

ghost use Rattle.std.specs.Prelude.{◌≡◌, ◌<◌, ◌∷◌, ◌++◌, [], length, OnOk};
ghost use Rattle.hdc_written.specs.Mirror as mirror;
ghost use Rattle.hdc_rules.specs.Bindings.{typed_breaches};
ghost use Rattle.hdc_regular.specs.Standings as spec;

use hdc_rules::note_typed_at;
use hdc_tree::{NextTop, Top, Tree};
use hdc_written::{Found, Scope};
use sqlite_items::Items;
use std::alloc::{AllocError, Global};

/// Adds for each declaration of a text whether it is sound, where it is known which reach themselves.
#[tactic(auto, using(crate::proofs::Collecting::in_order))]
pub(crate) fn add_sounds(
    alloc: Global,
    sounds: &mut Items<bool>,
    types: &Scope<usize>,
    cyclic: &[bool],
    tree: &Tree,
) -> Result<(), AllocError>
    requires { length tree.now.rest < length cyclic.now }
    ensures { OnOk result (sounds.new ≡ sounds.old ++ spec.each_sound types.now cyclic.now 0 (mirror.tops_of tree.now)) }
{
    add_sound(alloc, sounds, types, cyclic[0], tree.first.get())?;
    add_next_sounds(alloc, sounds, types, cyclic, tree.rest.as_slice())
}

#[tactic(auto, using(crate::proofs::Collecting::in_order))]
fn add_next_sounds(
    alloc: Global,
    sounds: &mut Items<bool>,
    types: &Scope<usize>,
    cyclic: &[bool],
    parts: &[NextTop],
) -> Result<(), AllocError>
    requires { length parts.now < length cyclic.now }
    ensures { OnOk result (sounds.new ≡ sounds.old ++ spec.each_sound types.now cyclic.now 1 (mirror.tops_behind parts.now)) }
{
    for index in 0..parts.len() {
        add_sound(alloc, sounds, types, cyclic[index + 1], &parts[index].top)?;
    }
    Ok(())
}

#[tactic(auto, using(crate::proofs::Sound::sound_found))]
fn add_sound(
    alloc: Global,
    sounds: &mut Items<bool>,
    types: &Scope<usize>,
    is_cyclic: bool,
    part: &Top,
) -> Result<(), AllocError>
    ensures { OnOk result (sounds.new ≡ sounds.old ++ spec.is_sound (typed_breaches types.now part.now) is_cyclic ∷ []) }
{
    let mut found = Found::nothing();
    note_typed_at(alloc, &mut found, types, part)?;
    let is_broken = found.breach.is_some();
    sounds.push(!is_broken && !is_cyclic)
}
