//! A text and the prelude before it.

ghost use Rattle.std.specs.Prelude.{◌≡◌, ◌<◌, ◌≤◌, ◌+◌, ◌^◌, [], length, IfOk};
ghost use Rattle.hdc_written.specs.Mirror as mirror;
ghost use Rattle.hdc_regular.specs.Irregular.{sounds_of};
ghost use Rattle.hdc_regular.specs.Passes as spec;

use crate::names::{bind_standings, place_of};
use crate::sounds::add_sounds;
use crate::standing::Standing;
use hdc_rules::{types_in_prelude, types_in_program};
use hdc_tree::Tree;
use hdc_written::Scope;
use sqlite_items::Items;
use std::alloc::{AllocError, Global};

/// A text, with the prelude before it if there is one. Their declarations are numbered through.
#[derive(Drop)]
pub(crate) struct Texts<'t> {
    /// The prelude.
    pub(crate) before: Option<&'t Tree>,
    /// How many declarations the prelude has.
    pub(crate) count: u32,
    /// The text.
    pub(crate) text: &'t Tree,
    /// Which declarations are sound.
    pub(crate) sounds: Items<bool>,
    /// What names stand for in the prelude.
    pub(crate) names_before: Scope<'t, Standing>,
    /// What names stand for in the text.
    pub(crate) names: Scope<'t, Standing>,
}

/// A prelude, where it is known which declarations reach themselves.
pub(crate) fn prelude_alone<'t>(
    alloc: Global,
    prelude: &'t Tree,
    cyclic: &[bool],
) -> Result<Texts<'t>, AllocError>
    requires { length prelude.now.rest < length cyclic.now }
    ensures texts { IfOk result (λ texts. spec.AreTexts texts) }
    ensures before { IfOk result (λ texts. spec.before_of texts ≡ []) }
    ensures text { IfOk result (λ texts. spec.text_of texts ≡ mirror.tops_of prelude.now) }
    ensures sounds { IfOk result (λ texts. texts.sounds ≡ sounds_of [] (mirror.tops_of prelude.now) [] cyclic.now) }
{
    let types = types_in_prelude(alloc, prelude)?;
    let mut sounds = Items::new(alloc);
    add_sounds(alloc, &mut sounds, &types, cyclic, prelude)?;
    let names_before = Scope::new(alloc);
    let mut names = Scope::new(alloc);
    bind_standings(&mut names, sounds.as_slice(), 0, prelude)?;
    Ok(Texts {
        before: None,
        count: 0,
        text: prelude,
        sounds,
        names_before,
        names,
    })
}

/// A program behind a prelude, where it is known which declarations reach themselves.
pub(crate) fn program_behind<'t>(
    alloc: Global,
    prelude: &'t Tree,
    program: &'t Tree,
    cyclic_before: &[bool],
    cyclic: &[bool],
) -> Result<Texts<'t>, AllocError>
    requires before { length prelude.now.rest < length cyclic_before.now }
    requires text { length program.now.rest < length cyclic.now }
    ensures texts { IfOk result (λ texts. spec.AreTexts texts) }
    ensures before { IfOk result (λ texts. spec.before_of texts ≡ mirror.tops_of prelude.now) }
    ensures text { IfOk result (λ texts. spec.text_of texts ≡ mirror.tops_of program.now) }
    ensures sounds { IfOk result (λ texts. texts.sounds ≡ sounds_of (mirror.tops_of prelude.now) (mirror.tops_of program.now) cyclic_before.now cyclic.now) }
{
    let sounds = sounds_of_both(alloc, prelude, program, cyclic_before, cyclic)?;
    let count = size_of(prelude)?;
    let mut names_before = Scope::new(alloc);
    bind_standings(&mut names_before, sounds.as_slice(), 0, prelude)?;
    let mut names = Scope::new(alloc);
    bind_standings(&mut names, sounds.as_slice(), 0, prelude)?;
    bind_standings(&mut names, sounds.as_slice(), count, program)?;
    Ok(Texts {
        before: Some(prelude),
        count,
        text: program,
        sounds,
        names_before,
        names,
    })
}

fn sounds_of_both(
    alloc: Global,
    prelude: &Tree,
    program: &Tree,
    cyclic_before: &[bool],
    cyclic: &[bool],
) -> Result<Items<bool>, AllocError>
    requires before { length prelude.now.rest < length cyclic_before.now }
    requires text { length program.now.rest < length cyclic.now }
    ensures { IfOk result (λ sounds. sounds ≡ sounds_of (mirror.tops_of prelude.now) (mirror.tops_of program.now) cyclic_before.now cyclic.now) }
{
    let types_before = types_in_prelude(alloc, prelude)?;
    let types = types_in_program(alloc, prelude, program)?;
    let mut sounds = Items::new(alloc);
    add_sounds(alloc, &mut sounds, &types_before, cyclic_before, prelude)?;
    add_sounds(alloc, &mut sounds, &types, cyclic, program)?;
    Ok(sounds)
}

/// How many declarations a text has.
#[tactic(auto, using(crate::proofs::Steps::size_of_tree))]
pub(crate) fn size_of(tree: &Tree) -> Result<u32, AllocError>
    ensures { IfOk result (λ size. size ≡ length (mirror.tops_of tree.now)) }
{
    match tree.rest.len().checked_add(1) {
        Some(size) => place_of(size),
        None => Err(AllocError),
    }
}

impl<'t> Texts<'t> {
    /// How many declarations both have.
    pub(crate) fn size(&self) -> Result<usize, AllocError>
        requires { spec.AreTexts self.now }
        ensures size { IfOk result (λ size. size ≡ length (spec.before_of self.now) + length (spec.text_of self.now)) }
        ensures small { IfOk result (λ size. size ≤ 2 ^ 32) }
    {
        let size = size_of(self.text)?;
        match self.count.checked_add(size) {
            Some(both) => Ok(both as usize),
            None => Err(AllocError),
        }
    }
}
