//! What synonyms mean.

ghost use Rattle.std.specs.Prelude.{◌≡◌, [], map, slice_index_or, MatchOption};
ghost use Rattle.hdc_resolved.specs.Mirror.{synonym_of, type_tree_of};
ghost use Rattle.hdc_datas.specs.Expanded.{expanded};
ghost use Rattle.hdc_datas.specs.Settled as spec;

use hdc_resolved::{Synonym, Type};

/// All synonyms. For each one that only renames another, the last one of that chain, and for others themselves. For each one
/// that means one of its arguments, the place of this one.
#[derive(Clone, Copy)]
pub(crate) struct Meanings<'s> {
    pub(crate) synonyms: &'s [Synonym],
    pub(crate) ends: &'s [u32],
    pub(crate) projections: &'s [Option<u32>],
}

impl<'s> Meanings<'s> {
    /// What a synonym means, if there is such a synonym, with so many arguments.
    pub(crate) fn find(&self, number: u32, count: usize) -> Option<&'s Type>
        requires { spec.HoldsFor self.now }
        ensures { MatchOption result (spec.StandsFor (spec.synonyms_of self.now) number count []) (λ t. spec.StandsFor (spec.synonyms_of self.now) number count (expanded (spec.synonyms_of self.now) (type_tree_of t.now))) }
    {
        match self.synonyms.get(self.end_of(number, count) as usize) {
            Some(synonym) => Some(&synonym.meaning),
            None => None,
        }
    }

    // Where a chain of renamings ends, if there are as many arguments as parameters.
    fn end_of(&self, number: u32, count: usize) -> u32
        requires { spec.HoldsFor self.now }
        ensures { spec.StandsFor (spec.synonyms_of self.now) number count (spec.meaning_of (spec.synonyms_of self.now) result) }
    {
        if count == params_of(self.synonyms, number) as usize {
            end_at(self.ends, number)
        } else {
            number
        }
    }
}

/// How many parameters a synonym has; none where there is no such synonym.
pub(crate) fn params_of(synonyms: &[Synonym], number: u32) -> u32
    ensures { result ≡ spec.params_at (map synonym_of synonyms.now) number }
{
    match synonyms.get(number as usize) {
        Some(synonym) => synonym.params,
        None => 0,
    }
}

/// What a list has for a number, or this number itself.
pub(crate) fn end_at(ends: &[u32], number: u32) -> u32
    ensures { result ≡ slice_index_or ends.now number number }
{
    match ends.get(number as usize) {
        Some(end) => *end,
        None => number,
    }
}
