//! A store in memory.

ghost use Rattle.std.specs.Prelude.{◌≡◌, ◌≢◌, ◌≤◌, ◌<◌, ◌↔◌, [], Some, length, None, IsSomeAnd, if◌then◌else◌};
ghost use Rattle.std.specs.List.{position};
ghost use Rattle.std.specs.Str.{bytes_eq};
ghost use Rattle.std.specs.Option.{option_copied};
ghost use Rattle.hdc_base.specs.Counts.{is_among, next_count};
ghost use Rattle.hdc_base.specs.Held.{next_text, text_under};

use crate::count::{contains, next};
use crate::outside::{Load, Store};
use crate::text::{Calls, Text, Texts};

/// A store of texts, each under the name at its own place. A name without a text at its place is
/// absent, and of two equal names the first counts.
#[derive(Debug, Drop)]
pub struct MemStore {
    pub names: Texts,
    pub texts: Texts,
    /// The numbers of the loads that fail, the first load being 1.
    pub fails: Calls,
    /// How many loads there were.
    pub calls: u64,
    /// How many loads failed.
    pub count: u64,
}

impl Store for MemStore {
    ghost holds = { λ s name. text_under s.names s.texts name };

    ghost faults = { λ s _. s.count };

    /// Fails exactly where the number of the load is in `fails`, or the name is absent.
    fn load(&mut self, name: &str, limit: u64, into: &mut Vec<u8>) -> Load
        ensures whole { result ≡ Load.Whole → text_under self.old.names self.old.texts name.now ≡ Some into.new.items }
        ensures within { result ≡ Load.Whole → length into.new.items ≤ limit }
        ensures empty { result ≢ Load.Whole → into.new.items ≡ [] }

        ensures failed { (result ≡ Load.Failed) ↔ (next_text self.old.fails self.old.calls self.old.names self.old.texts name.now ≡ None) }
        ensures long { (result ≡ Load.Long) ↔ IsSomeAnd (next_text self.old.fails self.old.calls self.old.names self.old.texts name.now) (λ bytes. limit < length bytes) }

        ensures counts { self.old.count ≤ self.new.count }
        ensures fault { result ≡ Load.Failed → self.new.count ≡ next_count self.old.count }
        ensures no_fault { result ≢ Load.Failed → self.new.count ≡ self.old.count }
        ensures calls { self.new.calls ≡ next_count self.old.calls }
        ensures names { self.new.names ≡ self.old.names }
        ensures texts { self.new.texts ≡ self.old.texts }
        ensures fails { self.new.fails ≡ self.old.fails }
    {
        into.clear();
        self.calls = next(self.calls);
        let Some(text) = self.answer(name.as_bytes()) else {
            self.count = next(self.count);
            return Load::Failed;
        };
        if text.len() as u64 > limit {
            return Load::Long;
        }
        match into.extend_from_slice(text.as_slice()) {
            Ok(()) => Load::Whole,
            Err(_) => Load::Want,
        }
    }
}

impl MemStore {
    /// The text under a name, unless this load fails.
    fn answer(&self, name: &[u8]) -> Option<&Text>
        ensures { option_copied result ≡ (if is_among self.now.fails self.now.calls then None else text_under self.now.names self.now.texts name.now) }
    {
        if contains(self.fails.as_slice(), self.calls) {
            return None;
        }
        find_text(self.names.as_slice(), self.texts.as_slice(), name)
    }
}

/// The text beside the first equal name.
#[tactic(auto, using(crate::proofs::Held::by_place))]
fn find_text<'t>(names: &[Text], texts: &'t [Text], name: &[u8]) -> Option<&'t Text>
    ensures { option_copied result ≡ text_under names.now texts.now name.now }
{
    let place = place_of(names, name)?;
    sqlite_items::at(texts, place)
}

/// The place of the first equal name.
fn place_of(names: &[Text], name: &[u8]) -> Option<usize>
    ensures { result ≡ position (λ held. bytes_eq held name.now) names.now }
{
    names.iter().position(|held| held.as_slice() == name)
}
