//! What holds of all declarations.

ghost use Rattle.hdc_regular.specs.Laws as spec;

/// The breaches that are found in a text by what is known of its synonyms and of its groups, without expanding a synonym,
/// are those of the rule.
pub fn finds_all()
    ensures { spec.FindsAll }
{}
