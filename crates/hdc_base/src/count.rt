//! Kept counts, which stand still at their greatest value.

ghost use Rattle.std.specs.Prelude.{◌≡◌};
ghost use Rattle.hdc_base.specs.Counts.{is_among, next_count};

/// The count after one more.
pub(crate) fn next(count: u64) -> u64
    ensures { result ≡ next_count count }
{
    count.saturating_add(1)
}

/// Whether a number is among the numbers.
#[tactic(auto, using(crate::proofs::Counts::is_among_by_any))]
pub(crate) fn contains(numbers: &[u64], number: u64) -> bool
    ensures { result ≡ is_among numbers.now number }
{
    numbers.contains(&number)
}
