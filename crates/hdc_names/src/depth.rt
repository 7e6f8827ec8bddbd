//! Depths of nodes.

ghost use Rattle.std.specs.Prelude.{◌≡◌, ◌+◌, suc, IfOk};
ghost use Rattle.hdc_written.specs.Mirror as mirror;
ghost use Rattle.hdc_written.specs.Written as written;
ghost use Rattle.hdc_names.specs.Sites as spec;

use hdc_tree::{Aexp, CommaQual};
use std::alloc::AllocError;

/// One deeper; want of memory where no number of 64 bits is.
pub(crate) fn deeper(depth: u64) -> Result<u64, AllocError>
    ensures { IfOk result (λ d. d ≡ suc depth) }
{
    match depth.checked_add(1) {
        Some(inner) => Ok(inner),
        None => Err(AllocError),
    }
}

/// The depth of a function below an application of this depth to these arguments; want of memory where 64 bits
/// do not hold it.
pub(crate) fn function_depth(depth: u64, args: &[Aexp]) -> Result<u64, AllocError>
    ensures { IfOk result (λ d. d ≡ written.count_operands (mirror.each_operand mirror.aexp_of args.now) + depth) }
{
    match depth.checked_add(args.len() as u64) {
        Some(inner) => Ok(inner),
        None => Err(AllocError),
    }
}

/// The depth of the head of a comprehension of this depth, with these qualifiers behind the first one; want of
/// memory where 64 bits do not hold it.
pub(crate) fn head_depth(depth: u64, rest: &[CommaQual]) -> Result<u64, AllocError>
    ensures { IfOk result (λ d. d ≡ suc (suc (written.count_qualifiers (mirror.each_qualifier mirror.comma_qual_of rest.now)) + depth)) }
{
    let inner = deeper(deeper(depth)?)?;
    match inner.checked_add(rest.len() as u64) {
        Some(behind) => Ok(behind),
        None => Err(AllocError),
    }
}

/// The depth of an operand of a chain, by its number.
pub(crate) fn depth_at(depths: &[u64], number: usize) -> u64
    ensures { result ≡ spec.depth_at depths.now number }
{
    match depths.get(number) {
        Some(depth) => *depth,
        None => 0,
    }
}
