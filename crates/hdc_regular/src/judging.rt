//! The uses of a data type are judged.

ghost use Rattle.std.specs.Prelude.{◌≡◌, true, false};
ghost use Rattle.hdc_written.specs.Breaches.{all_noted};
ghost use Rattle.hdc_regular.specs.Walk as walk;
ghost use Rattle.hdc_regular.specs.Demands.{demand_at, met};
ghost use Rattle.hdc_regular.specs.Judging as spec;

use crate::contents::Usage;
use crate::demand::{Demand, alias_in};
use crate::outline::flag;
use hdc_written::Found;

/// Notes the uses in a data type of a group, with so many parameters, that are not in order.
#[tactic(auto, using(hdc_written::proofs::FirstBreach::in_order))]
pub(crate) fn note_uses(
    found: &mut Found,
    uses: &[Usage],
    synonyms: &[bool],
    demands: &[Demand],
    numbers: &[usize],
    group: usize,
    count: usize,
)
    ensures { found.new ≡ all_noted found.old (spec.uses_wrong synonyms.now demands.now numbers.now group count uses.now) }
{
    for usage in uses {
        note_use(found, usage, synonyms, demands, numbers, group, count);
    }
}

fn note_use(
    found: &mut Found,
    usage: &Usage,
    synonyms: &[bool],
    demands: &[Demand],
    numbers: &[usize],
    group: usize,
    count: usize,
)
    ensures { found.new ≡ all_noted found.old (spec.usage_wrong synonyms.now demands.now numbers.now group count usage.now) }
{
    if is_in_group(numbers, group, usage.number) && !fits(usage, synonyms, demands, count) {
        found.note(10, usage.at);
    }
}

/// Whether a declaration is in the group with this number.
pub(crate) fn is_in_group(numbers: &[usize], group: usize, number: u32) -> bool
    ensures { result ≡ walk.is_in_group numbers.now group number }
{
    match numbers.get(number as usize) {
        Some(own) => *own == group,
        None => 0 == group,
    }
}

// Whether what is used has the variables in order.
fn fits(usage: &Usage, synonyms: &[bool], demands: &[Demand], count: usize) -> bool
    ensures { result ≡ spec.usage_fits synonyms.now demands.now count usage.now }
{
    if flag(synonyms, usage.number as usize) {
        is_met_at(demands, usage.number, count, usage.arguments.as_slice())
    } else {
        is_in_order(count, usage.arguments.as_slice())
    }
}

fn is_met_at(demands: &[Demand], number: u32, count: usize, aliases: &[Option<u32>]) -> bool
    ensures { result ≡ met (demand_at demands.now number) count aliases.now }
{
    match demands.get(number as usize) {
        Some(demand) => demand.is_met(count, aliases),
        None => true,
    }
}

// Whether these are so many variables in order.
#[tactic(auto, using(crate::proofs::Wants::order_one_by_one))]
fn is_in_order(count: usize, aliases: &[Option<u32>]) -> bool
    ensures { result ≡ walk.in_order 0 count aliases.now }
{
    if aliases.len() != count {
        return false;
    }
    for index in 0..aliases.len() {
        if !is_variable(index, alias_in(aliases, index)) {
            return false;
        }
    }
    true
}

fn is_variable(place: usize, alias: Option<u32>) -> bool
    ensures { result ≡ walk.is_variable place alias }
{
    match alias {
        None => false,
        Some(variable) => variable as usize == place,
    }
}
