//! The passes over all declarations in their order.

ghost use Rattle.std.specs.Prelude.{◌≡◌, ◌+◌, length, drop, slice_set, slice_index_or, OnOk, IfOk};
ghost use Rattle.hdc_written.specs.Breaches.{all_noted};
ghost use Rattle.hdc_regular.specs.Resolved.{declaration_at};
ghost use Rattle.hdc_regular.specs.Named.{body_of};
ghost use Rattle.hdc_regular.specs.Building.{no_outline};
ghost use Rattle.hdc_regular.specs.Outlines as outlines;
ghost use Rattle.hdc_regular.specs.Demands.{no_demand};
ghost use Rattle.hdc_regular.specs.Judged.{repeat_of};
ghost use Rattle.hdc_regular.specs.Passes as spec;

use crate::contents::Usage;
use crate::demand::Demand;
use crate::judging::{is_in_group, note_uses};
use crate::outline::{Outline, flag};
use crate::outlining::outline_of;
use crate::summary::{Kind, Summary, build_at};
use crate::texts::Texts;
use hdc_written::Found;
use sqlite_items::Items;
use std::alloc::{AllocError, Global};

/// What is known of the meanings of synonyms, once they are looked at in this order.
pub(crate) fn outlines_in_order(
    alloc: Global,
    texts: &Texts,
    order: &[u32],
    size: usize,
) -> Result<Items<Outline>, AllocError>
    requires { spec.AreTexts texts.now }
    ensures { IfOk result (λ known. known ≡ outlines.outlines_by (spec.before_of texts.now) (spec.text_of texts.now) texts.now.sounds order.now (repeat_of no_outline size)) }
{
    let mut known = no_outlines(alloc, size)?;
    for number in order {
        set_outline(alloc, texts, &mut known, *number)?;
    }
    Ok(known)
}

fn no_outlines(alloc: Global, size: usize) -> Result<Items<Outline>, AllocError>
    ensures { IfOk result (λ known. known ≡ repeat_of no_outline size) }
{
    let mut known = Items::new(alloc);
    for _place in 0..size {
        known.push(Outline {
            alias: None,
            holds: Items::new(alloc),
        })?;
    }
    Ok(known)
}

#[tactic(auto, using(crate::proofs::Steps::nothing_set))]
fn set_outline(
    alloc: Global,
    texts: &Texts,
    known: &mut Items<Outline>,
    number: u32,
) -> Result<(), AllocError>
    requires { spec.AreTexts texts.now }
    ensures { OnOk result (known.new ≡ slice_set known.old number (outlines.outline_of (body_of (declaration_at (spec.built_texts known.old texts.now) number)))) }
{
    let body = build_at(alloc, texts, known.as_slice(), number as usize)?;
    let outline = outline_of(alloc, body.parts.as_slice())?;
    if (number as usize) < known.len() {
        known.set(number as usize, outline);
    }
    Ok(())
}

/// What synonyms ask, once they are looked at in this order.
pub(crate) fn demands_in_order(
    alloc: Global,
    summaries: &[Summary],
    synonyms: &[bool],
    numbers: &[usize],
    order: &[u32],
) -> Result<Items<Demand>, AllocError>
    ensures { IfOk result (λ demands. demands ≡ spec.demands_set summaries.now synonyms.now numbers.now order.now (repeat_of no_demand (length summaries.now))) }
{
    let mut demands = no_demands(alloc, summaries.len())?;
    for number in order {
        set_demand(alloc, summaries, synonyms, numbers, &mut demands, *number)?;
    }
    Ok(demands)
}

fn no_demands(alloc: Global, size: usize) -> Result<Items<Demand>, AllocError>
    ensures { IfOk result (λ demands. demands ≡ repeat_of no_demand size) }
{
    let mut demands = Items::new(alloc);
    for _place in 0..size {
        demands.push(Demand::new(alloc))?;
    }
    Ok(demands)
}

#[tactic(auto, using(crate::proofs::Steps::nothing_set))]
fn set_demand(
    alloc: Global,
    summaries: &[Summary],
    synonyms: &[bool],
    numbers: &[usize],
    demands: &mut Items<Demand>,
    number: u32,
) -> Result<(), AllocError>
    ensures { OnOk result (demands.new ≡ spec.demand_set summaries.now synonyms.now numbers.now number demands.old) }
{
    let place = number as usize;
    let group = group_of(numbers, place);
    let uses = synonym_uses(summaries, place);
    let demand = demand_of(alloc, synonyms, demands.as_slice(), numbers, group, uses)?;
    if place < demands.len() {
        demands.set(place, demand);
    }
    Ok(())
}

fn group_of(numbers: &[usize], number: usize) -> usize
    ensures { result ≡ slice_index_or numbers.now number 0 }
{
    match numbers.get(number) {
        Some(group) => *group,
        None => 0,
    }
}

// The uses in the meaning of a synonym.
fn synonym_uses(summaries: &[Summary], number: usize) -> &[Usage]
    ensures { result.now ≡ spec.synonym_uses (spec.summary_at summaries.now number) }
{
    match summaries.get(number) {
        Some(summary) => {
            if summary.kind.is_synonym() {
                summary.uses.as_slice()
            } else {
                &[]
            }
        }
        None => &[],
    }
}

fn demand_of(
    alloc: Global,
    synonyms: &[bool],
    demands: &[Demand],
    numbers: &[usize],
    group: usize,
    uses: &[Usage],
) -> Result<Demand, AllocError>
    ensures { IfOk result (λ demand. demand ≡ spec.uses_demanded synonyms.now demands.now numbers.now group uses.now no_demand) }
{
    let mut demand = Demand::new(alloc);
    for usage in uses {
        add_usage(alloc, &mut demand, usage, synonyms, demands, numbers, group)?;
    }
    Ok(demand)
}

fn add_usage(
    alloc: Global,
    demand: &mut Demand,
    usage: &Usage,
    synonyms: &[bool],
    demands: &[Demand],
    numbers: &[usize],
    group: usize,
) -> Result<(), AllocError>
    ensures { OnOk result (demand.new ≡ spec.usage_demanded synonyms.now demands.now numbers.now group usage.now demand.old) }
{
    if !is_in_group(numbers, group, usage.number) {
        return Ok(());
    }
    if !flag(synonyms, usage.number as usize) {
        return demand.add_use(usage.arguments.as_slice());
    }
    match demands.get(usage.number as usize) {
        Some(asked) => demand.add_demand(asked, usage.arguments.as_slice()),
        None => demand.add_demand(&Demand::new(alloc), usage.arguments.as_slice()),
    }
}

/// Notes the uses that are not in order in the data types from a number on.
#[tactic(auto, using(hdc_written::proofs::FirstBreach::in_order))]
pub(crate) fn note_from(
    found: &mut Found,
    summaries: &[Summary],
    synonyms: &[bool],
    demands: &[Demand],
    numbers: &[usize],
    from: usize,
)
    ensures { found.new ≡ all_noted found.old (spec.summaries_wrong synonyms.now demands.now numbers.now from (drop from summaries.now)) }
{
    for number in from..summaries.len() {
        note_summary(
            found,
            &summaries[number],
            synonyms,
            demands,
            numbers,
            number,
        );
    }
}

fn note_summary(
    found: &mut Found,
    summary: &Summary,
    synonyms: &[bool],
    demands: &[Demand],
    numbers: &[usize],
    number: usize,
)
    ensures { found.new ≡ all_noted found.old (spec.summary_wrong synonyms.now demands.now numbers.now number summary.now) }
{
    match summary.kind {
        Kind::DataType(count) => note_uses(
            found,
            summary.uses.as_slice(),
            synonyms,
            demands,
            numbers,
            group_of(numbers, number),
            count,
        ),
        Kind::Synonym => {}
        Kind::Neither => {}
    }
}
