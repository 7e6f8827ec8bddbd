//! What is looked at of declarations.

ghost use Rattle.std.specs.Prelude.{◌≡◌, ◌+◌, length, map, slice_index_or, IfOk};
ghost use Rattle.hdc_tree.specs.declared.program.Top.TheVariants as top;
ghost use Rattle.hdc_written.specs.Mirror as mirror;
ghost use Rattle.hdc_regular.specs.Resolved.{declaration_at};
ghost use Rattle.hdc_regular.specs.Built.{built_declaration};
ghost use Rattle.hdc_regular.specs.Passes as spec;

use crate::bodies::build_body;
use crate::contents::{Usage, collect_parts};
use crate::outline::{Outline, flag};
use crate::part::Part;
use crate::standing::Standing;
use crate::texts::Texts;
use hdc_tree::{Top, Tree};
use hdc_written::Scope;
use sqlite_items::Items;
use std::alloc::{AllocError, Global};

/// What a declaration declares.
#[derive(Clone, Copy, Debug, PartialEq, Eq)]
pub(crate) enum Kind {
    /// A data type with so many parameters.
    DataType(usize),
    /// A synonym that breaks no rule.
    Synonym,
    /// Any other, which nothing names.
    Neither,
}

/// A declaration as it is built.
#[derive(Drop)]
pub(crate) struct Body {
    /// What it declares.
    pub(crate) kind: Kind,
    /// Its types.
    pub(crate) parts: Items<Part>,
}

/// A declaration, with what it uses.
#[derive(Drop)]
pub(crate) struct Summary {
    /// What it declares.
    pub(crate) kind: Kind,
    /// The uses in its types.
    pub(crate) uses: Items<Usage>,
}

impl Kind {
    /// Whether it is a synonym.
    pub(crate) fn is_synonym(self) -> bool
        ensures { result ≡ spec.is_synonym_kind self }
    {
        match self {
            Kind::DataType(_count) => false,
            Kind::Synonym => true,
            Kind::Neither => false,
        }
    }
}

fn kind_where(is_sound: bool) -> Kind
    ensures { result ≡ spec.kind_where is_sound }
{
    if is_sound {
        Kind::Synonym
    } else {
        Kind::Neither
    }
}

fn top_kind(is_sound: bool, part: &Top) -> Kind
    ensures { result ≡ spec.top_kind is_sound part.now }
{
    match part {
        Top::Data(declared) => Kind::DataType(declared.params.len()),
        Top::Synonym(_synonym) => kind_where(is_sound),
        Top::Empty => Kind::Neither,
        Top::Fixity(_fixity) => Kind::Neither,
        Top::Signature(_first, _rest, _at, _signature) => Kind::Neither,
        Top::Equation(_head, _rhs) => Kind::Neither,
    }
}

fn build_top(
    alloc: Global,
    outlines: &[Outline],
    names: &Scope<Standing>,
    is_sound: bool,
    part: &Top,
) -> Result<Body, AllocError>
    ensures { IfOk result (λ body. spec.IsBody body (built_declaration outlines.now names.now is_sound part.now)) }
{
    let kind = top_kind(is_sound, part);
    let parts = build_body(alloc, outlines, names, is_sound, part)?;
    Ok(Body { kind, parts })
}

// The declaration at a place of a text; behind the last one there is nothing.
fn build_in(
    alloc: Global,
    outlines: &[Outline],
    names: &Scope<Standing>,
    is_sound: bool,
    tree: &Tree,
    index: usize,
) -> Result<Body, AllocError>
    ensures { IfOk result (λ body. spec.IsBody body (built_declaration outlines.now names.now is_sound (slice_index_or (mirror.tops_of tree.now) index top.Empty))) }
{
    if index == 0 {
        return build_top(alloc, outlines, names, is_sound, tree.first.get());
    }
    let place = index - 1;
    let rest = tree.rest.as_slice();
    if place < rest.len() {
        return build_top(alloc, outlines, names, is_sound, &rest[place].top);
    }
    Ok(Body {
        kind: Kind::Neither,
        parts: Items::new(alloc),
    })
}

/// The declaration with a number.
pub(crate) fn build_at(
    alloc: Global,
    texts: &Texts,
    outlines: &[Outline],
    number: usize,
) -> Result<Body, AllocError>
    requires { spec.AreTexts texts.now }
    ensures { IfOk result (λ body. spec.IsBody body (declaration_at (spec.built_texts outlines.now texts.now) number)) }
{
    let is_sound = flag(texts.sounds.as_slice(), number);
    let count = texts.count as usize;
    if number < count {
        return build_before(alloc, texts, outlines, is_sound, number);
    }
    build_in(
        alloc,
        outlines,
        &texts.names,
        is_sound,
        texts.text,
        number - count,
    )
}

fn build_before(
    alloc: Global,
    texts: &Texts,
    outlines: &[Outline],
    is_sound: bool,
    number: usize,
) -> Result<Body, AllocError>
    ensures { IfOk result (λ body. spec.IsBody body (built_declaration outlines.now texts.now.names_before is_sound (slice_index_or (spec.before_of texts.now) number top.Empty))) }
{
    match texts.before {
        Some(tree) => build_in(alloc, outlines, &texts.names_before, is_sound, tree, number),
        None => Ok(Body {
            kind: Kind::Neither,
            parts: Items::new(alloc),
        }),
    }
}

/// The declarations of both texts.
pub(crate) fn summaries(
    alloc: Global,
    texts: &Texts,
    outlines: &[Outline],
    size: usize,
) -> Result<Items<Summary>, AllocError>
    requires texts { spec.AreTexts texts.now }
    requires size { size ≡ length (spec.before_of texts.now) + length (spec.text_of texts.now) }
    ensures { IfOk result (λ summaries. summaries ≡ map spec.summary_of (spec.built_texts outlines.now texts.now)) }
{
    let mut summaries = Items::new(alloc);
    for number in 0..size {
        let summary = summary_at(alloc, texts, outlines, number)?;
        summaries.push(summary)?;
    }
    Ok(summaries)
}

fn summary_at(
    alloc: Global,
    texts: &Texts,
    outlines: &[Outline],
    number: usize,
) -> Result<Summary, AllocError>
    requires { spec.AreTexts texts.now }
    ensures { IfOk result (λ summary. summary ≡ spec.summary_of (declaration_at (spec.built_texts outlines.now texts.now) number)) }
{
    let body = build_at(alloc, texts, outlines, number)?;
    let mut variables = Items::new(alloc);
    let mut uses = Items::new(alloc);
    collect_parts(body.parts.as_slice(), alloc, &mut variables, &mut uses)?;
    Ok(Summary {
        kind: body.kind,
        uses,
    })
}

/// Which declarations are synonyms.
#[tactic(auto, using(crate::proofs::Collecting::in_order))]
pub(crate) fn synonym_flags(alloc: Global, summaries: &[Summary]) -> Result<Items<bool>, AllocError>
    ensures { IfOk result (λ flags. flags ≡ spec.synonym_flags summaries.now) }
{
    let mut flags = Items::new(alloc);
    for summary in summaries {
        flags.push(summary.kind.is_synonym())?;
    }
    Ok(flags)
}

/// For each declaration, the numbers of those that it uses.
#[tactic(auto, using(crate::proofs::Collecting::in_order))]
pub(crate) fn summary_needs(
    alloc: Global,
    summaries: &[Summary],
) -> Result<Vec<Items<u32>>, AllocError>
    ensures { IfOk result (λ needs. needs.items ≡ spec.summary_needs summaries.now) }
{
    let mut needs = Vec::new(alloc);
    for summary in summaries {
        let numbers = numbers_used(alloc, summary.uses.as_slice())?;
        needs.push(numbers)?;
    }
    Ok(needs)
}

#[tactic(auto, using(crate::proofs::Collecting::in_order))]
fn numbers_used(alloc: Global, uses: &[Usage]) -> Result<Items<u32>, AllocError>
    ensures { IfOk result (λ numbers. numbers ≡ spec.numbers_used uses.now) }
{
    let mut numbers = Items::new(alloc);
    for usage in uses {
        numbers.push(usage.number)?;
    }
    Ok(numbers)
}
