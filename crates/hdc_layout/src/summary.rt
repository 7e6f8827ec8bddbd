//! What an entry of a stack knows of the stack up to it.

ghost use Rattle.std.specs.Prelude.{◌≡◌, List, [], ◌∷◌, false};
ghost use Rattle.hdc_layout.specs.Blocks.{column, finds, is_explicit, summary_of};
ghost use Rattle.hdc_layout.specs.declared.summary.Entry.{Entry};

use crate::role::{Answer, Opener};

/// An entry of a stack.
#[derive(Clone, Copy, Debug, PartialEq, Eq)]
pub enum Entry {
    /// An implicit block, at a column.
    Implicit(u32),
    /// An explicit block.
    Explicit,
    /// An opener.
    Opener(Opener),
}

/// A block that stands around a place.
#[derive(Clone, Copy, Debug, PartialEq, Eq)]
pub enum Block {
    /// No block.
    Nowhere,
    /// An implicit block, at a column.
    Implicit(u32),
    /// An explicit block.
    Explicit,
}

/// The current block of a stack, and which openers an answer would find in it.
#[derive(Clone, Copy, Debug, PartialEq, Eq)]
pub struct Summary {
    pub block: Block,
    pub let_opener: bool,
    pub if_opener: bool,
    pub then_opener: bool,
    pub case_opener: bool,
    pub paren: bool,
    pub bracket: bool,
}

/// The summary of a stack without entries.
pub fn empty_summary() -> Summary
    ensures { result ≡ summary_of [] }
{
    no_openers(Block::Nowhere)
}

/// The summary of a stack with an entry on top, from the summary of the stack below it.
pub fn summary_above(below: Summary, entry: Entry) -> Summary
    ensures { (stack : List Entry) → below ≡ summary_of stack → result ≡ summary_of (entry ∷ stack) }
{
    match entry {
        Entry::Implicit(column) => Summary {
            block: Block::Implicit(column),
            ..below
        },
        Entry::Explicit => no_openers(Block::Explicit),
        Entry::Opener(Opener::Let) => Summary {
            let_opener: true,
            ..below
        },
        Entry::Opener(Opener::If) => Summary {
            if_opener: true,
            ..below
        },
        Entry::Opener(Opener::Then) => Summary {
            then_opener: true,
            ..below
        },
        Entry::Opener(Opener::Case) => Summary {
            case_opener: true,
            ..below
        },
        Entry::Opener(Opener::Paren) => Summary {
            paren: true,
            ..no_openers(below.block)
        },
        Entry::Opener(Opener::Bracket) => Summary {
            bracket: true,
            ..no_openers(below.block)
        },
    }
}

/// Whether the answer finds its opener.
pub fn finds(answer: Answer, summary: Summary) -> bool
    ensures { (stack : List Entry) → summary ≡ summary_of stack → result ≡ finds answer stack }
{
    match answer {
        Answer::In => summary.let_opener,
        Answer::Then => summary.if_opener,
        Answer::Else => summary.then_opener,
        Answer::Of => summary.case_opener,
        Answer::CloseParen => summary.paren,
        Answer::CloseBracket => summary.bracket,
        Answer::Comma => summary.paren || summary.bracket,
    }
}

/// The column of a block: 0 where it is not implicit.
pub fn column(block: Block) -> u32
    ensures { result ≡ column block }
{
    match block {
        Block::Implicit(column) => column,
        Block::Explicit | Block::Nowhere => 0,
    }
}

/// Whether the block is explicit.
pub fn is_explicit(block: Block) -> bool
    ensures { result ≡ is_explicit block }
{
    matches!(block, Block::Explicit)
}

fn no_openers(block: Block) -> Summary
    ensures { result ≡ record { block = block; let_opener = false; if_opener = false; then_opener = false; case_opener = false; paren = false; bracket = false } }
{
    Summary {
        block,
        let_opener: false,
        if_opener: false,
        then_opener: false,
        case_opener: false,
        paren: false,
        bracket: false,
    }
}
