//! A layout under way, and what marks, tokens and the end do to it.

ghost use Rattle.std.specs.Prelude.{◌≡◌, List, [], ◌∷◌, drop, IfOk, OnOk};
ghost use Rattle.hdc_layout.specs.Blocks.{top as top_of};
ghost use Rattle.hdc_layout.specs.LaidOut.{IsLaidOut};
ghost use Rattle.hdc_layout.specs.declared.summary.Entry.{Entry};
ghost use Rattle.hdc_layout.specs.Progress.{after_step, after_steps, is_above_block, removes, with_laid, Leaves};
ghost use Rattle.hdc_layout.specs.Rules.{begin_block, close_while, ends, finish, insert, is_above, is_at, line, mark_step, role_step, step, take_answer, token_step};

use crate::mark::Mark;
use crate::role::{Answer, Opener, Role, answers, role_of};
use crate::stack::Stack;
use crate::stop::LayoutStop;
use crate::summary::{Block, Entry, column, is_explicit};
use hdc_base::{At, Key, Token, Tokens, Word};
use std::alloc::{AllocError, Global};

/// A layout under way: its stack, and the tokens so far.
#[derive(Debug, Drop)]
pub struct Layout {
    pub stack: Stack,
    pub laid: Tokens,
}

/// What removes entries from the top of a stack.
#[derive(Clone, Copy, Debug, PartialEq, Eq)]
pub enum Cause {
    /// A line at a column, before `where` or not: the blocks that it ends, each with all above it.
    Line(u32, bool),
    /// An answer: all above its opener.
    Answer(Answer),
    /// A `}`, or the end: all above the nearest explicit block.
    Brace,
}

impl Layout {
    /// A layout that has taken nothing yet, with room for what so many tokens may give: each of them, a
    /// `{`, a `}` and a `;`.
    pub fn new(alloc: Global, count: usize) -> Result<Layout, AllocError>
        ensures { IfOk result (λ l. l ≡ record { stack = []; laid = [] }) }
    {
        let laid = Vec::with_capacity(alloc, count.saturating_mul(4))?;
        Ok(Layout {
            stack: Stack::new(alloc),
            laid: Tokens::from_vec(laid),
        })
    }

    /// Takes a mark at a place, before `where` or not.
    pub fn mark(&mut self, mark: Mark, before_where: bool, at: At) -> Result<(), AllocError>
        ensures { OnOk result (self.new ≡ after_step self.old (mark_step mark before_where at self.old.stack)) }
    {
        match mark {
            Mark::Nothing => Ok(()),
            Mark::Line(column) => self.line(column, before_where, at),
            Mark::Block(column) => self.begin_block(column, before_where, at),
        }
    }

    /// Takes a token.
    pub fn token(&mut self, token: Token) -> Result<(), LayoutStop>
        ensures { Leaves (after_steps self.old (token_step token self.old.stack)) self.new result }
    {
        self.role(role_of(&token.word), token.at)?;
        self.laid.push(token)?;
        Ok(())
    }

    /// Takes the end of a text.
    pub fn finish(self, end: At) -> Result<Tokens, LayoutStop>
        ensures { IsLaidOut (with_laid self.laid (finish self.stack end)) result }
    {
        let mut layout = self;
        layout.close(Cause::Brace, end)?;
        match layout.stack.top() {
            Some(_) => Err(LayoutStop::Brace(end)),
            None => Ok(layout.laid),
        }
    }

    // Closes what a token of the role closes.
    fn role(&mut self, role: Role, at: At) -> Result<(), LayoutStop>
        ensures { Leaves (after_steps self.old (role_step role at self.old.stack)) self.new result }
    {
        match role {
            Role::OpenBrace => self.stack.push(Entry::Explicit)?,
            Role::CloseBrace => {
                if !is_explicit(self.stack.current()) {
                    return Err(LayoutStop::Brace(at));
                }
                self.close(Cause::Brace, at)?;
                self.remove_top();
            }
            Role::Opens(opener) => self.stack.push(Entry::Opener(opener))?,
            Role::Answers(answer) => self.take_answer(answer, at)?,
            Role::Where | Role::Module | Role::Other => {}
        }
        Ok(())
    }

    fn line(&mut self, column: u32, before_where: bool, at: At) -> Result<(), AllocError>
        ensures { OnOk result (self.new ≡ after_step self.old (line column before_where at self.old.stack)) }
    {
        self.close(Cause::Line(column, before_where), at)?;
        if is_at(column, self.stack.current()) {
            self.insert(Key::KSemicolon, at)?;
        }
        Ok(())
    }

    fn begin_block(&mut self, n: u32, before_where: bool, at: At) -> Result<(), AllocError>
        ensures { OnOk result (self.new ≡ after_step self.old (begin_block n before_where at self.old.stack)) }
    {
        self.insert(Key::KOpenBrace, at)?;
        if column(self.stack.current()) < n {
            return self.stack.push(Entry::Implicit(n));
        }
        self.insert(Key::KCloseBrace, at)?;
        self.line(n, before_where, at)
    }

    fn take_answer(&mut self, answer: Answer, at: At) -> Result<(), AllocError>
        ensures { OnOk result (self.new ≡ after_step self.old (take_answer answer at self.old.stack)) }
    {
        if !self.stack.finds(answer) {
            return Ok(());
        }
        self.close(Cause::Answer(answer), at)?;
        match answer {
            Answer::Then => {
                self.remove_top();
                self.stack.push(Entry::Opener(Opener::Then))?;
            }
            Answer::Comma => {}
            _ => self.remove_top(),
        }
        Ok(())
    }

    // Removes entries from the top as long as the cause removes them, with a `}` for each implicit block.
    fn close(&mut self, cause: Cause, at: At) -> Result<(), AllocError>
        ensures { OnOk result (self.new ≡ after_step self.old (close_while (removes cause) at self.old.stack)) }
    {
        while removes(cause, &self.stack) {
            if let Some(Entry::Implicit(_)) = self.stack.pop() {
                self.insert(Key::KCloseBrace, at)?;
            }
        }
        Ok(())
    }

    fn remove_top(&mut self)
        ensures laid { self.new.laid ≡ self.old.laid }
        ensures stack { self.new.stack ≡ drop 1 self.old.stack }
    {
        let _ = self.stack.pop();
    }

    fn insert(&mut self, key: Key, at: At) -> Result<(), AllocError>
        ensures { OnOk result (self.new ≡ after_step self.old (step (insert key at ∷ []) self.old.stack)) }
    {
        self.laid.push(Token {
            at,
            word: Word::Key(key),
        })
    }
}

// Whether the cause removes the top of the stack.
fn removes(cause: Cause, stack: &Stack) -> bool
    ensures { result ≡ removes cause stack.now }
{
    match cause {
        Cause::Line(column, before_where) => ends(column, before_where, stack.current()),
        Cause::Answer(answer) => is_above(answer, stack.top()),
        Cause::Brace => is_above_block(stack.top()),
    }
}

fn ends(column: u32, before_where: bool, block: Block) -> bool
    ensures { result ≡ ends column before_where block }
{
    match block {
        Block::Implicit(own) => column < own || (own == column && before_where),
        Block::Explicit | Block::Nowhere => false,
    }
}

fn is_at(column: u32, block: Block) -> bool
    ensures { result ≡ is_at column block }
{
    match block {
        Block::Implicit(own) => own == column,
        Block::Explicit | Block::Nowhere => false,
    }
}

fn is_above(answer: Answer, top: Option<Entry>) -> bool
    ensures { (stack : List Entry) → top ≡ top_of stack → result ≡ is_above answer stack }
{
    match top {
        Some(Entry::Opener(opener)) => !answers(answer, opener),
        Some(_) => true,
        None => false,
    }
}

fn is_above_block(top: Option<Entry>) -> bool
    ensures { (stack : List Entry) → top ≡ top_of stack → result ≡ is_above_block stack }
{
    match top {
        Some(Entry::Explicit) | None => false,
        Some(_) => true,
    }
}
