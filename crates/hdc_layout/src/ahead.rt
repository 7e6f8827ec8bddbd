//! Tokens that are still ahead.

ghost use Rattle.std.specs.Prelude.{◌≡◌, [], ◌∷◌, IfOk, MatchOption};

use hdc_base::{Token, Tokens};
use std::alloc::{AllocError, Global};
use std::marker::Model;

/// The tokens ahead, which contracts see as their list. In memory the next one is the last.
#[derive(Debug, Drop)]
pub struct Ahead {
    tokens: Vec<Token>,
}

impl Model for Ahead {
    ghost use Rattle.std.specs.Prelude.{List, reverse};
    ghost use Rattle.hdc_base.specs.declared.token.Token.{Token};

    ghost Value = { List Token };

    ghost view = { λ a. reverse a.tokens.items };
}

impl Ahead {
    /// All of a list of tokens.
    pub fn of(alloc: Global, tokens: Tokens) -> Result<Ahead, AllocError>
        ensures { IfOk result (λ a. a ≡ tokens) }
    {
        let mut tokens = tokens;
        let mut ahead = Vec::with_capacity(alloc, tokens.len())?;
        while let Some(token) = tokens.pop() {
            ahead.push(token)?;
        }
        Ok(Ahead { tokens: ahead })
    }

    /// Takes the next token.
    pub fn next(&mut self) -> Option<Token>
        ensures { MatchOption result ((self.old ≡ []) × (self.new ≡ [])) (λ t. self.old ≡ t ∷ self.new) }
    {
        self.tokens.pop()
    }
}
