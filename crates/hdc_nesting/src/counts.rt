//! The counts of the open brackets.

ghost use Rattle.std.specs.Prelude.{◌≡◌, ◌<◌, ◌^◌, OnOk};
ghost use Rattle.hdc_nesting.specs.Roles.{role_of};
ghost use Rattle.hdc_nesting.specs.Counts.{counts_behind, no_counts, nesting_of};

use crate::role::{Role, role_of};
use hdc_base::Token;
use std::alloc::{AllocError, Global};
use std::marker::Model;

/// How many tokens count in each open bracket and in the whole text, with their sum. Contracts see the
/// counts from the innermost.
#[derive(Debug, Drop)]
pub struct Counts {
    innermost: u64,
    around: Vec<u64>,
    nesting: u64,
}

impl Model for Counts {
    ghost use Rattle.std.specs.Prelude.{◌≡◌, ℕ, reverse};
    ghost use Rattle.hdc_nesting.specs.Nesting.{Levels};
    ghost use Rattle.hdc_nesting.specs.Counts.{nesting_of};

    ghost Value = { Levels ℕ };

    ghost view = { λ s. record { innermost = s.innermost; around = reverse s.around.items } };

    ghost invariant = { λ s. s.nesting ≡ nesting_of (record { innermost = s.innermost; around = reverse s.around.items }) };
}

impl Counts {
    /// The counts before the first token of a text.
    pub fn new(alloc: Global) -> Counts
        ensures { result ≡ no_counts }
    {
        Counts {
            innermost: 0,
            around: Vec::new(alloc),
            nesting: 0,
        }
    }

    /// The nesting of the token that comes next.
    pub fn nesting(&self) -> u64
        ensures { result ≡ nesting_of self.now }
    {
        self.nesting
    }

    /// Goes behind a token.
    pub fn pass(&mut self, token: &Token) -> Result<(), AllocError>
        requires { nesting_of self.old < 2 ^ 63 }
        ensures { OnOk result (self.new ≡ counts_behind (role_of token.now.word) self.old) }
    {
        match role_of(&token.word) {
            Role::Opens => {
                self.around.push(self.innermost)?;
                self.innermost = 0;
                self.nesting += 1;
            }
            Role::Closes => {
                if let Some(outer) = self.around.pop() {
                    self.nesting -= self.innermost + 1;
                    self.innermost = outer;
                }
            }
            Role::Counts => {
                self.innermost += 1;
                self.nesting += 1;
            }
            Role::Separates => {
                self.nesting -= self.innermost;
                self.innermost = 0;
            }
            Role::Other => {}
        }
        Ok(())
    }
}
