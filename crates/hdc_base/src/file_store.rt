//! A store of files.

ghost use Rattle.std.specs.Prelude.{◌≡◌, ◌≤◌, ◌<◌, ◌+◌, length, IfSome, None};
ghost use Rattle.hdc_base.specs.Counts.{Rose};
ghost use Rattle.hdc_base.specs.Read.{GivesAtMost};

use crate::count::next;
use crate::outside::{Load, Store};
use std::fs;
use std::io::{ErrorKind, Read};
use std::marker::Model;
use std::rt::Files;

/// A store of the files of a runtime, each under its path. It tells no content, and contracts see it
/// as the number of its faults.
#[derive(Drop)]
pub struct FileStore<'a, R: Files> {
    rt: &'a R,
    count: u64,
}

impl<'a, R: Files> Model for FileStore<'a, R> {
    ghost use Rattle.std.specs.Prelude.{ℕ};

    ghost Value = { ℕ };

    ghost view = { λ s. s.count };
}

impl<'a, R: Files> FileStore<'a, R> {
    /// A store with no faults yet.
    pub fn new(rt: &'a R) -> FileStore<'a, R>
        ensures { result ≡ 0 }
    {
        FileStore { rt, count: 0 }
    }

    /// How many faults there were.
    pub fn count(&self) -> u64
        ensures { result ≡ self.now }
    {
        self.count
    }
}

impl<'a, R: Files> Store for FileStore<'a, R> {
    ghost holds = { λ _ _. None };

    ghost faults = { λ s _. s };

    /// Reads a file, and at most one byte more than `limit` of it.
    fn load(&mut self, name: &str, limit: u64, into: &mut Vec<u8>) -> Load {
        let answer = match fs::open(self.rt, name) {
            Ok(mut file) => read_whole(&mut file, limit, into, &mut self.count),
            Err(_) => {
                self.count = next(self.count);
                Load::Failed
            }
        };
        if answer != Load::Whole {
            into.clear();
        }
        answer
    }
}

/// Reads all that a reader gives, in place of what `into` holds, where it is at most `limit` bytes.
/// Reads at most one byte more than `limit`. Counts each fault, and tries an interrupted read again.
#[tactic(auto, using(crate::proofs::Read::read_steps))]
fn read_whole<F: Read>(file: &mut F, limit: u64, into: &mut Vec<u8>, count: &mut u64) -> Load
    ensures whole { result ≡ Load.Whole → IfSome (F.remaining file.old) (λ bytes. into.new.items ≡ bytes) }
    ensures within { length into.new.items ≤ limit }
    ensures long { result ≡ Load.Long → IfSome (F.remaining file.old) (λ bytes. limit < length bytes) }
    ensures gives { GivesAtMost (F.remaining file.old) (F.remaining file.new) (limit + 1) }
    ensures failed { result ≡ Load.Failed → Rose count.old count.new }
    ensures counts { count.old ≤ count.new }
{
    into.clear();
    let mut buffer = [0u8; 8192];
    for _ in 0..u64::MAX {
        let left = limit - into.len() as u64;
        let most = left.saturating_add(1).min(8192) as usize;
        match file.read(&mut buffer[..most]) {
            Ok(0) => return Load::Whole,
            Ok(given) if given as u64 > left => return Load::Long,
            Ok(given) => {
                if into.extend_from_slice(&buffer[..given]).is_err() {
                    return Load::Want;
                }
            }
            Err(error) if error.kind() == ErrorKind::Interrupted => *count = next(*count),
            Err(_) => break,
        }
    }
    *count = next(*count);
    Load::Failed
}
