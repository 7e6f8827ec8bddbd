//! A sink in memory, with a room that is set when it is made.

ghost use Rattle.std.specs.Prelude.{◌≡◌, ◌≤◌, ◌++◌, ◌↔◌, IsTrue, IfOk, IsOk, Some, take, if◌then◌else◌};
ghost use Rattle.hdc_base.specs.Counts.{next_count};

use crate::count::{contains, next};
use crate::outside::{Put, Sink};
use crate::refusal::Want;
use crate::text::Calls;
use std::alloc::Global;
use std::marker::Model;

/// A sink that keeps what it takes, up to a room. All its memory is taken when it is made.
#[derive(Debug, Drop)]
pub struct MemSink {
    bytes: Vec<u8>,
    room: u64,
    fails: Calls,
    calls: u64,
    count: u64,
}

impl Model for MemSink {
    ghost use Rattle.std.specs.Prelude.{◌≤◌, length, vec_capacity};
    ghost use Rattle.hdc_base.specs.Taking.{Taking};

    ghost Value = { Taking };

    ghost view = { λ s. record { bytes = s.bytes.items; room = s.room; fails = s.fails; calls = s.calls; count = s.count } };

    ghost invariant = { λ s. (length s.bytes.items ≤ s.room) × (s.room ≤ vec_capacity s.bytes) };
}

impl MemSink {
    ghost use Rattle.hdc_base.specs.Taking.{fresh};

    /// A sink with room for `room` bytes. The puts whose numbers are in `fails` fail, the first
    /// put being 1.
    pub fn new(alloc: Global, room: u64, fails: Calls) -> Result<MemSink, Want>
        ensures made { IfOk result (λ sink. sink ≡ fresh room fails) }
        ensures roomless { room ≡ 0 → IsOk result }
    {
        let bytes = Vec::with_capacity(alloc, room as usize)?;
        Ok(MemSink {
            bytes,
            room,
            fails,
            calls: 0,
            count: 0,
        })
    }

    /// The bytes taken so far.
    pub fn bytes(&self) -> &[u8]
        ensures { result.now ≡ self.now.bytes }
    {
        self.bytes.as_slice()
    }

    /// How many puts failed.
    pub fn count(&self) -> u64
        ensures { result ≡ self.now.count }
    {
        self.count
    }
}

impl Sink for MemSink {
    ghost use Rattle.hdc_base.specs.Taking.{part_taken, put_fails};

    ghost taken = { λ s. Some s.bytes };

    ghost faults = { λ s. s.count };

    /// Takes the part of the piece from its front that fits in the room, and fails where that is
    /// not the whole piece. A put whose number is in `fails` takes nothing and fails.
    fn put(&mut self, piece: &[u8]) -> Put
        ensures done { result ≡ Put.Done → self.new.bytes ≡ self.old.bytes ++ piece.now }
        ensures failed { (result ≡ Put.Failed) ↔ IsTrue (put_fails self.old piece.now) }
        ensures bytes { self.new.bytes ≡ self.old.bytes ++ part_taken self.old piece.now }
        ensures counts { self.old.count ≤ self.new.count }
        ensures count { self.new.count ≡ (if put_fails self.old piece.now then next_count self.old.count else self.old.count) }
        ensures calls { self.new.calls ≡ next_count self.old.calls }
        ensures room { self.new.room ≡ self.old.room }
        ensures fails { self.new.fails ≡ self.old.fails }
    {
        self.calls = next(self.calls);
        if contains(self.fails.as_slice(), self.calls) {
            self.count = next(self.count);
            return Put::Failed;
        }
        let fitting = front(piece, self.room - self.bytes.len() as u64);
        match self.bytes.extend_from_slice(fitting) {
            Ok(()) => {}
            Err(_) => unreachable!(),
        }
        if fitting.len() < piece.len() {
            self.count = next(self.count);
            return Put::Failed;
        }
        Put::Done
    }
}

/// The front of a piece, of at most so many bytes.
fn front(piece: &[u8], most: u64) -> &[u8]
    ensures { result.now ≡ take most piece.now }
{
    if most < piece.len() as u64 {
        &piece[..most as usize]
    } else {
        piece
    }
}
