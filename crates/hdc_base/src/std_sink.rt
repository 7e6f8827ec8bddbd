//! A sink on the standard output.

ghost use Rattle.std.specs.Prelude.{◌≡◌, ◌≤◌, None};
ghost use Rattle.hdc_base.specs.Counts.{Rose};
ghost use Rattle.hdc_base.specs.Taken.{Appends, AppendsPrefix};

use crate::count::next;
use crate::outside::{Put, Sink};
use std::io;
use std::io::{ErrorKind, Write};
use std::marker::Model;

/// A sink that writes to the standard output of a runtime. It tells no content, and contracts see it
/// as the number of its faults.
#[derive(Drop)]
pub struct StdSink<'a, R: Print> {
    rt: &'a R,
    count: u64,
}

impl<'a, R: Print> Model for StdSink<'a, R> {
    ghost use Rattle.std.specs.Prelude.{ℕ};

    ghost Value = { ℕ };

    ghost view = { λ s. s.count };
}

impl<'a, R: Print> StdSink<'a, R> {
    /// A sink with no faults yet.
    pub fn new(rt: &'a R) -> StdSink<'a, R>
        ensures { result ≡ 0 }
    {
        StdSink { rt, count: 0 }
    }

    /// How many faults there were.
    pub fn count(&self) -> u64
        ensures { result ≡ self.now }
    {
        self.count
    }
}

impl<'a, R: Print> Sink for StdSink<'a, R> {
    ghost taken = { λ _. None };

    ghost faults = { λ s. s };

    /// Writes the piece, and tries again where a write is interrupted.
    fn put(&mut self, piece: &[u8]) -> Put {
        write_whole(&mut io::writer(self.rt), piece, &mut self.count)
    }
}

/// Writes a piece to a writer, and counts each fault. An interrupted write is tried again.
#[tactic(auto, using(crate::proofs::Taken::write_steps))]
fn write_whole<W: Write>(writer: &mut W, piece: &[u8], count: &mut u64) -> Put
    ensures done { result ≡ Put.Done → Appends (W.contents writer.old) piece.now (W.contents writer.new) }
    ensures failed { result ≡ Put.Failed → AppendsPrefix (W.contents writer.old) piece.now (W.contents writer.new) }
    ensures rose { result ≡ Put.Failed → Rose count.old count.new }
    ensures counts { count.old ≤ count.new }
{
    let mut written = 0;
    for _ in 0..u64::MAX {
        if written == piece.len() {
            return Put::Done;
        }
        match writer.write(&piece[written..]) {
            Ok(0) => break,
            Ok(taken) => written += taken,
            Err(error) if error.kind() == ErrorKind::Interrupted => *count = next(*count),
            Err(_) => break,
        }
    }
    *count = next(*count);
    Put::Failed
}
