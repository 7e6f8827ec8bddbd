//! The outside as two traits: where texts come from, and where reports go.

ghost use Rattle.std.specs.Prelude.{◌≡◌, ◌≢◌, ◌≤◌, ◌<◌, ◌++◌, ℕ, List, [], Option, Some, IfSome, length};
ghost use Rattle.hdc_base.specs.Counts.{Rose};
ghost use Rattle.hdc_base.specs.Taken.{Appends, AppendsPrefix};

/// How a load ended.
#[derive(Clone, Copy, Debug, PartialEq, Eq)]
pub enum Load {
    /// All the bytes were read.
    Whole,
    /// There are more bytes than the limit.
    Long,
    /// The store failed, and counted a fault.
    Failed,
    /// There was no memory for the bytes.
    Want,
}

/// Where texts come from.
pub trait Store {
    /// The bytes under a name, where the store tells them.
    ghost holds: { Self → List ℕ → Option (List ℕ) };

    /// The number of faults that concern a name. It never falls.
    ghost faults: { Self → List ℕ → ℕ };

    /// Reads the bytes under a name into `into`, in place of what is there, where they are at most
    /// `limit`. Unless it answers `Whole`, `into` is left empty.
    fn load(&mut self, name: &str, limit: u64, into: &mut Vec<u8>) -> Load
        ensures whole { result ≡ Load.Whole → IfSome (holds self.old name.now) (λ bytes. into.new.items ≡ bytes) }
        ensures within { result ≡ Load.Whole → length into.new.items ≤ limit }
        ensures long { result ≡ Load.Long → IfSome (holds self.old name.now) (λ bytes. limit < length bytes) }
        ensures failed { result ≡ Load.Failed → Rose (faults self.old name.now) (faults self.new name.now) }
        ensures empty { result ≢ Load.Whole → into.new.items ≡ [] }
        ensures keeps { (other : List ℕ) → holds self.new other ≡ holds self.old other }
        ensures counts { (other : List ℕ) → faults self.old other ≤ faults self.new other };
}

/// How a put ended.
#[derive(Clone, Copy, Debug, PartialEq, Eq)]
pub enum Put {
    /// The whole piece was taken.
    Done,
    /// The sink failed, and counted a fault. A part of the piece from its front may have been taken.
    Failed,
}

/// Where reports go.
pub trait Sink {
    /// The bytes taken so far, where the sink tells them.
    ghost taken: { Self → Option (List ℕ) };

    /// The number of faults. It never falls.
    ghost faults: { Self → ℕ };

    /// Puts a piece behind what was taken.
    fn put(&mut self, piece: &[u8]) -> Put
        ensures done { result ≡ Put.Done → Appends (taken self.old) piece.now (taken self.new) }
        ensures failed { result ≡ Put.Failed → AppendsPrefix (taken self.old) piece.now (taken self.new) }
        ensures rose { result ≡ Put.Failed → Rose (faults self.old) (faults self.new) }
        ensures counts { faults self.old ≤ faults self.new };
}
