//! A source and a sink, seen by what they tell and by their counts of faults.
ghost use Rattle.std.specs.Prelude.{◌≡◌, ◌<◌, ◌||◌, ℕ, Bool, Option, List, length, IfOk};
ghost use Rattle.std.specs.Io.{ReadsAtMost, WritesAtMost};
ghost use Rattle.std.specs.Io.KnownBytes.{ReadConsumes, WriteAppends};
ghost use Rattle.eden_io.specs.Causes.{HasCause};
ghost use Rattle.eden_io.specs.Taken.{meets_end};

use thiserror::Error;

/// A read or a write failed, and the count of faults of its source or sink rose.
#[derive(Clone, Copy, Debug, PartialEq, Eq, Error)]
#[error("a read or a write failed")]
pub struct Failed;

/// Where bytes come from.
pub trait Source {
    /// The bytes that are left. A source over a file or a terminal does not tell them.
    ghost left: { Self → Option (List ℕ) };

    /// Whether a read has met the end.
    ghost ended: { Self → Bool };

    /// How often a read has failed.
    ghost faults: { Self → ℕ };

    /// How often a read has failed. The count never falls, and stands still at 2^64 - 1.
    fn faults(&self) -> u64
        ensures { result ≡ faults self.now };

    /// Reads some bytes into the front of `out`, and answers how many.
    ///
    /// Where `out` is not empty, it answers 0 only at the end. It fails only where the count of
    /// faults rises.
    fn read(&mut self, out: &mut [u8]) -> Result<usize, Failed>
        ensures bound { ReadsAtMost result out.new }
        ensures bytes { ReadConsumes (left self.old) (left self.new) result out.new }
        ensures end { ended self.new ≡ (ended self.old || meets_end result out.new) }
        ensures cause { HasCause (faults self.old) (faults self.new) result };
}

/// Where bytes go.
pub trait Sink {
    /// The bytes that were written. A sink over a file or a terminal does not tell them.
    ghost written: { Self → Option (List ℕ) };

    /// How often a write has failed.
    ghost faults: { Self → ℕ };

    /// How often a write has failed. The count never falls, and stands still at 2^64 - 1.
    fn faults(&self) -> u64
        ensures { result ≡ faults self.now };

    /// Takes some bytes from the front of `bytes`, and answers how many.
    ///
    /// Of a piece that is not empty it takes at least one byte, or fails. It fails only where the
    /// count of faults rises.
    fn write(&mut self, bytes: &[u8]) -> Result<usize, Failed>
        ensures bound { WritesAtMost result bytes.now }
        ensures takes { IfOk result (λ n. 0 < length bytes.now → 0 < n) }
        ensures bytes { WriteAppends (written self.old) (written self.new) result bytes.now }
        ensures cause { HasCause (faults self.old) (faults self.new) result };
}
