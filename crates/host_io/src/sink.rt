ghost use Rattle.std.specs.Prelude.{ℕ, ◌≤◌, ◌<◌, List, length, Option, IfOk};
ghost use Rattle.std.specs.Io.{WritesAtMost};
ghost use Rattle.std.specs.Io.KnownBytes.{WriteAppends};
ghost use Rattle.host_io.specs.Faults.{CountsFaults};

use crate::failed::Failed;

/// What takes bytes, each behind those before it.
pub trait Sink {
    /// The bytes that were written, or `None` where they are not told.
    ghost contents: { Self → Option (List ℕ) };

    /// How many calls failed. It stands still at 2^64 - 1.
    ghost faults: { Self → ℕ };

    /// Appends the front of `piece`, at least one byte of it where it is not empty, and says how
    /// many bytes it took.
    ///
    /// # Errors
    /// `Failed` where nothing could be written. Nothing was appended then, and the call is counted
    /// as a fault.
    fn write(&mut self, piece: &[u8]) -> Result<usize, Failed>
        ensures bound { WritesAtMost result piece.now }
        ensures moves { IfOk result (λ k. 0 < length piece.now → 0 < k) }
        ensures bytes { WriteAppends (contents self.old) (contents self.new) result piece.now }
        ensures counted { CountsFaults (faults self.old) (faults self.new) result }
        ensures grows { faults self.old ≤ faults self.new };
}
