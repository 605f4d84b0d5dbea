ghost use Rattle.std.specs.Prelude.{ℕ, ◌≤◌, List, Option};
ghost use Rattle.std.specs.Io.{ReadsAtMost};
ghost use Rattle.std.specs.Io.KnownBytes.{ReadConsumes};
ghost use Rattle.host_io.specs.Faults.{CountsFaults};

use crate::failed::Failed;

/// Bytes that are read once, in order.
pub trait Source {
    /// The bytes that are left, or `None` where they are not told.
    ghost remaining: { Self → Option (List ℕ) };

    /// How many calls failed. It stands still at 2^64 - 1.
    ghost faults: { Self → ℕ };

    /// Fills the front of `into` with the first bytes that are left, and says how many it filled.
    ///
    /// It may fill fewer than there are. What was given is left no more. `Ok(0)` on a buffer that
    /// is not empty comes only where no byte is left.
    ///
    /// # Errors
    /// `Failed` where the source cannot be read. Nothing was given then, and the call is counted as
    /// a fault.
    fn read(&mut self, into: &mut [u8]) -> Result<usize, Failed>
        ensures bound { ReadsAtMost result into.new }
        ensures bytes { ReadConsumes (remaining self.old) (remaining self.new) result into.new }
        ensures counted { CountsFaults (faults self.old) (faults self.new) result }
        ensures grows { faults self.old ≤ faults self.new };
}
