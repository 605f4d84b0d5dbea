ghost use Rattle.std.specs.Prelude.{◌≡◌, ℕ, ◌≤◌, List, Option};
ghost use Rattle.std.specs.Io.{ReadsAtMost};
ghost use Rattle.host_io.specs.Faults.{CountsFaults};
ghost use Rattle.host_io.specs.Reads.{ReadsFile};

use crate::failed::Failed;

/// Files that are read by name.
pub trait Files {
    /// The bytes under a name, or `None` where they are not told.
    ghost contents: { Self → List ℕ → Option (List ℕ) };

    /// How many calls failed. It stands still at 2^64 - 1.
    ghost faults: { Self → ℕ };

    /// Fills the front of `into` with the bytes of the file `name` from offset `at` on, and says
    /// how many it filled.
    ///
    /// It may fill fewer than there are. `Ok(0)` on a buffer that is not empty comes only where the
    /// file has no byte from `at` on. What is held does not change.
    ///
    /// # Errors
    /// `Failed` where the file cannot be read. The call is counted as a fault.
    fn read(&mut self, name: &str, at: u64, into: &mut [u8]) -> Result<usize, Failed>
        ensures bound { ReadsAtMost result into.new }
        ensures bytes { ReadsFile (contents self.old name.now) at into.new result }
        ensures held { contents self.new ≡ contents self.old }
        ensures counted { CountsFaults (faults self.old) (faults self.new) result }
        ensures grows { faults self.old ≤ faults self.new };
}
