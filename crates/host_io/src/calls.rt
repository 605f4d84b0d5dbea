ghost use Rattle.std.specs.Prelude.{◌≡◌, ◌≤◌, Ok, IsErr};
ghost use Rattle.host_io.specs.CallCount.{no_calls, fails_next, after_call};

use crate::failed::Failed;
use std::marker::Model;

/// Which calls of an object in memory fail, how many were made, and how many of them failed.
#[derive(Debug, Drop)]
pub(crate) struct Calls {
    failing: Vec<u64>,
    made: u64,
    faults: u64,
}

impl Model for Calls {
    ghost use Rattle.host_io.specs.CallCount.{CallCount};

    ghost Value = { CallCount };

    ghost view = { λ c. record { failing = c.failing.items; made = c.made; faults = c.faults } };
}

impl Calls {
    /// No call was made yet, and those numbered in `failing` will fail.
    pub(crate) fn new(failing: Vec<u64>) -> Calls
        ensures { result ≡ no_calls failing.items }
    {
        Calls {
            failing,
            made: 0,
            faults: 0,
        }
    }

    /// Whether the next call is one of those that fail.
    pub(crate) fn fails_next(&self) -> bool
        ensures { result ≡ fails_next self.now }
    {
        self.failing.contains(&self.made)
    }

    /// Counts a call that succeeds with `value`.
    pub(crate) fn succeed(&mut self, value: usize) -> Result<usize, Failed>
        ensures value { result ≡ Ok value }
        ensures calls { self.new ≡ after_call self.old result }
    {
        self.made = self.made.saturating_add(1);
        Ok(value)
    }

    /// Counts a call that fails.
    pub(crate) fn fail(&mut self) -> Result<usize, Failed>
        ensures failed { IsErr result }
        ensures calls { self.new ≡ after_call self.old result }
        ensures grows { self.old.faults ≤ self.new.faults }
    {
        self.made = self.made.saturating_add(1);
        self.faults = self.faults.saturating_add(1);
        Err(Failed)
    }
}
