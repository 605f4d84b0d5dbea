ghost use Rattle.std.specs.Prelude.{◌≡◌, ◌≤◌, Some, is_err};
ghost use Rattle.std.specs.Io.{ReadsAtMost};
ghost use Rattle.std.specs.Io.KnownBytes.{ReadConsumes};
ghost use Rattle.host_io.specs.Faults.{CountsFaults};
ghost use Rattle.host_io.specs.CallCount.{no_calls, fails_next, after_call};
ghost use Rattle.host_io.specs.InMemory.{Fills};

use crate::calls::Calls;
use crate::calm::CalmSource;
use crate::failed::Failed;
use crate::source::Source;
use basic_types::Bytes;
use std::marker::Model;

/// A source in memory. Chosen calls of `read` fail.
#[derive(Debug, Drop)]
pub struct MemorySource {
    source: CalmSource,
    calls: Calls,
}

impl Model for MemorySource {
    ghost use Rattle.host_io.specs.Streams.{SourceState};

    ghost Value = { SourceState };

    ghost view = { λ s. record { left = s.source; calls = s.calls } };
}

impl MemorySource {
    /// All of `bytes` are left. The calls of `read` whose numbers are in `failing` will fail, the
    /// first being 0.
    pub fn new(bytes: Bytes, failing: Vec<u64>) -> MemorySource
        ensures left { result.left ≡ bytes }
        ensures calls { result.calls ≡ no_calls failing.items }
    {
        MemorySource {
            source: CalmSource::new(bytes),
            calls: Calls::new(failing),
        }
    }
}

impl Source for MemorySource {
    ghost remaining = { λ s. Some s.left };

    ghost faults = { λ s. s.calls.faults };

    fn read(&mut self, into: &mut [u8]) -> Result<usize, Failed>
        ensures bound { ReadsAtMost result into.new }
        ensures bytes { ReadConsumes (Some self.old.left) (Some self.new.left) result into.new }
        ensures counted { CountsFaults self.old.calls.faults self.new.calls.faults result }
        ensures grows { self.old.calls.faults ≤ self.new.calls.faults }
        ensures fails { is_err result ≡ fails_next self.old.calls }
        ensures fills { Fills self.old.left 0 into.new result }
        ensures calls { self.new.calls ≡ after_call self.old.calls result }
    {
        if self.calls.fails_next() {
            return self.calls.fail();
        }
        self.calls.succeed(self.source.give(into))
    }
}
