ghost use Rattle.std.specs.Prelude.{◌≡◌, ◌≤◌, ◌<◌, ◌-◌, ◌==◌, ◌&&◌, ◌||◌, nat_lt, min, [], Some, length, IfOk, is_err};
ghost use Rattle.std.specs.Io.{WritesAtMost};
ghost use Rattle.std.specs.Io.KnownBytes.{WriteAppends};
ghost use Rattle.host_io.specs.Faults.{CountsFaults};
ghost use Rattle.host_io.specs.CallCount.{no_calls, fails_next, after_call};

use crate::calls::Calls;
use crate::failed::Failed;
use crate::sink::Sink;
use basic_types::NoMemory;
use std::alloc::Global;
use std::marker::Model;

/// A sink in memory, with room for so many bytes. Chosen calls of `write` fail, and so do those
/// that would write and find no room.
#[derive(Debug, Drop)]
pub struct MemorySink {
    written: Vec<u8>,
    room: usize,
    calls: Calls,
}

impl Model for MemorySink {
    ghost use Rattle.std.specs.Prelude.{◌≤◌, vec_len, vec_capacity};
    ghost use Rattle.host_io.specs.Streams.{SinkState};

    ghost Value = { SinkState };

    ghost view = { λ s. record { written = s.written.items; room = s.room; calls = s.calls } };

    ghost invariant = { λ s. (vec_len s.written ≤ s.room) × (s.room ≤ vec_capacity s.written) };
}

impl MemorySink {
    /// Room for `room` bytes, taken at once. The calls of `write` whose numbers are in `failing`
    /// will fail, the first being 0.
    ///
    /// # Errors
    /// `NoMemory` where there is no memory for the room.
    pub fn new(alloc: Global, room: usize, failing: Vec<u64>) -> Result<MemorySink, NoMemory>
        ensures written { IfOk result (λ sink. sink.written ≡ []) }
        ensures room { IfOk result (λ sink. sink.room ≡ room) }
        ensures calls { IfOk result (λ sink. sink.calls ≡ no_calls failing.items) }
    {
        Ok(MemorySink {
            written: Vec::with_capacity(alloc, room)?,
            room,
            calls: Calls::new(failing),
        })
    }

    /// The bytes that were written.
    pub fn written(&self) -> &[u8]
        ensures { result.now ≡ self.now.written }
    {
        self.written.as_slice()
    }
}

impl Sink for MemorySink {
    ghost contents = { λ s. Some s.written };

    ghost faults = { λ s. s.calls.faults };

    fn write(&mut self, piece: &[u8]) -> Result<usize, Failed>
        ensures bound { WritesAtMost result piece.now }
        ensures moves { IfOk result (λ k. 0 < length piece.now → 0 < k) }
        ensures bytes { WriteAppends (Some self.old.written) (Some self.new.written) result piece.now }
        ensures counted { CountsFaults self.old.calls.faults self.new.calls.faults result }
        ensures grows { self.old.calls.faults ≤ self.new.calls.faults }
        ensures fails { is_err result ≡ (fails_next self.old.calls
            || (nat_lt 0 (length piece.now) && (length self.old.written == self.old.room))) }
        ensures takes { IfOk result (λ k. k ≡ min (length piece.now) (self.old.room - length self.old.written)) }
        ensures room { self.new.room ≡ self.old.room }
        ensures calls { self.new.calls ≡ after_call self.old.calls result }
    {
        let count = piece.len().min(self.room - self.written.len());
        if self.calls.fails_next() || (count == 0 && !piece.is_empty()) {
            return self.calls.fail();
        }
        self.written.extend_from_slice(&piece[..count]).unwrap();
        self.calls.succeed(count)
    }
}
