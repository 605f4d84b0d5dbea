//! A sink that keeps its bytes.

ghost use Rattle.std.specs.Prelude.{◌≡◌, ◌≤◌, ◌<◌, [], Some, length, IfOk};
ghost use Rattle.std.specs.Io.{WritesAtMost};
ghost use Rattle.std.specs.Io.KnownBytes.{WriteAppends};
ghost use Rattle.host_io.specs.Faults.{CountsFaults};

use basic_types::{Bytes, NoMemory};
use host_io::{Failed, Sink};
use std::alloc::Global;

/// The bytes that were written, for which it takes memory as they come. A write for which there is none fails.
#[derive(Drop)]
pub(crate) struct ByteSink {
    pub(crate) bytes: Bytes,
    faults: u64,
}

impl ByteSink {
    /// No bytes.
    pub(crate) fn new(alloc: Global) -> ByteSink
        ensures bytes { result.bytes ≡ [] }
        ensures faults { result.faults ≡ 0 }
    {
        ByteSink {
            bytes: Bytes::new(alloc),
            faults: 0,
        }
    }

    pub(crate) fn into_bytes(self) -> Bytes
        ensures { result ≡ self.bytes }
    {
        let ByteSink { bytes, faults: _ } = self;
        bytes
    }
}

impl Sink for ByteSink {
    ghost contents = { λ s. Some s.bytes };

    ghost faults = { λ s. s.faults };

    fn write(&mut self, piece: &[u8]) -> Result<usize, Failed>
        ensures bound { WritesAtMost result piece.now }
        ensures moves { IfOk result (λ k. 0 < length piece.now → 0 < k) }
        ensures bytes { WriteAppends (Some self.old.bytes) (Some self.new.bytes) result piece.now }
        ensures counted { CountsFaults self.old.faults self.new.faults result }
        ensures grows { self.old.faults ≤ self.new.faults }
    {
        match self.bytes.append(piece) {
            Ok(()) => Ok(piece.len()),
            Err(NoMemory) => {
                self.faults = self.faults.saturating_add(1);
                Err(Failed)
            }
        }
    }
}
