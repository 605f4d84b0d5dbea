//! Verified bytes in the order in which they are handed out, each run of one stream as one chunk.

ghost use Rattle.std.specs.Prelude.{◌≡◌, ◌-◌, ◌^◌, ◌<◌, [], ◌++◌, ◌==◌, length, min, All, OnOk, OnErr};
ghost use Rattle.speculation.specs.Run.{marks};
ghost use Rattle.speculation.specs.Core.{held_size};
ghost use Rattle.held_output.specs.Held.{IsStream};
ghost use Rattle.held_output.specs.Chunks.{AreChunks, chunk_marks};

use crate::join::join_all;
use crate::piece::Piece;
use basic_types::{Bytes, NoMemory};
use std::alloc::Global;
use std::marker::Model;

/// Bytes that one after the other go to one stream.
#[derive(Debug, Drop)]
pub struct Chunk {
    /// The stream: 1 or 2.
    pub stream: u8,
    pub bytes: Bytes,
}

/// Bytes of both streams in one order. A chunk has at least one byte, and the next chunk is of the other stream.
///
/// Contracts see the list of marked bytes.
#[derive(Debug, Drop)]
pub struct Chunks {
    alloc: Global,
    chunks: Vec<Chunk>,
    // The number of all bytes, or u64::MAX where it is greater.
    size: u64,
}

impl Model for Chunks {
    ghost use Rattle.std.specs.Prelude.{◌≡◌, ◌-◌, ◌^◌, List, length, min};
    ghost use Rattle.speculation.specs.Run.{Mark};
    ghost use Rattle.held_output.specs.Chunks.{AreChunks, chunk_marks};

    ghost Value = { List Mark };

    ghost view = { λ c. chunk_marks c.chunks.items };

    ghost invariant = { λ c. AreChunks c.chunks.items × (c.size ≡ min (length (chunk_marks c.chunks.items)) (2 ^ 64 - 1)) };
}

impl Chunks {
    /// No bytes. Nothing is allocated.
    pub fn new(alloc: Global) -> Chunks
        ensures { result ≡ [] }
    {
        Chunks {
            alloc,
            chunks: Vec::new(alloc),
            size: 0,
        }
    }

    /// The chunks in order.
    pub fn as_slice(&self) -> &[Chunk]
        ensures bytes { chunk_marks result.now ≡ self.now }
        ensures sound { AreChunks result.now }
    {
        self.chunks.as_slice()
    }

    /// There is no byte.
    pub fn is_empty(&self) -> bool
        ensures { result ≡ (length self.now == 0) }
    {
        self.size == 0
    }

    /// The number of bytes, or `u64::MAX` where it is greater. It takes constant time.
    pub fn size(&self) -> u64
        ensures { result ≡ min (length self.now) (2 ^ 64 - 1) }
    {
        self.size
    }

    /// Appends the bytes of these pieces, or nothing.
    ///
    /// # Errors
    /// `NoMemory` where there is no room for all of them; the chunks are then as before.
    pub(crate) fn append(&mut self, pieces: &[Piece]) -> Result<(), NoMemory>
        requires streams { All (λ p. IsStream p.stream) pieces.now }
        requires fits { held_size pieces.now < 2 ^ 64 }
        ensures ok { OnOk result (self.new ≡ self.old ++ marks pieces.now) }
        ensures err { OnErr result (self.new ≡ self.old) }
    {
        let count = join_all(&mut self.chunks, self.alloc, pieces)?;
        self.size = self.size.saturating_add(count);
        Ok(())
    }
}
