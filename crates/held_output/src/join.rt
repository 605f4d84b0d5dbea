//! Bytes put behind the chunks that there are, and taken back where memory runs out.

ghost use Rattle.std.specs.Prelude.{◌≡◌, ◌≢◌, ℕ, ◌-◌, ◌^◌, ◌<◌, ◌≤◌, List, [], ◌++◌, length, take, All, IfOk, OnOk, OnErr};
ghost use Rattle.speculation.specs.Run.{marked, marks};
ghost use Rattle.speculation.specs.Core.{held_size};
ghost use Rattle.held_output.specs.Held.{IsStream};
ghost use Rattle.held_output.specs.Chunks.{AreChunks, chunk_marks};

use crate::chunks::Chunk;
use crate::piece::Piece;
use basic_types::{Bytes, NoMemory};
use std::alloc::Global;
use std::mem;

/// Appends the bytes of these pieces and answers their number, or appends nothing. Each byte is copied once.
///
/// # Errors
/// `NoMemory` where there is no room for all of them.
pub fn join_all(chunks: &mut Vec<Chunk>, alloc: Global, pieces: &[Piece]) -> Result<u64, NoMemory>
    requires sound { AreChunks chunks.old.items }
    requires streams { All (λ p. IsStream p.stream) pieces.now }
    requires fits { held_size pieces.now < 2 ^ 64 }
    ensures ok { OnOk result (chunk_marks chunks.new.items ≡ chunk_marks chunks.old.items ++ marks pieces.now) }
    ensures count { IfOk result (λ n. n ≡ held_size pieces.now) }
    ensures err { OnErr result (chunk_marks chunks.new.items ≡ chunk_marks chunks.old.items) }
    ensures sound { AreChunks chunks.new.items }
{
    let mut count = 0;
    for piece in pieces {
        if let Err(refusal) = join(chunks, alloc, piece.stream, piece.bytes.as_slice()) {
            shorten(chunks, alloc, count);
            return Err(refusal);
        }
        count += piece.bytes.len() as u64;
    }
    Ok(count)
}

/// Appends these bytes: to the last chunk where that is of the stream, and else as a chunk of their own.
fn join(chunks: &mut Vec<Chunk>, alloc: Global, stream: u8, bytes: &[u8]) -> Result<(), NoMemory>
    requires sound { AreChunks chunks.old.items }
    requires stream { IsStream stream }
    ensures ok { OnOk result (chunk_marks chunks.new.items ≡ chunk_marks chunks.old.items ++ marked stream bytes.now) }
    ensures err { OnErr result (chunk_marks chunks.new.items ≡ chunk_marks chunks.old.items) }
    ensures sound { AreChunks chunks.new.items }
{
    if bytes.is_empty() {
        return Ok(());
    }
    if let Some(last) = chunks.last_mut() {
        if last.stream == stream {
            return last.bytes.append(bytes);
        }
    }
    let bytes = Bytes::from_vec(Vec::from_slice(alloc, bytes)?);
    chunks.push(Chunk { stream, bytes })?;
    Ok(())
}

/// Takes the last `count` bytes away.
fn shorten(chunks: &mut Vec<Chunk>, alloc: Global, count: u64)
    requires sound { AreChunks chunks.old.items }
    requires count { count ≤ length (chunk_marks chunks.old.items) }
    ensures bytes { chunk_marks chunks.new.items ≡ take (length (chunk_marks chunks.old.items) - count) (chunk_marks chunks.old.items) }
    ensures sound { AreChunks chunks.new.items }
{
    let mut left = count;
    while left > 0 {
        let last = chunks.len() - 1;
        let size = chunks[last].bytes.len() as u64;
        if left < size {
            truncate(&mut chunks[last].bytes, alloc, (size - left) as usize);
            return;
        }
        chunks.truncate(last);
        left -= size;
    }
}

/// Keeps the first `len` bytes.
fn truncate(bytes: &mut Bytes, alloc: Global, len: usize)
    ensures { bytes.new ≡ take len bytes.old }
{
    let mut kept = mem::replace(bytes, Bytes::new(alloc)).into_vec();
    kept.truncate(len);
    *bytes = Bytes::from_vec(kept);
}
