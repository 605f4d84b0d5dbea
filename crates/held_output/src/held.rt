//! The pieces that a track holds back.

ghost use Rattle.std.specs.Prelude.{◌≡◌, ◌+◌, ◌^◌, ◌<◌, ◌≤◌, [], ◌∷◌, ◌++◌, ◌==◌, length, take, drop, All, IsTrue, IfOk, OnOk, OnErr, MatchResult};
ghost use Rattle.guest_model.specs.ByteMap.{mapped, bytes_from};
ghost use Rattle.speculation.specs.Run.{marks_upto};
ghost use Rattle.speculation.specs.Core.{held_size};
ghost use Rattle.speculation.specs.Events.{left_over};
ghost use Rattle.held_output.specs.Held.{IsStream, IsHeld, Rises, taken_upto};

use crate::chunks::Chunks;
use crate::piece::Piece;
use basic_types::{Bytes, NoMemory};
use guest_model::Memory;
use std::alloc::Global;
use std::marker::Model;
use std::mem;

/// The pieces of output that a track holds back, in the order of their numbers, which rise.
///
/// Contracts see the list of pieces.
#[derive(Debug, Drop)]
pub struct Held {
    alloc: Global,
    pieces: Vec<Piece>,
    // The bytes of all pieces together.
    size: u64,
}

impl Model for Held {
    ghost use Rattle.std.specs.Prelude.{◌≡◌, List};
    ghost use Rattle.speculation.specs.Run.{Piece};
    ghost use Rattle.speculation.specs.Core.{held_size};
    ghost use Rattle.held_output.specs.Held.{IsHeld};

    ghost Value = { List Piece };

    ghost view = { λ h. h.pieces.items };

    ghost invariant = { λ h. IsHeld h.pieces.items × (h.size ≡ held_size h.pieces.items) };
}

impl Held {
    /// No pieces. Nothing is allocated.
    pub fn new(alloc: Global) -> Held
        ensures { result ≡ [] }
    {
        Held {
            alloc,
            pieces: Vec::new(alloc),
            size: 0,
        }
    }

    /// The number of bytes that are held. It takes constant time.
    pub fn size(&self) -> u64
        ensures size { result ≡ held_size self.now }
        ensures sound { IsHeld self.now }
    {
        self.size
    }

    /// There is no piece, not even one without bytes.
    pub fn is_empty(&self) -> bool
        ensures none { result ≡ (length self.now == 0) }
        ensures sound { IsHeld self.now }
    {
        self.pieces.is_empty()
    }

    /// Adds a piece at the end: the `count` bytes that stand in `memory` from address `at` on, which the instruction of
    /// this number wrote to `stream`. It takes time for those bytes alone.
    ///
    /// # Errors
    /// `NoMemory` where there is no room for them; the pieces are then as before.
    pub fn push<M: Memory>(
        &mut self,
        number: u64,
        stream: u8,
        memory: &M,
        at: u32,
        count: u32,
    ) -> Result<(), NoMemory>
        requires above { All (λ p. p.number < number) self.old }
        requires stream { IsStream stream }
        requires mapped { IsTrue (mapped (M.bytes memory.now) at count) }
        requires room { held_size self.old + count < 2 ^ 64 }
        ensures ok { OnOk result (self.new ≡ self.old ++ record { number = number; stream = stream; bytes = bytes_from (M.bytes memory.now) at count } ∷ []) }
        ensures err { OnErr result (self.new ≡ self.old) }
        ensures sound { IsHeld self.new }
    {
        let bytes = copy_of(self.alloc, memory, at, count)?;
        self.pieces.push(Piece {
            number,
            stream,
            bytes,
        })?;
        self.size += count as u64;
        Ok(())
    }

    /// Takes out the pieces that are numbered at most `limit`. No byte is copied.
    ///
    /// # Errors
    /// `NoMemory` where there is no room for the list of the others; the pieces are then as before.
    pub fn cut(&mut self, limit: u64) -> Result<Held, NoMemory>
        ensures cut { MatchResult result (λ taken. (taken ≡ taken_upto limit self.old) × (self.new ≡ left_over limit self.old)) (λ _. self.new ≡ self.old) }
        ensures sound { IsHeld self.new }
    {
        let count = count_upto(&self.pieces, limit);
        let rest = self.pieces.split_off(count)?;
        let pieces = mem::replace(&mut self.pieces, rest);
        let size = total(&pieces);
        self.size -= size;
        Ok(Held {
            alloc: self.alloc,
            pieces,
            size,
        })
    }

    /// Drops the pieces that are numbered at most `limit`. It takes no memory.
    pub fn discard(&mut self, limit: u64)
        ensures rest { self.new ≡ left_over limit self.old }
        ensures sound { IsHeld self.new }
    {
        let count = count_upto(&self.pieces, limit);
        self.size -= total(&self.pieces[..count]);
        self.pieces.drain(..count);
    }

    /// The number of bytes in the pieces that are numbered at most `limit`.
    pub fn size_upto(&self, limit: u64) -> u64
        ensures size { result ≡ length (marks_upto limit self.now) }
        ensures sound { IsHeld self.now }
    {
        total(&self.pieces[..count_upto(&self.pieces, limit)])
    }

    /// Appends the bytes of the pieces that are numbered at most `limit`, in order, or nothing. Each byte is copied once.
    /// So a caller can take the bytes first and drop the pieces afterwards.
    ///
    /// # Errors
    /// `NoMemory` where there is no room for all of them; `into` is then as before.
    pub fn append_bytes(&self, limit: u64, into: &mut Chunks) -> Result<(), NoMemory>
        ensures ok { OnOk result (into.new ≡ into.old ++ marks_upto limit self.now) }
        ensures err { OnErr result (into.new ≡ into.old) }
    {
        into.append(&self.pieces[..count_upto(&self.pieces, limit)])
    }
}

/// How many of these pieces, from the first on, are numbered at most `limit`.
fn count_upto(pieces: &[Piece], limit: u64) -> usize
    requires { Rises pieces.now }
    ensures bound { result ≤ length pieces.now }
    ensures parted { (take result pieces.now ≡ taken_upto limit pieces.now) × (drop result pieces.now ≡ left_over limit pieces.now) }
{
    pieces.partition_point(|piece| piece.number <= limit)
}

/// The number of bytes in these pieces.
fn total(pieces: &[Piece]) -> u64
    requires { held_size pieces.now < 2 ^ 64 }
    ensures { result ≡ held_size pieces.now }
{
    let mut size = 0;
    for piece in pieces {
        size += piece.bytes.len() as u64;
    }
    size
}

/// The `count` bytes of `memory` from address `at` on.
fn copy_of<M: Memory>(alloc: Global, memory: &M, at: u32, count: u32) -> Result<Bytes, NoMemory>
    requires { IsTrue (mapped (M.bytes memory.now) at count) }
    ensures { IfOk result (λ bytes. bytes ≡ bytes_from (M.bytes memory.now) at count) }
{
    let mut bytes = Vec::from_elem(alloc, 0, count as usize)?;
    memory.copy_out(at, &mut bytes);
    Ok(Bytes::from_vec(bytes))
}
