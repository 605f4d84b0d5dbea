//! One run with workers, over sinks in memory.

ghost use Rattle.std.specs.Prelude.{◌≡◌, ◌≤◌, [], IfOk};

use basic_types::Bytes;
use board_lock::TurnLock;
use elf32_loader::load;
use host_io::MemorySink;
use std::alloc::Global;
use std::rt::Clock;
use std::sync::{Arc, Wait};
use std::test::Fail;
use std::thread::Threads;
use track_board::{Board, Settings};
use worker_gate::{Conducted, Gate, conduct};

/// What is run.
#[derive(Clone, Copy)]
pub struct Given<'a> {
    pub image: &'a [u8],
    pub tracks: u64,
    pub workers: u64,
    /// The calls of `out` that fail, and those of `notes`.
    pub out_fails: &'a [u64],
    pub notes_fail: &'a [u64],
}

/// What came of it.
#[derive(Drop)]
pub struct Got {
    pub answer: Conducted,
    pub out: Vec<u8>,
    pub notes: Vec<u8>,
}

/// A board of this image, without input.
pub fn board_of(alloc: Global, image: &[u8], tracks: u64) -> Result<Board, Fail>
    requires some { 1 ≤ tracks }
    requires few { tracks ≤ 32 }
    ensures { IfOk result (λ b. b.entries ≡ []) }
{
    let loaded = load(alloc, image)?;
    let input = Arc::new(alloc, Bytes::new(alloc))?;
    let settings = Settings {
        tracks,
        budget: 100_000_000,
    };
    Ok(Board::new(alloc, &loaded, input, settings)?)
}

/// A sink with room for some bytes, at which these calls fail.
fn sink(alloc: Global, failing: &[u64]) -> Result<MemorySink, Fail> {
    let failing = Vec::from_slice(alloc, failing)?;
    Ok(MemorySink::new(alloc, 1_024, failing)?)
}

/// Runs it, with this gate.
pub fn run<R: Threads + Wait + Clock + Sync, G: Gate + Sync>(
    rt: &R,
    alloc: Global,
    given: &Given<'_>,
    gate: &G,
) -> Result<Got, Fail>
    requires some { 1 ≤ given.now.tracks }
    requires few { given.now.tracks ≤ 32 }
    requires workers { given.now.workers ≤ 64 }
{
    let board = board_of(alloc, given.image, given.tracks)?;
    let (lock, mut pass) = TurnLock::new(alloc, board)?;
    let mut out = sink(alloc, given.out_fails)?;
    let mut notes = sink(alloc, given.notes_fail)?;
    let answer = conduct(
        rt,
        alloc,
        &lock,
        &mut pass,
        &mut out,
        &mut notes,
        gate,
        given.workers,
    );
    Ok(Got {
        answer,
        out: Vec::from_slice(alloc, out.written())?,
        notes: Vec::from_slice(alloc, notes.written())?,
    })
}
