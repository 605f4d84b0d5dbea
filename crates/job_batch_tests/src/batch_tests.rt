//! What no clause says: that batches get done, and each job as it would alone.

ghost use Rattle.std.specs.Prelude.{◌≡◌, ◌≤◌, All, IfOk, length};
ghost use Rattle.job_batch.specs.Ends.{IsFresh};

use crate::boards::add;
use guest_model::End;
use job_batch::{JobEnd, JobOutcome, Jobs, batch};
use rv32_asm::{generate, small_image};
use std::alloc::Global;
use std::process::Abort;
use std::rt::Clock;
use std::sync::Wait;
use std::test::Fail;
use std::thread::Threads;
use track_board::Board;
use worker_gate::Open;

/// What `generate(1, 6)` writes.
const SIX_REGIONS: [u8; 24] = [
    0x33, 0x75, 0x00, 0x00, 0x7b, 0xea, 0x00, 0x00, 0xd8, 0x5f, 0x01, 0x00, 0x4a, 0xd5, 0x01, 0x00,
    0xd1, 0x4a, 0x02, 0x00, 0x6d, 0xc0, 0x02, 0x00,
];

/// Writes the byte 0x13 to stream 2 and exits with 1. It opens no region.
const WRITES_A_NOTE: [u32; 7] = [
    0x0020_0513, // li a0, 2
    0x0001_05B7, // lui a1, 0x10
    0x0010_0613, // li a2, 1
    0x0400_0893, // li a7, 64
    0x0000_0073, // ecall: writes the first byte of the program
    0x05D0_0893, // li a7, 93
    0x0000_0073, // ecall: exits
];

/// Exits inside the region that it opens.
const ENDS_INSIDE: [u32; 4] = [
    0x7D00_0893, // li a7, 2000
    0x0000_0073, // ecall: opens the region
    0x05D0_0893, // li a7, 93
    0x0000_0073, // ecall: exits
];

/// Jumps to itself.
const NEVER_ENDS: [u32; 1] = [0x0000_006F];

/// A budget that is enough for the programs that end.
const ENOUGH: u64 = 100_000_000;

/// Boards of six regions, of a note, of a region that isn't left, and of a program that doesn't end.
fn four_boards(alloc: Global) -> Result<Vec<Board>, Fail>
    ensures few { IfOk result (λ boards. length boards.items ≡ 4) }
    ensures fresh { IfOk result (λ boards. All IsFresh boards.items) }
{
    let regions = generate(alloc, 1, 6)?;
    let note = small_image(alloc, &WRITES_A_NOTE)?;
    let inside = small_image(alloc, &ENDS_INSIDE)?;
    let endless = small_image(alloc, &NEVER_ENDS)?;
    let mut boards = Vec::new(alloc);
    add(alloc, &mut boards, regions.as_slice(), ENOUGH)?;
    add(alloc, &mut boards, note.as_slice(), ENOUGH)?;
    add(alloc, &mut boards, inside.as_slice(), ENOUGH)?;
    add(alloc, &mut boards, endless.as_slice(), 1_000)?;
    Ok(boards)
}

/// The job wrote this, and its program ended so.
fn assert_end(rt: &impl Abort, job: &JobEnd, out: &[u8], notes: &[u8], end: End) {
    assert!(rt; job.out.as_slice() == out);
    assert!(rt; job.notes.as_slice() == notes);
    match &job.outcome {
        JobOutcome::Done(outcome) => {
            assert_eq!(rt; outcome.finished.map(|finished| finished.end), Some(end));
        }
        JobOutcome::NoMemory => panic!(rt; "the job is not done"),
    }
}

/// Each of the four jobs is done, with its own bytes and its own end.
fn assert_done<R: Abort + Threads + Wait + Clock + Sync>(
    rt: &R,
    alloc: Global,
    workers: u64,
) -> Result<(), Fail>
    requires { workers ≤ 64 }
{
    let jobs = Jobs::from_vec(four_boards(alloc)?);
    let ends = batch(rt, alloc, jobs, &Open, workers)?;
    let ends = ends.as_slice();
    assert_eq!(rt; ends.len(), 4);
    assert_end(rt, &ends[0], &SIX_REGIONS, &[], End::Exit(0));
    assert_end(rt, &ends[1], &[], &[0x13], End::Exit(1));
    assert_end(rt, &ends[2], &[], &[], End::Exit(0));
    assert_end(rt, &ends[3], &[], &[], End::Spent);
    Ok(())
}

#[test]
fn without_workers(rt: HostRuntime) -> Result<(), Fail> {
    assert_done(&rt, rt.alloc(), 0)
}

#[test]
fn with_one_worker(rt: HostRuntime) -> Result<(), Fail> {
    assert_done(&rt, rt.alloc(), 1)
}

#[test]
fn with_eight_workers(rt: HostRuntime) -> Result<(), Fail> {
    assert_done(&rt, rt.alloc(), 8)
}

#[test]
fn no_jobs(rt: HostRuntime) -> Result<(), Fail> {
    let jobs = Jobs::from_vec(Vec::new(rt.alloc()));
    let ends = batch(&rt, rt.alloc(), jobs, &Open, 3)?;
    assert_eq!(rt; ends.as_slice().len(), 0);
    Ok(())
}
