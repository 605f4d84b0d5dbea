//! What no clause says: that runs with workers get done, and the same output for every number of them.

ghost use Rattle.std.specs.Prelude.{◌≡◌, ◌≤◌};

use crate::counting::Counting;
use crate::replay::follows;
use crate::run::{Given, Got, run};
use board_events::{entry_text, read_entry};
use guest_model::End;
use rv32_asm::{generate, small_image};
use std::alloc::Global;
use std::process::Abort;
use std::rt::Clock;
use std::sync::Wait;
use std::test::Fail;
use std::thread::Threads;
use track_board::{Entry, Outcome};
use worker_gate::{Conducted, Open};

/// What `generate(1, 6)` writes.
const SIX_REGIONS: [u8; 24] = [
    0x33, 0x75, 0x00, 0x00, 0x7b, 0xea, 0x00, 0x00, 0xd8, 0x5f, 0x01, 0x00, 0x4a, 0xd5, 0x01, 0x00,
    0xd1, 0x4a, 0x02, 0x00, 0x6d, 0xc0, 0x02, 0x00,
];

/// Bounds on the tracks and numbers of workers.
const CASES: [(u64, u64); 7] = [(1, 1), (4, 1), (32, 1), (1, 8), (4, 8), (32, 8), (4, 64)];

/// Writes the byte 0x13 and exits with 1. It opens no region.
const NO_REGION: [u32; 7] = [
    0x0010_0513, // li a0, 1
    0x0001_05B7, // lui a1, 0x10
    0x0010_0613, // li a2, 1
    0x0400_0893, // li a7, 64
    0x0000_0073, // ecall: writes the first byte of the program
    0x05D0_0893, // li a7, 93
    0x0000_0073, // ecall: exits
];

/// Exits inside the region that it opens.
const ENDS_INSIDE: [u32; 4] = [
    0x7D00_0893, // li a7, 2000
    0x0000_0073, // ecall: opens the region
    0x05D0_0893, // li a7, 93
    0x0000_0073, // ecall: exits
];

/// This many workers, and no sink that fails.
fn plain(image: &[u8], tracks: u64, workers: u64) -> Given<'_>
    ensures tracks { result.tracks ≡ tracks }
    ensures workers { result.workers ≡ workers }
{
    Given {
        image,
        tracks,
        workers,
        out_fails: &[],
        notes_fail: &[],
    }
}

/// The outcome of a run that is done.
fn outcome_of(rt: &impl Abort, got: Got) -> (Outcome, Vec<u8>) {
    let Got { answer, out, notes } = got;
    assert!(rt; notes.is_empty());
    match answer {
        Conducted::Done(outcome) => (outcome, out),
        _ => panic!(rt; "the run is not done"),
    }
}

/// Each entry is read back from its line.
fn assert_lines(rt: &impl Abort, alloc: Global, entries: &[Entry]) -> Result<(), Fail> {
    for entry in entries {
        let text = entry_text(alloc, entry)?;
        let Some(line) = text.strip_suffix('\n') else {
            return Err(Fail::new("a line without its end"));
        };
        assert_eq!(rt; read_entry(line), Some(*entry));
    }
    Ok(())
}

/// The run is done, wrote this and ended so, and a board follows its history.
fn assert_done<R: Abort + Threads + Wait + Clock + Sync>(
    rt: &R,
    alloc: Global,
    given: &Given<'_>,
    wrote: &[u8],
    end: End,
) -> Result<(), Fail>
    requires some { 1 ≤ given.now.tracks }
    requires few { given.now.tracks ≤ 32 }
    requires workers { given.now.workers ≤ 64 }
{
    let (outcome, out) = outcome_of(rt, run(rt, alloc, given, &Open)?);
    assert!(rt; out.as_slice() == wrote);
    assert_eq!(rt; outcome.finished.map(|finished| finished.end), Some(end));
    let entries = outcome.entries.as_slice();
    assert_lines(rt, alloc, entries)?;
    assert!(rt; follows(alloc, given.image, given.tracks, entries)?);
    Ok(())
}

#[test]
fn any_number_of_workers_writes_the_same(rt: HostRuntime) -> Result<(), Fail> {
    let image = generate(rt.alloc(), 1, 6)?;
    for (tracks, workers) in CASES {
        assert!(rt; 1 <= tracks && tracks <= 32 && workers <= 64);
        let given = plain(image.as_slice(), tracks, workers);
        assert_done(&rt, rt.alloc(), &given, &SIX_REGIONS, End::Exit(0))?;
    }
    Ok(())
}

#[test]
fn programs_without_a_whole_region(rt: HostRuntime) -> Result<(), Fail> {
    let image = small_image(rt.alloc(), &NO_REGION)?;
    let given = plain(image.as_slice(), 4, 3);
    assert_done(&rt, rt.alloc(), &given, &[0x13], End::Exit(1))?;
    let image = small_image(rt.alloc(), &ENDS_INSIDE)?;
    let given = plain(image.as_slice(), 4, 3);
    assert_done(&rt, rt.alloc(), &given, &[], End::Exit(0))
}

#[test]
fn forty_regions(rt: HostRuntime) -> Result<(), Fail> {
    let image = generate(rt.alloc(), 3, 40)?;
    let alone = plain(image.as_slice(), 4, 0);
    let (_, wrote) = outcome_of(&rt, run(&rt, rt.alloc(), &alone, &Open)?);
    let given = plain(image.as_slice(), 4, 3);
    assert_done(&rt, rt.alloc(), &given, wrote.as_slice(), End::Exit(0))
}

/// A sink fails at each call in turn, until there are no more calls.
#[test]
fn a_sink_fails(rt: HostRuntime) -> Result<(), Fail> {
    let image = generate(rt.alloc(), 1, 6)?;
    for call in 0..32u64 {
        let fails = [call];
        let given = Given {
            out_fails: &fails,
            ..plain(image.as_slice(), 4, 3)
        };
        let got = run(&rt, rt.alloc(), &given, &Open)?;
        let all = got.out.as_slice() == SIX_REGIONS.as_slice();
        assert!(rt; SIX_REGIONS.starts_with(got.out.as_slice()));
        match got.answer {
            Conducted::Done(_) => {
                assert!(rt; all && call > 0);
                return Ok(());
            }
            Conducted::WriteFault => assert!(rt; !all),
            Conducted::NoMemory => return Err(Fail::new("there was no memory")),
        }
    }
    Err(Fail::new("more than 32 calls"))
}

/// The gate is passed before each slice, and each track that is lent runs one.
#[test]
fn each_slice_passes_the_gate(rt: HostRuntime) -> Result<(), Fail> {
    let image = generate(rt.alloc(), 1, 6)?;
    let gate = Counting::new();
    let given = plain(image.as_slice(), 4, 1);
    let (outcome, _) = outcome_of(&rt, run(&rt, rt.alloc(), &given, &gate)?);
    let lends = outcome
        .entries
        .as_slice()
        .iter()
        .filter(|entry| matches!(entry, Entry::Lend { .. }))
        .count() as u64;
    assert!(rt; gate.slices() == lends);
    assert!(rt; gate.enters() > 2 * lends);
    Ok(())
}
