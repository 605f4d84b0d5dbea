//! What no clause says: how far the tracks of a worked program run, where they stop, and what they hold.

ghost use Rattle.std.specs.Prelude.{◌≡◌, [], length, IfOk, OnOk};
ghost use Rattle.speculation.specs.declared.tracks.Kind.TheVariants.{Normal, Fast, Segment};
ghost use Rattle.track_state.specs.Views.{view_of};
ghost use Rattle.track_state.specs.Runs.{RunsOver};
ghost use Rattle.track_state.specs.Transitions.{IsAtBoundary};

use crate::laws::tracks_keep_their_starts;
use crate::{Crossed, Held, Kind, Stop, Track, TrackState, same};
use basic_types::{Bytes, NoMemory, Steps};
use guest_model::{Area, Difference, End, Heap, Memory, Regs, State};
use held_output::Chunks;
use paged_image::PagedImage;
use std::alloc::Global;
use std::process::Abort;
use std::test::Fail;

/// Where the code begins, in the one page of memory. The stack's top is in the same page.
const CODE: u32 = 0x10000;

const STACK: u32 = 0x10F00;

/// A program with one region: the original adds up 10 to 1, and the fast version takes 55 at once. Behind the region it
/// writes `7`, of code 55, twice and exits.
const PROGRAM: [u32; 24] = [
    0x7D000893, // li a7, 2000
    0x00000073, // ecall: opens the region
    0x00051E63, // bnez a0, fast
    0x00000513, // li a0, 0
    0x00A00293, // li t0, 10
    0x00550533, // add a0, a0, t0
    0xFFF28293, // addi t0, t0, -1
    0xFE029CE3, // bnez t0, -8
    0x00C0006F, // j end
    0x03700513, // fast: li a0, 55
    0x00000293, // li t0, 0
    0x7D100893, // end: li a7, 2001
    0x00000073, // ecall: closes the region
    0xFEA10FA3, // sb a0, -1(sp)
    0x00100513, // li a0, 1
    0xFFF10593, // addi a1, sp, -1
    0x00100613, // li a2, 1
    0x04000893, // li a7, 64
    0x00000073, // ecall: writes `7`
    0x00100513, // li a0, 1
    0x00000073, // ecall: writes `7`
    0x00000513, // li a0, 0
    0x05D00893, // li a7, 93
    0x00000073, // ecall: exits
];

fn zeros(alloc: Global, n: usize) -> Result<Bytes, NoMemory>
    ensures { IfOk result (λ bytes. length bytes ≡ n) }
{
    let bytes = Vec::from_elem(alloc, 0, n)?;
    Ok(Bytes::from_vec(bytes))
}

/// A page that begins with these words.
fn page(alloc: Global, words: &[u32]) -> Result<PagedImage, Fail> {
    let mut areas = Vec::new(alloc);
    areas.push(Area {
        base: CODE,
        bytes: zeros(alloc, 4096)?,
    })?;
    let mut image = PagedImage::from_areas(alloc, &areas)?;
    let mut at = CODE;
    for word in words {
        image.store32(at, *word)?;
        at = at.wrapping_add(4);
    }
    Ok(image)
}

/// The start of a program of these words.
fn start(alloc: Global, words: &[u32]) -> Result<TrackState, Fail>
    ensures { IfOk result (λ s. s.place ≡ 0) }
{
    let memory = page(alloc, words)?;
    let mut regs = Regs::start(CODE);
    regs.set(2, STACK);
    Ok(State {
        regs,
        memory,
        place: 0,
        heap: Heap {
            start: 0,
            size: 0,
            brk: 0,
        },
    })
}

/// A segment at the start of a program of these words.
fn segment(alloc: Global, words: &[u32], budget: u64) -> Result<Track, Fail>
    ensures { IfOk result (λ t. RunsOver [] (view_of t)) }
{
    let start = start(alloc, words)?;
    Ok(Track::begin(alloc, Kind::Segment, start, budget)?)
}

/// The original and the fast version of the program's region.
fn versions(alloc: Global, words: &[u32], budget: u64) -> Result<(Track, Track), Fail>
    ensures normal { IfOk result (λ v. RunsOver [] (view_of v.0)) }
    ensures fast { IfOk result (λ v. RunsOver [] (view_of v.1)) }
    ensures start { IfOk result (λ v. (view_of v.0).start ≡ (view_of v.1).start) }
{
    let mut track = segment(alloc, words, budget)?;
    if run(&mut track, 100)? != 1 {
        return Err(Fail::new("the region opens elsewhere"));
    }
    let Kind::Segment = track.kind() else {
        return Err(Fail::new("a track has become another"));
    };
    let Some(Stop::Boundary) = track.stop() else {
        return Err(Fail::new("no region opens"));
    };
    let forked = track.fork()?;
    Ok((forked.normal, track))
}

/// The difference of two tracks of one start, and the number of pages that are compared.
fn difference(normal: &Track, fast: &Track) -> (Option<Difference>, u64)
    requires { (view_of normal.now).start ≡ (view_of fast.now).start }
{
    tracks_keep_their_starts();
    let _normal = normal.now().memory.written().as_slice();
    let _fast = fast.now().memory.written().as_slice();
    let mut steps = Steps::<Track>::new();
    let difference = same(normal.now(), fast.now(), &mut steps);
    (difference, steps.count())
}

/// Runs a track on by at most k instructions, and answers how many were taken.
fn run(track: &mut Track, k: u64) -> Result<u64, Fail>
    requires { RunsOver [] (view_of track.old) }
    ensures runs { OnOk result (RunsOver [] (view_of track.new)) }
    ensures start { OnOk result ((view_of track.new).start ≡ (view_of track.old).start) }
{
    Ok(track.run(&[], k)?)
}

/// Lets an original go on behind the region.
fn go_on(track: &mut Track) -> Result<(u64, Held), Fail>
    requires { RunsOver [] (view_of track.old) }
    ensures { OnOk result (RunsOver [] (view_of track.new)) }
{
    let Kind::Normal = track.kind() else {
        return Err(Fail::new("no original"));
    };
    let Some(Stop::Boundary) = track.stop() else {
        return Err(Fail::new("the original closes no region"));
    };
    Ok(track.go_on()?)
}

/// Lets a fast version go on behind the region.
fn cross(track: &mut Track) -> Result<Crossed, Fail>
    requires { RunsOver [] (view_of track.old) }
    ensures { OnOk result (RunsOver [] (view_of track.new)) }
{
    let Kind::Fast = track.kind() else {
        return Err(Fail::new("no fast version"));
    };
    let Some(Stop::Boundary) = track.stop() else {
        return Err(Fail::new("the fast version closes no region"));
    };
    Ok(track.cross()?)
}

/// A word in place of one of the program's, the difference of both versions then, and the number of pages that are
/// compared.
struct Row {
    index: usize,
    word: u32,
    difference: Option<Difference>,
    pages: u64,
}

const ROWS: [Row; 3] = [
    // the word that stands there
    Row {
        index: 9,
        word: 0x03700513,
        difference: None,
        pages: 0,
    },
    // li a0, 54
    Row {
        index: 9,
        word: 0x03600513,
        difference: Some(Difference::Register(10)),
        pages: 0,
    },
    // sb a7, -1(sp)
    Row {
        index: 10,
        word: 0xFF110FA3,
        difference: Some(Difference::Byte(STACK - 1)),
        pages: 1,
    },
];

#[test]
fn compares_the_versions_of_a_region(rt: HostRuntime) -> Result<(), Fail> {
    for row in &ROWS {
        let mut words = PROGRAM;
        words[row.index] = row.word;
        let (mut normal, mut fast) = versions(rt.alloc(), &words, 1_000)?;
        assert_eq!(rt; run(&mut normal, 100)?, 36);
        assert_eq!(rt; run(&mut fast, 100)?, 5);
        assert_eq!(rt; normal.stop(), Some(Stop::Boundary));
        assert_eq!(rt; fast.stop(), Some(Stop::Boundary));
        assert_eq!(rt;
            difference(&normal, &fast),
            (row.difference, row.pages),
            "{:08x}",
            row.word
        );
    }
    Ok(())
}

/// The segments behind the region: that of the original and that of the fast version.
fn segments(rt: &impl Abort, alloc: Global) -> Result<(Track, Track), Fail>
    ensures normal { IfOk result (λ v. RunsOver [] (view_of v.0)) }
    ensures fast { IfOk result (λ v. RunsOver [] (view_of v.1)) }
{
    let (mut normal, mut fast) = versions(alloc, &PROGRAM, 1_000)?;
    run(&mut normal, 100)?;
    let (steps, held) = go_on(&mut normal)?;
    assert_eq!(rt; (steps, held.size()), (36, 0));
    run(&mut fast, 100)?;
    let crossed = cross(&mut fast)?;
    assert_eq!(rt; (crossed.steps, crossed.end.regs.get(10)), (5, 55));
    Ok((normal, fast))
}

/// The pieces of `held` that are numbered at most `limit` have this text, on stream 1.
fn has_text(alloc: Global, held: &Held, limit: u64, text: &str) -> Result<bool, Fail> {
    let mut chunks = Chunks::new(alloc);
    held.append_bytes(limit, &mut chunks)?;
    let mut bytes = Vec::new(alloc);
    for chunk in chunks.as_slice() {
        if chunk.stream != 1 {
            return Ok(false);
        }
        bytes.extend_from_slice(chunk.bytes.as_slice())?;
    }
    Ok(bytes.as_slice() == text.as_bytes())
}

#[test]
fn goes_on_behind_a_region(rt: HostRuntime) -> Result<(), Fail> {
    let (mut normal, mut fast) = segments(&rt, rt.alloc())?;
    assert_eq!(rt; (run(&mut normal, 100)?, run(&mut fast, 100)?), (12, 12));
    for track in [&normal, &fast] {
        assert_eq!(rt; (track.kind(), track.own()), (Kind::Segment, 12));
        assert_eq!(rt; track.stop(), Some(Stop::Ended(End::Exit(0))));
        for (limit, text) in [(6, ""), (7, "7"), (8, "7"), (9, "77")] {
            assert!(rt;
                has_text(rt.alloc(), track.held(), limit, text)?,
                "up to {limit}"
            );
        }
    }
    Ok(())
}

#[test]
fn gives_held_pieces_away(rt: HostRuntime) -> Result<(), Fail> {
    for (limit, taken, left) in [(6, "", "77"), (7, "7", "7"), (9, "77", "")] {
        let (mut first, mut second) = segments(&rt, rt.alloc())?;
        run(&mut first, 100)?;
        run(&mut second, 100)?;
        let pieces = first.take(limit)?;
        assert!(rt;
            has_text(rt.alloc(), &pieces, 9, taken)?,
            "taken up to {limit}"
        );
        assert!(rt;
            has_text(rt.alloc(), first.held(), 9, left)?,
            "left behind {limit}"
        );
        second.discard(limit);
        assert!(rt;
            has_text(rt.alloc(), &second.into_held(), 9, left)?,
            "discarded up to {limit}"
        );
    }
    Ok(())
}

#[test]
fn runs_in_slices_within_a_budget(rt: HostRuntime) -> Result<(), Fail> {
    let (mut normal, _) = versions(rt.alloc(), &PROGRAM, 20)?;
    assert_eq!(rt; (run(&mut normal, 7)?, normal.stop()), (7, None));
    assert_eq!(rt;
        (run(&mut normal, 100)?, normal.stop()),
        (13, Some(Stop::Budget))
    );
    assert_eq!(rt;
        (run(&mut normal, 100)?, normal.own(), normal.budget()),
        (0, 20, 20)
    );
    assert_eq!(rt; normal.start().regs.pc(), CODE + 4);
    Ok(())
}
