//! What no clause says: the views of worked programs, and those of longer ones beside plain runs over another memory.

ghost use Rattle.std.specs.Prelude.{◌≡◌, ◌*◌, ◌<◌, ◌≤◌, length, IfOk};

use crate::{Points, View, counted_step};
use elf32_loader::{Loaded, load};
use guest_model::{A0, A7, Bytes, End, FlatMemory, Memory, NoMemory, Regs, State, Steps};
use paged_image::PagedImage;
use rv32_asm::{generate, small_image};
use rv32_step::{Stepped, step};
use std::alloc::Global;
use std::test::Fail;

/// A sum by a loop, and then the exit with it.
const SUM: [u32; 15] = [
    0x7D00_0893,
    0x0000_0073,
    0x0005_1E63,
    0x0000_0513,
    0x00A0_0293,
    0x0055_0533,
    0xFFF2_8293,
    0xFE02_9CE3,
    0x00C0_006F,
    0x0370_0513,
    0x0000_0293,
    0x7D10_0893,
    0x0000_0073,
    0x05D0_0893,
    0x0000_0073,
];

/// Moves the break, reads three bytes and writes them to stream 1. Then it stores ADDI x10, x0, 7 over ADDI x10, x0, 1,
/// which comes two instructions later, and exits with a0, after 19 instructions.
const CALLS: [u32; 19] = [
    0x0D60_0893,
    0x0001_2537,
    0x0000_0073,
    0x03F0_0893,
    0x0000_0513,
    0x0001_15B7,
    0x0030_0613,
    0x0000_0073,
    0x0400_0893,
    0x0010_0513,
    0x0000_0073,
    0x0001_0337,
    0x0070_03B7,
    0x5133_8393,
    0x0473_2023,
    0x0005_0293,
    0x0010_0513,
    0x05D0_0893,
    0x0000_0073,
];

/// The state in which the program of an image starts.
fn paged_start(alloc: Global, loaded: &Loaded) -> Result<State<PagedImage>, NoMemory>
    ensures { IfOk result (λ s. s.place ≡ 0) }
{
    Ok(State {
        regs: Regs::start(loaded.entry),
        memory: PagedImage::from_areas(alloc, loaded.areas.as_slice())?,
        place: 0,
        heap: loaded.heap,
    })
}

/// The same over a flat memory.
fn flat_start(alloc: Global, loaded: &Loaded) -> Result<State<FlatMemory>, NoMemory>
    ensures { IfOk result (λ s. s.place ≡ 0) }
{
    Ok(State {
        regs: Regs::start(loaded.entry),
        memory: FlatMemory::from_areas(alloc, loaded.areas.as_slice())?,
        place: 0,
        heap: loaded.heap,
    })
}

/// Takes `count` instructions, or as many as the program has. Answers how many these were, and the end.
fn run_plainly(
    state: &mut State<FlatMemory>,
    input: &[u8],
    count: u64,
) -> Result<(u64, End), NoMemory>
    requires { state.old.place ≤ length input.now }
{
    for taken in 0..count {
        match step(state, input, false) {
            Stepped::Next | Stepped::Wrote { .. } => {}
            Stepped::Ends(end) => return Ok((taken + 1, end)),
            Stepped::NoMemory => return Err(NoMemory),
        }
    }
    Ok((count, End::Spent))
}

/// Whether both states have the same registers, place and heap, and the same bytes from the program on.
fn agree(view: &View, run: &State<FlatMemory>) -> bool {
    let state = &view.state;
    for k in 0..4096 {
        let at = 0x1_0000 + 4 * k;
        if state.memory.load32(at) != run.memory.load32(at) {
            return false;
        }
    }
    state.regs == run.regs && state.place == run.place && state.heap == run.heap
}

/// The first of these counts, asked for one after the other, whose view isn't that of the plain run.
fn first_wrong(
    alloc: Global,
    image: &Bytes,
    input: &[u8],
    every: u64,
    greatest: u64,
    counts: &[u64],
) -> Result<Option<u64>, Fail>
    requires spacing { 0 < every }
    requires few { greatest ≤ 64 * every }
{
    let loaded = load(alloc, image.as_slice())?;
    let mut points = Points::build(alloc, paged_start(alloc, &loaded)?, input, every, greatest)?;
    for count in counts {
        let count = (*count).min(greatest);
        let view = points.at(count, input, &mut Steps::<u8>::new())?;
        let mut run = flat_start(alloc, &loaded)?;
        let (taken, end) = run_plainly(&mut run, input, count)?;
        if view.taken != taken || view.end != end || !agree(&view, &run) {
            return Ok(Some(count));
        }
    }
    Ok(None)
}

#[test]
fn shows_a_long_program(rt: HostRuntime) -> Result<(), Fail> {
    let image = generate(rt.alloc(), 0, 64)?;
    let counts = [1_000_000, 0, 999_999, 500_000, 1_000_000];
    let wrong = first_wrong(rt.alloc(), &image, &[], 65_536, 1_000_000, &counts)?;
    assert_eq!(rt; wrong, None);
    Ok(())
}

/// At each count to its end and behind it, and then at some before. The store into the program's own code is one of its
/// instructions, so that what it changes must not be seen before.
#[test]
fn shows_a_program_with_calls(rt: HostRuntime) -> Result<(), Fail> {
    let image = small_image(rt.alloc(), &CALLS)?;
    let counts = [
        0, 1, 2, 3, 4, 5, 6, 7, 8, 9, 10, 11, 12, 13, 14, 15, 16, 17, 18, 19, 20, 60, 17, 15, 14,
        7, 0,
    ];
    for every in [1, 3, 19] {
        let wrong = first_wrong(rt.alloc(), &image, b"abc", every, 60, &counts)?;
        assert_eq!(rt; wrong, None, "every {every}");
    }
    Ok(())
}

/// The program ends with instruction 40, at which a point would be.
#[test]
fn shows_a_sum(rt: HostRuntime) -> Result<(), Fail> {
    let image = small_image(rt.alloc(), &SUM)?;
    let loaded = load(rt.alloc(), image.as_slice())?;
    let start = paged_start(rt.alloc(), &loaded)?;
    let mut points = Points::build(rt.alloc(), start, &[], 4, 100)?;
    for (count, taken, pc, a0, a7, end) in [
        (37, 37, 0x1_0030, 55, 2001, End::Spent),
        (100, 40, 0x1_0038, 55, 93, End::Exit(55)),
        (40, 40, 0x1_0038, 55, 93, End::Exit(55)),
        (39, 39, 0x1_0038, 55, 93, End::Spent),
        (0, 0, 0x1_0000, 0, 0, End::Spent),
    ] {
        let View {
            state,
            taken: shown,
            end: ended,
        } = points.at(count, &[], &mut Steps::<u8>::new())?;
        assert_eq!(rt; shown, taken, "at {count}");
        assert_eq!(rt; state.regs.pc(), pc, "at {count}");
        assert_eq!(rt; state.regs.get(A0), a0, "at {count}");
        assert_eq!(rt; state.regs.get(A7), a7, "at {count}");
        assert_eq!(rt; ended, end, "at {count}");
    }
    Ok(())
}

#[test]
fn counts_a_step(rt: HostRuntime) -> Result<(), Fail> {
    let image = small_image(rt.alloc(), &SUM)?;
    let loaded = load(rt.alloc(), image.as_slice())?;
    let mut state = paged_start(rt.alloc(), &loaded)?;
    let mut steps = Steps::<u8>::new();
    assert_eq!(rt; counted_step(&mut state, &[], &mut steps), Stepped::Next);
    assert_eq!(rt; state.regs.get(A7), 2000);
    assert_eq!(rt; steps.count(), 1);
    Ok(())
}
