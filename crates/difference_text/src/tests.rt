//! What no clause says: the lines of worked differences, letter by letter.

ghost use Rattle.std.specs.Prelude.{◌≡◌, ◌<◌, [], length, IfOk};
ghost use Rattle.paged_image.specs.Image.{written_of};
ghost use Rattle.track_state.specs.Kept.{AreComparable};

use crate::differences_text;
use basic_types::{Bytes, NoMemory};
use guest_model::{Area, Heap, Memory, Regs, State, StoreFault};
use paged_image::PagedImage;
use std::alloc::Global;
use std::test::Fail;
use track_state::TrackState;

/// Where the one page of memory begins.
const BASE: u32 = 0x10000;

fn zeros(alloc: Global, n: usize) -> Result<Bytes, NoMemory>
    ensures { IfOk result (λ bytes. length bytes ≡ n) }
{
    let bytes = Vec::from_elem(alloc, 0, n)?;
    Ok(Bytes::from_vec(bytes))
}

fn one_page(alloc: Global) -> Result<PagedImage, NoMemory>
    ensures { IfOk result (λ t. written_of t ≡ []) }
{
    let mut areas = Vec::new(alloc);
    areas.push(Area {
        base: BASE,
        bytes: zeros(alloc, 4096)?,
    })?;
    PagedImage::from_areas(alloc, &areas)
}

fn state(memory: PagedImage) -> TrackState
    ensures memory { result.memory ≡ memory }
    ensures heap { (result.heap.start ≡ 0) × (result.heap.size ≡ 0) }
{
    State {
        regs: Regs::start(BASE),
        memory,
        place: 0,
        heap: Heap {
            start: 0,
            size: 0,
            brk: 0,
        },
    }
}

/// Two states that began as one.
#[derive(Drop)]
struct Two {
    original: TrackState,
    fast: TrackState,
    ghost comparable: { AreComparable original fast },
}

impl Two {
    fn new(alloc: Global) -> Result<Two, NoMemory> {
        let mut memory = one_page(alloc)?;
        let fast = state(memory.snapshot()?);
        let original = state(memory);
        Ok(Two { original, fast })
    }

    fn set_pc(&mut self, pc: u32) {
        self.fast.regs.set_pc(pc);
    }

    fn set(&mut self, r: u8, value: u32)
        requires { r < 32 }
    {
        self.fast.regs.set(r, value);
    }

    fn read_on(&mut self, place: u64) {
        self.fast.place = place;
    }

    fn move_break(&mut self, brk: u32) {
        self.fast.heap.brk = brk;
    }

    fn store(&mut self, at: u32, value: u8) -> Result<(), StoreFault> {
        self.fast.memory.store8(at, value)
    }

    fn text(&self, alloc: Global) -> Result<String, NoMemory> {
        differences_text(alloc, &self.original, &self.fast)
    }
}

#[test]
fn states_that_are_the_same_have_no_line(rt: HostRuntime) -> Result<(), Fail> {
    let two = Two::new(rt.alloc())?;
    assert_eq!(rt; two.text(rt.alloc())?.as_str(), "");
    Ok(())
}

#[test]
fn all_differences_are_told_in_order(rt: HostRuntime) -> Result<(), Fail> {
    let alloc = rt.alloc();
    let mut two = Two::new(alloc)?;
    two.set_pc(0x10008);
    for r in [1, 2, 3, 4, 5, 7, 8, 9, 10, 17, 18, 27, 28, 31] {
        two.set(r, 0xABCDEF);
    }
    two.read_on(12);
    two.move_break(0x20000);
    for (k, byte) in [1, 2, 3].iter().enumerate() {
        two.store(0x10010 + k as u32, *byte)?;
    }
    let wanted = "  pc original 00010000 fast 00010008\n  \
        x1 ra original 00000000 fast 00abcdef\n  \
        x2 sp original 7fffff00 fast 00abcdef\n  \
        x3 gp original 00000000 fast 00abcdef\n  \
        x4 tp original 00000000 fast 00abcdef\n  \
        x5 t0 original 00000000 fast 00abcdef\n  \
        x7 t2 original 00000000 fast 00abcdef\n  \
        x8 s0 original 00000000 fast 00abcdef\n  \
        x9 s1 original 00000000 fast 00abcdef\n  \
        x10 a0 original 00000000 fast 00abcdef\n  \
        x17 a7 original 00000000 fast 00abcdef\n  \
        x18 s2 original 00000000 fast 00abcdef\n  \
        x27 s11 original 00000000 fast 00abcdef\n  \
        x28 t3 original 00000000 fast 00abcdef\n  \
        x31 t6 original 00000000 fast 00abcdef\n  \
        place original 0 fast 12\n  \
        break original 00000000 fast 00020000\n  \
        bytes 00010010 3 original 000000 fast 010203\n";
    assert_eq!(rt; two.text(alloc)?.as_str(), wanted);
    Ok(())
}

/// A run of 20 bytes, of which 16 are shown, and 200 runs of one byte, of which 32 have a line.
#[test]
fn runs_are_cut(rt: HostRuntime) -> Result<(), Fail> {
    let alloc = rt.alloc();
    let mut two = Two::new(alloc)?;
    for k in 0..20 {
        two.store(BASE + k, 0xF0)?;
    }
    let wanted = "  bytes 00010000 20 original 00000000000000000000000000000000 \
        fast f0f0f0f0f0f0f0f0f0f0f0f0f0f0f0f0\n";
    assert_eq!(rt; two.text(alloc)?.as_str(), wanted);

    let mut two = Two::new(alloc)?;
    for k in 0..200 {
        two.store(BASE + 2 * k, 1)?;
    }
    let text = two.text(alloc)?;
    let mut lines = text.as_str().lines();
    assert_eq!(rt;
        lines.next(),
        Some("  bytes 00010000 1 original 00 fast 01")
    );
    assert_eq!(rt;
        lines.nth(30),
        Some("  bytes 0001003e 1 original 00 fast 01")
    );
    assert_eq!(rt; lines.next(), Some("  more 168"));
    assert_eq!(rt; lines.next(), None);
    Ok(())
}
