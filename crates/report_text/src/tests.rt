//! What no clause says: the lines of worked examples, letter by letter.

use crate::{bench_text, end_text, row_text, state_text, totals_text};
use elf32_loader::load;
use guest_model::{A0, A7, Difference, End, FlatMemory, Regs, State, Trap};
use region_ledger::{Row, Totals, Verdict};
use rv32_asm::small_image;
use std::test::Fail;

#[test]
fn writes_rows(rt: HostRuntime) -> Result<(), Fail> {
    let table = [
        (5, Verdict::Kept, "fast 5 kept\n"),
        (
            5,
            Verdict::Differs(Difference::Register(10)),
            "fast 5 differs register 10\n",
        ),
        (
            5,
            Verdict::Differs(Difference::Byte(0x7fff_feff)),
            "fast 5 differs byte 7ffffeff\n",
        ),
        (
            11,
            Verdict::Differs(Difference::Place),
            "fast 11 differs place\n",
        ),
        (
            9,
            Verdict::Differs(Difference::Break),
            "fast 9 differs break\n",
        ),
        (36, Verdict::Late, "fast 36 late\n"),
        (3, Verdict::Stopped, "fast 3 stopped\n"),
    ];
    for (fast, verdict, end) in table {
        let row = Row {
            number: 0,
            at: 1,
            pc: 0x10004,
            original: 36,
            fast,
            verdict,
        };
        let expected = format!(in rt.alloc(); "region 0 at 1 pc 00010004 original 36 {end}")?;
        let text = row_text(rt.alloc(), &row)?;
        assert_eq!(rt; text.as_str(), expected.as_str());
    }
    Ok(())
}

#[test]
fn writes_ends(rt: HostRuntime) -> Result<(), Fail> {
    let table = [
        (End::Exit(55), "end exit 55\n"),
        (
            End::Trap(Trap::FetchUnmapped, 0),
            "end trap fetch at 00000000\n",
        ),
        (End::Spent, "end spent\n"),
    ];
    for (end, expected) in table {
        let text = end_text(rt.alloc(), &end)?;
        assert_eq!(rt; text.as_str(), expected);
    }
    Ok(())
}

#[test]
fn writes_totals_and_benches(rt: HostRuntime) -> Result<(), Fail> {
    let totals = Totals {
        regions: 64,
        kept: 32,
        differs: 16,
        stopped: 0,
        late: 16,
        alone_count: 1_927_078,
        path_count: 964_054,
    };
    let line = "regions 64 kept 32 differs 16 stopped 0 late 16 alone 1927078 path 964054\n";
    let text = totals_text(rt.alloc(), &totals)?;
    assert_eq!(rt; text.as_str(), line);
    let bench = bench_text(rt.alloc(), 0, &totals, 256, &End::Exit(0))?;
    let expected = format!(in rt.alloc(); "bench 0\n{line}output 256\nend exit 0\n")?;
    assert_eq!(rt; bench.as_str(), expected.as_str());
    Ok(())
}

/// The exit with 55, at which no other register is set than these.
#[test]
fn writes_states(rt: HostRuntime) -> Result<(), Fail> {
    let alloc = rt.alloc();
    let image = small_image(alloc, &[0x7D00_0893])?;
    let loaded = load(alloc, image.as_slice())?;
    let mut regs = Regs::start(0x1_0038);
    regs.set(A0, 55);
    regs.set(A7, 93);
    let state = State {
        regs,
        memory: FlatMemory::from_areas(alloc, loaded.areas.as_slice())?,
        place: 0,
        heap: loaded.heap,
    };
    let lines = "at 100 taken 40 pc 00010038 place 0 break 00011000\n\
        x1 00000000 x2 7fffff00 x3 00000000 x4 00000000 x5 00000000 x6 00000000 x7 00000000 x8 \
        00000000 x9 00000000 x10 00000037 x11 00000000 x12 00000000 x13 00000000 x14 00000000 x15 \
        00000000 x16 00000000 x17 0000005d x18 00000000 x19 00000000 x20 00000000 x21 00000000 x22 \
        00000000 x23 00000000 x24 00000000 x25 00000000 x26 00000000 x27 00000000 x28 00000000 x29 \
        00000000 x30 00000000 x31 00000000\n\
        end exit 55\n";
    for (bytes, line) in [
        (None, ""),
        (Some((0x1_0000, 4)), "bytes 00010000 9308007d\n"),
        (Some((0xFFFF, 2)), "bytes 0000ffff unmapped\n"),
        (Some((0xFFFF_FFFF, 2)), "bytes ffffffff unmapped\n"),
    ] {
        let text = state_text(alloc, 100, &state, 40, &End::Exit(55), bytes)?;
        let expected = format!(in alloc; "{lines}{line}")?;
        assert_eq!(rt; text.as_str(), expected.as_str());
    }
    Ok(())
}
