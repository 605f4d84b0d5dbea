//! What no clause says: explanations of worked programs, letter by letter, and what a sink that fails is left with.

ghost use Rattle.std.specs.Prelude.{◌*◌, ◌≤◌, ◌^◌, length};

use crate::write_explanation;
use elf32_loader::load;
use guest_streams::OutputFault;
use host_io::MemorySink;
use rv32_asm::small_image;
use std::alloc::Global;
use std::test::Fail;

/// A program with one region, whose original sets t0 to 3 in three steps, and with this fast version.
fn program(fast: [u32; 5]) -> [u32; 17] {
    [
        0x7D00_0893, // li a7, 2000
        0x0000_0073, // ecall: opens the region
        0x0005_1A63, // bnez a0, fast
        0x0010_0293, // li t0, 1
        0x0012_8293, // addi t0, t0, 1
        0x0012_8293, // addi t0, t0, 1
        0x0180_006F, // j end
        fast[0],
        fast[1],
        fast[2],
        fast[3],
        fast[4],
        0x7D10_0893, // end: li a7, 2001
        0x0000_0513, // li a0, 0
        0x0000_0073, // ecall: closes the region
        0x05D0_0893, // li a7, 93
        0x0000_0073, // ecall: exits
    ]
}

/// Writes the explanation of the small image of these words to a sink with so much room.
fn explain(
    alloc: Global,
    words: &[u32],
    budget: u64,
    room: usize,
) -> Result<(Result<(), OutputFault>, MemorySink), Fail>
    requires few { 4 * length words.now ≤ 16777216 }
    requires within { budget ≤ 2 ^ 40 }
{
    let image = small_image(alloc, words)?;
    let loaded = load(alloc, image.as_slice())?;
    let mut out = MemorySink::new(alloc, room, Vec::new(alloc))?;
    let written = write_explanation(alloc, &loaded, &[], budget, &mut out);
    Ok((written, out))
}

const NOP: u32 = 0x0000_0013;

/// li t0, 4; li t6, -1; j end.
const WRONG: [u32; 5] = [0x0040_0293, 0xFFF0_0F93, 0x00C0_006F, NOP, NOP];

#[test]
fn explains_worked_programs(rt: HostRuntime) -> Result<(), Fail> {
    for (fast, row, lines, counts) in [
        // li t0, 3; j end
        (
            [0x0030_0293, 0x0100_006F, NOP, NOP, NOP],
            "6 kept",
            "",
            "kept 1 differs 0 stopped 0 late 0 alone 12 path 10",
        ),
        (
            WRONG,
            "7 differs register 5",
            "  x5 t0 original 00000003 fast 00000004\n  \
            x31 t6 original 00000000 fast ffffffff\n",
            "kept 0 differs 1 stopped 0 late 0 alone 12 path 12",
        ),
        // li a0, 7; li a7, 93; ecall
        (
            [0x0070_0513, 0x05D0_0893, 0x0000_0073, NOP, NOP],
            "5 stopped",
            "  fast version exit 7 after 5\n",
            "kept 0 differs 0 stopped 1 late 0 alone 12 path 12",
        ),
        // lw t1, -4(zero)
        (
            [0xFFC0_2303, NOP, NOP, NOP, NOP],
            "3 stopped",
            "  fast version trap load at 0001001c after 3 of fffffffc\n",
            "kept 0 differs 0 stopped 1 late 0 alone 12 path 12",
        ),
        // ebreak
        (
            [0x0010_0073, NOP, NOP, NOP, NOP],
            "3 stopped",
            "  fast version trap breakpoint at 0001001c after 3\n",
            "kept 0 differs 0 stopped 1 late 0 alone 12 path 12",
        ),
        // li t0, 1; addi t0, t0, 1; addi t0, t0, 2
        (
            [0x0010_0293, 0x0012_8293, 0x0022_8293, NOP, NOP],
            "8 late",
            "  fast version at its end after 9\n  \
            x5 t0 original 00000003 fast 00000004\n",
            "kept 0 differs 0 stopped 0 late 1 alone 12 path 12",
        ),
        // j .
        (
            [0x0000_006F, NOP, NOP, NOP, NOP],
            "8 late",
            "  fast version still running after 128\n",
            "kept 0 differs 0 stopped 0 late 1 alone 12 path 12",
        ),
    ] {
        let alloc = rt.alloc();
        let (written, out) = explain(alloc, &program(fast), 1000, 512)?;
        assert_eq!(rt; written, Ok(()));
        let wanted = format!(in alloc;
            "region 0 at 1 pc 00010004 original 8 fast {row}\n{lines}regions 1 {counts}\nend exit 0\n"
        )?;
        assert_eq!(rt; out.written(), wanted.as_bytes());
    }
    Ok(())
}

/// The region doesn't close within 8 instructions.
#[test]
fn a_region_that_does_not_close_has_no_row(rt: HostRuntime) -> Result<(), Fail> {
    let (written, out) = explain(rt.alloc(), &program(WRONG), 8, 512)?;
    assert_eq!(rt; written, Ok(()));
    let wanted = "regions 0 kept 0 differs 0 stopped 0 late 0 alone 8 path 8\nend spent\n";
    assert!(rt; out.written() == wanted.as_bytes());
    Ok(())
}

/// The row has 62 bytes with its line feed, and the line under it 40.
#[test]
fn a_sink_that_fails_has_a_beginning(rt: HostRuntime) -> Result<(), Fail> {
    for (room, beginning) in [
        (0, ""),
        (
            70,
            "region 0 at 1 pc 00010004 original 8 fast 7 differs register 5\n  x5 t0",
        ),
    ] {
        let (written, out) = explain(rt.alloc(), &program(WRONG), 1000, room)?;
        assert_eq!(rt; written, Err(OutputFault::Write));
        assert!(rt; out.written().starts_with(beginning.as_bytes()));
        assert_eq!(rt; out.written().len(), room);
    }
    Ok(())
}
