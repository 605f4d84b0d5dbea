//! Where a board stands after a write of its serial run that failed, in worked programs.

ghost use Rattle.std.specs.Prelude.{◌≡◌, ◌≤◌, [], length, IfOk};

use basic_types::Bytes;
use board_events::read_entry;
use elf32_loader::load;
use host_io::MemorySink;
use rv32_asm::small_image;
use serial_run::{Conducted, conduct_serial};
use std::alloc::Global;
use std::sync::Arc;
use std::test::Fail;
use track_board::{Board, Settings};

/// Writes a byte of its own and exits.
const WRITES: [u32; 7] = [
    0x0010_0513, // li a0, 1
    0x0001_05B7, // lui a1, 0x10
    0x0010_0613, // li a2, 1
    0x0400_0893, // li a7, 64
    0x0000_0073, // ecall: writes the first byte of the program
    0x05D0_0893, // li a7, 93
    0x0000_0073, // ecall: exits
];

/// Writes a byte of its own and then goes on for ever.
const WRITES_AND_LOOPS: [u32; 6] = [
    0x0010_0513, // li a0, 1
    0x0001_05B7, // lui a1, 0x10
    0x0010_0613, // li a2, 1
    0x0400_0893, // li a7, 64
    0x0000_0073, // ecall: writes the first byte of the program
    0x0000_006F, // j 0
];

/// A board of this program, on which nothing has happened.
fn board_of(alloc: Global, words: &[u32]) -> Result<Board, Fail>
    requires { length words.now ≤ 100 }
    ensures { IfOk result (λ b. b.entries ≡ []) }
{
    let image = small_image(alloc, words)?;
    let loaded = load(alloc, image.as_slice())?;
    let input = Arc::new(alloc, Bytes::new(alloc))?;
    let settings = Settings {
        tracks: 4,
        budget: 1_000_000,
    };
    Ok(Board::new(alloc, &loaded, input, settings)?)
}

/// A sink with room for a few bytes, at which these calls fail.
fn sink(alloc: Global, failing: &[u64]) -> Result<MemorySink, Fail> {
    let failing = Vec::from_slice(alloc, failing)?;
    Ok(MemorySink::new(alloc, 16, failing)?)
}

/// Where the write fails behind the program's end, the board is finished; where it fails before, the run is halted.
#[test]
fn boards_after_a_failed_write(rt: HostRuntime) -> Result<(), Fail> {
    let finished = ["lend 0 0.0.f", "back 0.0.f 7", "finish", "release 1"];
    let halted = ["lend 0 0.0.f", "back 0.0.f 65536", "release 1", "halt 0"];
    for (words, lines) in [(WRITES.as_slice(), finished), (&WRITES_AND_LOOPS, halted)] {
        assert!(rt; words.len() <= 100);
        let mut board = board_of(rt.alloc(), words)?;
        let mut out = sink(rt.alloc(), &[0])?;
        let mut notes = sink(rt.alloc(), &[])?;
        let answer = conduct_serial(&mut board, &mut out, &mut notes);
        assert!(rt; matches!(answer, Conducted::WriteFault) && out.written().is_empty());
        let outcome = board.outcome()?;
        let entries = outcome.entries.as_slice();
        assert_eq!(rt; entries.len(), lines.len());
        for (entry, line) in entries.iter().zip(lines) {
            assert_eq!(rt; read_entry(line), Some(*entry));
        }
    }
    Ok(())
}
