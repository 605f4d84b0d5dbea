//! The generated programs, run alone.

use elf32_loader::load;
use guest_model::{Bytes, End, FlatMemory, Memory, Regs, State};
use rv32_asm::generate;
use rv32_step::{Stepped, step};
use std::alloc::Global;
use std::test::Fail;

/// How a program ended, after how many instructions, and what it wrote.
#[derive(Drop)]
struct Run {
    end: End,
    count: u64,
    output: Vec<u8>,
}

/// Adds the `count` bytes of `memory` from `at` on.
fn append(output: &mut Vec<u8>, memory: &FlatMemory, at: u32, count: u32) -> Result<(), Fail> {
    for k in 0..count {
        let byte = memory.load8(at.wrapping_add(k)).ok_or("unmapped output")?;
        output.push(byte)?;
    }
    Ok(())
}

/// Runs a program with no input and without fast versions.
fn run_alone(alloc: Global, image: &Bytes, limit: u64) -> Result<Run, Fail> {
    let loaded = load(alloc, image.as_slice())?;
    let mut state = State {
        regs: Regs::start(loaded.entry),
        memory: FlatMemory::from_areas(alloc, loaded.areas.as_slice())?,
        place: 0,
        heap: loaded.heap,
    };
    let mut output = Vec::new(alloc);
    for done in 0..limit {
        match step(&mut state, &[], false) {
            Stepped::Next => {}
            Stepped::Wrote { at, count, .. } => append(&mut output, &state.memory, at, count)?,
            Stepped::Ends(end) => {
                return Ok(Run {
                    end,
                    count: done + 1,
                    output,
                });
            }
            Stepped::NoMemory => return Err(Fail::from("no memory")),
        }
    }
    Ok(Run {
        end: End::Spent,
        count: limit,
        output,
    })
}

#[test]
fn generated_programs_run_alone(rt: HostRuntime) -> Result<(), Fail> {
    let run = run_alone(rt.alloc(), &generate(rt.alloc(), 1, 6)?, 1_000_000)?;
    assert_eq!(rt; run.end, End::Exit(0));
    assert_eq!(rt; run.count, 180_435);
    let sums = b"\x33\x75\0\0\x7b\xea\0\0\xd8\x5f\x01\0\x4a\xd5\x01\0\xd1\x4a\x02\0\x6d\xc0\x02\0";
    assert_eq!(rt; run.output.as_slice(), sums.as_slice());

    let run = run_alone(rt.alloc(), &generate(rt.alloc(), 0, 64)?, 10_000_000)?;
    assert_eq!(rt; run.end, End::Exit(0));
    assert_eq!(rt; run.count, 1_927_078);
    assert_eq!(rt; run.output.len(), 256);
    Ok(())
}
