ghost use Rattle.std.specs.Prelude.{◌≡◌, ◌+◌, ◌%◌, ◌^◌, ◌≤◌, IfOk, IfSome};
ghost use Rattle.rv32_step.specs.Decoded.{instr_of};
ghost use Rattle.rv32_step.specs.RegisterSteps.{StandsAt};

use super::step;
use crate::calls::{at_end, at_fast};
use crate::decoded::Decoded;
use crate::decoded_step::step_decoded;
use crate::on_registers::RegisterStep;
use crate::stepped::Stepped;
use guest_model::{Area, Bytes, End, FlatMemory, Heap, Memory, NoMemory, Regs, State, Trap};
use rv32_decode::decode;
use std::alloc::Global;
use std::test::Fail;

const CODE: u32 = 0x1_0000;

const CODE_SIZE: usize = 0x1000;

const STACK: u32 = 0x7FF0_0000;

const STACK_SIZE: usize = 1 << 20;

const ECALL: u32 = 0x73;

/// A machine at a word, which is followed by zeros.
fn machine_at(
    alloc: Global,
    word: u32,
    base: u32,
    size: usize,
) -> Result<State<FlatMemory>, NoMemory>
    requires base { base % 4096 ≡ 0 }
    requires size { size % 4096 ≡ 0 }
    requires end { base + size ≤ 2 ^ 32 }
    ensures { IfOk result (λ s. s.place ≡ 0) }
{
    let bytes = Bytes::from_vec(vec![in alloc; 0; size]?);
    let mut memory = FlatMemory::from_areas(alloc, &[Area { base, bytes }])?;
    let _ = memory.store32(base, word);
    Ok(State {
        regs: Regs::start(base),
        memory,
        place: 0,
        heap: Heap {
            start: 0,
            size: 0,
            brk: 0,
        },
    })
}

/// The word of an operation on a1 and a2, with the value that a0 gets (for the divisions and the high products the
/// values of the manual's tables).
#[test]
fn computes_operations(rt: HostRuntime) -> Result<(), Fail> {
    for (word, a1, a2, want) in [
        (0x02C5_C533, 7, 0, 0xFFFF_FFFF), // div
        (0x02C5_C533, 0x8000_0000, 0xFFFF_FFFF, 0x8000_0000), // div
        (0x02C5_C533, 0xFFFF_FFF9, 2, 0xFFFF_FFFD), // div
        (0x02C5_E533, 7, 0, 7), // rem
        (0x02C5_E533, 0xFFFF_FFF9, 2, 0xFFFF_FFFF), // rem
        (0x02C5_E533, 0x8000_0000, 0xFFFF_FFFF, 0), // rem
        (0x02C5_9533, 0xFFFF_FFFF, 0xFFFF_FFFF, 0), // mulh
        (0x02C5_A533, 0xFFFF_FFFF, 0xFFFF_FFFF, 0xFFFF_FFFF), // mulhsu
        (0x02C5_B533, 0xFFFF_FFFF, 0xFFFF_FFFF, 0xFFFF_FFFE), // mulhu
        (0x40C5_D533, 0x8000_0000, 33, 0xC000_0000), // sra
        (0x00C5_A533, 0xFFFF_FFFF, 1, 1), // slt
        (0x00C5_B533, 0xFFFF_FFFF, 1, 0), // sltu
    ] {
        let mut state = machine_at(rt.alloc(), word, CODE, CODE_SIZE)?;
        state.regs.set(11, a1);
        state.regs.set(12, a2);
        assert_eq!(rt; step(&mut state, b"".as_slice(), false), Stepped::Next);
        assert_eq!(rt; state.regs.get(10), want, "{word:08x} of {a1} and {a2}");
        assert_eq!(rt; state.regs.pc(), CODE + 4);
    }
    Ok(())
}

fn decoded_at<M: Memory>(state: &State<M>) -> Option<Decoded>
    ensures { IfSome result (λ decoded. StandsAt (M.bytes state.now.memory) state.now.regs.pc (instr_of decoded)) }
{
    let word = state.memory.load32(state.regs.pc())?;
    Some(Decoded::of(decode(word)?))
}

/// The word of an instruction that is carried out in its decoded form, and a0 and pc after it. Before it a0 is 0, a1 the
/// address of the word, and a2 one less.
#[test]
fn carries_out_decoded_instructions(rt: HostRuntime) -> Result<(), Fail> {
    for (word, a0, pc) in [
        (0x1234_5537, 0x1234_5000, CODE + 4), // lui a0, 0x12345
        (0x0000_1517, CODE + 0x1000, CODE + 4), // auipc a0, 1
        (0x0080_056F, CODE + 4, CODE + 8), // jal a0, 8
        (0x0015_8567, CODE + 4, CODE), // jalr a0, 1(a1)
        (0x00C5_9463, 0, CODE + 8), // bne a1, a2, 8
        (0x0005_D503, 0xD503, CODE + 4), // lhu a0, 0(a1)
        (0xFFF5_8513, CODE - 1, CODE + 4), // addi a0, a1, -1
        (0x40C5_8533, 1, CODE + 4), // sub a0, a1, a2
        (0x0FF0_000F, 0, CODE + 4), // fence
    ] {
        let mut state = machine_at(rt.alloc(), word, CODE, CODE_SIZE)?;
        state.regs.set(11, CODE);
        state.regs.set(12, CODE - 1);
        let Some(decoded) = decoded_at(&state) else {
            return Err(Fail::new("not decoded"));
        };
        assert_eq!(rt;
            step_decoded(decoded, &mut state.regs, &state.memory),
            RegisterStep::Next,
            "{word:08x}"
        );
        assert_eq!(rt; state.regs.get(10), a0, "{word:08x}");
        assert_eq!(rt; state.regs.pc(), pc, "{word:08x}");
    }
    Ok(())
}

/// The word of an instruction and where its program traps, after two instructions at most.
#[test]
fn traps_by_the_table(rt: HostRuntime) -> Result<(), Fail> {
    for (word, trap, pc) in [
        (0x0000_1163, Trap::Illegal, CODE + 4), // bne x0, x0, 2: not taken
        (0x0020_006F, Trap::Misaligned, CODE), // jal x0, 2
        (0x0000_2503, Trap::LoadUnmapped, CODE), // lw a0, 0(x0)
        (0x0000_2023, Trap::StoreUnmapped, CODE), // sw x0, 0(x0)
        (0x0010_0073, Trap::Breakpoint, CODE), // ebreak
        (0x0000_0067, Trap::FetchUnmapped, 0), // jalr x0, 0(x0)
    ] {
        let mut state = machine_at(rt.alloc(), word, CODE, CODE_SIZE)?;
        let mut stepped = step(&mut state, b"".as_slice(), false);
        if stepped == Stepped::Next {
            stepped = step(&mut state, b"".as_slice(), false);
        }
        assert_eq!(rt; stepped, Stepped::Ends(End::Trap(trap, pc)), "{word:08x}");
    }
    Ok(())
}

/// A call by its number and arguments, what the step answers, and a0 after it.
#[test]
fn calls_services(rt: HostRuntime) -> Result<(), Fail> {
    let sp = 0x7FFF_FF00;
    for (number, a0, a1, a2, want, after) in [
        (
            64,
            1,
            STACK,
            1_048_577,
            Stepped::Wrote {
                stream: 1,
                at: STACK,
                count: 1_048_576,
            },
            1_048_576,
        ),
        (64, 1, STACK + 1, 1_048_576, Stepped::Next, -14),
        (63, 0, 0, 0, Stepped::Next, 0),
        (
            64,
            2,
            sp,
            1,
            Stepped::Wrote {
                stream: 2,
                at: sp,
                count: 1,
            },
            1,
        ),
        (64, 3, sp, 1, Stepped::Next, -9),
        (999, 0, 0, 0, Stepped::Next, -38),
        (93, 7, 0, 0, Stepped::Ends(End::Exit(7)), 7),
    ] {
        let mut state = machine_at(rt.alloc(), ECALL, STACK, STACK_SIZE)?;
        state.regs.set(17, number);
        state.regs.set(10, a0);
        state.regs.set(11, a1);
        state.regs.set(12, a2);
        assert_eq!(rt;
            step(&mut state, b"".as_slice(), false),
            want,
            "service {number}"
        );
        assert_eq!(rt; state.regs.get(10).cast_signed(), after, "service {number}");
    }
    Ok(())
}

/// The calls of a dual region: number, `fast`, whether the state is at FastTrack and at EndDualTrack, and a0, which was
/// 9, after the step.
#[test]
fn opens_and_closes_regions(rt: HostRuntime) -> Result<(), Fail> {
    for (number, fast, opens, closes, after) in [
        (2000, false, true, false, 0),
        (2000, true, true, false, 1),
        (2001, true, false, true, 9),
    ] {
        let mut state = machine_at(rt.alloc(), ECALL, CODE, CODE_SIZE)?;
        state.regs.set(17, number);
        state.regs.set(10, 9);
        assert_eq!(rt; at_fast(&state), opens);
        assert_eq!(rt; at_end(&state), closes);
        assert_eq!(rt; step(&mut state, b"".as_slice(), fast), Stepped::Next);
        assert_eq!(rt; state.regs.get(10), after);
    }
    Ok(())
}
