//! The instructions that change registers alone, with a word that was fetched before.

ghost use Rattle.std.specs.Prelude.{◌≡◌, ℕ, List, Bool, Some};
ghost use Rattle.std.specs.Int.{w32};
ghost use Rattle.guest_model.specs.ByteMap.{load};
ghost use Rattle.guest_model.specs.declared.state.Heap.{Heap};
ghost use Rattle.guest_model.specs.InstructionTable.{FieldsFit};
ghost use Rattle.guest_calls.specs.Serves.{state_of};
ghost use Rattle.rv32_step.specs.RegisterSteps.{StepsRegisters, StandsAt};

use crate::effects::change_registers;
use guest_model::{End, Instr, Memory, Regs, Trap};
use rv32_decode::decode;

/// What an instruction did to the registers. After `Ends` and `Other` they are as before.
#[derive(Debug, Clone, Copy, PartialEq, Eq)]
pub enum RegisterStep {
    /// The registers are those of the next state; nothing else changes.
    Next,
    /// The program ends by a trap.
    Ends(End),
    /// A store or ECALL, which isn't carried out yet.
    Other(Instr),
}

/// Carries out the instruction of `word`, the word at pc, where it changes registers alone: any one but stores and
/// ECALL.
#[inline(always)]
pub fn step_registers<M: Memory>(word: u32, regs: &mut Regs, memory: &M) -> RegisterStep
    requires { load w32 (M.bytes memory.now) regs.old.pc ≡ Some word }
    ensures { (place : ℕ) (heap : Heap) → StepsRegisters (state_of (M.bytes memory.now) place heap regs.old) regs.new result }
{
    let Some(instr) = decode(word) else {
        return RegisterStep::Ends(End::Trap(Trap::Illegal, regs.pc()));
    };
    take(instr, regs, memory)
}

/// Carries out this instruction, which stands at pc, where it changes registers alone: any one but stores and ECALL.
#[inline(always)]
pub fn take<M: Memory>(instr: Instr, regs: &mut Regs, memory: &M) -> RegisterStep
    requires fit { FieldsFit instr }
    requires here { StandsAt (M.bytes memory.now) regs.old.pc instr }
    ensures { (place : ℕ) (heap : Heap) → StepsRegisters (state_of (M.bytes memory.now) place heap regs.old) regs.new result }
{
    match instr {
        Instr::Ecall | Instr::Store { .. } => RegisterStep::Other(instr),
        _ => match change_registers(instr, regs, memory) {
            Ok(()) => RegisterStep::Next,
            Err(trap) => RegisterStep::Ends(End::Trap(trap, regs.pc())),
        },
    }
}
