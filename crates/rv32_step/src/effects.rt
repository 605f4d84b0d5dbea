//! What the instructions do to the registers and to memory.

ghost use Rattle.std.specs.Prelude.{◌≡◌, ◌<◌};
ghost use Rattle.guest_model.specs.Word.{word_of, sum};
ghost use Rattle.guest_model.specs.Registers.{next, with_pc, with_result};
ghost use Rattle.guest_model.specs.ByteMap.{Stores, Keeps};
ghost use Rattle.guest_model.specs.InstructionTable.{FieldsFit};
ghost use Rattle.guest_model.specs.Effect.{jump, branch, address, load_value, load_effect, store_bytes, regs_effect};
ghost use Rattle.rv32_step.specs.Moves.{Moves, ChangesRegisters};

use crate::arithmetic::{imm_value, op_value, taken, upper_value};
use guest_model::{Instr, LoadWidth, Memory, Regs, StoreFault, StoreWidth, Trap};

/// Goes on to the next instruction.
#[inline]
pub fn advance(regs: &mut Regs)
    ensures { regs.new ≡ with_pc regs.old (next regs.old) }
{
    regs.set_pc(regs.pc().wrapping_add(4));
}

/// Puts a result into `rd` and goes on.
#[inline]
pub fn finish(rd: u8, value: u32, regs: &mut Regs)
    requires { rd < 32 }
    ensures { regs.new ≡ with_result regs.old rd value }
{
    let next = regs.pc().wrapping_add(4);
    regs.set(rd, value);
    regs.set_pc(next);
}

/// The address of a load, of a store or of a jump through a register.
#[inline]
pub fn address(regs: &Regs, rs1: u8, offset: i32) -> u32
    requires { rs1 < 32 }
    ensures { result ≡ address regs.now rs1 offset }
{
    regs.get(rs1).wrapping_add(offset.cast_unsigned())
}

#[inline]
fn jump(rd: u8, target: u32, regs: &mut Regs) -> Result<(), Trap>
    requires { rd < 32 }
    ensures { Moves (jump regs.old rd target) regs.old regs.new result }
{
    if target % 4 != 0 {
        return Err(Trap::Misaligned);
    }
    let next = regs.pc().wrapping_add(4);
    regs.set(rd, next);
    regs.set_pc(target);
    Ok(())
}

#[inline]
fn branch(is_taken: bool, offset: i32, regs: &mut Regs) -> Result<(), Trap>
    ensures { Moves (branch regs.old is_taken (sum regs.old.pc (word_of offset))) regs.old regs.new result }
{
    if !is_taken {
        advance(regs);
        return Ok(());
    }
    let target = regs.pc().wrapping_add(offset.cast_unsigned());
    jump(0, target, regs)
}

#[inline(always)]
fn load_value<M: Memory>(width: LoadWidth, at: u32, memory: &M) -> Option<u32>
    ensures { result ≡ load_value width (M.bytes memory.now) at }
{
    match width {
        LoadWidth::B => memory
            .load8(at)
            .map(|v| (v.cast_signed() as i32).cast_unsigned()),
        LoadWidth::H => memory
            .load16(at)
            .map(|v| (v.cast_signed() as i32).cast_unsigned()),
        LoadWidth::W => memory.load32(at),
        LoadWidth::Bu => memory.load8(at).map(|v| v as u32),
        LoadWidth::Hu => memory.load16(at).map(|v| v as u32),
    }
}

#[inline(always)]
fn load<M: Memory>(
    width: LoadWidth,
    rd: u8,
    at: u32,
    regs: &mut Regs,
    memory: &M,
) -> Result<(), Trap>
    requires { rd < 32 }
    ensures { Moves (load_effect regs.old rd (load_value width (M.bytes memory.now) at)) regs.old regs.new result }
{
    let Some(value) = load_value(width, at, memory) else {
        return Err(Trap::LoadUnmapped);
    };
    finish(rd, value, regs);
    Ok(())
}

/// Carries out an instruction that changes registers alone: every one but stores and ECALL.
#[inline(always)]
pub fn change_registers<M: Memory>(instr: Instr, regs: &mut Regs, memory: &M) -> Result<(), Trap>
    requires fit { FieldsFit instr }
    requires registers { ChangesRegisters instr }
    ensures { Moves (regs_effect instr regs.old (M.bytes memory.now)) regs.old regs.new result }
{
    match instr {
        Instr::Upper { op, rd, imm } => {
            finish(rd, upper_value(op, regs.pc(), imm), regs);
            Ok(())
        }
        Instr::Jal { rd, offset } => {
            let target = regs.pc().wrapping_add(offset.cast_unsigned());
            jump(rd, target, regs)
        }
        Instr::Jalr { rd, rs1, offset } => {
            let target = address(regs, rs1, offset);
            jump(rd, target & 0xFFFF_FFFE, regs)
        }
        Instr::Branch {
            cond,
            rs1,
            rs2,
            offset,
        } => { branch(taken(cond, regs.get(rs1), regs.get(rs2)), offset, regs) }
        Instr::Load {
            width,
            rd,
            rs1,
            offset,
        } => load(width, rd, address(regs, rs1, offset), regs, memory),
        Instr::OpImm { op, rd, rs1, imm } => {
            finish(rd, imm_value(op, regs.get(rs1), imm), regs);
            Ok(())
        }
        Instr::Op { op, rd, rs1, rs2 } => {
            finish(rd, op_value(op, regs.get(rs1), regs.get(rs2)), regs);
            Ok(())
        }
        Instr::Ebreak => Err(Trap::Breakpoint),
        Instr::Fence => {
            advance(regs);
            Ok(())
        }
        Instr::Ecall | Instr::Store { .. } => unreachable!(),
    }
}

/// Stores the low bytes of a word.
#[inline(always)]
pub fn store_bytes<M: Memory>(
    width: StoreWidth,
    at: u32,
    value: u32,
    memory: &mut M,
) -> Result<(), StoreFault>
    ensures stores { Stores M.REFUSES (M.bytes memory.old) (M.bytes memory.new) at (store_bytes width value) result }
    ensures kept { Keeps (M.written memory.old) (M.bytes memory.old) (M.written memory.new) (M.bytes memory.new) }
{
    match width {
        StoreWidth::B => memory.store8(at, (value & 0xFF) as u8),
        StoreWidth::H => memory.store16(at, (value & 0xFFFF) as u16),
        StoreWidth::W => memory.store32(at, value),
    }
}
