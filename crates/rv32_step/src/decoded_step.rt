//! The step of a decoded instruction, by one jump.

ghost use Rattle.std.specs.Prelude.{ℕ};
ghost use Rattle.guest_model.specs.declared.state.Heap.{Heap};
ghost use Rattle.guest_model.specs.declared.instr.Instr.TheVariants.{Upper, Branch, Load, Store, OpImm, Op};
ghost use Rattle.guest_model.specs.Word.{word_of};
ghost use Rattle.guest_calls.specs.Serves.{state_of};
ghost use Rattle.rv32_step.specs.Decoded.{instr_of};
ghost use Rattle.rv32_step.specs.RegisterSteps.{StepsRegisters, StandsAt};

use crate::decoded::Decoded;
use crate::on_registers::{RegisterStep, take};
use crate::operation::Operation;
use guest_model::{Cond, ImmOp, Instr, LoadWidth, Memory, RegOp, Regs, StoreWidth, UpperOp};

#[inline(always)]
fn upper<M: Memory>(op: UpperOp, decoded: Decoded, regs: &mut Regs, memory: &M) -> RegisterStep
    requires { StandsAt (M.bytes memory.now) regs.old.pc (Upper op decoded.rd (word_of decoded.imm)) }
    ensures { (place : ℕ) (heap : Heap) → StepsRegisters (state_of (M.bytes memory.now) place heap regs.old) regs.new result }
{
    let Decoded { rd, imm, .. } = decoded;
    take(
        Instr::Upper {
            op,
            rd,
            imm: imm.cast_unsigned(),
        },
        regs,
        memory,
    )
}

#[inline(always)]
fn branch<M: Memory>(op: Cond, decoded: Decoded, regs: &mut Regs, memory: &M) -> RegisterStep
    requires { StandsAt (M.bytes memory.now) regs.old.pc (Branch op decoded.rs1 decoded.rs2 decoded.imm) }
    ensures { (place : ℕ) (heap : Heap) → StepsRegisters (state_of (M.bytes memory.now) place heap regs.old) regs.new result }
{
    let Decoded { rs1, rs2, imm, .. } = decoded;
    take(
        Instr::Branch {
            cond: op,
            rs1,
            rs2,
            offset: imm,
        },
        regs,
        memory,
    )
}

#[inline(always)]
fn load<M: Memory>(op: LoadWidth, decoded: Decoded, regs: &mut Regs, memory: &M) -> RegisterStep
    requires { StandsAt (M.bytes memory.now) regs.old.pc (Load op decoded.rd decoded.rs1 decoded.imm) }
    ensures { (place : ℕ) (heap : Heap) → StepsRegisters (state_of (M.bytes memory.now) place heap regs.old) regs.new result }
{
    let Decoded { rd, rs1, imm, .. } = decoded;
    take(
        Instr::Load {
            width: op,
            rd,
            rs1,
            offset: imm,
        },
        regs,
        memory,
    )
}

#[inline(always)]
fn store<M: Memory>(op: StoreWidth, decoded: Decoded, regs: &mut Regs, memory: &M) -> RegisterStep
    requires { StandsAt (M.bytes memory.now) regs.old.pc (Store op decoded.rs1 decoded.rs2 decoded.imm) }
    ensures { (place : ℕ) (heap : Heap) → StepsRegisters (state_of (M.bytes memory.now) place heap regs.old) regs.new result }
{
    let Decoded { rs1, rs2, imm, .. } = decoded;
    take(
        Instr::Store {
            width: op,
            rs1,
            rs2,
            offset: imm,
        },
        regs,
        memory,
    )
}

#[inline(always)]
fn on_immediate<M: Memory>(op: ImmOp, decoded: Decoded, regs: &mut Regs, memory: &M) -> RegisterStep
    requires { StandsAt (M.bytes memory.now) regs.old.pc (OpImm op decoded.rd decoded.rs1 decoded.imm) }
    ensures { (place : ℕ) (heap : Heap) → StepsRegisters (state_of (M.bytes memory.now) place heap regs.old) regs.new result }
{
    let Decoded { rd, rs1, imm, .. } = decoded;
    take(Instr::OpImm { op, rd, rs1, imm }, regs, memory)
}

#[inline(always)]
fn on_registers<M: Memory>(op: RegOp, decoded: Decoded, regs: &mut Regs, memory: &M) -> RegisterStep
    requires { StandsAt (M.bytes memory.now) regs.old.pc (Op op decoded.rd decoded.rs1 decoded.rs2) }
    ensures { (place : ℕ) (heap : Heap) → StepsRegisters (state_of (M.bytes memory.now) place heap regs.old) regs.new result }
{
    let Decoded { rd, rs1, rs2, .. } = decoded;
    take(Instr::Op { op, rd, rs1, rs2 }, regs, memory)
}

/// Carries out a decoded instruction, which stands at pc, where it changes registers alone: any one but stores and ECALL.
///
/// A row for each operation, so that the work of each is known where it is compiled, and no second tag is looked at.
#[inline(always)]
pub fn step_decoded<M: Memory>(decoded: Decoded, regs: &mut Regs, memory: &M) -> RegisterStep
    requires { StandsAt (M.bytes memory.now) regs.old.pc (instr_of decoded) }
    ensures { (place : ℕ) (heap : Heap) → StepsRegisters (state_of (M.bytes memory.now) place heap regs.old) regs.new result }
{
    let Decoded { rd, rs1, imm, .. } = decoded;
    match decoded.operation {
        Operation::Lui => upper(UpperOp::Lui, decoded, regs, memory),
        Operation::Auipc => upper(UpperOp::Auipc, decoded, regs, memory),
        Operation::Jal => take(Instr::Jal { rd, offset: imm }, regs, memory),
        Operation::Jalr => take(
            Instr::Jalr {
                rd,
                rs1,
                offset: imm,
            },
            regs,
            memory,
        ),
        Operation::Beq => branch(Cond::Eq, decoded, regs, memory),
        Operation::Bne => branch(Cond::Ne, decoded, regs, memory),
        Operation::Blt => branch(Cond::Lt, decoded, regs, memory),
        Operation::Bge => branch(Cond::Ge, decoded, regs, memory),
        Operation::Bltu => branch(Cond::Ltu, decoded, regs, memory),
        Operation::Bgeu => branch(Cond::Geu, decoded, regs, memory),
        Operation::Lb => load(LoadWidth::B, decoded, regs, memory),
        Operation::Lh => load(LoadWidth::H, decoded, regs, memory),
        Operation::Lw => load(LoadWidth::W, decoded, regs, memory),
        Operation::Lbu => load(LoadWidth::Bu, decoded, regs, memory),
        Operation::Lhu => load(LoadWidth::Hu, decoded, regs, memory),
        Operation::Sb => store(StoreWidth::B, decoded, regs, memory),
        Operation::Sh => store(StoreWidth::H, decoded, regs, memory),
        Operation::Sw => store(StoreWidth::W, decoded, regs, memory),
        Operation::Addi => on_immediate(ImmOp::Add, decoded, regs, memory),
        Operation::Slti => on_immediate(ImmOp::Slt, decoded, regs, memory),
        Operation::Sltiu => on_immediate(ImmOp::Sltu, decoded, regs, memory),
        Operation::Xori => on_immediate(ImmOp::Xor, decoded, regs, memory),
        Operation::Ori => on_immediate(ImmOp::Or, decoded, regs, memory),
        Operation::Andi => on_immediate(ImmOp::And, decoded, regs, memory),
        Operation::Slli => on_immediate(ImmOp::Sll, decoded, regs, memory),
        Operation::Srli => on_immediate(ImmOp::Srl, decoded, regs, memory),
        Operation::Srai => on_immediate(ImmOp::Sra, decoded, regs, memory),
        Operation::Add => on_registers(RegOp::Add, decoded, regs, memory),
        Operation::Sub => on_registers(RegOp::Sub, decoded, regs, memory),
        Operation::Sll => on_registers(RegOp::Sll, decoded, regs, memory),
        Operation::Slt => on_registers(RegOp::Slt, decoded, regs, memory),
        Operation::Sltu => on_registers(RegOp::Sltu, decoded, regs, memory),
        Operation::Xor => on_registers(RegOp::Xor, decoded, regs, memory),
        Operation::Srl => on_registers(RegOp::Srl, decoded, regs, memory),
        Operation::Sra => on_registers(RegOp::Sra, decoded, regs, memory),
        Operation::Or => on_registers(RegOp::Or, decoded, regs, memory),
        Operation::And => on_registers(RegOp::And, decoded, regs, memory),
        Operation::Mul => on_registers(RegOp::Mul, decoded, regs, memory),
        Operation::Mulh => on_registers(RegOp::Mulh, decoded, regs, memory),
        Operation::Mulhsu => on_registers(RegOp::Mulhsu, decoded, regs, memory),
        Operation::Mulhu => on_registers(RegOp::Mulhu, decoded, regs, memory),
        Operation::Div => on_registers(RegOp::Div, decoded, regs, memory),
        Operation::Divu => on_registers(RegOp::Divu, decoded, regs, memory),
        Operation::Rem => on_registers(RegOp::Rem, decoded, regs, memory),
        Operation::Remu => on_registers(RegOp::Remu, decoded, regs, memory),
        Operation::Fence => take(Instr::Fence, regs, memory),
        Operation::Ecall => take(Instr::Ecall, regs, memory),
        Operation::Ebreak => take(Instr::Ebreak, regs, memory),
    }
}
