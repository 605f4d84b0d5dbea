ghost use Rattle.std.specs.Prelude.{◌≡◌, ◌<◌};
ghost use Rattle.guest_model.specs.InstructionTable.{instr};
ghost use Rattle.rv32_asm.specs.Encoding.{upper_opcode, cond_code, load_code, store_code, imm_op_code, shift_kind, reg_op_code, reg_op_kind, encoding, IsInRange};

use crate::formats::{b_type, i_type, j_type, r_type, s_type, u_type};
use guest_model::{Cond, ImmOp, Instr, LoadWidth, RegOp, StoreWidth, UpperOp};

fn upper_opcode(op: UpperOp) -> u32
    ensures value { result ≡ upper_opcode op }
    ensures bound { result < 128 }
{
    match op {
        UpperOp::Lui => 0x37,
        UpperOp::Auipc => 0x17,
    }
}

fn cond_code(cond: Cond) -> u32
    ensures value { result ≡ cond_code cond }
    ensures bound { result < 8 }
{
    match cond {
        Cond::Eq => 0,
        Cond::Ne => 1,
        Cond::Lt => 4,
        Cond::Ge => 5,
        Cond::Ltu => 6,
        Cond::Geu => 7,
    }
}

fn load_code(width: LoadWidth) -> u32
    ensures value { result ≡ load_code width }
    ensures bound { result < 8 }
{
    match width {
        LoadWidth::B => 0,
        LoadWidth::H => 1,
        LoadWidth::W => 2,
        LoadWidth::Bu => 4,
        LoadWidth::Hu => 5,
    }
}

fn store_code(width: StoreWidth) -> u32
    ensures value { result ≡ store_code width }
    ensures bound { result < 8 }
{
    match width {
        StoreWidth::B => 0,
        StoreWidth::H => 1,
        StoreWidth::W => 2,
    }
}

fn imm_op_code(op: ImmOp) -> u32
    ensures value { result ≡ imm_op_code op }
    ensures bound { result < 8 }
{
    match op {
        ImmOp::Add => 0,
        ImmOp::Sll => 1,
        ImmOp::Slt => 2,
        ImmOp::Sltu => 3,
        ImmOp::Xor => 4,
        ImmOp::Srl | ImmOp::Sra => 5,
        ImmOp::Or => 6,
        ImmOp::And => 7,
    }
}

/// What stands above the amount in the immediate of a shift: funct7.
fn shift_kind(op: ImmOp) -> u32
    ensures { result ≡ shift_kind op }
{
    match op {
        ImmOp::Sra => 0x20 << 5,
        _ => 0,
    }
}

fn reg_op_code(op: RegOp) -> u32
    ensures value { result ≡ reg_op_code op }
    ensures bound { result < 8 }
{
    match op {
        RegOp::Add | RegOp::Sub | RegOp::Mul => 0,
        RegOp::Sll | RegOp::Mulh => 1,
        RegOp::Slt | RegOp::Mulhsu => 2,
        RegOp::Sltu | RegOp::Mulhu => 3,
        RegOp::Xor | RegOp::Div => 4,
        RegOp::Srl | RegOp::Sra | RegOp::Divu => 5,
        RegOp::Or | RegOp::Rem => 6,
        RegOp::And | RegOp::Remu => 7,
    }
}

fn reg_op_kind(op: RegOp) -> u32
    ensures value { result ≡ reg_op_kind op }
    ensures bound { result < 128 }
{
    match op {
        RegOp::Sub | RegOp::Sra => 0x20,
        RegOp::Mul | RegOp::Mulh | RegOp::Mulhsu | RegOp::Mulhu => 1,
        RegOp::Div | RegOp::Divu | RegOp::Rem | RegOp::Remu => 1,
        _ => 0,
    }
}

fn immediate_op(op: ImmOp, rd: u8, rs1: u8, imm: i32) -> u32
    requires { IsInRange (Instr.OpImm op rd rs1 imm) }
    ensures { result ≡ encoding (Instr.OpImm op rd rs1 imm) }
{
    let imm = imm.cast_unsigned().wrapping_add(shift_kind(op));
    i_type(0x13, imm_op_code(op), rd, rs1, imm)
}

fn register_op(op: RegOp, rd: u8, rs1: u8, rs2: u8) -> u32
    requires { IsInRange (Instr.Op op rd rs1 rs2) }
    ensures { result ≡ encoding (Instr.Op op rd rs1 rs2) }
{
    r_type(0x33, reg_op_code(op), rd, rs1, rs2, reg_op_kind(op))
}

fn word(instruction: Instr) -> u32
    requires { IsInRange instruction }
    ensures { result ≡ encoding instruction }
{
    match instruction {
        Instr::Upper { op, rd, imm } => u_type(upper_opcode(op), rd, imm),
        Instr::Jal { rd, offset } => j_type(0x6F, rd, offset.cast_unsigned()),
        Instr::Jalr { rd, rs1, offset } => i_type(0x67, 0, rd, rs1, offset.cast_unsigned()),
        Instr::Branch {
            cond,
            rs1,
            rs2,
            offset,
        } => b_type(0x63, cond_code(cond), rs1, rs2, offset.cast_unsigned()),
        Instr::Load {
            width,
            rd,
            rs1,
            offset,
        } => i_type(0x03, load_code(width), rd, rs1, offset.cast_unsigned()),
        Instr::Store {
            width,
            rs1,
            rs2,
            offset,
        } => s_type(0x23, store_code(width), rs1, rs2, offset.cast_unsigned()),
        Instr::OpImm { op, rd, rs1, imm } => immediate_op(op, rd, rs1, imm),
        Instr::Op {
            op: operation,
            rd,
            rs1,
            rs2,
        } => register_op(operation, rd, rs1, rs2),
        Instr::Fence => 0x0000_000F,
        Instr::Ecall => 0x0000_0073,
        Instr::Ebreak => 0x0010_0073,
    }
}

/// The word of an instruction whose fields are in range: registers below 32 and an immediate that the instruction's
/// format can give (RISC-V Unprivileged ISA, chapter "RV32/64G Instruction Set Listings").
///
/// The instruction table reads the word back as this instruction. FENCE is written as 0x0000000F.
pub fn encode(instruction: Instr) -> u32
    requires { IsInRange instruction }
    ensures value { result ≡ encoding instruction }
    ensures reads_back { instr result ≡ Some instruction }
{
    word(instruction)
}
