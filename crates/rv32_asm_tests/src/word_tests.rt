//! Words as another assembler gives them, there and back.

use guest_model::{Cond, ImmOp, Instr, LoadWidth, RegOp, StoreWidth, UpperOp};
use rv32_asm::{encode, is_in_range};
use rv32_decode::decode;

fn upper(op: UpperOp, rd: u8, imm: u32) -> Instr {
    Instr::Upper { op, rd, imm }
}

fn jal(rd: u8, offset: i32) -> Instr {
    Instr::Jal { rd, offset }
}

fn jalr(rd: u8, rs1: u8, offset: i32) -> Instr {
    Instr::Jalr { rd, rs1, offset }
}

fn branch(cond: Cond, rs1: u8, rs2: u8, offset: i32) -> Instr {
    Instr::Branch {
        cond,
        rs1,
        rs2,
        offset,
    }
}

fn load(width: LoadWidth, rd: u8, rs1: u8, offset: i32) -> Instr {
    Instr::Load {
        width,
        rd,
        rs1,
        offset,
    }
}

fn store(width: StoreWidth, rs1: u8, rs2: u8, offset: i32) -> Instr {
    Instr::Store {
        width,
        rs1,
        rs2,
        offset,
    }
}

fn op_imm(op: ImmOp, rd: u8, rs1: u8, imm: i32) -> Instr {
    Instr::OpImm { op, rd, rs1, imm }
}

fn op(op: RegOp, rd: u8, rs1: u8, rs2: u8) -> Instr {
    Instr::Op { op, rd, rs1, rs2 }
}

/// Each instruction, at the edges of its immediate, with the word that LLVM's assembler gives it.
#[test]
fn encodes_each_instruction(rt: HostRuntime) {
    let table = [
        (upper(UpperOp::Lui, 31, 0xFFFF_F000), 0xFFFF_FFB7),
        (upper(UpperOp::Lui, 1, 0x1000), 0x0000_10B7),
        (upper(UpperOp::Auipc, 10, 0x8000_0000), 0x8000_0517),
        (upper(UpperOp::Auipc, 0, 0x0), 0x0000_0017),
        (jal(1, -1_048_576), 0x8000_00EF),
        (jal(31, 1_048_574), 0x7FFF_FFEF),
        (jal(0, 2048), 0x0010_006F),
        (jal(5, -2), 0xFFFF_F2EF),
        (jalr(0, 1, -2048), 0x8000_8067),
        (jalr(31, 30, 2047), 0x7FFF_0FE7),
        (branch(Cond::Eq, 1, 31, -4096), 0x81F0_8063),
        (branch(Cond::Eq, 1, 31, 4094), 0x7FF0_8FE3),
        (branch(Cond::Ne, 2, 30, 2048), 0x01E1_10E3),
        (branch(Cond::Ne, 2, 30, -2), 0xFFE1_1FE3),
        (branch(Cond::Lt, 3, 29, -4096), 0x81D1_C063),
        (branch(Cond::Lt, 3, 29, 4094), 0x7FD1_CFE3),
        (branch(Cond::Ge, 4, 28, 2048), 0x01C2_50E3),
        (branch(Cond::Ge, 4, 28, -2), 0xFFC2_5FE3),
        (branch(Cond::Ltu, 5, 27, -4096), 0x81B2_E063),
        (branch(Cond::Ltu, 5, 27, 4094), 0x7FB2_EFE3),
        (branch(Cond::Geu, 6, 26, 2048), 0x01A3_70E3),
        (branch(Cond::Geu, 6, 26, -2), 0xFFA3_7FE3),
        (load(LoadWidth::B, 31, 2, -2048), 0x8001_0F83),
        (load(LoadWidth::H, 30, 3, 2047), 0x7FF1_9F03),
        (load(LoadWidth::W, 29, 4, -2048), 0x8002_2E83),
        (load(LoadWidth::Bu, 28, 5, 2047), 0x7FF2_CE03),
        (load(LoadWidth::Hu, 27, 6, -2048), 0x8003_5D83),
        (store(StoreWidth::B, 2, 31, -2048), 0x81F1_0023),
        (store(StoreWidth::H, 3, 30, 2047), 0x7FE1_9FA3),
        (store(StoreWidth::W, 4, 29, -1), 0xFFD2_2FA3),
        (op_imm(ImmOp::Add, 1, 30, -2048), 0x800F_0093),
        (op_imm(ImmOp::Slt, 2, 29, 2047), 0x7FFE_A113),
        (op_imm(ImmOp::Sltu, 3, 28, -2048), 0x800E_3193),
        (op_imm(ImmOp::Xor, 4, 27, 2047), 0x7FFD_C213),
        (op_imm(ImmOp::Or, 5, 26, -2048), 0x800D_6293),
        (op_imm(ImmOp::And, 6, 25, 2047), 0x7FFC_F313),
        (op_imm(ImmOp::Sll, 7, 31, 0), 0x000F_9393),
        (op_imm(ImmOp::Sll, 7, 31, 31), 0x01FF_9393),
        (op_imm(ImmOp::Srl, 8, 30, 0), 0x000F_5413),
        (op_imm(ImmOp::Srl, 8, 30, 31), 0x01FF_5413),
        (op_imm(ImmOp::Sra, 9, 29, 0), 0x400E_D493),
        (op_imm(ImmOp::Sra, 9, 29, 31), 0x41FE_D493),
        (op(RegOp::Add, 3, 31, 0), 0x000F_81B3),
        (op(RegOp::Sub, 4, 30, 7), 0x407F_0233),
        (op(RegOp::Sll, 5, 29, 14), 0x00EE_92B3),
        (op(RegOp::Slt, 6, 28, 21), 0x015E_2333),
        (op(RegOp::Sltu, 7, 27, 28), 0x01CD_B3B3),
        (op(RegOp::Xor, 8, 26, 3), 0x003D_4433),
        (op(RegOp::Srl, 9, 25, 10), 0x00AC_D4B3),
        (op(RegOp::Sra, 10, 24, 17), 0x411C_5533),
        (op(RegOp::Or, 11, 23, 24), 0x018B_E5B3),
        (op(RegOp::And, 12, 22, 31), 0x01FB_7633),
        (op(RegOp::Mul, 13, 21, 6), 0x026A_86B3),
        (op(RegOp::Mulh, 14, 20, 13), 0x02DA_1733),
        (op(RegOp::Mulhsu, 15, 19, 20), 0x0349_A7B3),
        (op(RegOp::Mulhu, 16, 18, 27), 0x03B9_3833),
        (op(RegOp::Div, 17, 17, 2), 0x0228_C8B3),
        (op(RegOp::Divu, 18, 16, 9), 0x0298_5933),
        (op(RegOp::Rem, 19, 15, 16), 0x0307_E9B3),
        (op(RegOp::Remu, 20, 14, 23), 0x0377_7A33),
        (Instr::Ecall, 0x0000_0073),
        (Instr::Ebreak, 0x0010_0073),
        (Instr::Fence, 0x0000_000F),
    ];
    for (instruction, word) in table {
        assert!(rt; is_in_range(instruction));
        assert_eq!(rt; encode(instruction), word);
        assert_eq!(rt; decode(word), Some(instruction));
    }
}
