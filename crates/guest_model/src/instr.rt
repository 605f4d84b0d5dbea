//! The instructions of RV32I and of the M extension (RISC-V Unprivileged ISA, chapters RV32I and M).

/// The two instructions with an upper immediate.
#[derive(Debug, Clone, Copy, PartialEq, Eq)]
pub enum UpperOp {
    Lui,
    Auipc,
}

/// The condition of a branch on its two registers.
#[derive(Debug, Clone, Copy, PartialEq, Eq)]
pub enum Cond {
    Eq,
    Ne,
    Lt,
    Ge,
    Ltu,
    Geu,
}

/// How many bytes a load reads, and whether it extends them by their sign; `Bu` and `Hu` do not.
#[derive(Debug, Clone, Copy, PartialEq, Eq)]
pub enum LoadWidth {
    B,
    H,
    W,
    Bu,
    Hu,
}

/// How many bytes a store writes.
#[derive(Debug, Clone, Copy, PartialEq, Eq)]
pub enum StoreWidth {
    B,
    H,
    W,
}

/// The operations of a register and an immediate.
#[derive(Debug, Clone, Copy, PartialEq, Eq)]
pub enum ImmOp {
    Add,
    Slt,
    Sltu,
    Xor,
    Or,
    And,
    Sll,
    Srl,
    Sra,
}

/// The operations of two registers.
#[derive(Debug, Clone, Copy, PartialEq, Eq)]
pub enum RegOp {
    Add,
    Sub,
    Sll,
    Slt,
    Sltu,
    Xor,
    Srl,
    Sra,
    Or,
    And,
    Mul,
    Mulh,
    Mulhsu,
    Mulhu,
    Div,
    Divu,
    Rem,
    Remu,
}

/// One instruction. Registers are numbers below 32; `offset` is in bytes. The immediate of a shift is 0 to 31, that
/// of `Upper` has its twelve low bits clear.
#[derive(Debug, Clone, Copy, PartialEq, Eq)]
pub enum Instr {
    Upper {
        op: UpperOp,
        rd: u8,
        imm: u32,
    },
    Jal {
        rd: u8,
        offset: i32,
    },
    Jalr {
        rd: u8,
        rs1: u8,
        offset: i32,
    },
    Branch {
        cond: Cond,
        rs1: u8,
        rs2: u8,
        offset: i32,
    },
    Load {
        width: LoadWidth,
        rd: u8,
        rs1: u8,
        offset: i32,
    },
    Store {
        width: StoreWidth,
        rs1: u8,
        rs2: u8,
        offset: i32,
    },
    OpImm {
        op: ImmOp,
        rd: u8,
        rs1: u8,
        imm: i32,
    },
    Op {
        op: RegOp,
        rd: u8,
        rs1: u8,
        rs2: u8,
    },
    Fence,
    Ecall,
    Ebreak,
}
