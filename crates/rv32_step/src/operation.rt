//! One code for each operation.

ghost use Rattle.std.specs.Prelude.{◌≡◌, ℕ, ℤ};
ghost use Rattle.guest_model.specs.Word.{word_of};
ghost use Rattle.guest_model.specs.declared.instr.Instr.TheVariants.{Upper, Branch, Load, Store, OpImm, Op};
ghost use Rattle.rv32_step.specs.Decoded.{by_operation};

use guest_model::{Cond, ImmOp, LoadWidth, RegOp, StoreWidth, UpperOp};

/// The operations of RV32I and of the M extension, by the names of the ISA manual's listings.
#[derive(Debug, Clone, Copy, PartialEq, Eq)]
pub enum Operation {
    Lui,
    Auipc,
    Jal,
    Jalr,
    Beq,
    Bne,
    Blt,
    Bge,
    Bltu,
    Bgeu,
    Lb,
    Lh,
    Lw,
    Lbu,
    Lhu,
    Sb,
    Sh,
    Sw,
    Addi,
    Slti,
    Sltiu,
    Xori,
    Ori,
    Andi,
    Slli,
    Srli,
    Srai,
    Add,
    Sub,
    Sll,
    Slt,
    Sltu,
    Xor,
    Srl,
    Sra,
    Or,
    And,
    Mul,
    Mulh,
    Mulhsu,
    Mulhu,
    Div,
    Divu,
    Rem,
    Remu,
    Fence,
    Ecall,
    Ebreak,
}

/// The operation of an upper immediate.
pub fn upper(op: UpperOp) -> Operation
    ensures { (rd rs1 rs2 : ℕ) (imm : ℤ) → by_operation result rd rs1 rs2 imm ≡ Upper op rd (word_of imm) }
{
    match op {
        UpperOp::Lui => Operation::Lui,
        UpperOp::Auipc => Operation::Auipc,
    }
}

/// The branch on this condition.
pub fn branch(op: Cond) -> Operation
    ensures { (rd rs1 rs2 : ℕ) (imm : ℤ) → by_operation result rd rs1 rs2 imm ≡ Branch op rs1 rs2 imm }
{
    match op {
        Cond::Eq => Operation::Beq,
        Cond::Ne => Operation::Bne,
        Cond::Lt => Operation::Blt,
        Cond::Ge => Operation::Bge,
        Cond::Ltu => Operation::Bltu,
        Cond::Geu => Operation::Bgeu,
    }
}

/// The load of this width.
pub fn load(op: LoadWidth) -> Operation
    ensures { (rd rs1 rs2 : ℕ) (imm : ℤ) → by_operation result rd rs1 rs2 imm ≡ Load op rd rs1 imm }
{
    match op {
        LoadWidth::B => Operation::Lb,
        LoadWidth::H => Operation::Lh,
        LoadWidth::W => Operation::Lw,
        LoadWidth::Bu => Operation::Lbu,
        LoadWidth::Hu => Operation::Lhu,
    }
}

/// The store of this width.
pub fn store(op: StoreWidth) -> Operation
    ensures { (rd rs1 rs2 : ℕ) (imm : ℤ) → by_operation result rd rs1 rs2 imm ≡ Store op rs1 rs2 imm }
{
    match op {
        StoreWidth::B => Operation::Sb,
        StoreWidth::H => Operation::Sh,
        StoreWidth::W => Operation::Sw,
    }
}

/// The operation of a register and an immediate.
pub fn on_immediate(op: ImmOp) -> Operation
    ensures { (rd rs1 rs2 : ℕ) (imm : ℤ) → by_operation result rd rs1 rs2 imm ≡ OpImm op rd rs1 imm }
{
    match op {
        ImmOp::Add => Operation::Addi,
        ImmOp::Slt => Operation::Slti,
        ImmOp::Sltu => Operation::Sltiu,
        ImmOp::Xor => Operation::Xori,
        ImmOp::Or => Operation::Ori,
        ImmOp::And => Operation::Andi,
        ImmOp::Sll => Operation::Slli,
        ImmOp::Srl => Operation::Srli,
        ImmOp::Sra => Operation::Srai,
    }
}

/// The operation of two registers.
pub fn on_registers(op: RegOp) -> Operation
    ensures { (rd rs1 rs2 : ℕ) (imm : ℤ) → by_operation result rd rs1 rs2 imm ≡ Op op rd rs1 rs2 }
{
    match op {
        RegOp::Add => Operation::Add,
        RegOp::Sub => Operation::Sub,
        RegOp::Sll => Operation::Sll,
        RegOp::Slt => Operation::Slt,
        RegOp::Sltu => Operation::Sltu,
        RegOp::Xor => Operation::Xor,
        RegOp::Srl => Operation::Srl,
        RegOp::Sra => Operation::Sra,
        RegOp::Or => Operation::Or,
        RegOp::And => Operation::And,
        RegOp::Mul => Operation::Mul,
        RegOp::Mulh => Operation::Mulh,
        RegOp::Mulhsu => Operation::Mulhsu,
        RegOp::Mulhu => Operation::Mulhu,
        RegOp::Div => Operation::Div,
        RegOp::Divu => Operation::Divu,
        RegOp::Rem => Operation::Rem,
        RegOp::Remu => Operation::Remu,
    }
}
