//! Instructions in a form that the loop over them reads at once.

ghost use Rattle.std.specs.Prelude.{◌<◌};

use crate::operation::{self, Operation};
use guest_model::Instr;

/// An instruction by its operation. A field that the operation doesn't have is 0; the immediate of LUI and AUIPC is the
/// word with these bits.
///
/// An `Instr` says the same by two tags, one below the other. This form takes one jump to carry out.
#[derive(Clone, Copy)]
pub struct Decoded {
    pub operation: Operation,
    pub rd: u8,
    pub rs1: u8,
    pub rs2: u8,
    pub imm: i32,
    ghost rd_below: { rd < 32 },
    ghost rs1_below: { rs1 < 32 },
    ghost rs2_below: { rs2 < 32 },
}

impl Decoded {
    ghost use Rattle.std.specs.Prelude.{◌≡◌};
    ghost use Rattle.guest_model.specs.InstructionTable.{FieldsFit};
    ghost use Rattle.rv32_step.specs.Decoded.{instr_of};

    /// This form of an instruction.
    pub fn of(instr: Instr) -> Decoded
        requires { FieldsFit instr }
        ensures { instr_of result ≡ instr }
    {
        let (operation, rd, rs1, rs2, imm) = match instr {
            Instr::Upper { op, rd, imm } => (operation::upper(op), rd, 0, 0, imm.cast_signed()),
            Instr::Jal { rd, offset } => (Operation::Jal, rd, 0, 0, offset),
            Instr::Jalr { rd, rs1, offset } => (Operation::Jalr, rd, rs1, 0, offset),
            Instr::Branch {
                cond,
                rs1,
                rs2,
                offset,
            } => (operation::branch(cond), 0, rs1, rs2, offset),
            Instr::Load {
                width,
                rd,
                rs1,
                offset,
            } => (operation::load(width), rd, rs1, 0, offset),
            Instr::Store {
                width,
                rs1,
                rs2,
                offset,
            } => (operation::store(width), 0, rs1, rs2, offset),
            Instr::OpImm { op, rd, rs1, imm } => (operation::on_immediate(op), rd, rs1, 0, imm),
            Instr::Op { op, rd, rs1, rs2 } => (operation::on_registers(op), rd, rs1, rs2, 0),
            Instr::Fence => (Operation::Fence, 0, 0, 0, 0),
            Instr::Ecall => (Operation::Ecall, 0, 0, 0, 0),
            Instr::Ebreak => (Operation::Ebreak, 0, 0, 0, 0),
        };
        Decoded {
            operation,
            rd,
            rs1,
            rs2,
            imm,
        }
    }
}
