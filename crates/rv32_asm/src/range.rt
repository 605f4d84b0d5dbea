//! Which fields an instruction can have.

ghost use Rattle.std.specs.Prelude.{◌≡◌, ◌<◌, ◌↔◌, IsTrue, MatchBool};
ghost use Rattle.rv32_asm.specs.Encoding.{IsShortOffset, IsBranchOffset, IsJumpOffset, IsShiftAmount, is_shift, IsInRange};
ghost use Rattle.rv32_asm.specs.Resolved.{is_branch_offset, is_jump_offset};

use guest_model::{ImmOp, Instr};

/// An immediate of 12 bits.
fn is_short_offset(offset: i32) -> bool
    ensures { IsTrue result ↔ IsShortOffset offset }
{
    offset >= -2048 && offset <= 2047
}

/// Even and within 4 KiB: an offset that a branch can have.
pub fn is_branch_offset(offset: i32) -> bool
    ensures value { result ≡ is_branch_offset offset }
    ensures range { IsTrue result ↔ IsBranchOffset offset }
{
    offset >= -4096 && offset <= 4095 && offset.cast_unsigned() % 2 == 0
}

/// Even and within 1 MiB: an offset that JAL can have.
pub fn is_jump_offset(offset: i32) -> bool
    ensures value { result ≡ is_jump_offset offset }
    ensures range { IsTrue result ↔ IsJumpOffset offset }
{
    offset >= -1_048_576 && offset <= 1_048_575 && offset.cast_unsigned() % 2 == 0
}

fn is_shift(op: ImmOp) -> bool
    ensures { result ≡ is_shift op }
{
    matches!(op, ImmOp::Sll | ImmOp::Srl | ImmOp::Sra)
}

fn is_immediate(op: ImmOp, imm: i32) -> bool
    ensures { IsTrue result ↔ MatchBool (is_shift op) (IsShiftAmount imm) (IsShortOffset imm) }
{
    if is_shift(op) {
        return imm >= 0 && imm <= 31;
    }
    is_short_offset(imm)
}

/// Whether the registers of an instruction are below 32 and its immediate is one that its format can give: then it has
/// a word.
pub fn is_in_range(instruction: Instr) -> bool
    ensures { IsTrue result ↔ IsInRange instruction }
{
    match instruction {
        Instr::Upper { rd, imm, .. } => rd < 32 && imm % 4096 == 0,
        Instr::Jal { rd, offset } => rd < 32 && is_jump_offset(offset),
        Instr::Jalr { rd, rs1, offset } => rd < 32 && rs1 < 32 && is_short_offset(offset),
        Instr::Branch {
            rs1,
            rs2,
            offset,
            ..
        } => rs1 < 32 && rs2 < 32 && is_branch_offset(offset),
        Instr::Load {
            rd,
            rs1,
            offset,
            ..
        } => rd < 32 && rs1 < 32 && is_short_offset(offset),
        Instr::Store {
            rs1,
            rs2,
            offset,
            ..
        } => rs1 < 32 && rs2 < 32 && is_short_offset(offset),
        Instr::OpImm { op, rd, rs1, imm } => rd < 32 && rs1 < 32 && is_immediate(op, imm),
        Instr::Op { rd, rs1, rs2, .. } => rd < 32 && rs1 < 32 && rs2 < 32,
        Instr::Fence | Instr::Ecall | Instr::Ebreak => true,
    }
}

#[cfg(test)]
mod tests {
    use super::is_in_range;
    use crate::encode;
    use guest_model::{Cond, ImmOp, Instr, UpperOp};

    #[test]
    fn tells_what_has_a_word(rt: HostRuntime) {
        let last = Instr::Branch {
            cond: Cond::Eq,
            rs1: 0,
            rs2: 31,
            offset: -4096,
        };
        assert!(rt; is_in_range(last));
        assert_eq!(rt; encode(last), 0x81F0_0063);
        let refused = [
            Instr::Upper {
                op: UpperOp::Lui,
                rd: 1,
                imm: 0xFFF,
            },
            Instr::Jal { rd: 32, offset: 0 },
            Instr::Jal { rd: 0, offset: 3 },
            Instr::OpImm {
                op: ImmOp::Add,
                rd: 0,
                rs1: 0,
                imm: 2048,
            },
            Instr::OpImm {
                op: ImmOp::Srl,
                rd: 0,
                rs1: 0,
                imm: 32,
            },
        ];
        for instruction in refused {
            assert!(rt; !is_in_range(instruction));
        }
    }
}
