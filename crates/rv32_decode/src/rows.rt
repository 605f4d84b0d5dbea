//! The rows of the instruction table.

ghost use Rattle.std.specs.Prelude.{◌≡◌, IfSome};
ghost use Rattle.guest_model.specs.InstructionTable.{jalr_row, branch_row, load_row, store_row, shift_row, imm_row, op_row, fence_row, system_row, instr, FieldsFit};

use crate::fields::{funct3, funct7, imm_b, imm_i, imm_j, imm_s, imm_u, opcode, rd, rs1, rs2};
use crate::operations::{cond_of, imm_op_of, load_width_of, reg_op_of, shift_of, store_width_of};
use guest_model::{Instr, UpperOp};

#[inline(always)]
fn jalr_row(word: u32) -> Option<Instr>
    ensures row { result ≡ jalr_row word }
    ensures fit { IfSome result FieldsFit }
{
    if funct3(word) != 0 {
        return None;
    }
    Some(Instr::Jalr {
        rd: rd(word),
        rs1: rs1(word),
        offset: imm_i(word),
    })
}

#[inline(always)]
fn branch_row(word: u32) -> Option<Instr>
    ensures row { result ≡ branch_row word }
    ensures fit { IfSome result FieldsFit }
{
    let cond = cond_of(funct3(word))?;
    Some(Instr::Branch {
        cond,
        rs1: rs1(word),
        rs2: rs2(word),
        offset: imm_b(word),
    })
}

#[inline(always)]
fn load_row(word: u32) -> Option<Instr>
    ensures row { result ≡ load_row word }
    ensures fit { IfSome result FieldsFit }
{
    let width = load_width_of(funct3(word))?;
    Some(Instr::Load {
        width,
        rd: rd(word),
        rs1: rs1(word),
        offset: imm_i(word),
    })
}

#[inline(always)]
fn store_row(word: u32) -> Option<Instr>
    ensures row { result ≡ store_row word }
    ensures fit { IfSome result FieldsFit }
{
    let width = store_width_of(funct3(word))?;
    Some(Instr::Store {
        width,
        rs1: rs1(word),
        rs2: rs2(word),
        offset: imm_s(word),
    })
}

#[inline(always)]
fn shift_row(word: u32) -> Option<Instr>
    ensures row { result ≡ shift_row word }
    ensures fit { IfSome result FieldsFit }
{
    let op = shift_of(funct3(word), funct7(word))?;
    Some(Instr::OpImm {
        op,
        rd: rd(word),
        rs1: rs1(word),
        imm: rs2(word) as i32,
    })
}

#[inline(always)]
fn imm_row(word: u32) -> Option<Instr>
    ensures row { result ≡ imm_row word }
    ensures fit { IfSome result FieldsFit }
{
    let code = funct3(word);
    if code == 1 || code == 5 {
        return shift_row(word);
    }
    let op = imm_op_of(code)?;
    Some(Instr::OpImm {
        op,
        rd: rd(word),
        rs1: rs1(word),
        imm: imm_i(word),
    })
}

#[inline(always)]
fn op_row(word: u32) -> Option<Instr>
    ensures row { result ≡ op_row word }
    ensures fit { IfSome result FieldsFit }
{
    let op = reg_op_of(funct3(word), funct7(word))?;
    Some(Instr::Op {
        op,
        rd: rd(word),
        rs1: rs1(word),
        rs2: rs2(word),
    })
}

#[inline(always)]
fn fence_row(word: u32) -> Option<Instr>
    ensures row { result ≡ fence_row word }
    ensures fit { IfSome result FieldsFit }
{
    if funct3(word) == 0 {
        Some(Instr::Fence)
    } else {
        None
    }
}

#[inline(always)]
fn system_row(word: u32) -> Option<Instr>
    ensures row { result ≡ system_row word }
    ensures fit { IfSome result FieldsFit }
{
    match word {
        0x0000_0073 => Some(Instr::Ecall),
        0x0010_0073 => Some(Instr::Ebreak),
        _ => None,
    }
}

/// The instruction of this word; None exactly where it has no row in the instruction table of RV32I and M. FENCE has
/// any fields but funct3 0; FENCE.I, every SYSTEM word but ECALL and EBREAK, and reserved encodings have no row.
#[inline(always)]
pub fn decode(word: u32) -> Option<Instr>
    ensures row { result ≡ instr word }
    ensures fit { IfSome result FieldsFit }
{
    match opcode(word) {
        0x37 => Some(Instr::Upper {
            op: UpperOp::Lui,
            rd: rd(word),
            imm: imm_u(word),
        }),
        0x17 => Some(Instr::Upper {
            op: UpperOp::Auipc,
            rd: rd(word),
            imm: imm_u(word),
        }),
        0x6F => Some(Instr::Jal {
            rd: rd(word),
            offset: imm_j(word),
        }),
        0x67 => jalr_row(word),
        0x63 => branch_row(word),
        0x03 => load_row(word),
        0x23 => store_row(word),
        0x13 => imm_row(word),
        0x33 => op_row(word),
        0x0F => fence_row(word),
        0x73 => system_row(word),
        _ => None,
    }
}

#[cfg(test)]
mod tests;
