//! Registers and instructions by their names in assembly language.

ghost use Rattle.std.specs.Prelude.{◌≡◌, ◌<◌};
ghost use Rattle.rv32_asm.specs.Constant.{upper_part, AddsUp};
ghost use Rattle.rv32_asm.specs.Encoding.{IsInRange, IsShortOffset, IsBranchOffset, IsJumpOffset};
ghost use Rattle.rv32_asm.specs.Generated.{addi};

use crate::constant::upper_part;
use guest_model::{Cond, ImmOp, Instr, UpperOp};
pub use guest_model::{A0, A1, A2, A7};

pub const ZERO: u8 = 0;

pub const T0: u8 = 5;

pub const S0: u8 = 8;

pub const S1: u8 = 9;

/// LUI, with the upper part of a number.
pub fn lui(rd: u8, value: u32) -> Instr
    requires { rd < 32 }
    ensures value { result ≡ Instr.Upper UpperOp.Lui rd (upper_part value) }
    ensures range { IsInRange result }
    ensures adds_up { AddsUp value }
{
    Instr::Upper {
        op: UpperOp::Lui,
        rd,
        imm: upper_part(value),
    }
}

pub fn addi(rd: u8, rs1: u8, imm: i32) -> Instr
    requires registers { (rd < 32) × (rs1 < 32) }
    requires immediate { IsShortOffset imm }
    ensures value { result ≡ addi rd rs1 imm }
    ensures range { IsInRange result }
{
    Instr::OpImm {
        op: ImmOp::Add,
        rd,
        rs1,
        imm,
    }
}

pub fn bne(rs1: u8, rs2: u8, offset: i32) -> Instr
    requires registers { (rs1 < 32) × (rs2 < 32) }
    requires offset { IsBranchOffset offset }
    ensures value { result ≡ Instr.Branch Cond.Ne rs1 rs2 offset }
    ensures range { IsInRange result }
{
    Instr::Branch {
        cond: Cond::Ne,
        rs1,
        rs2,
        offset,
    }
}

pub fn jal(rd: u8, offset: i32) -> Instr
    requires register { rd < 32 }
    requires offset { IsJumpOffset offset }
    ensures value { result ≡ Instr.Jal rd offset }
    ensures range { IsInRange result }
{
    Instr::Jal { rd, offset }
}
