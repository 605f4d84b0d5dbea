//! Instructions by what follows their mnemonics.

ghost use Rattle.std.specs.Prelude.{◌≡◌, ◌≤◌, ◌<◌, ◌/◌, ◌%◌, ◌^◌, ◌++◌, length, codes, MatchResult, pos, negsuc, ◌≤ℤ◌};
ghost use Rattle.rv32_asm.specs.Encoding.{is_shift};
ghost use Rattle.rv32_text.specs.Languages.{ended, rest, Joined, StopsAt};
ghost use Rattle.rv32_text.specs.Fields.{Fits, write_field};
ghost use Rattle.rv32_text.specs.Operands.{IsMark};
ghost use Rattle.rv32_text.specs.Shapes.{Operand, RegisterAnd, immediate_field, Shape, IsRead};
ghost use Rattle.rv32_text.specs.declared.mnemonic.Mnemonic.TheVariants as Mnemonics;

use crate::fields::{Field, Offset};
use crate::operands::{operand, two_operands};
use guest_model::{Cond, ImmOp, Instr, LoadWidth, RegOp, StoreWidth, UpperOp};

fn register(value: i64) -> u8
    requires { Fits Field.Register value }
    ensures value { pos result ≡ value }
    ensures bound { result < 32 }
{
    value as u8
}

fn immediate(value: i64) -> i32
    requires low { negsuc 1048575 ≤ℤ value }
    requires high { value ≤ℤ pos 1048575 }
    ensures { result ≡ value }
{
    value as i32
}

/// The immediate whose bits 31 to 12 these are; the others are 0.
fn upper_immediate(digits: i64) -> u32
    requires { Fits Field.Upper digits }
    ensures value { digits ≡ pos (result / 2 ^ 12) }
    ensures low { result % 2 ^ 12 ≡ 0 }
{
    (digits as u32) * 0x1000
}

/// A register and two operands, with which the text ends.
fn three_operands(
    text: &[u8],
    from: usize,
    second: Field,
    between: &str,
    third: Field,
    after: &str,
) -> Result<(i64, i64, i64), usize>
    requires from { from ≤ length text.now }
    requires between { IsMark between.now }
    requires after { IsMark (ended after.now) }
    ensures { MatchResult result
        (λ r. Fits Field.Register r.0 × Fits second r.1 × Fits third r.2
        × (rest text.now from ≡ (write_field Field.Register r.0 ++ codes ", ") ++ ((write_field second r.1 ++ between.now) ++ (write_field third r.2 ++ ended after.now))))
        (λ place. StopsAt (RegisterAnd (Joined (Operand second between.now) (Operand third (ended after.now)))) text.now from place) }
{
    match operand(text, from, Field::Register, ", ") {
        Err(place) => Err(place),
        Ok((one, next)) => match two_operands(text, next, second, between, third, after) {
            Err(place) => Err(place),
            Ok((two, three)) => Ok((one, two, three)),
        },
    }
}

pub(crate) fn read_upper(op: UpperOp, text: &[u8], from: usize) -> Result<Instr, usize>
    requires { from ≤ length text.now }
    ensures { MatchResult result (IsRead (Mnemonics.Upper op) text.now from) (λ place. StopsAt (Shape (Mnemonics.Upper op)) text.now from place) }
{
    match two_operands(text, from, Field::Register, ", ", Field::Upper, "") {
        Err(place) => Err(place),
        Ok((rd, digits)) => {
            let rd = register(rd);
            let imm = upper_immediate(digits);
            Ok(Instr::Upper { op, rd, imm })
        }
    }
}

pub(crate) fn read_jal(text: &[u8], from: usize) -> Result<Instr, usize>
    requires { from ≤ length text.now }
    ensures { MatchResult result (IsRead Mnemonics.Jal text.now from) (λ place. StopsAt (Shape Mnemonics.Jal) text.now from place) }
{
    match two_operands(
        text,
        from,
        Field::Register,
        ", ",
        Field::Offset(Offset::Jump),
        "",
    ) {
        Err(place) => Err(place),
        Ok((rd, offset)) => {
            let rd = register(rd);
            let offset = immediate(offset);
            Ok(Instr::Jal { rd, offset })
        }
    }
}

pub(crate) fn read_jalr(text: &[u8], from: usize) -> Result<Instr, usize>
    requires { from ≤ length text.now }
    ensures { MatchResult result (IsRead Mnemonics.Jalr text.now from) (λ place. StopsAt (Shape Mnemonics.Jalr) text.now from place) }
{
    match three_operands(
        text,
        from,
        Field::Register,
        ", ",
        Field::Offset(Offset::Short),
        "",
    ) {
        Err(place) => Err(place),
        Ok((rd, rs1, offset)) => {
            let rd = register(rd);
            let rs1 = register(rs1);
            let offset = immediate(offset);
            Ok(Instr::Jalr { rd, rs1, offset })
        }
    }
}

pub(crate) fn read_branch(cond: Cond, text: &[u8], from: usize) -> Result<Instr, usize>
    requires { from ≤ length text.now }
    ensures { MatchResult result (IsRead (Mnemonics.Branch cond) text.now from) (λ place. StopsAt (Shape (Mnemonics.Branch cond)) text.now from place) }
{
    match three_operands(
        text,
        from,
        Field::Register,
        ", ",
        Field::Offset(Offset::Branch),
        "",
    ) {
        Err(place) => Err(place),
        Ok((rs1, rs2, offset)) => {
            let rs1 = register(rs1);
            let rs2 = register(rs2);
            let offset = immediate(offset);
            Ok(Instr::Branch {
                cond,
                rs1,
                rs2,
                offset,
            })
        }
    }
}

pub(crate) fn read_load(width: LoadWidth, text: &[u8], from: usize) -> Result<Instr, usize>
    requires { from ≤ length text.now }
    ensures { MatchResult result (IsRead (Mnemonics.Load width) text.now from) (λ place. StopsAt (Shape (Mnemonics.Load width)) text.now from place) }
{
    match three_operands(
        text,
        from,
        Field::Offset(Offset::Short),
        "(",
        Field::Register,
        ")",
    ) {
        Err(place) => Err(place),
        Ok((rd, offset, rs1)) => {
            let rd = register(rd);
            let offset = immediate(offset);
            let rs1 = register(rs1);
            Ok(Instr::Load {
                width,
                rd,
                rs1,
                offset,
            })
        }
    }
}

pub(crate) fn read_store(width: StoreWidth, text: &[u8], from: usize) -> Result<Instr, usize>
    requires { from ≤ length text.now }
    ensures { MatchResult result (IsRead (Mnemonics.Store width) text.now from) (λ place. StopsAt (Shape (Mnemonics.Store width)) text.now from place) }
{
    match three_operands(
        text,
        from,
        Field::Offset(Offset::Short),
        "(",
        Field::Register,
        ")",
    ) {
        Err(place) => Err(place),
        Ok((rs2, offset, rs1)) => {
            let rs2 = register(rs2);
            let offset = immediate(offset);
            let rs1 = register(rs1);
            Ok(Instr::Store {
                width,
                rs1,
                rs2,
                offset,
            })
        }
    }
}

/// The field of an operation's immediate.
fn immediate_field(op: ImmOp) -> Field
    ensures { result ≡ immediate_field (is_shift op) }
{
    match op {
        ImmOp::Sll | ImmOp::Srl | ImmOp::Sra => Field::Amount,
        _ => Field::Offset(Offset::Short),
    }
}

pub(crate) fn read_op_imm(op: ImmOp, text: &[u8], from: usize) -> Result<Instr, usize>
    requires { from ≤ length text.now }
    ensures { MatchResult result (IsRead (Mnemonics.OpImm op) text.now from) (λ place. StopsAt (Shape (Mnemonics.OpImm op)) text.now from place) }
{
    match three_operands(text, from, Field::Register, ", ", immediate_field(op), "") {
        Err(place) => Err(place),
        Ok((rd, rs1, imm)) => {
            let rd = register(rd);
            let rs1 = register(rs1);
            let imm = immediate(imm);
            Ok(Instr::OpImm { op, rd, rs1, imm })
        }
    }
}

pub(crate) fn read_op(op: RegOp, text: &[u8], from: usize) -> Result<Instr, usize>
    requires { from ≤ length text.now }
    ensures { MatchResult result (IsRead (Mnemonics.Op op) text.now from) (λ place. StopsAt (Shape (Mnemonics.Op op)) text.now from place) }
{
    match three_operands(text, from, Field::Register, ", ", Field::Register, "") {
        Err(place) => Err(place),
        Ok((rd, rs1, rs2)) => {
            let rd = register(rd);
            let rs1 = register(rs1);
            let rs2 = register(rs2);
            Ok(Instr::Op { op, rd, rs1, rs2 })
        }
    }
}
