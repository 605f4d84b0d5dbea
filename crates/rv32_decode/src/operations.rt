//! The operations by their function codes.

ghost use Rattle.std.specs.Prelude.{◌≡◌};
ghost use Rattle.guest_model.specs.InstructionTable.{cond_of, load_width_of, store_width_of, imm_op_of, shift_of, base_op_of, other_op_of, product_op_of, reg_op_of};

use guest_model::{Cond, ImmOp, LoadWidth, RegOp, StoreWidth};

#[inline]
pub fn cond_of(funct3: u32) -> Option<Cond>
    ensures { result ≡ cond_of funct3 }
{
    match funct3 {
        0 => Some(Cond::Eq),
        1 => Some(Cond::Ne),
        4 => Some(Cond::Lt),
        5 => Some(Cond::Ge),
        6 => Some(Cond::Ltu),
        7 => Some(Cond::Geu),
        _ => None,
    }
}

#[inline]
pub fn load_width_of(funct3: u32) -> Option<LoadWidth>
    ensures { result ≡ load_width_of funct3 }
{
    match funct3 {
        0 => Some(LoadWidth::B),
        1 => Some(LoadWidth::H),
        2 => Some(LoadWidth::W),
        4 => Some(LoadWidth::Bu),
        5 => Some(LoadWidth::Hu),
        _ => None,
    }
}

#[inline]
pub fn store_width_of(funct3: u32) -> Option<StoreWidth>
    ensures { result ≡ store_width_of funct3 }
{
    match funct3 {
        0 => Some(StoreWidth::B),
        1 => Some(StoreWidth::H),
        2 => Some(StoreWidth::W),
        _ => None,
    }
}

#[inline]
pub fn imm_op_of(funct3: u32) -> Option<ImmOp>
    ensures { result ≡ imm_op_of funct3 }
{
    match funct3 {
        0 => Some(ImmOp::Add),
        2 => Some(ImmOp::Slt),
        3 => Some(ImmOp::Sltu),
        4 => Some(ImmOp::Xor),
        6 => Some(ImmOp::Or),
        7 => Some(ImmOp::And),
        _ => None,
    }
}

#[inline]
pub fn shift_of(funct3: u32, funct7: u32) -> Option<ImmOp>
    ensures { result ≡ shift_of funct3 funct7 }
{
    match (funct3, funct7) {
        (1, 0) => Some(ImmOp::Sll),
        (5, 0) => Some(ImmOp::Srl),
        (5, 0x20) => Some(ImmOp::Sra),
        _ => None,
    }
}

#[inline]
fn base_op_of(funct3: u32) -> Option<RegOp>
    ensures { result ≡ base_op_of funct3 }
{
    match funct3 {
        0 => Some(RegOp::Add),
        1 => Some(RegOp::Sll),
        2 => Some(RegOp::Slt),
        3 => Some(RegOp::Sltu),
        4 => Some(RegOp::Xor),
        5 => Some(RegOp::Srl),
        6 => Some(RegOp::Or),
        7 => Some(RegOp::And),
        _ => None,
    }
}

#[inline]
fn other_op_of(funct3: u32) -> Option<RegOp>
    ensures { result ≡ other_op_of funct3 }
{
    match funct3 {
        0 => Some(RegOp::Sub),
        5 => Some(RegOp::Sra),
        _ => None,
    }
}

#[inline]
fn product_op_of(funct3: u32) -> Option<RegOp>
    ensures { result ≡ product_op_of funct3 }
{
    match funct3 {
        0 => Some(RegOp::Mul),
        1 => Some(RegOp::Mulh),
        2 => Some(RegOp::Mulhsu),
        3 => Some(RegOp::Mulhu),
        4 => Some(RegOp::Div),
        5 => Some(RegOp::Divu),
        6 => Some(RegOp::Rem),
        7 => Some(RegOp::Remu),
        _ => None,
    }
}

#[inline]
pub fn reg_op_of(funct3: u32, funct7: u32) -> Option<RegOp>
    ensures { result ≡ reg_op_of funct3 funct7 }
{
    match funct7 {
        0 => base_op_of(funct3),
        0x20 => other_op_of(funct3),
        1 => product_op_of(funct3),
        _ => None,
    }
}
