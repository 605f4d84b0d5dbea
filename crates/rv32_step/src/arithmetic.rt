//! The values that instructions compute.

ghost use Rattle.std.specs.Prelude.{◌≡◌, ◌*ℤ◌};
ghost use Rattle.guest_model.specs.Arithmetic.{shift_right_signed, high_word, imm_value, op_value, taken, upper_value};
ghost use Rattle.guest_model.specs.declared.instr.RegOp.TheVariants as R;

use guest_model::{Cond, ImmOp, RegOp, UpperOp};

#[inline]
fn shift_right_signed(a: u32, k: u32) -> u32
    ensures { result ≡ shift_right_signed a k }
{
    a.cast_signed().wrapping_shr(k).cast_unsigned()
}

/// The high word of a product that fits 64 bits.
#[inline]
fn high_word(a: i64) -> u32
    ensures { result ≡ high_word a }
{
    (a.cast_unsigned() >> 32) as u32
}

#[inline]
fn product(a: i32, b: i32) -> i64
    ensures { result ≡ a *ℤ b }
{
    a as i64 * b as i64
}

#[inline]
fn product_high(a: u32, b: u32) -> u32
    ensures { result ≡ op_value R.Mulh a b }
{
    high_word(product(a.cast_signed(), b.cast_signed()))
}

#[inline]
fn product_high_mixed(a: u32, b: u32) -> u32
    ensures { result ≡ op_value R.Mulhsu a b }
{
    high_word(a.cast_signed() as i64 * b as i64)
}

#[inline]
fn product_high_unsigned(a: u32, b: u32) -> u32
    ensures { result ≡ op_value R.Mulhu a b }
{
    (a as u64 * b as u64 >> 32) as u32
}

/// Rounds towards zero. A divisor of 0 gives all ones; -2^31 by -1 gives -2^31.
#[inline]
fn quotient(a: u32, b: u32) -> u32
    ensures { result ≡ op_value R.Div a b }
{
    if b == 0 {
        return u32::MAX;
    }
    a.cast_signed()
        .wrapping_div(b.cast_signed())
        .cast_unsigned()
}

/// Has the sign of the dividend. A divisor of 0 gives the dividend; -2^31 by -1 gives 0.
#[inline]
fn remainder(a: u32, b: u32) -> u32
    ensures { result ≡ op_value R.Rem a b }
{
    if b == 0 {
        return a;
    }
    a.cast_signed()
        .wrapping_rem(b.cast_signed())
        .cast_unsigned()
}

#[inline]
pub fn upper_value(op: UpperOp, pc: u32, imm: u32) -> u32
    ensures { result ≡ upper_value op pc imm }
{
    match op {
        UpperOp::Lui => imm,
        UpperOp::Auipc => pc.wrapping_add(imm),
    }
}

#[inline]
pub fn taken(cond: Cond, a: u32, b: u32) -> bool
    ensures { result ≡ taken cond a b }
{
    match cond {
        Cond::Eq => a == b,
        Cond::Ne => a != b,
        Cond::Lt => a.cast_signed() < b.cast_signed(),
        Cond::Ge => a.cast_signed() >= b.cast_signed(),
        Cond::Ltu => a < b,
        Cond::Geu => a >= b,
    }
}

#[inline]
pub fn imm_value(op: ImmOp, a: u32, imm: i32) -> u32
    ensures { result ≡ imm_value op a imm }
{
    let word = imm.cast_unsigned();
    match op {
        ImmOp::Add => a.wrapping_add(word),
        ImmOp::Slt => (a.cast_signed() < imm) as u32,
        ImmOp::Sltu => (a < word) as u32,
        ImmOp::Xor => a ^ word,
        ImmOp::Or => a | word,
        ImmOp::And => a & word,
        ImmOp::Sll => a.wrapping_shl(word),
        ImmOp::Srl => a.wrapping_shr(word),
        ImmOp::Sra => shift_right_signed(a, word),
    }
}

#[inline]
pub fn op_value(op: RegOp, a: u32, b: u32) -> u32
    ensures { result ≡ op_value op a b }
{
    match op {
        RegOp::Add => a.wrapping_add(b),
        RegOp::Sub => a.wrapping_sub(b),
        RegOp::Sll => a.wrapping_shl(b),
        RegOp::Slt => (a.cast_signed() < b.cast_signed()) as u32,
        RegOp::Sltu => (a < b) as u32,
        RegOp::Xor => a ^ b,
        RegOp::Srl => a.wrapping_shr(b),
        RegOp::Sra => shift_right_signed(a, b),
        RegOp::Or => a | b,
        RegOp::And => a & b,
        RegOp::Mul => a.wrapping_mul(b),
        RegOp::Mulh => product_high(a, b),
        RegOp::Mulhsu => product_high_mixed(a, b),
        RegOp::Mulhu => product_high_unsigned(a, b),
        RegOp::Div => quotient(a, b),
        RegOp::Divu => a.checked_div(b).unwrap_or(u32::MAX),
        RegOp::Rem => remainder(a, b),
        RegOp::Remu => a.checked_rem(b).unwrap_or(a),
    }
}
