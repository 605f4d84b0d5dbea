//! The fields and the immediates of a word (RISC-V Unprivileged ISA, chapter RV32I, "Base Instruction Formats" and
//! "Immediate Encoding Variants").

ghost use Rattle.std.specs.Prelude.{◌≡◌, ◌<◌, ◌+◌, ◌*◌, ◌^◌};
ghost use Rattle.guest_model.specs.Word.{field, opcode, rd, funct3, rs1, rs2, funct7, imm_i, imm_s, imm_b, imm_u, imm_j};

#[inline]
pub fn opcode(word: u32) -> u32
    ensures { result ≡ opcode word }
{
    word & 0x7F
}

#[inline]
pub fn rd(word: u32) -> u8
    ensures value { result ≡ rd word }
    ensures bound { result < 32 }
{
    (word >> 7 & 0x1F) as u8
}

#[inline]
pub fn funct3(word: u32) -> u32
    ensures { result ≡ funct3 word }
{
    word >> 12 & 7
}

#[inline]
pub fn rs1(word: u32) -> u8
    ensures value { result ≡ rs1 word }
    ensures bound { result < 32 }
{
    (word >> 15 & 0x1F) as u8
}

#[inline]
pub fn rs2(word: u32) -> u8
    ensures value { result ≡ rs2 word }
    ensures bound { result < 32 }
{
    (word >> 20 & 0x1F) as u8
}

#[inline]
pub fn funct7(word: u32) -> u32
    ensures { result ≡ funct7 word }
{
    word >> 25
}

#[inline]
pub fn imm_i(word: u32) -> i32
    ensures { result ≡ imm_i word }
{
    word.cast_signed() >> 20
}

#[inline]
pub fn imm_s(word: u32) -> i32
    ensures { result ≡ imm_s word }
{
    let high = (word & 0xFE00_0000).cast_signed() >> 20;
    high + (word >> 7 & 0x1F) as i32
}

/// The immediate of a branch without its sign bit.
#[inline]
fn imm_b_low(word: u32) -> u32
    ensures value { result ≡ field 7 7 word * 2 ^ 11 + field 30 25 word * 2 ^ 5 + field 11 8 word * 2 }
    ensures bound { result < 2 ^ 12 }
{
    ((word >> 7 & 1) << 11) + ((word >> 25 & 0x3F) << 5) + ((word >> 8 & 0xF) << 1)
}

#[inline]
pub fn imm_b(word: u32) -> i32
    ensures { result ≡ imm_b word }
{
    let sign = (word & 0x8000_0000).cast_signed() >> 19;
    sign + imm_b_low(word) as i32
}

#[inline]
pub fn imm_u(word: u32) -> u32
    ensures { result ≡ imm_u word }
{
    word & 0xFFFF_F000
}

/// The immediate of JAL without its sign bit.
#[inline]
fn imm_j_low(word: u32) -> u32
    ensures value { result ≡ field 19 12 word * 2 ^ 12 + field 20 20 word * 2 ^ 11 + field 30 21 word * 2 }
    ensures bound { result < 2 ^ 20 }
{
    ((word >> 12 & 0xFF) << 12) + ((word >> 20 & 1) << 11) + ((word >> 21 & 0x3FF) << 1)
}

#[inline]
pub fn imm_j(word: u32) -> i32
    ensures { result ≡ imm_j word }
{
    let sign = (word & 0x8000_0000).cast_signed() >> 11;
    sign + imm_j_low(word) as i32
}
