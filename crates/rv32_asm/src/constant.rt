//! A number as the immediates of LUI and ADDI.

ghost use Rattle.std.specs.Prelude.{◌≡◌, ◌+◌, ◌%◌, ◌^◌, ◌<◌};
ghost use Rattle.rv32_asm.specs.Constant.{upper_part, lower_part, AddsUp};
ghost use Rattle.rv32_asm.specs.Encoding.{IsShortOffset};

/// The upper 20 bits in their place, one more where the lower part is below 0.
pub fn upper_part(value: u32) -> u32
    ensures value { result ≡ upper_part value }
    ensures low_bits_clear { result % 2 ^ 12 ≡ 0 }
    ensures adds_up { AddsUp value }
{
    value.wrapping_add(0x800) & 0xFFFF_F000
}

/// The lower 12 bits, extended by their sign.
pub fn lower_part(value: u32) -> i32
    ensures value { result ≡ lower_part value }
    ensures range { IsShortOffset result }
{
    (value << 20).cast_signed() >> 20
}
