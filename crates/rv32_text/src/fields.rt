//! The fields of instructions in texts.

ghost use Rattle.std.specs.Prelude.{◌≡◌, ◌≤◌, ◌↔◌, length, option_map, IsTrue, pos};
ghost use Rattle.rv32_text.specs.Languages.{BeginsBy, Reads};
ghost use Rattle.rv32_text.specs.Fields.{Fits, write_field, positive_range, negative_range, minus};

use crate::digits::{Digits, read_digits};
use crate::number::{Range, read_number};

/// What can stand for an offset or an immediate.
#[derive(Debug, Clone, Copy, PartialEq, Eq)]
pub(crate) enum Offset {
    /// Twelve bits.
    Short,
    /// Even, within 4 KiB.
    Branch,
    /// Even, within 1 MiB.
    Jump,
}

/// A part of an instruction's text that stands for a number.
#[derive(Debug, Clone, Copy, PartialEq, Eq)]
pub(crate) enum Field {
    Register,
    /// The amount of a shift.
    Amount,
    Offset(Offset),
    /// Bits 31 to 12 of an immediate.
    Upper,
}

/// How far a field goes, and which value it has.
#[derive(Debug, Clone, Copy, PartialEq, Eq)]
pub(crate) struct FieldRead {
    pub(crate) used: usize,
    pub(crate) value: Option<i64>,
}

/// The numbers of registers, and the amounts of shifts.
const BELOW_32: Range = Range {
    least: 0,
    greatest: 31,
    even: false,
};

fn positive_range(offset: Offset) -> Range
    ensures { result ≡ positive_range offset }
{
    match offset {
        Offset::Short => Range {
            least: 0,
            greatest: 2047,
            even: false,
        },
        Offset::Branch => Range {
            least: 0,
            greatest: 4095,
            even: true,
        },
        Offset::Jump => Range {
            least: 0,
            greatest: 1_048_575,
            even: true,
        },
    }
}

fn negative_range(offset: Offset) -> Range
    ensures { result ≡ negative_range offset }
{
    match offset {
        Offset::Short => Range {
            least: 1,
            greatest: 2048,
            even: false,
        },
        Offset::Branch => Range {
            least: 1,
            greatest: 4096,
            even: true,
        },
        Offset::Jump => Range {
            least: 1,
            greatest: 1_048_576,
            even: true,
        },
    }
}

fn positive(number: Option<u32>) -> Option<i64>
    ensures { result ≡ option_map (λ n. pos n) number }
{
    match number {
        Some(number) => Some(i64::from(number)),
        None => None,
    }
}

fn negative(number: Option<u32>) -> Option<i64>
    ensures { result ≡ option_map minus number }
{
    match number {
        Some(number) => Some(-i64::from(number)),
        None => None,
    }
}

fn begins_by(text: &[u8], letter: u8) -> bool
    ensures { IsTrue result ↔ BeginsBy text.now letter }
{
    !text.is_empty() && text[0] == letter
}

fn read_register(text: &[u8]) -> FieldRead
    ensures reads { Reads (Fits Field.Register) (write_field Field.Register) text.now result.used result.value }
    ensures within { result.used ≤ length text.now }
{
    if !begins_by(text, b'x') {
        return FieldRead {
            used: 0,
            value: None,
        };
    }
    let read = read_number(&text[1..], BELOW_32);
    FieldRead {
        used: 1 + read.used,
        value: positive(read.number),
    }
}

fn read_amount(text: &[u8]) -> FieldRead
    ensures reads { Reads (Fits Field.Amount) (write_field Field.Amount) text.now result.used result.value }
    ensures within { result.used ≤ length text.now }
{
    let read = read_number(text, BELOW_32);
    FieldRead {
        used: read.used,
        value: positive(read.number),
    }
}

fn read_offset(text: &[u8], offset: Offset) -> FieldRead
    ensures reads { Reads (Fits (Field.Offset offset)) (write_field (Field.Offset offset)) text.now result.used result.value }
    ensures within { result.used ≤ length text.now }
{
    if begins_by(text, b'-') {
        let read = read_number(&text[1..], negative_range(offset));
        return FieldRead {
            used: 1 + read.used,
            value: negative(read.number),
        };
    }
    let read = read_number(text, positive_range(offset));
    FieldRead {
        used: read.used,
        value: positive(read.number),
    }
}

fn read_upper(text: &[u8]) -> FieldRead
    ensures reads { Reads (Fits Field.Upper) (write_field Field.Upper) text.now result.used result.value }
    ensures within { result.used ≤ length text.now }
{
    let read = read_digits(text, Digits::Upper);
    FieldRead {
        used: read.used,
        value: positive(read.value),
    }
}

/// Reads as many letters as can begin this field.
pub(crate) fn read_field(text: &[u8], field: Field) -> FieldRead
    ensures reads { Reads (Fits field) (write_field field) text.now result.used result.value }
    ensures within { result.used ≤ length text.now }
{
    match field {
        Field::Register => read_register(text),
        Field::Amount => read_amount(text),
        Field::Offset(offset) => read_offset(text, offset),
        Field::Upper => read_upper(text),
    }
}
