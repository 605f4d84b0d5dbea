//! Operands: fields with what follows each.

ghost use Rattle.std.specs.Prelude.{◌≡◌, ◌≤◌, ◌++◌, length, MatchResult};
ghost use Rattle.rv32_text.specs.Languages.{ended, rest, Joined, OneOf, StopsAt};
ghost use Rattle.rv32_text.specs.Fields.{Fits, write_field};
ghost use Rattle.rv32_text.specs.Operands.{IsMark};

use crate::expect::{expect, expect_last};
use crate::fields::{Field, read_field};

/// Reads a field and what has to follow it: the field's value, and the place behind both; else the place at which the
/// text goes wrong.
pub(crate) fn operand(
    text: &[u8],
    from: usize,
    field: Field,
    after: &str,
) -> Result<(i64, usize), usize>
    requires from { from ≤ length text.now }
    requires after { IsMark after.now }
    ensures { MatchResult result
        (λ r. Fits field r.0 × (from ≤ r.1) × (r.1 ≤ length text.now) × (rest text.now from ≡ (write_field field r.0 ++ after.now) ++ rest text.now r.1))
        (λ place. StopsAt (OneOf (Fits field) (write_field field) after.now) text.now from place) }
{
    let read = read_field(&text[from..], field);
    let end = from + read.used;
    match read.value {
        None => Err(end),
        Some(value) => match expect(&text[end..], after) {
            Ok(()) => Ok((value, end + after.len())),
            Err(shared) => Err(end + shared),
        },
    }
}

/// The same of the last field, behind which the text ends.
pub(crate) fn last_operand(
    text: &[u8],
    from: usize,
    field: Field,
    after: &str,
) -> Result<i64, usize>
    requires from { from ≤ length text.now }
    requires after { IsMark (ended after.now) }
    ensures { MatchResult result
        (λ value. Fits field value × (rest text.now from ≡ write_field field value ++ ended after.now))
        (λ place. StopsAt (OneOf (Fits field) (write_field field) (ended after.now)) text.now from place) }
{
    let read = read_field(&text[from..], field);
    let end = from + read.used;
    match read.value {
        None => Err(end),
        Some(value) => match expect_last(&text[end..], after) {
            Ok(()) => Ok(value),
            Err(shared) => Err(end + shared),
        },
    }
}

/// Two operands, with which the text ends.
pub(crate) fn two_operands(
    text: &[u8],
    from: usize,
    first: Field,
    between: &str,
    second: Field,
    after: &str,
) -> Result<(i64, i64), usize>
    requires from { from ≤ length text.now }
    requires between { IsMark between.now }
    requires after { IsMark (ended after.now) }
    ensures { MatchResult result
        (λ r. Fits first r.0 × Fits second r.1 × (rest text.now from ≡ (write_field first r.0 ++ between.now) ++ (write_field second r.1 ++ ended after.now)))
        (λ place. StopsAt (Joined (OneOf (Fits first) (write_field first) between.now) (OneOf (Fits second) (write_field second) (ended after.now))) text.now from place) }
{
    match operand(text, from, first, between) {
        Err(place) => Err(place),
        Ok((one, next)) => match last_operand(text, next, second, after) {
            Err(place) => Err(place),
            Ok(two) => Ok((one, two)),
        },
    }
}
