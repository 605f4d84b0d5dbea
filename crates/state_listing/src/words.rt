//! Words of a line: numbers in plain decimal, and addresses.

ghost use Rattle.std.specs.Prelude.{◌≡◌, ◌≢◌, ◌<◌, ◌≤◌, ◌^◌, [], ◌∷◌, ◌++◌, ◌↔◌, IsTrue, All, IfSome, IfNone, decimal};
ghost use Rattle.report_text.specs.Texts.{hex_digit, byte_text, address_text};
ghost use Rattle.state_listing.specs.Values.{IsValueOf, IsWithin, BeginsPlainly};

use memchr::memchr;
use std::str;

/// The bytes before the first such byte, and those behind it: none exactly where there is no such byte.
pub(crate) fn cut_at(byte: u8, text: &[u8]) -> Option<(&[u8], &[u8])>
    ensures parts { IfSome result (λ cut. text.now ≡ cut.0.now ++ (byte ∷ cut.1.now)) }
    ensures first { IfSome result (λ cut. All (λ b. b ≢ byte) cut.0.now) }
    ensures none { IfNone result (All (λ b. b ≢ byte) text.now) }
{
    let end = memchr(byte, text)?;
    Some((&text[..end], &text[end + 1..]))
}

/// The number from `least` to `greatest` that a word writes in plain decimal, without a sign and without leading zeros.
pub(crate) fn read_number(word: &[u8], least: u64, greatest: u64) -> Option<u64>
    ensures { IsValueOf (IsWithin least greatest) decimal word.now result }
{
    let number = read_decimal(word)?;
    if number >= least && number <= greatest {
        Some(number)
    } else {
        None
    }
}

/// The number that a word writes so, if it is below 2^64.
fn read_decimal(word: &[u8]) -> Option<u64>
    ensures { IsValueOf (λ n. n < 2 ^ 64) decimal word.now result }
{
    if !begins_plainly(word) {
        return None;
    }
    match str::from_utf8(word) {
        Ok(digits) => digits.parse().ok(),
        Err(_) => None,
    }
}

/// Whether no sign stands in front, and no zero with more behind it.
fn begins_plainly(word: &[u8]) -> bool
    ensures { IsTrue result ↔ BeginsPlainly word.now }
{
    let first = word.first().copied().unwrap_or(0);
    first != b'+' && (first != b'0' || word.len() == 1)
}

/// The address that a word writes in eight hexadecimal digits in lower case.
pub(crate) fn read_address(word: &[u8]) -> Option<u32>
    ensures { IsValueOf (λ a. a < 2 ^ 32) address_text word.now result }
{
    match word {
        &[a, b, c, d, e, f, g, h] => {
            let bytes = [
                read_byte(a, b)?,
                read_byte(c, d)?,
                read_byte(e, f)?,
                read_byte(g, h)?,
            ];
            Some(u32::from_be_bytes(bytes))
        }
        _ => None,
    }
}

/// The byte that two digits write.
fn read_byte(high: u8, low: u8) -> Option<u8>
    ensures { IsValueOf (λ b. b < 256) byte_text (high ∷ low ∷ []) result }
{
    Some(digit_of(high)? * 16 + digit_of(low)?)
}

/// What a letter stands for as a hexadecimal digit in lower case.
fn digit_of(letter: u8) -> Option<u8>
    ensures { IsValueOf (λ d. d < 16) hex_digit letter result }
{
    match letter {
        b'0'..=b'9' => Some(letter - b'0'),
        b'a'..=b'f' => Some(letter - b'a' + 10),
        _ => None,
    }
}
