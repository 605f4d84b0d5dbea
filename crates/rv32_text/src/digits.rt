//! Rows of hexadecimal digits.

ghost use Rattle.std.specs.Prelude.{◌≡◌, ◌≢◌, ℕ, ◌+◌, ◌<◌, ◌≤◌, ◌/◌, ◌^◌, length, ◌∷◌, [], ◌++◌, ◌↔◌, IsTrue, MatchOption};
ghost use Rattle.report_text.specs.Texts.{hex_digit};
ghost use Rattle.rv32_text.specs.Texts.{hex_text};
ghost use Rattle.rv32_text.specs.Languages.{NoneBegins, IsValueOf, Reads};
ghost use Rattle.rv32_text.specs.Hexadecimals.{digit_count, HasDigits, CanComplete};

use rv32_decode::decode;

/// What a row of hexadecimal digits writes.
#[derive(Debug, Clone, Copy, PartialEq, Eq)]
pub(crate) enum Digits {
    /// Bits 31 to 12 of an immediate.
    Upper,
    /// A word of FENCE.
    Fence,
    /// A word that has no row in the instruction table.
    Word,
}

/// How far a row of digits goes, and which number it writes.
#[derive(Debug, Clone, Copy, PartialEq, Eq)]
pub(crate) struct DigitsRead {
    pub(crate) used: usize,
    pub(crate) value: Option<u32>,
}

fn count(digits: Digits) -> usize
    ensures { result ≡ digit_count digits }
{
    match digits {
        Digits::Upper => 5,
        Digits::Fence | Digits::Word => 8,
    }
}

/// What a letter stands for as a hexadecimal digit in lower case.
fn digit_of(letter: u8) -> Option<u32>
    ensures { MatchOption result ((d : ℕ) → d < 16 → hex_digit d ≢ letter) (λ d. (d < 16) × (hex_digit d ≡ letter)) }
{
    if letter >= b'0' && letter <= b'9' {
        return Some(u32::from(letter - b'0'));
    }
    if letter >= b'a' && letter <= b'f' {
        return Some(u32::from(letter - b'a') + 10);
    }
    None
}

/// Whether a word of FENCE may have these digits up to this place: its opcode is 0x0F, and its funct3 0.
fn fence_may_begin(place: usize, value: u32) -> bool
    requires inside { place < 8 }
    requires begun { CanComplete Digits.Fence place (value / 16) }
    ensures { IsTrue result ↔ CanComplete Digits.Fence (place + 1) value }
{
    // funct3, in bits 14 to 12
    if place == 4 {
        return value % 8 == 0;
    }
    // the opcode, in bits 6 to 0
    if place == 6 {
        return value % 8 == 0;
    }
    if place == 7 {
        return value % 16 == 15;
    }
    true
}

/// Whether a word that has no row may have these digits up to this place. No row ends with two bits 00.
fn word_may_begin(place: usize, value: u32) -> bool
    requires inside { place < 8 }
    requires begun { CanComplete Digits.Word place (value / 16) }
    ensures { IsTrue result ↔ CanComplete Digits.Word (place + 1) value }
{
    if place < 7 {
        return true;
    }
    decode(value).is_none()
}

fn may_begin(digits: Digits, place: usize, value: u32) -> bool
    requires inside { place < digit_count digits }
    requires begun { CanComplete digits place (value / 16) }
    ensures { IsTrue result ↔ CanComplete digits (place + 1) value }
{
    match digits {
        Digits::Upper => true,
        Digits::Fence => fence_may_begin(place, value),
        Digits::Word => word_may_begin(place, value),
    }
}

/// The number with this letter behind its digits; None where no number of the row begins so.
fn longer(digits: Digits, used: usize, value: u32, letter: u8) -> Option<u32>
    requires inside { used ≤ digit_count digits }
    requires begun { CanComplete digits used value }
    ensures { MatchOption result (NoneBegins (HasDigits digits) (λ n. hex_text (digit_count digits) n) (hex_text used value ++ letter ∷ [])) (λ n. (used < digit_count digits) × CanComplete digits (used + 1) n × (hex_text (used + 1) n ≡ hex_text used value ++ letter ∷ [])) }
{
    if used == count(digits) {
        return None;
    }
    let Some(digit) = digit_of(letter) else {
        return None;
    };
    let longer = value * 16 + digit;
    if may_begin(digits, used, longer) {
        Some(longer)
    } else {
        None
    }
}

/// The number of a row that is read, if it has all its digits.
fn complete(digits: Digits, used: usize, value: u32) -> Option<u32>
    requires inside { used ≤ digit_count digits }
    requires begun { CanComplete digits used value }
    ensures { IsValueOf (HasDigits digits) (λ n. hex_text (digit_count digits) n) (hex_text used value) result }
{
    if used == count(digits) {
        Some(value)
    } else {
        None
    }
}

/// Reads as many letters as can begin a row of digits.
pub(crate) fn read_digits(text: &[u8], digits: Digits) -> DigitsRead
    ensures reads { Reads (HasDigits digits) (λ n. hex_text (digit_count digits) n) text.now result.used result.value }
    ensures within { result.used ≤ length text.now }
{
    let mut value = 0;
    for (used, &letter) in text.iter().enumerate() {
        match longer(digits, used, value, letter) {
            Some(longer) => value = longer,
            None => {
                let value = complete(digits, used, value);
                return DigitsRead { used, value };
            }
        }
    }
    let value = complete(digits, text.len(), value);
    DigitsRead {
        used: text.len(),
        value,
    }
}
