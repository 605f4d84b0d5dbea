//! Decimal numbers of a range.

ghost use Rattle.std.specs.Prelude.{◌≡◌, ◌≢◌, ℕ, ◌+◌, ◌<◌, ◌≤◌, ◌^◌, length, ◌∷◌, [], ◌++◌, ◌↔◌, IsTrue, IfSome, MatchOption, decimal};
ghost use Rattle.rv32_text.specs.Languages.{NoneBegins, IsValueOf, Reads};
ghost use Rattle.rv32_text.specs.Numbers.{IsUsable, InRange, MayBegin, IsDigit, digits_so_far};

/// The numbers from `least` to `greatest`, of them only the even ones where `even` holds.
#[derive(Debug, Clone, Copy, PartialEq, Eq)]
pub(crate) struct Range {
    pub(crate) least: u32,
    pub(crate) greatest: u32,
    pub(crate) even: bool,
}

/// How far a number goes, and which it is.
#[derive(Debug, Clone, Copy, PartialEq, Eq)]
pub(crate) struct NumberRead {
    pub(crate) used: usize,
    pub(crate) number: Option<u32>,
}

fn contains(range: Range, number: u32) -> bool
    ensures { IsTrue result ↔ InRange range number }
{
    number >= range.least && number <= range.greatest && (!range.even || number % 2 == 0)
}

fn may_begin(range: Range, number: u32) -> bool
    requires { number < 2 ^ 28 }
    ensures { IsTrue result ↔ MayBegin range number }
{
    number >= range.least
        && number <= range.greatest
        && (!range.even || number % 2 == 0 || number * 10 <= range.greatest)
}

/// What a letter stands for as a decimal digit.
fn digit_of(letter: u8) -> Option<u32>
    ensures { MatchOption result (¬ IsDigit letter) (λ d. (d < 10) × (letter ≡ 48 + d)) }
{
    if letter >= b'0' && letter <= b'9' {
        Some(u32::from(letter - b'0'))
    } else {
        None
    }
}

/// The number with this digit behind its own. There is none behind the digit 0.
fn with_digit(number: Option<u32>, digit: u32) -> Option<u32>
    requires digit { digit < 10 }
    requires small { IfSome number (λ n. n < 2 ^ 24) }
    ensures { MatchOption result (number ≡ Some 0) (λ n. (n < 2 ^ 28) × (decimal n ≡ digits_so_far number ++ (48 + digit) ∷ [])) }
{
    match number {
        None => Some(digit),
        Some(number) => {
            if number == 0 {
                return None;
            }
            Some(number * 10 + digit)
        }
    }
}

/// The number with this letter behind its digits; None where no number of the range begins so.
fn longer(range: Range, number: Option<u32>, letter: u8) -> Option<u32>
    requires usable { IsUsable range }
    requires begun { IfSome number (MayBegin range) }
    ensures { MatchOption result (NoneBegins (InRange range) (λ n. decimal n) (digits_so_far number ++ letter ∷ [])) (λ n. MayBegin range n × (decimal n ≡ digits_so_far number ++ letter ∷ [])) }
{
    let Some(digit) = digit_of(letter) else {
        return None;
    };
    let Some(longer) = with_digit(number, digit) else {
        return None;
    };
    if may_begin(range, longer) {
        Some(longer)
    } else {
        None
    }
}

/// The number whose digits are read, if it is one of the range.
fn complete(range: Range, number: Option<u32>) -> Option<u32>
    requires usable { IsUsable range }
    requires begun { IfSome number (MayBegin range) }
    ensures { IsValueOf (InRange range) (λ n. decimal n) (digits_so_far number) result }
{
    match number {
        None => None,
        Some(number) => {
            if contains(range, number) {
                Some(number)
            } else {
                None
            }
        }
    }
}

/// Reads as many letters as can begin a number of the range.
pub(crate) fn read_number(text: &[u8], range: Range) -> NumberRead
    requires { IsUsable range }
    ensures reads { Reads (InRange range) (λ n. decimal n) text.now result.used result.number }
    ensures within { result.used ≤ length text.now }
{
    let mut number = None;
    for (used, &letter) in text.iter().enumerate() {
        match longer(range, number, letter) {
            Some(longer) => number = Some(longer),
            None => {
                let number = complete(range, number);
                return NumberRead { used, number };
            }
        }
    }
    let number = complete(range, number);
    NumberRead {
        used: text.len(),
        number,
    }
}
