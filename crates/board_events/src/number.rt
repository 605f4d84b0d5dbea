//! Numbers as text.

ghost use Rattle.std.specs.Prelude.{◌≡◌, ◌≢◌, ℕ, ◌<◌, ◌^◌, IfSome, IfNone, decimal};

/// The number that a text writes in plain decimal: without a sign and without leading zeros. There is none where the
/// text is no such number, or one of 2^64 and more.
pub(crate) fn read_number(text: &str) -> Option<u64>
    ensures is { IfSome result (λ n. text.now ≡ decimal n) }
    ensures none { IfNone result ((n : ℕ) → n < 2 ^ 64 → text.now ≢ decimal n) }
{
    let digits = text.as_bytes();
    let first = digits.first().copied().unwrap_or(0);
    if first == b'+' {
        return None;
    }
    if first == b'0' && digits.len() != 1 {
        return None;
    }
    text.parse().ok()
}
