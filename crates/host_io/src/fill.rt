ghost use Rattle.std.specs.Prelude.{◌≡◌, ◌-◌, ◌≤◌, min, length, take, drop};

/// Copies the bytes of `from` from index `at` on, as many as there are and `into` has places for.
pub(crate) fn fill(from: &[u8], at: u64, into: &mut [u8]) -> usize
    ensures count { result ≡ min (length from.now - at) (length into.new) }
    ensures bytes { take result into.new ≡ take result (drop at from.now) }
    ensures exact { result ≡ length (take result into.new) }
{
    let start = at.min(from.len() as u64) as usize;
    let rest = &from[start..];
    let count = rest.len().min(into.len());
    into[..count].copy_from_slice(&rest[..count]);
    count
}
