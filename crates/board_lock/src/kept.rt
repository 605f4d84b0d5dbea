//! What a lock keeps: a value with a list of entries that only grows.
ghost use Rattle.std.specs.Prelude.{◌≡◌, ℕ, List, Option, length};

/// A value with a fixed part and a list of entries, each of which may belong to a seat.
/// Contracts see the value through three meanings.
pub trait Kept {
    /// An entry.
    type Item;
    /// What no turn changes.
    type Fixed;

    // The fixed part.
    ghost fixed: { Self → Self.Fixed };

    // The entries, in their order.
    ghost entries: { Self → List Self.Item };

    // The seat to which an entry belongs, from the entries before it and the entry.
    ghost belongs: { List Self.Item → Self.Item → Option ℕ };

    /// The number of entries.
    fn length(&self) -> u64
        ensures { result ≡ length (entries self.now) };
}
