//! The numbers that bound a track.

/// A track that holds so many bytes is run no further and is not lent, and no region opens while so many are ready.
/// `most_held` of the definitions.
pub const MOST_HELD: u64 = 1 << 20;

/// The most instructions that a track takes at one loan. `most_slice` of the definitions.
pub const MOST_SLICE: u64 = 1 << 16;
