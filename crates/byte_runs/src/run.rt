/// How many bytes of a run are kept at most.
pub const SHOWN: usize = 16;

/// A run of neighbouring bytes each of which differs.
#[derive(Debug, Drop)]
pub struct Run {
    /// The lowest address.
    pub address: u32,
    /// How many bytes differ, at least one.
    pub length: u64,
    /// The first bytes on the left side, at most `SHOWN`.
    pub left: Vec<u8>,
    /// The first bytes on the right side, as many.
    pub right: Vec<u8>,
}

/// The first runs, by rising addresses.
#[derive(Debug, Drop)]
pub struct Runs {
    pub runs: Vec<Run>,
    /// How many runs follow.
    pub more: u64,
}
