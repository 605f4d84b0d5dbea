/// The most instructions of a budget: 2^40, as the contracts write it.
pub const MOST_BUDGET: u64 = 1 << 40;

/// The most bytes of an image and of a guest's input: 2^24.
pub const MOST_INPUT: u64 = 1 << 24;
