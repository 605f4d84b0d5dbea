use guest_model::End;

/// Why a track is run no further.
#[derive(Debug, Clone, Copy, PartialEq, Eq)]
pub enum Stop {
    /// A version of a region stands at the call that closes the region, after at least one instruction; a segment stands
    /// at a call that opens a region.
    Boundary,
    /// The last instruction ended the program. The end is never `Spent`.
    Ended(End),
    /// The track has taken as many instructions as it may.
    Budget,
}
