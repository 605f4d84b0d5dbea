//! What a track is called, and to whom it is lent.

/// What a track executes.
#[derive(Clone, Copy, Debug, PartialEq, Eq)]
pub enum Kind {
    /// The original version of a region: the opening call is answered by 0.
    Normal,
    /// The fast version of a region: the opening call is answered by 1.
    Fast,
    /// The program between two regions.
    Segment,
}

/// The name of a track. A region is named by the discards before it and by the forks since then; its original is the
/// normal track of that name, and the lead carries the name of the youngest region.
#[derive(Clone, Copy, Debug, PartialEq, Eq)]
pub struct Name {
    /// How many discards came before.
    pub generation: u64,
    /// The region's number in its generation, from 1; 0 is the lead before the first fork.
    pub region: u64,
    /// Whether this is the region's original, and not the lead.
    pub normal: bool,
}

/// A loan that has not ended: this track is out with this seat.
#[derive(Clone, Copy, Debug, PartialEq, Eq)]
pub struct OpenLoan {
    /// The number of the seat that has it.
    pub seat: u64,
    /// The track's name.
    pub name: Name,
    /// The number of the row whose discard dropped the track, once it was dropped.
    pub dropped: Option<u64>,
}
