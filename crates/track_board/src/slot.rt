//! Where a track of the board is.

use track_state::Track;

/// A track at home, or the place of one that is out.
#[derive(Drop)]
pub(crate) enum Slot {
    /// The track is at home.
    Home(Track),
    /// It is out, or will not come home; it had taken so many instructions when it went.
    Away(u64),
}
