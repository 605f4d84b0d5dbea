//! Verified output of tracks that are gone.

ghost use Rattle.std.specs.Prelude.{◌≡◌, ◌-◌, ◌^◌, min, nat_le, length, IfOk};
ghost use Rattle.speculation.specs.Core.{most_held};
ghost use Rattle.track_board.specs.Parts.{ready_marks};

use basic_types::NoMemory;
use held_output::{Chunks, Held};
use speculation::MOST_HELD;
use std::alloc::Global;

/// Pieces of which those that are numbered at most `limit` are verified.
#[derive(Drop)]
pub(crate) struct Ready {
    pub(crate) limit: u64,
    pub(crate) held: Held,
}

/// Whether the verified bytes of these are at least as many as a track may hold.
#[tactic(auto, unfolding(speculation::specs::Core::most_held))]
pub(crate) fn holds_much(ready: &[Ready]) -> bool
    ensures { result ≡ nat_le most_held (length (ready_marks ready.now)) }
{
    size_of(ready) >= MOST_HELD
}

/// The number of verified bytes of these, or `u64::MAX` where it is greater.
pub(crate) fn size_of(ready: &[Ready]) -> u64
    ensures { result ≡ min (length (ready_marks ready.now)) (2 ^ 64 - 1) }
{
    let mut size: u64 = 0;
    for part in ready {
        size = size.saturating_add(part.held.size_upto(part.limit));
    }
    size
}

/// A copy of the verified bytes of these.
///
/// # Errors
/// `NoMemory` where there is no room for them.
pub(crate) fn copy_of(alloc: Global, ready: &[Ready]) -> Result<Chunks, NoMemory>
    ensures { IfOk result (λ bytes. bytes ≡ ready_marks ready.now) }
{
    let mut bytes = Chunks::new(alloc);
    for part in ready {
        part.held.append_bytes(part.limit, &mut bytes)?;
    }
    Ok(bytes)
}
