//! A track that is out.

use basic_types::{Bytes, NoMemory};
use region_ledger::Finished;
use seniority_queue::Key;
use speculation::{MOST_SLICE, Name};
use std::marker::Model;
use std::sync::Arc;
use track_state::Track;

/// A track that was lent, with the input that it runs over.
///
/// Contracts see name, track and input.
#[derive(Drop)]
pub struct Loan {
    pub(crate) name: Name,
    pub(crate) track: Track,
    pub(crate) input: Arc<Bytes>,
}

/// What the board keeps of a loan.
#[derive(Drop)]
pub(crate) struct Lent {
    pub(crate) seat: u64,
    pub(crate) name: Name,
    /// The region of an original; a lead has none.
    pub(crate) key: Option<Key>,
    /// The number of the row whose discard dropped the track, once it was dropped.
    pub(crate) dropped: Option<u64>,
}

/// What became of a loan that came home.
#[derive(Debug, Clone, Copy, PartialEq, Eq)]
pub enum Back {
    /// The track took its place again.
    Taken,
    /// The discard of this row had dropped the track.
    Dropped(u64),
    /// The board is over.
    Over,
}

impl Model for Loan {
    ghost use Rattle.track_board.specs.LoanView.{LoanView};

    ghost Value = { LoanView };

    ghost view = { λ l. record { name = l.name; track = l.track; input = l.input.value } };
}

impl Loan {
    ghost use Rattle.std.specs.Prelude.{◌≡◌, MatchResult};
    ghost use Rattle.speculation.specs.Core.{most_slice};
    ghost use Rattle.track_state.specs.Views.{view_of};
    ghost use Rattle.track_state.specs.Runs.{RunsOver, RanOn, RanShort, run_length};

    /// The name of the track that was lent.
    pub fn name(&self) -> Name
        ensures { result ≡ self.now.name }
    {
        self.name
    }

    pub fn track(&self) -> &Track
        ensures { result.now ≡ self.now.track }
    {
        &self.track
    }

    /// Runs one slice: until the track has a stop, holds a mebibyte, or has taken 65,536 instructions. It answers how
    /// many it took.
    ///
    /// # Errors
    /// `NoMemory` where a page or a piece of output found no room; the track then stands after some whole instructions, fewer
    /// than the slice has, and may be run again.
    #[tactic(auto, unfolding(speculation::specs::Core::most_slice))]
    pub fn run(&mut self) -> Result<u64, NoMemory>
        requires { RunsOver self.old.input (view_of self.old.track) }
        ensures name { self.new.name ≡ self.old.name }
        ensures input { self.new.input ≡ self.old.input }
        ensures ran { MatchResult result
            (λ n. (n ≡ run_length self.old.input (view_of self.old.track) most_slice) × RanOn self.old.input (view_of self.old.track) (view_of self.new.track) n)
            (λ _. RanShort self.old.input (view_of self.old.track) (view_of self.new.track) most_slice) }
    {
        self.track.run(self.input.as_slice(), MOST_SLICE)
    }
}
