//! What a part of a call answers before the answer's line is written.

ghost use Rattle.std.specs.Prelude.{◌≡◌};
ghost use Rattle.fasttrack_program.specs.Serving.{plainly};

use crate::answer::Answer;
use board_events::Entries;
use job_listing::JobReport;

/// The histories that are handed out once the answer's line was written.
#[derive(Debug, Drop)]
pub enum Told {
    /// None.
    Nothing,
    /// That of a run with tracks that completed.
    One(Entries),
    /// The reports of a batch's jobs: the histories of those that are done.
    Each(Vec<JobReport>),
}

/// An answer, and the histories that go with it.
#[derive(Debug, Drop)]
pub struct Served {
    /// How the call ends, unless its line can't be written.
    pub answer: Answer,
    /// What is handed out then.
    pub told: Told,
}

/// An answer without a history.
pub fn plain(answer: Answer) -> Served
    ensures { result ≡ plainly answer }
{
    Served {
        answer,
        told: Told::Nothing,
    }
}
