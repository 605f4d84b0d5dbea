//! What a batch answers.

ghost use Rattle.std.specs.Prelude.{◌≡◌};

use basic_types::Bytes;
use std::marker::Model;
use track_board::Outcome;

/// How a job ended.
#[derive(Debug, Drop)]
pub enum JobOutcome {
    /// Its program's end was reached, with this outcome of its board.
    Done(Outcome),
    /// The host's memory ran out.
    NoMemory,
}

/// What came of a job: the bytes of stream 1 and of stream 2 of its program, and how it ended.
#[derive(Debug, Drop)]
pub struct JobEnd {
    pub out: Bytes,
    pub notes: Bytes,
    pub outcome: JobOutcome,
}

/// The ends of the jobs of a batch, in the jobs' order.
#[derive(Debug, Drop)]
pub struct JobEnds {
    ends: Vec<JobEnd>,
}

impl Model for JobEnds {
    ghost use Rattle.std.specs.Prelude.{List};
    ghost use Rattle.job_batch.specs.declared.ends.JobEnd.{JobEnd};

    ghost Value = { List JobEnd };

    ghost view = { λ e. e.ends.items };
}

impl JobEnds {
    pub(crate) fn from_vec(ends: Vec<JobEnd>) -> JobEnds
        ensures { result ≡ ends.items }
    {
        JobEnds { ends }
    }

    pub fn as_slice(&self) -> &[JobEnd]
        ensures { result.now ≡ self.now }
    {
        self.ends.as_slice()
    }

    pub fn into_vec(self) -> Vec<JobEnd>
        ensures { result.items ≡ self }
    {
        let JobEnds { ends } = self;
        ends
    }
}
