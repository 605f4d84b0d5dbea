//! What a go round of the jobs found.

/// What was found at a job, or at all of them.
#[derive(Debug, Clone, Copy, PartialEq, Eq)]
pub(crate) enum Progress {
    /// Something was done.
    Worked,
    /// Nothing was to be done, and not each job is over.
    Idle,
    /// Each is over.
    Over,
}

impl Progress {
    /// What was found at the jobs of both.
    pub(crate) fn and(self, other: Progress) -> Progress {
        match (self, other) {
            (Progress::Worked, _) | (_, Progress::Worked) => Progress::Worked,
            (Progress::Idle, _) | (_, Progress::Idle) => Progress::Idle,
            (Progress::Over, Progress::Over) => Progress::Over,
        }
    }
}
