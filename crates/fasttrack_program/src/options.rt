//! How a task is done.

ghost use Rattle.std.specs.Prelude.{◌≡◌};
ghost use Rattle.program_words.specs.CommandLine.{asked};
ghost use Rattle.fasttrack_program.specs.Plan.{options_of};
ghost use Rattle.fasttrack_program.specs.Promise.{settings_of};

use program_words::Request;
use track_board::Settings;

/// How a task is done.
#[derive(Clone, Copy, Debug, PartialEq, Eq)]
pub struct Options {
    /// How many regions may be open at once, from 1 to 32.
    pub tracks: u64,
    /// How many workers run tracks beside the conductor, from 0 to 64. Without workers a run is done on one thread.
    pub workers: u64,
    /// How many instructions the guest runs at most, from 1 to 2^40.
    pub budget: u64,
    /// Whether the report of the program stands behind the guest's output.
    pub report: bool,
    /// Whether the journal of the run does.
    pub journal: bool,
}

/// The options of a request.
pub fn options_in(request: &Request<'_>) -> Options
    ensures { result ≡ options_of (asked request.now) }
{
    Options {
        tracks: request.tracks,
        workers: request.workers,
        budget: request.budget,
        report: request.report,
        journal: request.journal,
    }
}

/// The settings of a board for these options.
pub fn settings_in(options: &Options) -> Settings
    ensures { result ≡ settings_of options.now }
{
    Settings {
        tracks: options.tracks,
        budget: options.budget,
    }
}
