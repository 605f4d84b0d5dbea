//! Workers over one board: each takes a track, runs it outside of the lock and brings it home, and the conductor writes
//! what the board releases.
//!
//! [`round`](rounds::round) is one round of a worker, [`work`] all of them, and [`conduct`] starts workers, takes part in
//! their work itself, and answers what came of the run. What comes of it is the same for every number of workers and for
//! every order in which they get their turns: the contracts say it of the entries that the caller's pass has seen.
//!
//! Who conducts several boards with one set of workers takes the parts: [`passes_for`] makes the workers' passes,
//! [`beside`] runs them on threads, [`lead_round`] is one round of the conductor, and [`conclude`] its last turn.
//!
//! No contract says that a turn comes, so none says that these calls return.
#![tactic(auto)]

mod acts;
mod conducting;
mod gate;
mod kinds;
mod pauses;
mod releases;
pub mod rounds;
mod together;
mod turns;
mod worker;

pub use conducting::{conclude, conduct, lead_round, passes_for};
pub use gate::{Gate, Open, Point};
pub use kinds::{Led, Round};
pub use pauses::Pauses;
pub use serial_run::Conducted;
pub use together::{Help, beside};
pub use worker::work;
