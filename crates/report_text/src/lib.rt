//! The texts of reports, byte by byte: the rows of a ledger, its totals, the end of a run, the state of a
//! program, and the summary of a bench.
#![tactic(auto)]

mod address;
mod bench;
mod byte;
mod end;
mod row;
mod state;
mod totals;
mod traps;
mod verdict;

pub use address::Address;
pub use bench::bench_text;
pub use byte::write_digits;
pub use end::end_text;
pub use row::row_text;
pub use state::state_text;
pub use totals::totals_text;
pub use traps::trap_name;
pub use verdict::VerdictText;

#[cfg(test)]
mod tests;
