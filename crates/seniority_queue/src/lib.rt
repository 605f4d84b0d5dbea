//! A queue in order of seniority: a doubly linked list in one vector, whose keys stay valid while older elements leave at
//! the front and younger ones are cut off at the end.
#![tactic(auto)]

mod key;
mod links;
mod node;
mod queue;
#[cfg(test)]
mod tests;

pub use basic_types::NoMemory;
pub use key::Key;
pub use queue::Queue;
