//! The services that a guest program calls by ECALL: their table, over any memory.
#![tactic(auto)]

mod served;
mod services;

pub use served::Served;
pub use services::serve;
