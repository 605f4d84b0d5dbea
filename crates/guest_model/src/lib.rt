//! The guest machine: RV32IM states, memory, and the definitions that say what a program alone does.
#![tactic(auto)]

mod access;
mod areas;
mod difference;
mod end;
mod flat;
mod instr;
pub mod laws;
mod memory;
mod page;
mod registers;
mod state;

pub use areas::{Area, Areas};
pub use basic_types::{Bytes, NoMemory, Steps};
pub use difference::Difference;
pub use end::{End, Trap};
pub use flat::FlatMemory;
pub use instr::{Cond, ImmOp, Instr, LoadWidth, RegOp, StoreWidth, UpperOp};
pub use memory::{Memory, StoreFault};
pub use page::PAGE_SIZE;
pub use registers::{A0, A1, A2, A7, Regs};
pub use state::{Heap, State};
