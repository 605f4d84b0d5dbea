//! Files, sources and sinks as the program meets them: bytes that are told, and a count of faults.
//!
//! An object either *tells* its bytes, so that contracts speak of them, or tells nothing. Each
//! call that fails raises the object's count of faults, and no other call does.
#![tactic(auto)]

mod calls;
mod calm;
mod count_sink;
mod failed;
mod files;
mod fill;
mod memory_files;
mod memory_sink;
mod memory_source;
mod real;
mod sink;
mod source;
mod take;
mod write;

pub use calm::{CalmFiles, CalmSource};
pub use count_sink::CountSink;
pub use failed::Failed;
pub use files::Files;
pub use memory_files::MemoryFiles;
pub use memory_sink::MemorySink;
pub use memory_source::MemorySource;
pub use real::{RealFiles, RealInput, RealNotes, RealOutput};
pub use sink::Sink;
pub use source::Source;
pub use take::{Took, take_file, take_source};
pub use write::write_whole;

#[cfg(test)]
mod tests;
