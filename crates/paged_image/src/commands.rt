//! Lists of stores and snapshots, run over several images. Whatever the list, each image is the flat memory that the same
//! stores give: no store is seen in another image, and a snapshot has the bytes of its moment.

mod command;
mod run;

pub use command::{Command, Data};
pub use run::run_commands;
