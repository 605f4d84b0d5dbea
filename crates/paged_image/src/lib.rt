//! Guest memory as pages that images share until one of them writes: snapshots cost no copy of a page, and each image
//! knows the pages that it wrote.
#![tactic(auto)]

mod builder;
pub mod commands;
mod entry;
mod image;
mod owner;
mod page;
mod write_set;

pub use image::PagedImage;
pub use write_set::WriteSet;
