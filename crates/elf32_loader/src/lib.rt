//! The loader of guest images: static executables of RV32 in ELF32, as the System V ABI defines the format (chapter 4
//! "Object Files" and chapter 5 "Program Loading").
#![tactic(auto)]

mod address_space;
mod areas;
mod fault;
mod fields;
mod header;
mod heap;
mod image;
pub mod laws;
mod loaded;
mod mapped_pages;
mod page_range;
mod segment;
mod segment_checks;
mod table;

pub use fault::ImageFault;
pub use guest_model::{Area, Areas, Heap};
pub use image::load;
pub use loaded::Loaded;
