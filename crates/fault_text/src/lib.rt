//! Faults of an image as text.
#![tactic(auto)]

mod image_fault;

pub use image_fault::FaultText;

#[cfg(test)]
mod tests;
