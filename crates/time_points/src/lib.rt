//! A program alone at any instruction, to and fro: the states at some counts are saved, and a view of another count is
//! taken from the saved state before it.
#![tactic(auto)]

mod counted;
mod points;
mod save;
mod view;

pub use counted::counted_step;
pub use points::Points;
pub use view::View;

#[cfg(test)]
mod tests;
