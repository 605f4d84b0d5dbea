//! One instruction of RV32IM, over any memory (RISC-V Unprivileged ISA, chapters RV32I and M).
#![tactic(auto)]

mod arithmetic;
mod calls;
mod decoded;
mod decoded_step;
mod effects;
mod laws;
mod on_registers;
mod one_step;
mod operation;
mod stepped;

pub use calls::{END_DUAL_TRACK, FAST_TRACK, at_call, at_end, at_fast};
pub use decoded::Decoded;
pub use decoded_step::step_decoded;
pub use laws::fast_step_law;
pub use on_registers::RegisterStep;
pub use one_step::{step, step_other};
pub use operation::Operation;
pub use stepped::Stepped;
