//! The state of the guest machine.

use crate::memory::Memory;
use crate::registers::Regs;

/// The part of memory that the program break moves in.
#[derive(Debug, Clone, Copy, PartialEq, Eq)]
pub struct Heap {
    /// The first address, a multiple of 4,096.
    pub start: u32,
    /// How many bytes it has; all of them are mapped.
    pub size: u32,
    /// The break, from `start` to `start + size`. Where it stands changes no byte.
    pub brk: u32,
}

/// A machine state over a memory.
#[derive(Drop)]
pub struct State<M: Memory> {
    pub regs: Regs,
    pub memory: M,
    /// How many bytes of the input were read.
    pub place: u64,
    pub heap: Heap,
}
