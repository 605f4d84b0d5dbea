//! The address space of a guest.

use guest_model::PAGE_SIZE;

/// How many bytes a page has.
pub const PAGE: u64 = PAGE_SIZE as u64;

/// The first address of the stack.
pub const STACK_BASE: u64 = 0x7FF0_0000;

/// The first address behind the stack.
pub const STACK_END: u64 = 0x8000_0000;

/// The first number that is no address.
pub const ADDRESS_END: u64 = 1 << 32;
