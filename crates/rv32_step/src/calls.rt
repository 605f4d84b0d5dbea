//! The calls that open and close a dual region.

ghost use Rattle.std.specs.Prelude.{◌≡◌};
ghost use Rattle.guest_model.specs.MachineState.{flat};
ghost use Rattle.guest_model.specs.Step.{at_call, at_fast, at_end};

use guest_model::{A7, Memory, State};

/// The word of ECALL.
const ECALL: u32 = 0x0000_0073;

/// The number of FastTrack, the call that opens a dual region.
pub const FAST_TRACK: u32 = 2000;

/// The number of EndDualTrack, the call that closes a dual region.
pub const END_DUAL_TRACK: u32 = 2001;

/// The state is at the call of this number: the word at pc is ECALL, and a7 is the number.
#[inline]
pub fn at_call<M: Memory>(number: u32, state: &State<M>) -> bool
    ensures { result ≡ at_call number (flat M.bytes state.now) }
{
    if state.regs.get(A7) != number {
        return false;
    }
    match state.memory.load32(state.regs.pc()) {
        Some(word) => word == ECALL,
        None => false,
    }
}

/// The state is at FastTrack, the call that opens a dual region: the word at pc is ECALL, and a7 is 2000.
#[inline]
#[tactic(auto, unfolding(guest_model::specs::Step::at_fast))]
pub fn at_fast<M: Memory>(state: &State<M>) -> bool
    ensures { result ≡ at_fast (flat M.bytes state.now) }
{
    at_call(FAST_TRACK, state)
}

/// The state is at EndDualTrack, the call that closes a dual region: the word at pc is ECALL, and a7 is 2001.
#[inline]
#[tactic(auto, unfolding(guest_model::specs::Step::at_end))]
pub fn at_end<M: Memory>(state: &State<M>) -> bool
    ensures { result ≡ at_end (flat M.bytes state.now) }
{
    at_call(END_DUAL_TRACK, state)
}
