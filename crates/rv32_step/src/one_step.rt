//! One instruction in place.

ghost use Rattle.std.specs.Prelude.{◌≡◌, ◌≤◌, length};
ghost use Rattle.guest_model.specs.ByteMap.{Keeps};
ghost use Rattle.guest_model.specs.MachineState.{flat};
ghost use Rattle.guest_model.specs.InstructionTable.{FieldsFit};
ghost use Rattle.guest_model.specs.Effect.{effect, store_effect};
ghost use Rattle.guest_model.specs.Service.{service};
ghost use Rattle.guest_model.specs.Step.{step, step_instr, after_effect};
ghost use Rattle.rv32_step.specs.RegisterSteps.{IsOther};
ghost use Rattle.rv32_step.specs.Steps.{Steps};

use crate::effects::{address, advance, finish, store_bytes};
use crate::on_registers::{RegisterStep, step_registers};
use crate::stepped::Stepped;
use guest_calls::{Served, serve};
use guest_model::{A0, A1, A2, A7, End, Instr, Memory, State, StoreFault, StoreWidth, Trap};

/// Carries out ECALL.
#[inline(always)]
#[tactic(auto, unfolding(guest_model::specs::Service::service))]
fn call_service<M: Memory>(state: &mut State<M>, input: &[u8], fast: bool) -> Stepped
    requires { state.old.place ≤ length input.now }
    ensures means { let old = flat M.bytes state.old in
        Steps M.REFUSES (service fast input.now old) old (flat M.bytes state.new) result }
    ensures place { state.new.place ≤ length input.now }
    ensures kept { let old = state.old.memory in let new = state.new.memory in
        Keeps (M.written old) (M.bytes old) (M.written new) (M.bytes new) }
{
    let number = state.regs.get(A7);
    let a0 = state.regs.get(A0);
    let a1 = state.regs.get(A1);
    let a2 = state.regs.get(A2);
    match serve(
        number,
        a0,
        a1,
        a2,
        &mut state.memory,
        &mut state.heap,
        input,
        &mut state.place,
    ) {
        Served::Answer(value) => {
            finish(A0, value, &mut state.regs);
            Stepped::Next
        }
        Served::Wrote { stream, at, count } => {
            finish(A0, count, &mut state.regs);
            Stepped::Wrote { stream, at, count }
        }
        Served::Exit(code) => Stepped::Ends(End::Exit(code)),
        Served::FastTrack => {
            finish(A0, fast as u32, &mut state.regs);
            Stepped::Next
        }
        Served::EndDual => {
            advance(&mut state.regs);
            Stepped::Next
        }
        Served::NoMemory => Stepped::NoMemory,
    }
}

#[inline(always)]
fn store<M: Memory>(width: StoreWidth, at: u32, value: u32, state: &mut State<M>) -> Stepped
    ensures means { let old = flat M.bytes state.old in
        let want = after_effect state.old.regs.pc (store_effect width at value old) in
        Steps M.REFUSES want old (flat M.bytes state.new) result }
    ensures place { state.new.place ≡ state.old.place }
    ensures kept { let old = state.old.memory in let new = state.new.memory in
        Keeps (M.written old) (M.bytes old) (M.written new) (M.bytes new) }
{
    match store_bytes(width, at, value, &mut state.memory) {
        Ok(()) => {
            advance(&mut state.regs);
            Stepped::Next
        }
        Err(StoreFault::Unmapped) => Stepped::Ends(End::Trap(Trap::StoreUnmapped, state.regs.pc())),
        Err(StoreFault::NoMemory) => Stepped::NoMemory,
    }
}

/// Carries out a store or ECALL, which stands at pc, as `step` does.
#[inline(always)]
pub fn step_other<M: Memory>(
    instr: Instr,
    state: &mut State<M>,
    input: &[u8],
    fast: bool,
) -> Stepped
    requires place { state.old.place ≤ length input.now }
    requires here { IsOther (flat M.bytes state.old) instr }
    ensures means { let old = flat M.bytes state.old in
        Steps M.REFUSES (step fast input.now old) old (flat M.bytes state.new) result }
    ensures place { state.new.place ≤ length input.now }
    ensures kept { let old = state.old.memory in let new = state.new.memory in
        Keeps (M.written old) (M.bytes old) (M.written new) (M.bytes new) }
{
    match instr {
        Instr::Ecall => call_service(state, input, fast),
        Instr::Store {
            width,
            rs1,
            rs2,
            offset,
        } => {
            let at = address(&state.regs, rs1, offset);
            let value = state.regs.get(rs2);
            store(width, at, value, state)
        }
        _ => unreachable!(),
    }
}

/// Carries out the instruction at pc (RISC-V Unprivileged ISA, chapters RV32I and M). An ECALL is a service; FastTrack
/// answers 1 where `fast` is true, else 0.
///
/// `input` is the whole input of the guest, of which `state.place` bytes were read. `Ends` never has the end Spent.
/// NoMemory comes only where the memory may refuse a store. After both the state is as before.
#[inline(always)]
#[tactic(auto, unfolding(guest_model::specs::Step::step))]
pub fn step<M: Memory>(state: &mut State<M>, input: &[u8], fast: bool) -> Stepped
    requires { state.old.place ≤ length input.now }
    ensures means { let old = flat M.bytes state.old in
        Steps M.REFUSES (step fast input.now old) old (flat M.bytes state.new) result }
    ensures place { state.new.place ≤ length input.now }
    ensures kept { let old = state.old.memory in let new = state.new.memory in
        Keeps (M.written old) (M.bytes old) (M.written new) (M.bytes new) }
{
    let pc = state.regs.pc();
    let Some(word) = state.memory.load32(pc) else {
        return Stepped::Ends(End::Trap(Trap::FetchUnmapped, pc));
    };
    match step_registers(word, &mut state.regs, &state.memory) {
        RegisterStep::Next => Stepped::Next,
        RegisterStep::Ends(end) => Stepped::Ends(end),
        RegisterStep::Other(instr) => step_other(instr, state, input, fast),
    }
}

#[cfg(test)]
mod tests;
