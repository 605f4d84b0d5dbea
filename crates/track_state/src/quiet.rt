//! Runs of instructions that are at no call and write to no stream. Those that change registers alone leave the memory
//! as it is, so that the page on which they stand is looked up once.

ghost use Rattle.std.specs.Prelude.{◌≡◌, ℕ, true, false, ◌^◌, ◌<◌, ◌≤◌, List, Some, length, IfSome};
ghost use Rattle.std.specs.Bool.{OnTrue, OnFalse};
ghost use Rattle.std.specs.Int.{w32};
ghost use Rattle.guest_model.specs.ByteMap.{ByteMap, load};
ghost use Rattle.guest_model.specs.declared.state.Heap.{Heap};
ghost use Rattle.paged_image.specs.Pages.{IsPage};
ghost use Rattle.paged_image.specs.Image.{content};
ghost use Rattle.rv32_step.specs.RegisterSteps.{IsOther};
ghost use Rattle.track_state.specs.Kept.{flat_state};
ghost use Rattle.track_state.specs.Progress.{KeepsPages};
ghost use Rattle.track_state.specs.Quiet.{IsQuiet, QuietSteps, QuietRegisters, seen};

use crate::memo::Memo;
use crate::track::TrackState;
use guest_model::{Instr, PAGE_SIZE, Regs};
use paged_image::PagedImage;
use rv32_step::{RegisterStep, Stepped, step_decoded, step_other};

/// How far a run on one page went.
#[derive(Clone, Copy)]
struct OnPage {
    /// How many instructions were taken.
    taken: u64,
    /// The instruction at pc, where it is known to be a store or ECALL.
    next: Option<Instr>,
}

/// Takes at most `limit` instructions, as long as they are no ECALL, meet no end, and there is memory for them. Answers
/// how many.
#[inline(never)]
pub fn run_quietly(state: &mut TrackState, memo: &mut Memo, input: &[u8], limit: u64) -> u64
    requires place { state.old.place ≤ length input.now }
    ensures ran { QuietSteps input.now (flat_state state.old) result (flat_state state.new) }
    ensures within { result ≤ limit }
    ensures place { state.new.place ≤ length input.now }
    ensures kept { KeepsPages state.old.memory state.new.memory }
{
    let mut taken = 0;
    'pages: while taken < limit {
        let run = run_registers(state, memo, limit - taken);
        taken += run.taken;
        match run.next {
            Some(instr) => {
                if !take_store(instr, state, input) {
                    return taken;
                }
                taken += 1;
            }
            None if run.taken > 0 => {}
            None => return taken,
        }
    }
    limit
}

/// Takes the store at pc. Answers false, with the state as before, where it is an ECALL, or where the store meets an end
/// or finds no memory: the whole step finds the same again.
#[inline(always)]
fn take_store(instr: Instr, state: &mut TrackState, input: &[u8]) -> bool
    requires place { state.old.place ≤ length input.now }
    requires here { IsOther (flat_state state.old) instr }
    ensures done { OnTrue result (IsQuiet input.now (flat_state state.old) (flat_state state.new)) }
    ensures declined { OnFalse result (flat_state state.new ≡ flat_state state.old) }
    ensures place { state.new.place ≤ length input.now }
    ensures kept { KeepsPages state.old.memory state.new.memory }
{
    match instr {
        Instr::Store { .. } => match step_other(instr, state, input, false) {
            Stepped::Next => true,
            Stepped::Ends(_) | Stepped::NoMemory => false,
            Stepped::Wrote { .. } => unreachable!(),
        },
        _ => false,
    }
}

/// Takes at most `limit` instructions that change registers alone, as long as they stand on one page.
#[inline(always)]
fn run_registers(state: &mut TrackState, memo: &mut Memo, limit: u64) -> OnPage
    ensures ran { (input : List ℕ) → QuietSteps input (flat_state state.old) result.taken (flat_state state.new) }
    ensures within { result.taken ≤ limit }
    ensures next { IfSome result.next (λ i. IsOther (flat_state state.new) i) }
    ensures more { IfSome result.next (λ i. result.taken < limit) }
    ensures place { state.new.place ≡ state.old.place }
    ensures memory { state.new.memory ≡ state.old.memory }
{
    let number = state.regs.pc() / PAGE_SIZE;
    match state.memory.page(number) {
        Some(page) => run_on_page(number, page, &mut state.regs, &state.memory, memo, limit),
        None => OnPage {
            taken: 0,
            next: None,
        },
    }
}

#[inline(always)]
fn run_on_page(
    number: u32,
    page: &[u8],
    regs: &mut Regs,
    memory: &PagedImage,
    memo: &mut Memo,
    limit: u64,
) -> OnPage
    requires { IsPage (content memory.now) number page.now }
    ensures ran { QuietRegisters (content memory.now) regs.old result.taken regs.new }
    ensures within { result.taken ≤ limit }
    ensures next { (place : ℕ) (heap : Heap) → IfSome result.next (λ i. IsOther (seen (content memory.now) place heap regs.new) i) }
    ensures more { IfSome result.next (λ i. result.taken < limit) }
{
    for taken in 0..limit {
        let pc = regs.pc();
        let Some(word) = word_on_page(number, page, pc) else {
            return OnPage { taken, next: None };
        };
        // The whole step finds an illegal word, and any other end, again.
        let Some(decoded) = memo.decode(pc, word) else {
            return OnPage { taken, next: None };
        };
        match step_decoded(decoded, regs, memory) {
            RegisterStep::Next => {}
            RegisterStep::Ends(_) => return OnPage { taken, next: None },
            RegisterStep::Other(instr) => return OnPage {
                taken,
                next: Some(instr),
            },
        }
    }
    OnPage {
        taken: limit,
        next: None,
    }
}

/// The word at `pc`, where all of it lies on the page of this number.
#[inline]
fn word_on_page(number: u32, page: &[u8], pc: u32) -> Option<u32>
    requires below { number < 2 ^ 20 }
    requires count { length page.now ≡ 4096 }
    ensures { IfSome result (λ word. (m : ByteMap) → IsPage m number page.now → load w32 m pc ≡ Some word) }
{
    let offset = pc.wrapping_sub(number * PAGE_SIZE) as usize;
    if offset > PAGE_SIZE as usize - 4 {
        return None;
    }
    Some(u32::from_le_bytes([
        page[offset],
        page[offset + 1],
        page[offset + 2],
        page[offset + 3],
    ]))
}
