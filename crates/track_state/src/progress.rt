//! The loop over instructions.

ghost use Rattle.std.specs.Prelude.{◌≡◌, ℕ, true, false, ◌+◌, ◌^◌, ◌<◌, ◌≤◌, ◌⊎◌, [], ◌∷◌, ◌++◌, length, IsTrue, IfOk, OnErr, nat_le};
ghost use Rattle.std.specs.List.{All};
ghost use Rattle.speculation.specs.Run.{Piece};
ghost use Rattle.speculation.specs.Core.{held_size, most_held};
ghost use Rattle.guest_model.specs.ByteMap.{mapped, bytes_from};
ghost use Rattle.guest_model.specs.Registers.{IsRegFile};
ghost use Rattle.guest_model.specs.MachineState.{MachineState};
ghost use Rattle.guest_model.specs.Step.{step, at_call};
ghost use Rattle.rv32_step.specs.Steps.{Steps};
ghost use Rattle.paged_image.specs.Image.{content};
ghost use Rattle.track_state.specs.Kept.{flat_state};
ghost use Rattle.track_state.specs.Progress.{halts, held_piece, undone, IsProgress, KeepsPages};

use crate::memo::Memo;
use crate::quiet::run_quietly;
use crate::track::TrackState;
use basic_types::NoMemory;
use guest_model::{A0, End, Regs};
use held_output::Held;
use rv32_step::{END_DUAL_TRACK, FAST_TRACK, Stepped, at_call, step};
use speculation::{Kind, MOST_HELD};

/// How far a run went.
#[derive(Clone, Copy)]
pub struct Progress {
    /// How many instructions were taken.
    pub taken: u64,
    /// The end that the last of them met.
    pub end: Option<End>,
    /// Whether there was no memory for the next one.
    pub refused: bool,
}

/// Takes at most `limit` instructions, for a track that has `own` instructions behind it. It takes none behind an end, at
/// the call at which a track of this kind halts, and where `MOST_HELD` bytes are held.
///
/// An instruction for which there is no memory, or none for what it writes, is not taken.
#[inline(never)]
pub fn advance(
    kind: Kind,
    own: u64,
    state: &mut TrackState,
    held: &mut Held,
    input: &[u8],
    limit: u64,
) -> Progress
    requires place { state.old.place ≤ length input.now }
    requires count { own + limit < 2 ^ 64 }
    requires numbers { All (λ p. p.number ≤ own) held.old }
    requires room { held_size held.old < most_held }
    ensures progress { IsProgress input.now kind (flat_state state.old) own held.old limit (flat_state state.new) held.new result }
    ensures place { state.new.place ≤ length input.now }
    ensures kept { KeepsPages state.old.memory state.new.memory }
{
    let call = boundary_call(kind);
    let mut memo = Memo::new();
    let mut taken = 0;
    'parts: while taken < limit {
        taken += run_quietly(state, &mut memo, input, limit - taken);
        if taken == limit {
            return Progress::paused(limit, None, false);
        }
        let _pc = state.regs.pc();
        if at_call(call, state) {
            return Progress::paused(taken, None, false);
        }
        match take(state, input) {
            Stepped::Next => {}
            Stepped::Wrote { stream, at, count } => {
                match hold(kind, own + taken + 1, stream, at, count, state, held) {
                    Ok(false) => {}
                    Ok(true) => return Progress::paused(taken + 1, None, false),
                    Err(NoMemory) => return Progress::paused(taken, None, true),
                }
            }
            Stepped::Ends(end) => return Progress::paused(taken + 1, Some(end), false),
            Stepped::NoMemory => return Progress::paused(taken, None, true),
        }
        taken += 1;
    }
    Progress::paused(limit, None, false)
}

impl Progress {
    #[inline]
    fn paused(taken: u64, end: Option<End>, refused: bool) -> Progress
        ensures { result ≡ record { taken = taken; end = end; refused = refused } }
    {
        Progress {
            taken,
            end,
            refused,
        }
    }
}

/// The number of the call at which a track of this kind halts.
#[inline]
#[tactic(auto, unfolding(guest_model::specs::Step::at_fast, guest_model::specs::Step::at_end))]
fn boundary_call(kind: Kind) -> u32
    ensures { (s : MachineState) → halts kind s ≡ at_call result s }
{
    match kind {
        Kind::Segment => FAST_TRACK,
        Kind::Normal | Kind::Fast => END_DUAL_TRACK,
    }
}

/// Takes the instruction at pc. Apart from the loops of runs, so that they stay short.
#[cold]
#[inline(never)]
pub fn take(state: &mut TrackState, input: &[u8]) -> Stepped
    requires { state.old.place ≤ length input.now }
    ensures means { let old = flat_state state.old in Steps true (step false input.now old) old (flat_state state.new) result }
    ensures place { state.new.place ≤ length input.now }
    ensures kept { KeepsPages state.old.memory state.new.memory }
{
    step(state, input, false)
}

/// Holds back what the instruction of this number wrote, unless the track is a fast version. Answers whether as many
/// bytes are held as may be.
///
/// # Errors
/// `NoMemory` where there is no room for these bytes; the write is undone then.
#[cold]
#[inline(never)]
#[tactic(auto, unfolding(speculation::specs::Core::most_held))]
fn hold(
    kind: Kind,
    number: u64,
    stream: u8,
    at: u32,
    count: u32,
    state: &mut TrackState,
    held: &mut Held,
) -> Result<bool, NoMemory>
    requires above { All (λ p. p.number < number) held.old }
    requires stream { (stream ≡ 1) ⊎ (stream ≡ 2) }
    requires mapped { IsTrue (mapped (content state.old.memory) at count) }
    requires room { held_size held.old < most_held }
    ensures full { IfOk result (λ full. full ≡ nat_le most_held (held_size held.new)) }
    ensures held { IfOk result (λ full. held.new ≡ held.old ++ held_piece kind number stream (bytes_from (content state.old.memory) at count)) }
    ensures same { IfOk result (λ full. state.new ≡ state.old) }
    ensures undone { OnErr result (state.new ≡ record state.old { regs = undone stream state.old.regs }) }
    ensures lost { OnErr result (held.new ≡ held.old) }
{
    if let Kind::Fast = kind {
        return Ok(false);
    }
    if let Err(NoMemory) = held.push(number, stream, &state.memory, at, count) {
        undo(stream, &mut state.regs);
        return Err(NoMemory);
    }
    Ok(held.size() >= MOST_HELD)
}

/// Takes a write back: a0 is the stream again, and pc is that of the call.
fn undo(stream: u8, regs: &mut Regs)
    ensures { regs.new ≡ undone stream regs.old }
{
    regs.set(A0, stream as u32);
    regs.set_pc(regs.pc().wrapping_sub(4));
}
