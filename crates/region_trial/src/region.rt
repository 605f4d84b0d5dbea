//! One region, by runs of both versions.

ghost use Rattle.std.specs.Prelude.{◌≡◌, ◌≢◌, ◌+◌, ◌^◌, ◌<◌, ◌≤◌, IfOk, None};
ghost use Rattle.speculation.specs.declared.tracks.Kind.TheVariants.{Fast, Segment};
ghost use Rattle.speculation.specs.Verdicts.{judge};
ghost use Rattle.speculation.specs.Ledger.{row_at};
ghost use Rattle.speculation_law.specs.Sees.{Sees};
ghost use Rattle.guest_model.specs.Difference.{difference};
ghost use Rattle.guest_model.specs.Rv32.{rv32};
ghost use Rattle.rv32_law.specs.GuestStates.{IsGuestState};
ghost use Rattle.region_ledger.specs.Ledger.{seen, ledger_row};
ghost use Rattle.track_state.specs.Views.{view_of, begun};
ghost use Rattle.track_state.specs.Transitions.{IsAtBoundary};
ghost use Rattle.region_trial.specs.Reached.{IsClosed, RunsOn};
ghost use Rattle.region_trial.specs.Regions.{Steps};

use crate::running::{Reached, reach};
use basic_types::Steps as Counter;
use guest_model::{Difference, NoMemory};
use region_ledger::{FastPart, Finished, Row, judge};
use track_state::{Track, same};

/// What a part of the program comes to.
#[derive(Drop)]
pub enum Step {
    /// A region closed.
    Region(Region),
    /// The program ended, or its budget was spent, before any further region closed.
    Finished(Finished),
}

/// A region that its original closed.
#[derive(Drop)]
pub struct Region {
    pub row: Row,
    /// The original, at the closing call.
    pub original: Track,
    /// The fast version, where the verdict on it was clear: it took at most as many instructions as the original.
    pub fast: Track,
}

impl Region {
    ghost use Rattle.std.specs.Prelude.{◌≡◌, IfOk};
    ghost use Rattle.speculation.specs.declared.tracks.Kind.TheVariants.{Normal, Segment};
    ghost use Rattle.track_state.specs.Views.{view_of, begun};
    ghost use Rattle.track_state.specs.Transitions.{IsAtBoundary};

    /// The segment behind the region: the program goes on from where the original closed it.
    ///
    /// # Errors
    /// `NoMemory` where there was no room for its pages.
    pub fn go_on(self) -> Result<Track, NoMemory>
        requires { IsAtBoundary Normal (view_of self.original) }
        ensures { IfOk result (λ t. view_of t ≡ begun Segment (view_of self.original).state (view_of self.original).budget) }
    {
        let Region { mut original, .. } = self;
        original.go_on()?;
        Ok(original)
    }
}

/// Runs both versions of the region at whose opening call the segment stands, after `at` instructions of the program and
/// with `left` still in its budget.
///
/// # Errors
/// `NoMemory` where there was no room for the pages of a track.
pub fn pass_region(
    mut track: Track,
    input: &[u8],
    number: u64,
    at: u64,
    left: u64,
) -> Result<Step, NoMemory>
    requires call { IsAtBoundary Segment (view_of track) }
    requires guest { IsGuestState input.now (view_of track).state }
    requires budget { left ≤ (view_of track).budget }
    requires sum { at + left < 2 ^ 64 }
    ensures { IfOk result (λ step. Steps input.now (view_of track).state at left number step (view_of track).budget) }
{
    let mut original = track.fork()?.normal;
    let reached = reach(&mut original, input, left)?;
    if let Some(finished) = reached.finished(at + original.own()) {
        return Ok(Step::Finished(finished));
    }
    let mut fast = track;
    let row = judge_fast(&mut fast, &original, input, number, at)?;
    Ok(Step::Region(Region {
        row,
        original,
        fast,
    }))
}

/// The row of the region that the original closed.
fn judge_fast(
    fast: &mut Track,
    original: &Track,
    input: &[u8],
    number: u64,
    at: u64,
) -> Result<Row, NoMemory>
    requires original { IsClosed input.now (view_of original.now) }
    requires fast { view_of fast.old ≡ begun Fast (view_of original.now).start (view_of original.now).budget }
    ensures row { IfOk result (λ row. ledger_row row ≡ row_at (rv32 input.now) (view_of original.now).start number at (view_of original.now).own) }
    ensures fast { IfOk result (λ row. RunsOn input.now (view_of fast.old) (view_of fast.new) (view_of original.now).own) }
{
    let count = original.own();
    let part = try_fast(fast, original, input)?;
    let Some((verdict, steps)) = judge(count, &part) else {
        unreachable!()
    };
    Ok(Row {
        number,
        at,
        pc: original.start().regs.pc(),
        original: count,
        fast: steps,
        verdict,
    })
}

/// Runs the fast version for at most as many instructions as the original took.
fn try_fast(fast: &mut Track, original: &Track, input: &[u8]) -> Result<FastPart, NoMemory>
    requires original { IsClosed input.now (view_of original.now) }
    requires fast { view_of fast.old ≡ begun Fast (view_of original.now).start (view_of original.now).budget }
    ensures sees { IfOk result (λ part. Sees (rv32 input.now) (view_of original.now).start (view_of original.now).own (seen part)) }
    ensures decided { IfOk result (λ part. judge (view_of original.now).own (seen part) ≢ None) }
    ensures fast { IfOk result (λ part. RunsOn input.now (view_of fast.old) (view_of fast.new) (view_of original.now).own) }
{
    match reach(fast, input, original.own())? {
        Reached::Boundary => Ok(FastPart::Closed {
            steps: fast.own(),
            difference: difference(original, fast),
        }),
        Reached::Ended(_) => Ok(FastPart::Ended(fast.own())),
        Reached::Limit => Ok(FastPart::Running(fast.own())),
    }
}

/// Where two tracks of one start differ first.
fn difference(original: &Track, fast: &Track) -> Option<Difference>
    requires { (view_of fast.now).start ≡ (view_of original.now).start }
    ensures { result ≡ difference (view_of original.now).state (view_of fast.now).state }
{
    let a = original.now();
    let b = fast.now();
    // Both write sets stand in memory, so that the count of the pages that are compared is below 2^64.
    let _written = a.memory.written().as_slice();
    let _fast_written = b.memory.written().as_slice();
    let mut pages = Counter::<Track>::new();
    same(a, b, &mut pages)
}
