//! What no clause says: the rows of worked programs. The reports of many more are tests of the whole program.

ghost use Rattle.std.specs.Prelude.{◌^◌, ◌≤◌, ◌*◌, length};

use crate::{Finished, Row, Trial, run_trial};
use elf32_loader::load;
use guest_model::End;
use region_ledger::Verdict;
use rv32_asm::small_image;
use std::alloc::Global;
use std::test::Fail;

/// The trial of the small image of these words.
fn trial_of(alloc: Global, words: &[u32], budget: u64) -> Result<Trial, Fail>
    requires few { 4 * length words.now ≤ 16777216 }
    requires within { budget ≤ 2 ^ 40 }
{
    let image = small_image(alloc, words)?;
    let loaded = load(alloc, image.as_slice())?;
    Ok(run_trial(alloc, &loaded, &[], budget)?)
}

/// The one region of the worked programs.
fn kept(original: u64, fast: u64) -> Row {
    Row {
        number: 0,
        at: 1,
        pc: 0x10004,
        original,
        fast,
        verdict: Verdict::Kept,
    }
}

/// A sum by a loop and by one addition, and then the exit with it. The region closes after 37 instructions.
#[test]
fn tries_a_sum_within_budgets(rt: HostRuntime) -> Result<(), Fail> {
    let sum = [
        0x7D00_0893,
        0x0000_0073,
        0x0005_1E63,
        0x0000_0513,
        0x00A0_0293,
        0x0055_0533,
        0xFFF2_8293,
        0xFE02_9CE3,
        0x00C0_006F,
        0x0370_0513,
        0x0000_0293,
        0x7D10_0893,
        0x0000_0073,
        0x05D0_0893,
        0x0000_0073,
    ];
    for (budget, rows, end, count) in [
        (1000, [kept(36, 5)].as_slice(), End::Exit(55), 40),
        (40, [kept(36, 5)].as_slice(), End::Exit(55), 40),
        (39, [kept(36, 5)].as_slice(), End::Spent, 39),
        (37, [kept(36, 5)].as_slice(), End::Spent, 37),
        (36, [].as_slice(), End::Spent, 36),
        (1, [].as_slice(), End::Spent, 1),
        (0, [].as_slice(), End::Spent, 0),
    ] {
        let trial = trial_of(rt.alloc(), &sum, budget)?;
        assert_eq!(rt; trial.rows.as_slice(), rows, "budget {budget}");
        assert_eq!(rt; trial.finished, Finished { end, count });
    }
    Ok(())
}

/// An opening call inside a region, a closing call outside of one, and a region that never closes.
#[test]
fn tries_other_shapes(rt: HostRuntime) -> Result<(), Fail> {
    let opens_twice = [
        0x7D00_0893,
        0x0000_0073,
        0x0000_0073,
        0x0000_0513,
        0x7D10_0893,
        0x0000_0073,
        0x05D0_0893,
        0x0000_0073,
    ];
    let closes_only = [
        0x7D10_0893,
        0x0000_0073,
        0x0000_0513,
        0x05D0_0893,
        0x0000_0073,
    ];
    let never_closes = [0x7D00_0893, 0x0000_0073, 0x05D0_0893, 0x0000_0073];
    let trial = trial_of(rt.alloc(), &opens_twice, 1000)?;
    assert_eq!(rt; trial.rows.as_slice(), [kept(4, 4)].as_slice());
    assert_eq!(rt; trial.finished.count, 8);
    let trial = trial_of(rt.alloc(), &closes_only, 1000)?;
    assert!(rt; trial.rows.as_slice().is_empty());
    assert_eq!(rt; trial.finished.count, 5);
    let trial = trial_of(rt.alloc(), &never_closes, 1000)?;
    assert!(rt; trial.rows.as_slice().is_empty());
    assert_eq!(rt; trial.finished.count, 4);
    Ok(())
}
