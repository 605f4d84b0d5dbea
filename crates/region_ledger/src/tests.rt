//! What no clause says: the cases of the judge with their edges as a table, and the totals of the worked examples.

use crate::{FastPart, Row, Rows, Totals, Verdict, judge, totals};
use guest_model::Difference;
use std::test::Fail;

/// The verdicts against an original of 36 instructions.
#[test]
fn judges_by_what_was_seen(rt: HostRuntime) -> Result<(), Fail> {
    let register = Difference::Register(10);
    let closed = |steps, difference| FastPart::Closed { steps, difference };
    let table = [
        (FastPart::Running(35), None),
        (FastPart::Running(36), Some((Verdict::Late, 36))),
        (FastPart::Ended(36), Some((Verdict::Stopped, 36))),
        (FastPart::Ended(37), Some((Verdict::Late, 36))),
        (closed(36, None), Some((Verdict::Kept, 36))),
        (closed(37, None), Some((Verdict::Late, 36))),
        (
            closed(5, Some(register)),
            Some((Verdict::Differs(register), 5)),
        ),
    ];
    for (seen, answer) in table {
        assert_eq!(rt; judge(36, &seen), answer);
    }
    Ok(())
}

/// A kept region, one that differs and one that is late, of a program of 100 instructions.
#[test]
fn adds_up_rows(rt: HostRuntime) -> Result<(), Fail> {
    let row = |number, fast, verdict| Row {
        number,
        at: 1,
        pc: 0x10004,
        original: 20,
        fast,
        verdict,
    };
    let rows = Rows::from_vec(vec![in rt.alloc();
        row(0, 5, Verdict::Kept),
        row(1, 5, Verdict::Differs(Difference::Place)),
        row(2, 20, Verdict::Late),
    ]?);
    let expected = Totals {
        regions: 3,
        kept: 1,
        differs: 1,
        stopped: 0,
        late: 1,
        alone_count: 100,
        path_count: 85,
    };
    assert_eq!(rt; totals(rows.as_slice(), 100), expected);
    Ok(())
}

/// The path counts of the worked programs: each has at most one region.
#[test]
fn adds_up_worked_ledgers(rt: HostRuntime) -> Result<(), Fail> {
    let row = |original, fast, verdict| Row {
        number: 0,
        at: 1,
        pc: 0x10004,
        original,
        fast,
        verdict,
    };
    let register = Verdict::Differs(Difference::Register(10));
    let byte = Verdict::Differs(Difference::Byte(0x7FFF_FEFF));
    let place = Verdict::Differs(Difference::Place);
    assert_eq!(rt; totals(&[row(36, 5, Verdict::Kept)], 40).path_count, 9);
    assert_eq!(rt; totals(&[row(36, 5, register)], 40).path_count, 40);
    assert_eq!(rt; totals(&[row(36, 5, byte)], 40).path_count, 40);
    assert_eq!(rt; totals(&[row(36, 11, place)], 40).path_count, 40);
    assert_eq!(rt; totals(&[row(36, 36, Verdict::Late)], 40).path_count, 40);
    assert_eq!(rt; totals(&[row(36, 3, Verdict::Stopped)], 40).path_count, 40);
    assert_eq!(rt; totals(&[row(36, 36, Verdict::Kept)], 40).path_count, 40);
    assert_eq!(rt; totals(&[row(36, 5, Verdict::Kept)], 44).path_count, 13);
    assert_eq!(rt; totals(&[row(36, 5, Verdict::Kept)], 37).path_count, 6);
    assert_eq!(rt; totals(&[row(4, 4, Verdict::Kept)], 8).path_count, 8);
    for alone_count in [1, 4, 5, 36] {
        assert_eq!(rt; totals(&[], alone_count).path_count, alone_count);
    }
    Ok(())
}
