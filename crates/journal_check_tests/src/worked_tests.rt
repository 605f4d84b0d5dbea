//! Journals of worked programs: their answers were found by hand.

use crate::programs::{SUM, WRITES, WRONG_SUM};
use crate::table::check_journal;
use elf32_loader::load;
use guest_model::{Difference, End};
use journal_check::{Cause, JournalFault};
use region_ledger::{Finished, Row, Verdict};
use rv32_asm::small_image;
use std::test::Fail;

/// What the sum's serial run prints.
const SERIAL: &str =
    "lend 0 0.0.f\nback 0.0.f 1\nfork 0.1.f\nlend 0 0.1.n\nback 0.1.n 36\nlend 0 0.1.f\nback 0.1.f 5\ncross 0.1.f\nkeep 0\nlend 0 0.1.f\nback 0.1.f 3\nfinish\n";

/// The sum's one region, which is kept.
const KEPT: Row = Row {
    number: 0,
    at: 1,
    pc: 0x10004,
    original: 36,
    fast: 5,
    verdict: Verdict::Kept,
};

/// The end of both sums.
const END: Finished = Finished {
    end: End::Exit(55),
    count: 40,
};

/// Journals of the sum that could have happened, whatever the order of their loans: the number of their entries.
#[test]
fn takes_every_order(rt: HostRuntime) -> Result<(), Fail> {
    let image = small_image(rt.alloc(), &SUM)?;
    let loaded = load(rt.alloc(), image.as_slice())?;
    let table = [
        (SERIAL, 12),
        // The lead before the original.
        (
            "lend 0 0.0.f\nback 0.0.f 1\nfork 0.1.f\nlend 0 0.1.f\nback 0.1.f 5\ncross 0.1.f\nlend 0 0.1.n\nback 0.1.n 36\nkeep 0\nlend 0 0.1.f\nback 0.1.f 3\nfinish\n",
            12,
        ),
        // One seat has both, and each comes home while the crossing is due.
        (
            "lend 0 0.0.f\nback 0.0.f 1\nfork 0.1.f\nlend 7 0.1.n\nlend 7 0.1.f\nback 0.1.f 5\nback 0.1.n 36\ncross 0.1.f\nkeep 0\nlend 0 0.1.f\nback 0.1.f 3\nfinish\n",
            12,
        ),
        // The original goes out while the crossing is due, and the lead while the keep is.
        (
            "lend 18446744073709551615 0.0.f\nback 0.0.f 1\nfork 0.1.f\nlend 1 0.1.f\nback 0.1.f 5\nlend 1 0.1.n\ncross 0.1.f\nback 0.1.n 36\nlend 1 0.1.f\nkeep 0\nback 0.1.f 3\nfinish\n",
            12,
        ),
    ];
    for (journal, entries) in table {
        let Ok(checked) = check_journal(rt.alloc(), &loaded, 4, journal.as_bytes())? else {
            return Err(Fail::new("refused"));
        };
        assert_eq!(rt; checked.finished, END);
        assert_eq!(rt; checked.rows.as_slice(), [KEPT].as_slice());
        assert_eq!(rt;
            (checked.entries, checked.released, checked.left),
            (entries, 0, 0)
        );
    }
    Ok(())
}

/// Beginnings of the sum's journal, and a line behind them that is refused: the number of lines that stay, what follows them, and
/// the fault.
#[test]
fn refuses_the_first_bad_line(rt: HostRuntime) -> Result<(), Fail> {
    let image = small_image(rt.alloc(), &SUM)?;
    let loaded = load(rt.alloc(), image.as_slice())?;
    let text = |line| JournalFault {
        line,
        cause: Cause::Text,
    };
    let not_allowed = |line| JournalFault {
        line,
        cause: Cause::NotAllowed,
    };
    let unfinished = |line| JournalFault {
        line,
        cause: Cause::Unfinished,
    };
    let table = [
        // No entry's text.
        (0, "lend 0  0.0.f\n", text(1)),
        (0, "lend +0 0.0.f\n", text(1)),
        (0, "lend 00 0.0.f\n", text(1)),
        (0, "lend 18446744073709551616 0.0.f\n", text(1)),
        (0, "\n", text(1)),
        (11, "finish", text(12)),
        (12, "x", text(13)),
        // No finish.
        (0, "", unfinished(1)),
        (11, "", unfinished(12)),
        (0, "halt 3\n", unfinished(2)),
        (1, "gone 0.0.f\n", unfinished(3)),
        // Tracks that may not go out.
        (0, "lend 0 0.0.n\n", not_allowed(1)),
        (0, "lend 0 1.0.f\n", not_allowed(1)),
        (1, "lend 0 0.0.f\n", not_allowed(2)),
        (2, "lend 0 0.0.f\n", not_allowed(3)),
        (5, "lend 0 0.1.n\n", not_allowed(6)),
        (12, "lend 0 0.1.f\n", not_allowed(13)),
        // Tracks that may not come home.
        (0, "back 0.0.f 1\n", not_allowed(1)),
        (0, "gone 0.0.f\n", not_allowed(1)),
        (1, "gone 0.0.n\n", not_allowed(2)),
        (2, "back 0.0.f 1\n", not_allowed(3)),
        (4, "back 0.1.n 35\n", not_allowed(5)),
        (4, "back 0.1.n 37\n", not_allowed(5)),
        (4, "back 0.1.f 36\n", not_allowed(5)),
        // Events that aren't due.
        (0, "finish\n", not_allowed(1)),
        (2, "fork 0.2.f\n", not_allowed(3)),
        (2, "fork 0.1.n\n", not_allowed(3)),
        (2, "cross 0.0.f\n", not_allowed(3)),
        (6, "cross 0.1.f\n", not_allowed(7)),
        (8, "keep 1\n", not_allowed(9)),
        (8, "discard 0\n", not_allowed(9)),
        (9, "keep 0\n", not_allowed(10)),
        (12, "finish\n", not_allowed(13)),
        // Nothing is verified, and the run is over.
        (0, "release 0\n", not_allowed(1)),
        (0, "release 1\n", not_allowed(1)),
        (12, "halt 0\n", not_allowed(13)),
        (0, "halt 0\nhalt 0\n", not_allowed(2)),
        (0, "halt 0\nlend 0 0.0.f\n", not_allowed(2)),
        (1, "halt 0\nback 0.0.f 1\n", not_allowed(3)),
    ];
    for (lines, behind, fault) in table {
        let mut journal = String::new(rt.alloc());
        for line in SERIAL.split_inclusive('\n').take(lines) {
            journal.push_str(line)?;
        }
        journal.push_str(behind)?;
        let answer = check_journal(rt.alloc(), &loaded, 4, journal.as_bytes())?;
        assert_eq!(rt; answer.err(), Some(fault), "{journal}");
    }
    let answer = check_journal(rt.alloc(), &loaded, 4, b"\xff\n")?;
    assert_eq!(rt; answer.err(), Some(text(1)));
    Ok(())
}

/// Journals of the wrong sum, whose lead a discard drops while it is out: it may be gone, before the finish or behind it, and may
/// not come home.
#[test]
fn drops_a_track_that_is_out(rt: HostRuntime) -> Result<(), Fail> {
    let image = small_image(rt.alloc(), &WRONG_SUM)?;
    let loaded = load(rt.alloc(), image.as_slice())?;
    let before =
        "lend 0 0.0.f\nback 0.0.f 1\nfork 0.1.f\nlend 0 0.1.n\nback 0.1.n 36\nlend 0 0.1.f\nback 0.1.f 5\ncross 0.1.f\nlend 0 0.1.f\ndiscard 0\n";
    let fault = JournalFault {
        line: 11,
        cause: Cause::NotAllowed,
    };
    let table = [
        ("gone 0.1.f\nlend 0 1.0.f\nback 1.0.f 3\nfinish\n", Ok(14)),
        ("lend 0 1.0.f\nback 1.0.f 3\nfinish\ngone 0.1.f\n", Ok(14)),
        ("lend 0 1.0.f\nback 1.0.f 3\nfinish\n", Ok(13)),
        (
            "back 0.1.f 3\nlend 0 1.0.f\nback 1.0.f 3\nfinish\n",
            Err(fault),
        ),
    ];
    for (behind, expected) in table {
        let mut journal = String::from_str(rt.alloc(), before)?;
        journal.push_str(behind)?;
        match check_journal(rt.alloc(), &loaded, 4, journal.as_bytes())? {
            Ok(checked) => {
                assert_eq!(rt; Ok(checked.entries), expected);
                assert_eq!(rt; checked.finished, END);
                let verdict = Verdict::Differs(Difference::Register(10));
                assert_eq!(rt;
                    checked.rows.as_slice(),
                    [Row { verdict, ..KEPT }].as_slice()
                );
            }
            Err(fault) => assert_eq!(rt; Err(fault), expected),
        }
    }
    Ok(())
}

/// The byte that a program writes may be released before its finish or behind it, or be left.
#[test]
fn counts_released_bytes(rt: HostRuntime) -> Result<(), Fail> {
    let image = small_image(rt.alloc(), &WRITES)?;
    let loaded = load(rt.alloc(), image.as_slice())?;
    let table = [
        ("release 1\nfinish\n", Some((4, 1, 0))),
        ("finish\nrelease 1\n", Some((4, 1, 0))),
        ("finish\n", Some((3, 0, 1))),
        ("release 2\nfinish\n", None),
        ("release 1\nrelease 1\nfinish\n", None),
    ];
    for (behind, expected) in table {
        let mut journal = String::from_str(rt.alloc(), "lend 0 0.0.f\nback 0.0.f 7\n")?;
        journal.push_str(behind)?;
        let checked = check_journal(rt.alloc(), &loaded, 4, journal.as_bytes())?.ok();
        let counts = checked.map(|checked| (checked.entries, checked.released, checked.left));
        assert_eq!(rt; counts, expected);
    }
    Ok(())
}
