//! What no clause says: the lines of worked examples, letter by letter, and what a sink that fails is left with.

use crate::write_checked;
use guest_model::End;
use guest_streams::OutputFault;
use host_io::MemorySink;
use journal_check::{Cause, Checked, JournalFault};
use region_ledger::{Finished, Row, Rows, Verdict};
use std::test::Fail;

/// A kept region of 36 instructions in a program of 40, and a program without a region.
#[test]
fn writes_worked_examples(rt: HostRuntime) -> Result<(), Fail> {
    let alloc = rt.alloc();
    let row = Row {
        number: 0,
        at: 1,
        pc: 0x10004,
        original: 36,
        fast: 5,
        verdict: Verdict::Kept,
    };
    let kept = Checked {
        finished: Finished {
            end: End::Exit(55),
            count: 40,
        },
        rows: Rows::from_vec(vec![in alloc; row]?),
        entries: 12,
        released: 0,
        left: 0,
    };
    let mut out = MemorySink::new(alloc, 128, Vec::new(alloc))?;
    write_checked(alloc, &kept, &mut out)?;
    let lines = "journal 12 released 0 left 0\n\
        regions 1 kept 1 differs 0 stopped 0 late 0 alone 40 path 9\n\
        end exit 55\n";
    assert_eq!(rt; out.written(), lines.as_bytes());

    let spent = Checked {
        finished: Finished {
            end: End::Spent,
            count: 7,
        },
        rows: Rows::from_vec(Vec::new(alloc)),
        entries: u64::MAX,
        released: 10,
        left: 2,
    };
    let mut out = MemorySink::new(alloc, 128, Vec::new(alloc))?;
    write_checked(alloc, &spent, &mut out)?;
    let lines = "journal 18446744073709551615 released 10 left 2\n\
        regions 0 kept 0 differs 0 stopped 0 late 0 alone 7 path 7\n\
        end spent\n";
    assert_eq!(rt; out.written(), lines.as_bytes());
    Ok(())
}

/// The sink fails at one of the three calls, or has no room for all bytes.
#[test]
fn stops_where_the_sink_fails(rt: HostRuntime) -> Result<(), Fail> {
    let alloc = rt.alloc();
    let checked = Checked {
        finished: Finished {
            end: End::Exit(0),
            count: 4,
        },
        rows: Rows::from_vec(Vec::new(alloc)),
        entries: 3,
        released: 1,
        left: 0,
    };
    let lines = "journal 3 released 1 left 0\n\
        regions 0 kept 0 differs 0 stopped 0 late 0 alone 4 path 4\n\
        end exit 0\n";
    let table = [
        (0, 256, Err(OutputFault::Write), 0),
        (1, 256, Err(OutputFault::Write), 28),
        (2, 256, Err(OutputFault::Write), 87),
        (3, 256, Ok(()), 98),
        (3, 50, Err(OutputFault::Write), 50),
    ];
    for (failing, room, answer, written) in table {
        let mut out = MemorySink::new(alloc, room, vec![in alloc; failing]?)?;
        assert_eq!(rt; write_checked(alloc, &checked, &mut out), answer);
        assert_eq!(rt; out.written(), &lines.as_bytes()[..written]);
    }
    Ok(())
}

/// The words behind `bad journal: ` in the answer's line.
#[test]
fn tells_faults(rt: HostRuntime) -> Result<(), Fail> {
    let table = [
        (5, Cause::NotAllowed, "line 5 not allowed"),
        (12, Cause::Unfinished, "line 12 unfinished"),
        (1, Cause::Text, "line 1 text"),
    ];
    for (line, cause, expected) in table {
        let fault = JournalFault { line, cause };
        let text = format!(in rt.alloc(); "{fault}")?;
        assert_eq!(rt; text.as_str(), expected);
    }
    Ok(())
}
