//! Journals with one change, and one journal under other bounds.

ghost use Rattle.std.specs.Prelude.{◌≤◌};

use crate::changes::{CHANGES, changed_text, text_of};
use crate::journals::{LEDGER, Line, SERIAL, WITH_WORKERS};
use crate::table::check_journal;
use elf32_loader::{Loaded, load};
use guest_model::End;
use journal_check::{Cause, Checked, JournalFault};
use region_ledger::Finished;
use rv32_asm::generate;
use std::alloc::Global;
use std::process::Abort;
use std::test::Fail;

/// A journal of so many lines, and its fault: none where it is legal.
#[derive(Drop)]
struct Case {
    text: String,
    lines: u64,
    fault: Option<JournalFault>,
}

/// The fault that this mark tells of a journal of so many lines with a change at this line.
fn fault_of(mark: char, line: u64, lines: u64) -> Result<Option<JournalFault>, Fail> {
    let (line, cause) = match mark {
        '=' => return Ok(None),
        '>' => (lines.saturating_add(1), Cause::Unfinished),
        _ => {
            let Some(further) = mark.to_digit(36) else {
                return Err(Fail::new("no mark"));
            };
            (line.saturating_add(further as u64), Cause::NotAllowed)
        }
    };
    Ok(Some(JournalFault { line, cause }))
}

/// Appends the journals that one change of this line makes.
fn push_cases(
    alloc: Global,
    cases: &mut Vec<Case>,
    before: &[Line],
    (line, marks): &Line,
    behind: &[Line],
) -> Result<(), Fail> {
    let mut marks = marks.chars().filter(|&mark| mark != ' ');
    for change in CHANGES {
        let Some(mark) = marks.next() else {
            return Err(Fail::new("too few marks"));
        };
        match changed_text(alloc, line, behind, change)? {
            Some(changed) => {
                let mut text = text_of(alloc, before)?;
                text.push_str(changed.as_str())?;
                let lines = text.as_str().lines().count() as u64;
                let fault = fault_of(mark, before.len() as u64 + 1, lines)?;
                cases.push(Case { text, lines, fault })?;
            }
            None if mark == '-' => {}
            None => return Err(Fail::new("a mark of no change")),
        }
    }
    match marks.next() {
        None => Ok(()),
        Some(_) => Err(Fail::new("too many marks")),
    }
}

/// The journals that one change makes of this one.
fn cases_of(alloc: Global, journal: &[Line]) -> Result<Vec<Case>, Fail> {
    let mut cases = Vec::new(alloc);
    for place in 0..journal.len() {
        let (before, rest) = journal.split_at(place);
        if let Some((line, behind)) = rest.split_first() {
            push_cases(alloc, &mut cases, before, line, behind)?;
        }
    }
    Ok(cases)
}

/// A legal journal of so many lines tells the program's own end and ledger, and its 24 bytes are released or left.
fn assert_whole(rt: &impl Abort, checked: &Checked, lines: u64) {
    let finished = Finished {
        end: End::Exit(0),
        count: 180_435,
    };
    assert_eq!(rt; checked.finished, finished);
    assert_eq!(rt; checked.rows.as_slice(), LEDGER.as_slice());
    assert_eq!(rt; checked.entries, lines);
    assert_eq!(rt; checked.released.saturating_add(checked.left), 24);
}

/// Checks each of these journals.
fn assert_cases(
    rt: &impl Abort,
    alloc: Global,
    loaded: &Loaded,
    tracks: u64,
    cases: &[Case],
) -> Result<(), Fail>
    requires some { 1 ≤ tracks }
    requires few { tracks ≤ 32 }
{
    for Case { text, lines, fault } in cases {
        match check_journal(alloc, loaded, tracks, text.as_bytes())? {
            Ok(checked) => {
                assert_eq!(rt; *fault, None, "{text}");
                assert_whole(rt, &checked, *lines);
            }
            Err(found) => assert_eq!(rt; Some(found), *fault, "{text}"),
        }
    }
    Ok(())
}

/// Each journal with one change is legal, or refused at the stated line.
#[test]
fn decides_changed_journals(rt: HostRuntime) -> Result<(), Fail> {
    let image = generate(rt.alloc(), 1, 6)?;
    let loaded = load(rt.alloc(), image.as_slice())?;
    let serial = cases_of(rt.alloc(), SERIAL.as_slice())?;
    assert_eq!(rt; serial.len(), 437);
    for tracks in [1, 4, 32] {
        assert_cases(&rt, rt.alloc(), &loaded, tracks, serial.as_slice())?;
    }
    let with_workers = cases_of(rt.alloc(), WITH_WORKERS.as_slice())?;
    assert_eq!(rt; with_workers.len(), 530);
    assert_cases(&rt, rt.alloc(), &loaded, 4, with_workers.as_slice())
}

/// A journal is legal only where as many regions may be open as it opens at once: the fork of one too many is refused.
#[test]
fn counts_open_regions(rt: HostRuntime) -> Result<(), Fail> {
    let image = generate(rt.alloc(), 1, 6)?;
    let loaded = load(rt.alloc(), image.as_slice())?;
    let journal = text_of(rt.alloc(), WITH_WORKERS.as_slice())?;
    let refused_at = |line| {
        Some(JournalFault {
            line,
            cause: Cause::NotAllowed,
        })
    };
    let table = [
        // The second and the third fork.
        (1, refused_at(10)),
        (2, refused_at(17)),
        (3, None),
        (4, None),
        (32, None),
    ];
    for (tracks, fault) in table {
        let answer = check_journal(rt.alloc(), &loaded, tracks, journal.as_bytes())?;
        assert_eq!(rt; answer.err(), fault, "{tracks} regions");
    }
    Ok(())
}
