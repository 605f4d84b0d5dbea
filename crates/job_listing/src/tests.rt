//! What no clause says: lists read and refused, the text of worked jobs, a sink that fails, and the reports of a batch.

ghost use Rattle.std.specs.Prelude.{◌≤◌, All, IfOk, length};
ghost use Rattle.job_batch.specs.Ends.{IsFresh};
ghost use Rattle.job_listing.specs.Listing.{HasEnd, HasFinish};

use crate::{
    JobReport, JobStart, ListFault, MOST_NAME, MOST_NAMES, join_reports, read_list, write_jobs,
};
use basic_types::Bytes;
use board_events::Entries;
use elf32_loader::{ImageFault, load};
use guest_model::{End, Trap};
use guest_streams::OutputFault;
use host_io::MemorySink;
use job_batch::{JobEnd, JobOutcome, Jobs, batch};
use region_ledger::{Finished, Rows};
use rv32_asm::small_image;
use std::alloc::Global;
use std::process::Abort;
use std::sync::Arc;
use std::test::Fail;
use track_board::{Board, Outcome, Settings};
use worker_gate::Open;

// ---- lists

#[test]
fn reads_lists(rt: HostRuntime) -> Result<(), Fail> {
    let table = [
        ("p\nq\nz\n", 3, "z"),
        ("images/p.elf\n", 1, "images/p.elf"),
        ("same\nsame\n", 2, "same"),
        ("a name with spaces\n", 1, "a name with spaces"),
        ("\u{e9}\u{1F9EA}\n", 1, "\u{e9}\u{1F9EA}"),
        ("nul\0\n", 1, "nul\0"),
        ("feed\r\n", 1, "feed\r"),
        (
            "1\n2\n3\n4\n5\n6\n7\n8\n9\n10\n11\n12\n13\n14\n15\n16\n",
            16,
            "16",
        ),
    ];
    for (list, count, last) in table {
        let names = read_list(rt.alloc(), list.as_bytes())?;
        assert_eq!(rt; names.len(), count);
        assert_eq!(rt; names[names.len() - 1].as_str(), last);
    }
    Ok(())
}

#[test]
fn refuses_lists(rt: HostRuntime) -> Result<(), Fail> {
    let table = [
        "".as_bytes(),
        "\n".as_bytes(),
        "p".as_bytes(),
        "p\nq".as_bytes(),
        "p\n\n".as_bytes(),
        "\np\n".as_bytes(),
        "p\n\nq\n".as_bytes(),
        "1\n2\n3\n4\n5\n6\n7\n8\n9\n10\n11\n12\n13\n14\n15\n16\n17\n".as_bytes(),
        &[0xFF, b'\n'],
        &[0xC3, b'\n'],
        &[0xED, 0xA0, 0x80, b'\n'],
    ];
    for list in table {
        let read = read_list(rt.alloc(), list);
        assert_eq!(rt; read.err(), Some(ListFault::Form));
    }
    Ok(())
}

/// As many lines as this, each of this many bytes before its line feed.
fn lines(alloc: Global, count: usize, length: usize) -> Result<String, Fail> {
    let mut text = String::new(alloc);
    for _ in 0..count {
        for _ in 0..length {
            text.push('x')?;
        }
        text.push('\n')?;
    }
    Ok(text)
}

#[test]
fn keeps_the_limits(rt: HostRuntime) -> Result<(), Fail> {
    let alloc = rt.alloc();
    let longest = lines(alloc, MOST_NAMES, MOST_NAME)?;
    assert_eq!(rt; longest.len(), 4_096);
    let names = read_list(alloc, longest.as_bytes())?;
    assert_eq!(rt; names.len(), MOST_NAMES);
    for (count, length) in [(1, MOST_NAME + 1), (16, 256), (17, 240), (4_097, 0)] {
        let list = lines(alloc, count, length)?;
        let read = read_list(alloc, list.as_bytes());
        assert_eq!(rt; read.err(), Some(ListFault::Form));
    }
    Ok(())
}

#[test]
fn tells_faults(rt: HostRuntime) -> Result<(), Fail> {
    let table = [
        (ListFault::Form, "bad list"),
        (ListFault::NoMemory, "out of memory"),
    ];
    for (fault, expected) in table {
        let text = format!(in rt.alloc(); "{fault}")?;
        assert_eq!(rt; text.as_str(), expected);
    }
    Ok(())
}

// ---- texts

/// A job that ran, with these bytes of its streams and this outcome.
fn ran(alloc: Global, out: &[u8], notes: &[u8], outcome: JobOutcome) -> Result<JobReport, Fail>
    requires { HasFinish outcome }
    ensures { IfOk result HasEnd }
{
    let mut end = JobEnd {
        out: Bytes::new(alloc),
        notes: Bytes::new(alloc),
        outcome,
    };
    end.out.append(out)?;
    end.notes.append(notes)?;
    Ok(JobReport::Ran(end))
}

/// A job whose program ended so.
fn done(alloc: Global, out: &[u8], notes: &[u8], end: End) -> Result<JobReport, Fail>
    ensures { IfOk result HasEnd }
{
    let outcome = Outcome {
        finished: Some(Finished { end, count: 1 }),
        rows: Rows::from_vec(Vec::new(alloc)),
        entries: Entries::from_vec(Vec::new(alloc)),
    };
    ran(alloc, out, notes, JobOutcome::Done(outcome))
}

/// A program that exits with 55, one that writes `77`, and an empty file.
fn worked_jobs(alloc: Global) -> Result<Vec<JobReport>, Fail>
    ensures { IfOk result (λ reports. All HasEnd reports.items) }
{
    let mut reports = Vec::new(alloc);
    reports.push(done(alloc, b"", b"", End::Exit(55))?)?;
    reports.push(done(alloc, b"77", b"", End::Exit(0))?)?;
    reports.push(JobReport::BadImage(ImageFault::Short))?;
    Ok(reports)
}

/// What is written of `worked_jobs`.
const WORKED: &str = "job 0 out 0 notes 0\n\n\nend exit 55\n\
    job 1 out 2 notes 0\n77\n\nend exit 0\n\
    job 2 bad image: short\n";

/// The other ends: a trap, a spent budget, want of memory, and images that are no program.
fn other_jobs(alloc: Global) -> Result<Vec<JobReport>, Fail>
    ensures { IfOk result (λ reports. All HasEnd reports.items) }
{
    let mut reports = Vec::new(alloc);
    reports.push(JobReport::TooLong)?;
    reports.push(done(
        alloc,
        b"a\nb",
        b"note\n",
        End::Trap(Trap::Illegal, 0x1_0000),
    )?)?;
    reports.push(JobReport::BadImage(ImageFault::Overlap(0, 2)))?;
    reports.push(done(alloc, &[0, 0xFF], b"", End::Spent)?)?;
    reports.push(ran(alloc, b"some", b"n", JobOutcome::NoMemory)?)?;
    Ok(reports)
}

/// What is written of `other_jobs`.
const OTHERS: &[u8] = b"job 0 image too long\n\
    job 1 out 3 notes 5\na\nb\nnote\n\nend trap illegal at 00010000\n\
    job 2 bad image: overlap 0 2\n\
    job 3 out 2 notes 0\n\x00\xFF\n\nend spent\n\
    job 4 out 4 notes 1\nsome\nn\nend no memory\n";

/// This is written of these jobs.
fn assert_writes(
    rt: &impl Abort,
    alloc: Global,
    reports: &[JobReport],
    expected: &[u8],
) -> Result<(), Fail>
    requires { All HasEnd reports.now }
{
    let mut out = MemorySink::new(alloc, 256, Vec::new(alloc))?;
    write_jobs(alloc, reports, &mut out)?;
    assert_eq!(rt; out.written(), expected);
    Ok(())
}

#[test]
fn writes_worked_jobs(rt: HostRuntime) -> Result<(), Fail> {
    let alloc = rt.alloc();
    let worked = worked_jobs(alloc)?;
    assert_writes(&rt, alloc, worked.as_slice(), WORKED.as_bytes())?;
    let others = other_jobs(alloc)?;
    assert_writes(&rt, alloc, others.as_slice(), OTHERS)?;
    assert_writes(&rt, alloc, &[], b"")
}

/// The sink fails at one of the ten calls, or has no room for all bytes.
#[test]
fn stops_where_the_sink_fails(rt: HostRuntime) -> Result<(), Fail> {
    let alloc = rt.alloc();
    let reports = worked_jobs(alloc)?;
    let table = [
        (0, 256, Err(OutputFault::Write), 0),
        (1, 256, Err(OutputFault::Write), 20),
        (2, 256, Err(OutputFault::Write), 21),
        (3, 256, Err(OutputFault::Write), 22),
        (4, 256, Err(OutputFault::Write), 34),
        (5, 256, Err(OutputFault::Write), 54),
        (6, 256, Err(OutputFault::Write), 56),
        (7, 256, Err(OutputFault::Write), 57),
        (8, 256, Err(OutputFault::Write), 58),
        (9, 256, Err(OutputFault::Write), 69),
        (10, 256, Ok(()), 92),
        (10, 55, Err(OutputFault::Write), 55),
    ];
    for (failing, room, answer, written) in table {
        let mut out = MemorySink::new(alloc, room, vec![in alloc; failing]?)?;
        assert_eq!(rt; write_jobs(alloc, reports.as_slice(), &mut out), answer);
        assert_eq!(rt; out.written().len(), written);
        assert!(rt; WORKED.as_bytes().starts_with(out.written()));
    }
    Ok(())
}

// ---- reports of a batch

/// Exits with 55.
const EXITS: [u32; 3] = [
    0x0370_0513, // li a0, 55
    0x05D0_0893, // li a7, 93
    0x0000_0073, // ecall: exits
];

/// Writes the first two bytes of the program, `77`, to stream 1.
const WRITES: [u32; 9] = [
    0x0000_3737, // lui a4, 3: the bytes `77` and two of 0
    0x0010_0513, // li a0, 1
    0x0001_05B7, // lui a1, 0x10
    0x0020_0613, // li a2, 2
    0x0400_0893, // li a7, 64
    0x0000_0073, // ecall: writes them
    0x0000_0513, // li a0, 0
    0x05D0_0893, // li a7, 93
    0x0000_0073, // ecall: exits
];

/// What is written of a batch of them, with two images between them that are no program.
const JOINED: &str = "job 0 out 0 notes 0\n\n\nend exit 55\n\
    job 1 bad image: short\n\
    job 2 image too long\n\
    job 3 out 2 notes 0\n77\n\nend exit 0\n";

/// A board of the program of these words.
fn board_of(alloc: Global, words: &[u32]) -> Result<Board, Fail>
    requires { length words.now ≤ 16 }
    ensures { IfOk result IsFresh }
{
    let image = small_image(alloc, words)?;
    let loaded = load(alloc, image.as_slice())?;
    let input = Arc::new(alloc, Bytes::new(alloc))?;
    let settings = Settings {
        tracks: 2,
        budget: 1_000,
    };
    Ok(Board::new(alloc, &loaded, input, settings)?)
}

#[test]
fn joins_the_ends_of_a_batch(rt: HostRuntime) -> Result<(), Fail> {
    let alloc = rt.alloc();
    let boards = vec![in alloc; board_of(alloc, &EXITS)?, board_of(alloc, &WRITES)?]?;
    let ends = batch(&rt, alloc, Jobs::from_vec(boards), &Open, 0)?;
    assert_eq!(rt; ends.as_slice().len(), 2);
    let starts = [
        JobStart::Runs,
        JobStart::BadImage(ImageFault::Short),
        JobStart::TooLong,
        JobStart::Runs,
    ];
    let reports = join_reports(alloc, &starts, ends)?;
    assert_writes(&rt, alloc, reports.as_slice(), JOINED.as_bytes())
}
