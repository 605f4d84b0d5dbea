//! Rows of words, each with the request that it makes or its refusal.

use crate::{Request, Task, WordsFault, read_words};
use std::alloc::{AllocError, Global};
use std::test::Fail;

fn words_of(alloc: Global, line: &str) -> Result<Vec<String>, AllocError> {
    let mut words = Vec::new(alloc);
    for word in line.split_ascii_whitespace() {
        words.push(String::from_str(alloc, word)?)?;
    }
    Ok(words)
}

// What words ask for that name only a command and an image.
fn plain(task: Task, image: &str) -> Request<'_> {
    Request {
        task,
        image,
        tracks: 4,
        workers: 3,
        budget: 1 << 40,
        with: None,
        no_input: false,
        report: false,
        journal: false,
    }
}

#[test]
fn makes_requests(rt: HostRuntime) -> Result<(), Fail> {
    let alone = plain(Task::Alone, "x");
    let run = plain(Task::Run, "x");
    let rows = [
        ("alone x", alone),
        ("fast x", plain(Task::Fast, "x")),
        ("run x", run),
        ("trial x", plain(Task::Trial, "x")),
        ("explain x", plain(Task::Explain, "x")),
        ("alone trial", plain(Task::Alone, "trial")),
        ("bench 0", plain(Task::Bench(0), "0")),
        ("bench 0000000007", plain(Task::Bench(7), "0000000007")),
        (
            "bench 4294967295",
            plain(Task::Bench(4_294_967_295), "4294967295"),
        ),
        (
            "alone x --budget 5 --no-input",
            Request {
                budget: 5,
                no_input: true,
                ..alone
            },
        ),
        ("alone x --budget +5", Request { budget: 5, ..alone }),
        (
            "--no-input --budget=7 trial dir/x",
            Request {
                budget: 7,
                no_input: true,
                ..plain(Task::Trial, "dir/x")
            },
        ),
        (
            "alone --budget 1099511627776 -- --help",
            plain(Task::Alone, "--help"),
        ),
        ("run x --tracks 1", Request { tracks: 1, ..run }),
        (
            "run --tracks=32 --workers 0 x",
            Request {
                tracks: 32,
                workers: 0,
                ..run
            },
        ),
        ("run x --workers 64", Request { workers: 64, ..run }),
        (
            "run x --report",
            Request {
                report: true,
                ..run
            },
        ),
        (
            "run x --journal",
            Request {
                journal: true,
                ..run
            },
        ),
        (
            "run x --journal --no-input --report",
            Request {
                no_input: true,
                report: true,
                journal: true,
                ..run
            },
        ),
        (
            "check x --with y",
            Request {
                with: Some("y"),
                ..plain(Task::Check, "x")
            },
        ),
        (
            "--with=y at x",
            Request {
                with: Some("y"),
                ..plain(Task::At, "x")
            },
        ),
        (
            "check --with= -",
            Request {
                with: Some(""),
                ..plain(Task::Check, "-")
            },
        ),
        ("batch x", plain(Task::Batch, "x")),
        ("list x", plain(Task::List, "x")),
        ("pack with", plain(Task::Pack, "with")),
        (
            "run x --with - --report",
            Request {
                with: Some("-"),
                report: true,
                ..run
            },
        ),
    ];
    for (line, wanted) in rows {
        let words = words_of(rt.alloc(), line)?;
        assert_eq!(rt;
            read_words(rt.alloc(), words.as_slice()),
            Ok(wanted),
            "{line}"
        );
    }
    Ok(())
}

#[test]
fn refuses_other_words(rt: HostRuntime) -> Result<(), Fail> {
    let rows = [
        "",
        "alone",
        "trial",
        "fly x",
        "Trial x",
        "alone x y",
        "alone x --budget 0",
        "alone x --budget 1099511627777",
        "alone x --budget x",
        "alone x --budget -5",
        "alone x --budget",
        "alone x --budget 5 --budget 6",
        "--help",
        "alone --help",
        "alone x --version",
        "alone x --nothing",
        "alone x --no-input --no-input",
        "run",
        "run x --tracks 0",
        "run x --tracks 33",
        "run x --workers 65",
        "run x --workers -1",
        "run x --report=true",
        "run x --journal --journal",
        "bench",
        "bench x",
        "bench +5",
        "bench -5",
        "bench 5x",
        "bench 01234567890",
        "bench 4294967296",
        "check x",
        "at x",
        "at x y",
        "check x --with",
        "check x --with --report",
        "check x --with y --with y",
        "list x --with y --with z",
        "list",
        "pack",
        "serve x",
    ];
    for line in rows {
        let words = words_of(rt.alloc(), line)?;
        assert_eq!(rt;
            read_words(rt.alloc(), words.as_slice()),
            Err(WordsFault::Usage),
            "{line}"
        );
    }
    Ok(())
}
