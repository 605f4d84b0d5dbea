//! What no clause says: the histories of worked programs, driven by hand and in many orders.

ghost use Rattle.std.specs.Prelude.{◌≤◌, ◌*◌, length};

mod programs;
mod steps;

use basic_types::Bytes;
use board_events::read_entry;
use guest_model::{Difference, End};
use programs::{NEVER_CLOSES, SUM, WRONG_SUM, WRONG_SUMS};
use region_ledger::{Row, Verdict};
use rv32_asm::{generate, small_image};
use std::alloc::Global;
use std::process::Abort;
use std::test::Fail;
use steps::{Round, board_of, lend_and_run, settle};
use track_board::{Back, Board, Entry, Finished, Name};

/// Runs a board to its end on one seat, and answers what it released.
fn run_alone(alloc: Global, board: &mut Board) -> Result<Vec<u8>, Fail> {
    let mut bytes = Vec::new(alloc);
    for _ in 0..1_000 {
        settle(board, &mut bytes)?;
        let Some(loan) = lend_and_run(board, 0)? else {
            return Ok(bytes);
        };
        board.back(loan);
    }
    Err(Fail::new("the board goes on"))
}

/// The entries of a board are those of these lines.
fn assert_entries(rt: &impl Abort, board: &Board, lines: &[&str]) -> Result<(), Fail> {
    let outcome = board.outcome()?;
    let entries = outcome.entries.as_slice();
    assert_eq!(rt; entries.len(), lines.len());
    for (entry, line) in entries.iter().zip(lines) {
        assert_eq!(rt; read_entry(line), Some(*entry));
    }
    Ok(())
}

/// The one region of both sums.
fn sum_row(verdict: Verdict) -> Row {
    Row {
        number: 0,
        at: 1,
        pc: 0x10004,
        original: 36,
        fast: 5,
        verdict,
    }
}

#[test]
fn keeps_a_region_alone(rt: HostRuntime) -> Result<(), Fail> {
    let image = small_image(rt.alloc(), &SUM)?;
    let mut board = board_of(rt.alloc(), image.as_slice(), 4)?;
    let bytes = run_alone(rt.alloc(), &mut board)?;
    assert!(rt; bytes.is_empty());
    let lines = [
        "lend 0 0.0.f",
        "back 0.0.f 1",
        "fork 0.1.f",
        "lend 0 0.1.n",
        "back 0.1.n 36",
        "lend 0 0.1.f",
        "back 0.1.f 5",
        "cross 0.1.f",
        "keep 0",
        "lend 0 0.1.f",
        "back 0.1.f 3",
        "finish",
    ];
    assert_entries(&rt, &board, &lines)?;
    let outcome = board.outcome()?;
    assert_eq!(rt;
        outcome.rows.as_slice(),
        [sum_row(Verdict::Kept)].as_slice()
    );
    assert_eq!(rt;
        outcome.finished,
        Some(Finished {
            end: End::Exit(55),
            count: 40
        })
    );
    Ok(())
}

#[test]
fn discards_a_region_alone(rt: HostRuntime) -> Result<(), Fail> {
    let image = small_image(rt.alloc(), &WRONG_SUM)?;
    let mut board = board_of(rt.alloc(), image.as_slice(), 4)?;
    let bytes = run_alone(rt.alloc(), &mut board)?;
    assert!(rt; bytes.is_empty());
    let lines = [
        "lend 0 0.0.f",
        "back 0.0.f 1",
        "fork 0.1.f",
        "lend 0 0.1.n",
        "back 0.1.n 36",
        "lend 0 0.1.f",
        "back 0.1.f 5",
        "cross 0.1.f",
        "discard 0",
        "lend 0 1.0.f",
        "back 1.0.f 3",
        "finish",
    ];
    assert_entries(&rt, &board, &lines)?;
    let outcome = board.outcome()?;
    let row = sum_row(Verdict::Differs(Difference::Register(10)));
    assert_eq!(rt; outcome.rows.as_slice(), [row].as_slice());
    assert_eq!(rt;
        outcome.finished,
        Some(Finished {
            end: End::Exit(55),
            count: 40
        })
    );
    Ok(())
}

/// The track of a region of the first generation.
fn name(region: u64, normal: bool) -> Name {
    Name {
        generation: 0,
        region,
        normal,
    }
}

/// Lends the track of this name, and brings it home.
fn go_and_return(rt: &impl Abort, round: &mut Round, place: usize, name: Name) -> Result<(), Fail> {
    assert_eq!(rt; round.lend()?, Some(name));
    assert_eq!(rt; round.bring_home(place)?, Back::Taken);
    round.settle()
}

/// A track is out whose region is dropped with the region before it.
#[test]
fn drops_a_track_that_is_out(rt: HostRuntime) -> Result<(), Fail> {
    let image = small_image(rt.alloc(), &WRONG_SUMS)?;
    let mut round = Round::new(rt.alloc(), image.as_slice(), 4)?;
    go_and_return(&rt, &mut round, 0, name(0, false))?;
    assert_eq!(rt; round.lend()?, Some(name(1, true)));
    go_and_return(&rt, &mut round, 2, name(1, false))?;
    go_and_return(&rt, &mut round, 3, name(1, false))?;
    assert_eq!(rt; round.lend()?, Some(name(2, true)));
    assert_eq!(rt; round.bring_home(1)?, Back::Taken);
    round.settle()?;
    assert_eq!(rt; round.bring_home(4)?, Back::Dropped(0));
    let lines = [
        "lend 1 0.0.f",
        "back 0.0.f 1",
        "fork 0.1.f",
        "lend 2 0.1.n",
        "lend 3 0.1.f",
        "back 0.1.f 5",
        "cross 0.1.f",
        "lend 4 0.1.f",
        "back 0.1.f 2",
        "fork 0.2.f",
        "lend 5 0.2.n",
        "back 0.1.n 36",
        "discard 0",
        "gone 0.2.n",
    ];
    assert_entries(&rt, round.board(), &lines)
}

/// A track that is given up ends a run that has no finish.
#[test]
fn halts_where_a_track_is_lost(rt: HostRuntime) -> Result<(), Fail> {
    let image = small_image(rt.alloc(), &SUM)?;
    let mut round = Round::new(rt.alloc(), image.as_slice(), 4)?;
    assert_eq!(rt; round.lend()?, Some(name(0, false)));
    assert_eq!(rt; round.lend()?, None);
    round.give_up(0)?;
    assert!(rt; round.board().over());
    assert_eq!(rt; round.board().finished(), None);
    assert_entries(&rt, round.board(), &["lend 1 0.0.f", "gone 0.0.f"])
}

/// A track that is given up after the finish changes nothing in it.
#[test]
fn finishes_though_a_track_is_lost(rt: HostRuntime) -> Result<(), Fail> {
    let image = small_image(rt.alloc(), &NEVER_CLOSES)?;
    let mut round = Round::new(rt.alloc(), image.as_slice(), 4)?;
    go_and_return(&rt, &mut round, 0, name(0, false))?;
    assert_eq!(rt; round.lend()?, Some(name(1, true)));
    assert_eq!(rt; round.lend()?, Some(name(1, false)));
    assert_eq!(rt; round.bring_home(1)?, Back::Taken);
    round.settle()?;
    let finished = Some(Finished {
        end: End::Exit(0),
        count: 4,
    });
    assert_eq!(rt; round.board().finished(), finished);
    round.give_up(2)?;
    assert_eq!(rt; round.board().finished(), finished);
    let lines = [
        "lend 1 0.0.f",
        "back 0.0.f 1",
        "fork 0.1.f",
        "lend 2 0.1.n",
        "lend 3 0.1.f",
        "back 0.1.n 3",
        "finish",
        "gone 0.1.f",
    ];
    assert_entries(&rt, round.board(), &lines)
}

/// The six regions of the generated program: the instructions of the original and of the fast version, and the verdict.
const REGIONS: [(u64, u64, Verdict); 6] = [
    (30_010, 7, Verdict::Kept),
    (30_031, 7, Verdict::Differs(Difference::Register(10))),
    (30_052, 30_052, Verdict::Late),
    (30_073, 7, Verdict::Kept),
    (30_094, 7, Verdict::Kept),
    (30_115, 7, Verdict::Differs(Difference::Register(10))),
];

/// What the generated program writes: the numbers 30003, 60027, 90072, 120138, 150225 and 180333.
const WRITTEN: [u8; 24] = [
    0x33, 0x75, 0x00, 0x00, 0x7B, 0xEA, 0x00, 0x00, 0xD8, 0x5F, 0x01, 0x00, 0x4A, 0xD5, 0x01, 0x00,
    0xD1, 0x4A, 0x02, 0x00, 0x6D, 0xC0, 0x02, 0x00,
];

fn generated(alloc: Global) -> Result<Bytes, Fail> {
    Ok(generate(alloc, 1, 6)?)
}

/// What came of the board, and what it released, is that of the generated program alone.
fn assert_generated(rt: &impl Abort, board: &Board, bytes: &[u8]) -> Result<(), Fail> {
    let outcome = board.outcome()?;
    let rows = outcome.rows.as_slice();
    assert_eq!(rt; rows.len(), REGIONS.len());
    for (row, region) in rows.iter().zip(&REGIONS) {
        assert_eq!(rt; (row.original, row.fast, row.verdict), *region);
    }
    let finished = Finished {
        end: End::Exit(0),
        count: 180_435,
    };
    assert_eq!(rt; outcome.finished, Some(finished));
    assert_eq!(rt; bytes, WRITTEN.as_slice());
    Ok(())
}

#[test]
fn has_one_outcome_for_each_number_of_tracks(rt: HostRuntime) -> Result<(), Fail> {
    let image = generated(rt.alloc())?;
    for tracks in [1, 2, 32] {
        let mut board = board_of(rt.alloc(), image.as_slice(), tracks)?;
        let bytes = run_alone(rt.alloc(), &mut board)?;
        assert_generated(&rt, &board, &bytes)?;
    }
    Ok(())
}

/// Lends all that is lendable.
fn lend_all(round: &mut Round) -> Result<(), Fail> {
    for _ in 0..100 {
        if round.lend()?.is_none() {
            return Ok(());
        }
    }
    Err(Fail::new("there is always more to lend"))
}

/// Runs a board to its end. Each time all lendable tracks go out, and one of those that are out comes home: which one, a
/// generator of order numbers says.
fn run_in_order(round: &mut Round, seed: u64) -> Result<(), Fail> {
    let mut number = seed;
    for _ in 0..10_000 {
        round.settle()?;
        lend_all(round)?;
        let out = round.out();
        if out == 0 {
            return Ok(());
        }
        number = number
            .wrapping_mul(6_364_136_223_846_793_005)
            .wrapping_add(1_442_695_040_888_963_407);
        let Some(place) = round.place((number >> 33) as usize % out) else {
            return Err(Fail::new("fewer tracks are out than are counted"));
        };
        round.bring_home(place)?;
    }
    Err(Fail::new("the board goes on"))
}

#[test]
fn has_one_outcome_for_each_order(rt: HostRuntime) -> Result<(), Fail> {
    let image = generated(rt.alloc())?;
    for seed in 1..=10 {
        let mut round = Round::new(rt.alloc(), image.as_slice(), 4)?;
        run_in_order(&mut round, seed)?;
        assert_generated(&rt, round.board(), round.bytes())?;
    }
    Ok(())
}

/// A seat ends the run; tracks are lent by their names, and due events are done one by one.
#[test]
fn is_driven_by_names_and_single_events(rt: HostRuntime) -> Result<(), Fail> {
    let image = small_image(rt.alloc(), &SUM)?;
    let mut board = board_of(rt.alloc(), image.as_slice(), 4)?;
    assert!(rt; board.lend_named(0, name(1, true))?.is_none());
    assert_eq!(rt; board.settle_one()?, None);
    let Some(loan) = board.lend_named(0, name(0, false))? else {
        return Err(Fail::new("the lead is not lendable"));
    };
    let Some(open) = board.loan_of(loan.name()) else {
        return Err(Fail::new("the loan is not known"));
    };
    assert_eq!(rt;
        (open.seat, open.name, open.dropped),
        (0, name(0, false), None)
    );
    board.halt(7);
    assert_eq!(rt; (board.over(), board.verified()), (true, 0));
    assert_entries(&rt, &board, &["lend 0 0.0.f", "halt 7"])
}
