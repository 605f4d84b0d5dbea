//! Journals of a program with six regions, and the answers to them with one change.
//!
//! Each line stands beside nine marks. Each mark is the answer to the journal in which this line alone is changed:
//!
//! | Mark | The change |
//! |---|---|
//! | first | the line is left out |
//! | second | it stands twice |
//! | third | it changes places with the line behind it |
//! | fourth to sixth | its first, second or third number is one more |
//! | seventh to ninth | its first, second or third number is one less |
//!
//! The numbers of `lend 4 1.2.n` are 4, 1 and 2, and those of `back 1.2.n 30` are 1, 2 and 30. The marks say:
//!
//! | Mark | The answer |
//! |---|---|
//! | `=` | the journal is legal |
//! | `0` | the line at the place of the change isn't allowed |
//! | `1` to `9`, `a` to `z` | the line so many lines behind that place isn't allowed; `a` is 10, and `z` is 35 |
//! | `>` | there is no finish: the fault is behind the last line |
//! | `-` | there is no such change: the line has no such number, or it is 0, or no line follows |
//!
//! So `010` beside `lend 0 0.0.f` says: where it is left out, the line that moves up to its place isn't allowed; where it stands
//! twice, the second isn't; where both lines change places, the one that now stands first isn't.
//!
//! The answers were found by an independent replay: by the definitions of a core and its events alone, with an interpreter of its
//! own, in another language, before `check` was asked.

use guest_model::Difference;
use region_ledger::{Row, Verdict};

/// A line of a journal, and the answers to its changes.
pub type Line = (&'static str, &'static str);

/// What a run on one thread prints, however many regions may be open. The answers are the same for each number, too.
pub const SERIAL: [Line; 62] = [
    ("lend 0 0.0.f", "010 =00 ---"),
    ("back 0.0.f 4", "010 000 --0"),
    ("fork 0.1.f", "010 00- -0-"),
    ("lend 0 0.1.n", "010 =00 --0"),
    ("back 0.1.n 30010", "31= 000 -00"),
    ("lend 0 0.1.f", "010 =00 --0"),
    ("back 0.1.f 7", "010 000 -00"),
    ("cross 0.1.f", "010 00- -0-"),
    ("keep 0", "21= 0-- ---"),
    ("lend 0 0.1.f", "010 =00 --0"),
    ("back 0.1.f 9", "010 000 -00"),
    ("fork 0.2.f", "11= 00- -0-"),
    ("release 4", "91= 0-- 0--"),
    ("lend 0 0.2.n", "010 =00 --0"),
    ("back 0.2.n 30031", "31= 000 -00"),
    ("lend 0 0.2.f", "010 =00 --0"),
    ("back 0.2.f 7", "010 000 -00"),
    ("cross 0.2.f", "010 00- -0-"),
    ("discard 1", "010 0-- 0--"),
    ("lend 0 1.0.f", "010 =00 -0-"),
    ("back 1.0.f 9", "010 000 0-0"),
    ("fork 1.1.f", "11= 00- 00-"),
    ("release 4", "81= 0-- 0--"),
    ("lend 0 1.1.n", "010 =00 -00"),
    ("back 1.1.n 30052", "21= 000 000"),
    ("lend 0 1.1.f", "010 =00 -00"),
    ("back 1.1.f 65536", "010 000 000"),
    ("discard 2", "010 0-- 0--"),
    ("lend 0 2.0.f", "010 =00 -0-"),
    ("back 2.0.f 9", "010 000 0-0"),
    ("fork 2.1.f", "11= 00- 00-"),
    ("release 4", "91= 0-- 0--"),
    ("lend 0 2.1.n", "010 =00 -00"),
    ("back 2.1.n 30073", "31= 000 000"),
    ("lend 0 2.1.f", "010 =00 -00"),
    ("back 2.1.f 7", "010 000 000"),
    ("cross 2.1.f", "010 00- 00-"),
    ("keep 3", "21= 0-- 0--"),
    ("lend 0 2.1.f", "010 =00 -00"),
    ("back 2.1.f 9", "010 000 000"),
    ("fork 2.2.f", "11= 00- 00-"),
    ("release 4", "91= 0-- 0--"),
    ("lend 0 2.2.n", "010 =00 -00"),
    ("back 2.2.n 30094", "31= 000 000"),
    ("lend 0 2.2.f", "010 =00 -00"),
    ("back 2.2.f 7", "010 000 000"),
    ("cross 2.2.f", "010 00- 00-"),
    ("keep 4", "21= 0-- 0--"),
    ("lend 0 2.2.f", "010 =00 -00"),
    ("back 2.2.f 9", "010 000 000"),
    ("fork 2.3.f", "11= 00- 00-"),
    ("release 4", "91= 0-- 0--"),
    ("lend 0 2.3.n", "010 =00 -00"),
    ("back 2.3.n 30115", "31= 000 000"),
    ("lend 0 2.3.f", "010 =00 -00"),
    ("back 2.3.f 7", "010 000 000"),
    ("cross 2.3.f", "010 00- 00-"),
    ("discard 5", "010 0-- 0--"),
    ("lend 0 3.0.f", "010 =00 -0-"),
    ("back 3.0.f 11", "010 000 0-0"),
    ("finish", ">1= --- ---"),
    ("release 4", "=1- 0-- 0--"),
];

/// What a run with eight workers can print where at least three regions may be open: made by the same replay, in an order of turns
/// that was drawn at random. Five tracks are out at once. Discards drop four tracks that are out: three of them are gone before the
/// finish, and one behind it.
pub const WITH_WORKERS: [Line; 72] = [
    ("lend 4 0.0.f", "010 =00 =--"),
    ("back 0.0.f 4", "010 000 --0"),
    ("fork 0.1.f", "010 00- -0-"),
    ("lend 4 0.1.n", "f1= =00 =-0"),
    ("lend 1 0.1.f", "010 =00 =-0"),
    ("back 0.1.f 7", "010 000 -00"),
    ("cross 0.1.f", "010 00- -0-"),
    ("lend 1 0.1.f", "010 =00 =-0"),
    ("back 0.1.f 9", "010 000 -00"),
    ("fork 0.2.f", "010 00- -0-"),
    ("lend 1 0.2.n", "a1= =00 =-0"),
    ("lend 0 0.2.f", "010 =00 --0"),
    ("back 0.2.f 7", "010 000 -00"),
    ("cross 0.2.f", "010 00- -0-"),
    ("lend 0 0.2.f", "010 =00 --0"),
    ("back 0.2.f 9", "010 000 -00"),
    ("fork 0.3.f", "010 00- -0-"),
    ("lend 0 0.3.n", "a1= =00 --0"),
    ("lend 2 0.3.f", "b1= =00 =-0"),
    ("back 0.1.n 30010", "010 000 -00"),
    ("keep 0", "11= 0-- ---"),
    ("back 0.2.n 30031", "010 000 -00"),
    ("discard 1", "010 0-- 0--"),
    ("lend 1 1.0.f", "010 =00 =0-"),
    ("back 1.0.f 9", "010 000 0-0"),
    ("fork 1.1.f", "010 00- 00-"),
    ("lend 1 1.1.n", "61= =00 =00"),
    ("lend 7 1.1.f", "31= =00 =00"),
    ("gone 0.3.n", "=1= 00- -0-"),
    ("release 8", "a1= 0-- 0--"),
    ("gone 0.3.f", "=1= 00- -0-"),
    ("back 1.1.f 65536", "010 000 000"),
    ("lend 7 1.1.f", "v11 =00 =00"),
    ("back 1.1.n 30052", "010 000 000"),
    ("discard 2", "010 0-- 0--"),
    ("lend 1 2.0.f", "010 =00 =0-"),
    ("back 2.0.f 9", "010 000 0-0"),
    ("fork 2.1.f", "010 00- 00-"),
    ("lend 1 2.1.n", "g1= =00 =00"),
    ("lend 4 2.1.f", "11= =00 =00"),
    ("release 4", "g1= 0-- 0--"),
    ("back 2.1.f 7", "010 000 000"),
    ("cross 2.1.f", "010 00- 00-"),
    ("lend 4 2.1.f", "010 =00 =00"),
    ("back 2.1.f 9", "010 000 000"),
    ("fork 2.2.f", "010 00- 00-"),
    ("lend 4 2.2.n", "b1= =00 =00"),
    ("lend 2 2.2.f", "010 =00 =00"),
    ("back 2.2.f 7", "010 000 000"),
    ("cross 2.2.f", "010 00- 00-"),
    ("lend 2 2.2.f", "010 =00 =00"),
    ("back 2.2.f 9", "010 000 000"),
    ("fork 2.3.f", "010 00- 00-"),
    ("lend 2 2.3.n", "b1= =00 =00"),
    ("lend 5 2.3.f", "61= =00 =00"),
    ("back 2.1.n 30073", "010 000 000"),
    ("keep 3", "010 0-- 0--"),
    ("release 4", "21= 0-- 0--"),
    ("back 2.2.n 30094", "010 000 000"),
    ("keep 4", "010 0-- 0--"),
    ("release 4", "91= 0-- 0--"),
    ("back 2.3.f 7", "010 000 000"),
    ("cross 2.3.f", "010 00- 00-"),
    ("lend 5 2.3.f", "71= =00 =00"),
    ("gone 1.1.f", "=1= 00- 00-"),
    ("back 2.3.n 30115", "010 000 000"),
    ("discard 5", "010 0-- 0--"),
    ("lend 2 3.0.f", "010 =00 =0-"),
    ("back 3.0.f 11", "010 000 0-0"),
    ("finish", ">1= --- ---"),
    ("release 4", "=1= 0-- 0--"),
    ("gone 2.3.f", "=1- 00- 00-"),
];

/// The ledger of the program, found in the same way.
pub const LEDGER: [Row; 6] = [
    Row {
        number: 0,
        at: 4,
        pc: 0x10010,
        original: 30_010,
        fast: 7,
        verdict: Verdict::Kept,
    },
    Row {
        number: 1,
        at: 30_023,
        pc: 0x1006C,
        original: 30_031,
        fast: 7,
        verdict: Verdict::Differs(Difference::Register(10)),
    },
    Row {
        number: 2,
        at: 60_063,
        pc: 0x100C8,
        original: 30_052,
        fast: 30_052,
        verdict: Verdict::Late,
    },
    Row {
        number: 3,
        at: 90_124,
        pc: 0x10118,
        original: 30_073,
        fast: 7,
        verdict: Verdict::Kept,
    },
    Row {
        number: 4,
        at: 120_206,
        pc: 0x10174,
        original: 30_094,
        fast: 7,
        verdict: Verdict::Kept,
    },
    Row {
        number: 5,
        at: 150_309,
        pc: 0x101D0,
        original: 30_115,
        fast: 7,
        verdict: Verdict::Differs(Difference::Register(10)),
    },
];
