use super::*;

/// Adds 5, opens a region that adds 2 twice or, in its fast version, 4 at once, writes the total, and stops.
const PROGRAM: [Instruction; 10] = [
    Instruction::Add(5),
    Instruction::Open,
    Instruction::Branch(6),
    Instruction::Add(2),
    Instruction::Add(2),
    Instruction::Jump(7),
    Instruction::Add(4),
    Instruction::Close,
    Instruction::Write(1),
    Instruction::Stop,
];

const START: State = State {
    place: 0,
    answer: false,
    total: 0,
};

#[test]
fn runs_stand_where_they_should(rt: HostRuntime) {
    let rows = [
        (
            0,
            None,
            State {
                place: 0,
                answer: false,
                total: 0,
            },
            0,
        ),
        (
            4,
            None,
            State {
                place: 4,
                answer: false,
                total: 7,
            },
            4,
        ),
        (
            6,
            None,
            State {
                place: 7,
                answer: false,
                total: 9,
            },
            6,
        ),
        (
            9,
            Some(End::Stopped),
            State {
                place: 9,
                answer: false,
                total: 9,
            },
            9,
        ),
        (
            100,
            Some(End::Stopped),
            State {
                place: 9,
                answer: false,
                total: 9,
            },
            9,
        ),
    ];
    for (limit, end, last, count) in rows {
        assert_eq!(rt; run(&PROGRAM, START, limit), Tally { end, last, count });
    }
}

#[test]
fn both_versions_meet(rt: HostRuntime) {
    let opening = run(&PROGRAM, START, 1).last;
    assert!(rt; at_fast(&PROGRAM, opening));
    let slow = run(&PROGRAM, opening, 5).last;
    assert!(rt; opening.place < 100);
    let fast = run(&PROGRAM, answer_one(opening), 2).last;
    assert!(rt; at_end(&PROGRAM, slow));
    assert_eq!(rt; first_difference(slow, fast), None);
    assert_eq!(rt; first_difference(slow, opening), Some(Difference::Place));
    assert_eq!(rt;
        step(&PROGRAM, START),
        Outcome::Next(
            State {
                place: 1,
                answer: false,
                total: 5
            },
            None
        )
    );
}
