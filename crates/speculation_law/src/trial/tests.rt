use super::*;

const START: State = State {
    place: 0,
    answer: false,
    total: 0,
};

/// A region at place 0 whose original adds 4 in two steps; its fast version runs the last three instructions.
fn region(fast: [Instruction; 2]) -> [Instruction; 9] {
    [
        Instruction::Open,
        Instruction::Branch(6),
        Instruction::Add(2),
        Instruction::Add(2),
        Instruction::Close,
        Instruction::Stop,
        fast[0],
        fast[1],
        Instruction::Stop,
    ]
}

#[test]
fn verdicts_of_four_fast_versions(rt: HostRuntime) {
    let rows = [
        (
            [Instruction::Add(4), Instruction::Jump(4)],
            Verdict::Kept,
            4,
        ),
        (
            [Instruction::Add(5), Instruction::Jump(4)],
            Verdict::Differs(Difference::Total),
            4,
        ),
        ([Instruction::Stop, Instruction::Stop], Verdict::Stopped, 3),
        (
            [Instruction::Add(1), Instruction::Jump(6)],
            Verdict::Late,
            4,
        ),
    ];
    for (fast, verdict, count) in rows {
        let program = region(fast);
        assert_eq!(rt; original_count(&program, START, 100), Some(4));
        assert_eq!(rt;
            judge_fast(&program, START, 4),
            Judged {
                verdict,
                fast: count
            }
        );
    }
}

#[test]
fn a_region_that_does_not_close_has_no_count(rt: HostRuntime) {
    let program = region([Instruction::Stop, Instruction::Stop]);
    assert_eq!(rt; original_count(&program, START, 3), None);
    assert_eq!(rt; run_fast(&program, START, 2), FastEnd::Running);
}
