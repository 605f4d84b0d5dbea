//! A small machine, as an example of the theory: a total that programs add to and write, with regions that have two
//! versions.
ghost use Rattle.std.specs.Prelude.{◌≡◌, ◌<◌, ◌-◌, ◌^◌};
ghost use Rattle.speculation.specs.Toy.{toy, toy_difference, answered, stepped_of, Tells};
ghost use Rattle.speculation.specs.Record.{alone};

/// One instruction of a program.
#[derive(Clone, Copy, Debug, PartialEq, Eq)]
pub enum Instruction {
    /// Adds to the total, modulo 256.
    Add(u8),
    /// Writes the total to the stream of this number.
    Write(u8),
    /// Opens a region; the answer is 0 in plain runs.
    Open,
    /// Goes on at this place where the answer is 1, and clears the answer.
    Branch(usize),
    /// Closes a region.
    Close,
    /// Goes on at this place.
    Jump(usize),
    /// Ends the program.
    Stop,
}

/// What a program works on.
#[derive(Clone, Copy, Debug, PartialEq, Eq)]
pub struct State {
    /// The index of the next instruction.
    pub place: usize,
    /// The answer of the last opening call: true for 1.
    pub answer: bool,
    pub total: u8,
}

/// How a program ends.
#[derive(Clone, Copy, Debug, PartialEq, Eq)]
pub enum End {
    /// It came to `Stop`.
    Stopped,
    /// No instruction stands at the state's place.
    NoInstruction,
}

/// The first part in which two states differ, in this order.
#[derive(Clone, Copy, Debug, PartialEq, Eq)]
pub enum Difference {
    Place,
    Answer,
    Total,
}

/// A byte that an instruction wrote, and its stream.
#[derive(Clone, Copy, Debug, PartialEq, Eq)]
pub struct Written {
    pub stream: u8,
    pub byte: u8,
}

/// What one instruction does.
#[derive(Clone, Copy, Debug, PartialEq, Eq)]
pub enum Outcome {
    Next(State, Option<Written>),
    Ends(End),
}

/// The outcome of a run.
#[derive(Clone, Copy, Debug, PartialEq, Eq)]
pub struct Tally {
    /// The end, or none where all instructions were spent.
    pub end: Option<End>,
    pub last: State,
    /// The instructions taken, the ending one among them.
    pub count: u64,
}

/// One instruction of the program.
pub fn step(program: &[Instruction], state: State) -> Outcome
    ensures { stepped_of result ≡ (toy program.now).step state }
{
    let Some(instruction) = program.get(state.place).copied() else {
        return Outcome::Ends(End::NoInstruction);
    };
    let next = State {
        place: state.place + 1,
        ..state
    };
    match instruction {
        Instruction::Add(n) => Outcome::Next(
            State {
                total: state.total.wrapping_add(n),
                ..next
            },
            None,
        ),
        Instruction::Write(stream) => Outcome::Next(
            next,
            Some(Written {
                stream,
                byte: state.total,
            }),
        ),
        Instruction::Open => Outcome::Next(
            State {
                answer: false,
                ..next
            },
            None,
        ),
        Instruction::Branch(target) => {
            let place = if state.answer { target } else { next.place };
            Outcome::Next(
                State {
                    place,
                    answer: false,
                    ..state
                },
                None,
            )
        }
        Instruction::Close => Outcome::Next(next, None),
        Instruction::Jump(target) => Outcome::Next(
            State {
                place: target,
                ..state
            },
            None,
        ),
        Instruction::Stop => Outcome::Ends(End::Stopped),
    }
}

/// Whether the state is at a call that opens a region.
pub fn at_fast(program: &[Instruction], state: State) -> bool
    ensures { result ≡ (toy program.now).at_fast state }
{
    matches!(program.get(state.place), Some(Instruction::Open))
}

/// Whether the state is at a call that closes a region.
pub fn at_end(program: &[Instruction], state: State) -> bool
    ensures { result ≡ (toy program.now).at_end state }
{
    matches!(program.get(state.place), Some(Instruction::Close))
}

/// The state after the opening call, answered by 1.
pub fn answer_one(state: State) -> State
    requires { state.place < 2 ^ 64 - 1 }
    ensures { result ≡ answered state }
{
    State {
        place: state.place + 1,
        answer: true,
        ..state
    }
}

/// Where two states differ first; none where they are equal.
pub fn first_difference(a: State, b: State) -> Option<Difference>
    ensures { result ≡ toy_difference a b }
{
    if a.place != b.place {
        Some(Difference::Place)
    } else if a.answer != b.answer {
        Some(Difference::Answer)
    } else if a.total != b.total {
        Some(Difference::Total)
    } else {
        None
    }
}

/// Runs the program from a state for at most `limit` instructions.
#[tactic(auto, using(crate::proofs::ToyRuns::loop_laws))]
pub fn run(program: &[Instruction], start: State, limit: u64) -> Tally
    ensures { Tells result (alone (toy program.now) start limit) }
{
    let mut state = start;
    for done in 0..limit {
        match step(program, state) {
            Outcome::Next(next, _) => state = next,
            Outcome::Ends(end) => {
                return Tally {
                    end: Some(end),
                    last: state,
                    count: done + 1,
                };
            }
        }
    }
    Tally {
        end: None,
        last: state,
        count: limit,
    }
}

#[cfg(test)]
mod tests;
