//! Waiting outside the lock.

use std::rt::Clock;
use std::thread;
use std::time::Duration;

/// How often the second pause yields the processor. Short regions end while it does, and a thread that sleeps is late for
/// the next one: to wake takes longer than a region of some ten thousand instructions.
const YIELDS: u32 = 64;

/// The first pause that is a sleep, in microseconds.
const FIRST: u64 = 40;

/// The longest pause in microseconds.
const LONGEST: u64 = 1_000;

/// Pauses between two looks at the board: the first yields the processor once, the second many times, and each further
/// one sleeps, for twice as long as the one before, up to a millisecond. So a thread that finds nothing soon leaves the
/// processor and the lock to others.
#[derive(Drop)]
pub struct Pauses {
    next: Pause,
}

/// One pause.
#[derive(Drop)]
enum Pause {
    Yield,
    Yields,
    /// So many microseconds.
    Sleep(u64),
}

impl Pauses {
    /// Before the first pause.
    pub fn new() -> Pauses {
        Pauses { next: Pause::Yield }
    }

    /// Something was found: the next pause is the first again.
    pub fn restart(&mut self) {
        self.next = Pause::Yield;
    }

    /// Pauses, longer than before.
    pub fn pause<R: Clock>(&mut self, rt: &R) {
        self.next = match self.next {
            Pause::Yield => {
                thread::yield_now();
                Pause::Yields
            }
            Pause::Yields => {
                yield_often();
                Pause::Sleep(FIRST)
            }
            Pause::Sleep(micros) => {
                thread::sleep(rt, Duration::from_micros(micros));
                Pause::Sleep(micros.saturating_mul(2).min(LONGEST))
            }
        };
    }
}

/// Yields the processor many times.
fn yield_often() {
    for _ in 0..YIELDS {
        thread::yield_now();
    }
}
