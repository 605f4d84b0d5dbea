//! A gate through which two slices come side by side, or not at all.

use std::rt::Clock;
use std::sync::Wait;
use std::sync::atomic::{AtomicBool, Ordering};
use std::thread;
use std::time::Duration;
use track_board::Name;
use worker_gate::{Gate, Point};

/// How often a slice that is held looks for the other, each time after 50 microseconds.
const MOST_LOOKS: u32 = 200_000;

/// Holds the slice of the original of region 1 until a slice of region 2 has come, and each of these until that one has.
#[derive(Drop)]
pub struct Holding {
    original: AtomicBool,
    behind: AtomicBool,
    given_up: AtomicBool,
}

impl Holding {
    pub fn new() -> Holding {
        Holding {
            original: AtomicBool::new(false),
            behind: AtomicBool::new(false),
            given_up: AtomicBool::new(false),
        }
    }

    /// Whether both came, and none was held in vain.
    pub fn let_both_pass(&self) -> bool {
        let given_up = self.given_up.load(Ordering::SeqCst);
        self.original.load(Ordering::SeqCst) && self.behind.load(Ordering::SeqCst) && !given_up
    }

    fn hold<R: Clock>(&self, rt: &R, other: &AtomicBool) {
        for _ in 0..MOST_LOOKS {
            if other.load(Ordering::SeqCst) {
                return;
            }
            thread::sleep(rt, Duration::from_micros(50));
        }
        self.given_up.store(true, Ordering::SeqCst);
    }
}

impl Gate for Holding {
    fn pass<R: Wait + Clock>(&self, rt: &R, point: Point) {
        let Point::Slice(name) = point else {
            return;
        };
        let Name {
            generation,
            region,
            normal,
        } = name;
        if generation == 0 && region == 1 && normal {
            self.original.store(true, Ordering::SeqCst);
            self.hold(rt, &self.behind);
        }
        if region == 2 {
            self.behind.store(true, Ordering::SeqCst);
            self.hold(rt, &self.original);
        }
    }
}
