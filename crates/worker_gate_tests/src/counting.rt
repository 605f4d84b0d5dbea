//! A gate that counts the points that threads pass.

use std::rt::Clock;
use std::sync::Wait;
use std::sync::atomic::{AtomicU64, Ordering};
use worker_gate::{Gate, Point};

#[derive(Drop)]
pub struct Counting {
    enters: AtomicU64,
    slices: AtomicU64,
}

impl Counting {
    pub fn new() -> Counting {
        Counting {
            enters: AtomicU64::new(0),
            slices: AtomicU64::new(0),
        }
    }

    /// How many turns were asked for.
    pub fn enters(&self) -> u64 {
        self.enters.load(Ordering::SeqCst)
    }

    /// How many slices were run.
    pub fn slices(&self) -> u64 {
        self.slices.load(Ordering::SeqCst)
    }
}

impl Gate for Counting {
    fn pass<R: Wait + Clock>(&self, _rt: &R, point: Point) {
        let count = match point {
            Point::Enter => &self.enters,
            Point::Slice(_) => &self.slices,
        };
        count.fetch_add(1, Ordering::SeqCst);
    }
}
