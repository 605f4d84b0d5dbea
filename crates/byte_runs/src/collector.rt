//! Runs as they are found, byte by byte from the lowest address on.

ghost use Rattle.std.specs.Prelude.{◌≡◌, ℕ, ◌+◌, ◌*◌, ◌^◌, ◌<◌, ◌≤◌, Some, true, [], ◌∷◌, length, slice_index, IfOk, OnOk};
ghost use Rattle.guest_model.specs.ByteMap.{ByteMap};
ghost use Rattle.paged_image.specs.Image.{content};
ghost use Rattle.page_compare.specs.Comparison.{SameShape};
ghost use Rattle.byte_runs.specs.Runs.{IsRunsOf, differs, differing, runs_below};
ghost use Rattle.byte_runs.specs.Collection.{Collected, Begins, Lengthens};

use crate::run::{Run, Runs, SHOWN};
use basic_types::NoMemory;
use guest_model::PAGE_SIZE;
use paged_image::PagedImage;
use std::alloc::Global;

/// The first `most` runs, and how many came behind them.
#[derive(Drop)]
pub struct Collector {
    alloc: Global,
    most: usize,
    runs: Vec<Run>,
    more: u64,
    /// The address behind the last run.
    end: Option<u64>,
}

impl Collector {
    /// No byte was looked at.
    pub fn new(alloc: Global, most: usize) -> Collector
        ensures most { result.most ≡ most }
        ensures none { (m n : ByteMap) → Collected m n 0 result }
    {
        Collector {
            alloc,
            most,
            runs: Vec::new(alloc),
            more: 0,
            end: None,
        }
    }

    /// Adds the bytes of a page of two images.
    pub fn add_page(&mut self, a: &PagedImage, b: &PagedImage, page: u32) -> Result<(), NoMemory>
        requires shape { SameShape (content a.now) (content b.now) }
        requires below { Collected (content a.now) (content b.now) (page * 4096) self.old }
        ensures most { self.new.most ≡ self.old.most }
        ensures page { OnOk result (Collected (content a.now) (content b.now) (page * 4096 + 4096) self.new) }
    {
        let Some(left) = a.page(page) else {
            return Ok(());
        };
        let Some(right) = b.page(page) else {
            return Ok(());
        };
        if left == right {
            return Ok(());
        }
        self.add_bytes(page * PAGE_SIZE, left, right)
    }

    /// Adds the bytes that lie from `first` on.
    fn add_bytes(&mut self, first: u32, left: &[u8], right: &[u8]) -> Result<(), NoMemory>
        requires space { first + length left.now ≤ 2 ^ 32 }
        requires same { length left.now ≡ length right.now }
        requires few { self.old.more ≤ first }
        ensures most { self.new.most ≡ self.old.most }
        ensures bytes { (m n : ByteMap) → Collected m n first self.old
            → ((k : ℕ) → k < length left.now → (m (first + k) ≡ Some (slice_index left.now k)) × (n (first + k) ≡ Some (slice_index right.now k)))
            → OnOk result (Collected m n (first + length left.now) self.new) }
    {
        for k in 0..left.len() {
            if left[k] != right[k] {
                self.add(first + k as u32, left[k], right[k])?;
            }
        }
        Ok(())
    }

    /// Adds a byte that differs, which begins a run or goes on with the last one.
    fn add(&mut self, address: u32, left: u8, right: u8) -> Result<(), NoMemory>
        requires few { self.old.more ≤ address }
        ensures most { self.new.most ≡ self.old.most }
        ensures few { self.new.more ≤ address + 1 }
        ensures byte { (m n : ByteMap) → Collected m n address self.old → m address ≡ Some left → n address ≡ Some right
            → differs m n address ≡ true → OnOk result (Collected m n (address + 1) self.new) }
    {
        let at = address as u64;
        let goes_on = self.end == Some(at);
        self.end = Some(at + 1);
        if !goes_on {
            return self.begin(address, left, right);
        }
        // Else the last run is one of those that are only counted.
        if self.more == 0 {
            return self.lengthen(left, right);
        }
        Ok(())
    }

    /// Begins a run of one byte, which is kept if fewer than `most` are.
    fn begin(&mut self, address: u32, left: u8, right: u8) -> Result<(), NoMemory>
        requires few { self.old.more ≤ address }
        ensures most { self.new.most ≡ self.old.most }
        ensures end { self.new.end ≡ self.old.end }
        ensures few { self.new.more ≤ self.old.more + 1 }
        ensures begun { OnOk result (Begins self.old self.new address left right) }
    {
        if self.runs.len() == self.most {
            self.more += 1;
            return Ok(());
        }
        let run = Run {
            address,
            length: 1,
            left: one_byte(self.alloc, left)?,
            right: one_byte(self.alloc, right)?,
        };
        self.runs.push(run)?;
        Ok(())
    }

    /// One byte more in the last run.
    fn lengthen(&mut self, left: u8, right: u8) -> Result<(), NoMemory>
        ensures most { self.new.most ≡ self.old.most }
        ensures end { self.new.end ≡ self.old.end }
        ensures more { self.new.more ≡ self.old.more }
        ensures longer { OnOk result (Lengthens self.old.runs.items self.new.runs.items left right) }
    {
        let Some(run) = self.runs.last_mut() else {
            return Ok(());
        };
        run.length = run.length.saturating_add(1);
        if run.left.len() < SHOWN {
            run.left.push(left)?;
            run.right.push(right)?;
        }
        Ok(())
    }

    /// The runs, once all bytes were looked at.
    pub fn into_runs(self) -> Runs
        ensures { (m n : ByteMap) (q : ℕ) → Collected m n q self → runs_below (differs m n) q ≡ differing m n → IsRunsOf m n self.most result }
    {
        Runs {
            runs: self.runs,
            more: self.more,
        }
    }
}

fn one_byte(alloc: Global, byte: u8) -> Result<Vec<u8>, NoMemory>
    ensures { IfOk result (λ bytes. bytes.items ≡ byte ∷ []) }
{
    let mut bytes = Vec::new(alloc);
    bytes.push(byte)?;
    Ok(bytes)
}
