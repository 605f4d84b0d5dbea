//! A program header, and the tests that the checks make of one.

ghost use Rattle.std.specs.Prelude.{◌≡◌};
ghost use Rattle.guest_model.specs.ImageFault.{ranges_meet};

use crate::address_space::{ADDRESS_END, PAGE, STACK_BASE, STACK_END};
use crate::page_range::PageRange;
use std::marker::Model;

const PT_LOAD: u32 = 1;

const PT_DYNAMIC: u32 = 2;

const PT_INTERP: u32 = 3;

/// The part of a program header that the loader reads.
#[derive(Clone, Copy)]
pub struct Segment {
    pub kind: u32,
    pub offset: u32,
    pub address: u32,
    pub file_size: u32,
    pub memory_size: u32,
}

impl Model for Segment {
    ghost use Rattle.guest_model.specs.Segment.{Segment};

    ghost Value = { Segment };

    ghost view = { λ s. record { kind = s.kind; offset = s.offset; address = s.address; file_size = s.file_size; memory_size = s.memory_size } };

    ghost inverse = { λ s. record { kind = s.kind; offset = s.offset; address = s.address; file_size = s.file_size; memory_size = s.memory_size } };
}

/// Two ranges, each from its first address up to its end, have a common address.
fn ranges_meet(first: u64, end: u64, other_first: u64, other_end: u64) -> bool
    ensures { result ≡ ranges_meet first end other_first other_end }
{
    first < end && other_first < other_end && first < other_end && other_first < end
}

impl Segment {
    ghost use Rattle.std.specs.Prelude.{◌≡◌, ℕ, ◌+◌, ◌^◌, ◌<◌, ◌≤◌, IsTrue};
    ghost use Rattle.guest_model.specs.Segment.{is_load, is_dynamic, has_bytes, end_of, first_page, last_page, page_count, has_page};
    ghost use Rattle.guest_model.specs.ImageFault.{is_bad, overlap, overlaps_stack};
    ghost use Rattle.elf32_loader.specs.PageRanges.{in_range, IsPageRange};

    /// A header of a type that is passed over.
    pub const EMPTY: Segment = Segment {
        kind: 0,
        offset: 0,
        address: 0,
        file_size: 0,
        memory_size: 0,
    };

    /// It is loaded.
    pub fn is_load(&self) -> bool
        ensures { result ≡ is_load self.now }
    {
        self.kind == PT_LOAD
    }

    /// It asks for dynamic linking or for an interpreter.
    pub fn is_dynamic(&self) -> bool
        ensures { result ≡ is_dynamic self.now }
    {
        self.kind == PT_DYNAMIC || self.kind == PT_INTERP
    }

    /// It is loaded and has a byte in memory.
    pub fn has_bytes(&self) -> bool
        ensures { result ≡ has_bytes self.now }
    {
        self.is_load() && self.memory_size > 0
    }

    /// The first address behind it.
    pub fn end(&self) -> u64
        ensures value { result ≡ end_of self.now }
        ensures bound { result < 2 ^ 33 }
    {
        u64::from(self.address) + u64::from(self.memory_size)
    }

    /// Its first page.
    pub fn first_page(&self) -> u64
        ensures { result ≡ first_page self.now }
    {
        u64::from(self.address) / PAGE
    }

    /// The first page behind it, where it has bytes.
    pub fn end_page(&self) -> u64
        requires { IsTrue (has_bytes self.now) }
        ensures value { result ≡ last_page self.now + 1 }
        ensures bound { result ≤ 2 ^ 21 }
    {
        (self.end() - 1) / PAGE + 1
    }

    /// The pages that it touches, where it has bytes and they end at 2^32 at the latest.
    pub fn pages(&self) -> PageRange
        requires some { IsTrue (has_bytes self.now) }
        requires end { end_of self.now ≤ 2 ^ 32 }
        ensures pages { (p : ℕ) → in_range p result ≡ has_page p self.now }
        ensures range { IsPageRange result }
    {
        PageRange {
            first: self.first_page() as u32,
            end: self.end_page() as u32,
        }
    }

    /// How many pages it touches.
    pub fn page_count(&self) -> u64
        ensures value { result ≡ page_count self.now }
        ensures bound { result ≤ 2 ^ 21 }
    {
        if self.has_bytes() {
            self.end_page() - self.first_page()
        } else {
            0
        }
    }

    /// One of its bytes lies in this page.
    pub fn has_page(&self, page: u64) -> bool
        ensures { result ≡ has_page page self.now }
    {
        self.has_bytes() && self.first_page() <= page && page < self.end_page()
    }

    /// It has less memory than file bytes, file bytes past the end of a file of this length, or memory past 2^32.
    pub fn is_bad(&self, file_length: usize) -> bool
        ensures { result ≡ is_bad file_length self.now }
    {
        let file_end = u64::from(self.offset) + u64::from(self.file_size);
        self.is_load()
            && (self.memory_size < self.file_size
                || self.file_size > 0 && (file_length as u64) < file_end
                || ADDRESS_END < self.end())
    }

    /// Both are loaded, and share a byte address.
    pub fn overlaps(&self, other: &Segment) -> bool
        ensures { result ≡ overlap self.now other.now }
    {
        self.is_load()
            && other.is_load()
            && ranges_meet(
                u64::from(self.address),
                self.end(),
                u64::from(other.address),
                other.end(),
            )
    }

    /// It is loaded and shares a byte address with the stack.
    pub fn overlaps_stack(&self) -> bool
        ensures { result ≡ overlaps_stack self.now }
    {
        self.is_load() && ranges_meet(u64::from(self.address), self.end(), STACK_BASE, STACK_END)
    }
}
