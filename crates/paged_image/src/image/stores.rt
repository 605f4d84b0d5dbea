//! Stores: the page is made own where it is shared, and then written in place.

ghost use Rattle.std.specs.Prelude.{◌≡◌, ℕ, ◌+◌, ◌/◌, ◌%◌, ◌^◌, ◌<◌, ◌≤◌, ◌==◌, ◌&&◌, false, nat_le, nat_lt, length, is_some, IsTrue, OnOk};
ghost use Rattle.std.specs.Bool.{OnTrue, OnFalse};
ghost use Rattle.guest_model.specs.ByteMap.{write};
ghost use Rattle.paged_image.specs.Image.{content, written_of};
ghost use Rattle.paged_image.specs.Changes.{Advances, Stored, page_of, owns};

use super::PagedImage;
use super::reads::rest_of_page;
use crate::page::PAGE_BYTES;
use basic_types::NoMemory;
use guest_model::{PAGE_SIZE, StoreFault};

impl PagedImage {
    /// Writes these bytes from `a` on where they are all on one page and the image owns it.
    #[inline]
    fn put_in_own_page(&mut self, a: u32, from: &[u8]) -> bool
        ensures done { OnTrue result (IsTrue (owns self.old (a / 4096)) × (a % 4096 + length from.now ≤ 4096) × (content self.new ≡ write (content self.old) a from.now)) }
        ensures declined { OnFalse result (self.new ≡ self.old) }
        ensures why { OnFalse result (IsTrue (owns self.old (a / 4096)) → 4096 < a % 4096 + length from.now) }
        ensures advances { Advances (λ _. false) self.old self.new }
        ensures written { written_of self.new ≡ written_of self.old }
    {
        let offset = a as usize % PAGE_BYTES;
        if from.len() > PAGE_BYTES - offset {
            return false;
        }
        let Some(place) = self.place_of(a / PAGE_SIZE) else {
            return false;
        };
        let entry = &mut self.entries[place];
        entry.page.overwrite(offset, from)
    }

    /// Makes a mapped page own, and adds it to the write set.
    #[cold]
    #[inline(never)]
    fn own_page(&mut self, number: u32) -> Result<(), NoMemory>
        ensures bytes { (p : ℕ) → page_of self.new p ≡ page_of self.old p }
        ensures advances { Advances (λ p. p == number) self.old self.new }
        ensures own { OnOk result (IsTrue (is_some (page_of self.old number)) → IsTrue (owns self.new number)) }
    {
        let Some(place) = self.place_of(number) else {
            return Ok(());
        };
        if self.entries[place].page.is_own() {
            return Ok(());
        }
        self.written.insert(number)?;
        let entry = &mut self.entries[place];
        entry.page.make_own(self.alloc)?;
        Ok(())
    }

    /// Makes the mapped pages from `first` up to `end` own.
    fn own_pages(&mut self, first: u32, end: u32) -> Result<(), NoMemory>
        requires { end ≤ 2 ^ 20 }
        ensures bytes { (p : ℕ) → page_of self.new p ≡ page_of self.old p }
        ensures advances { Advances (λ p. nat_le first p && nat_lt p end) self.old self.new }
        ensures own { OnOk result ((p : ℕ) → first ≤ p → p < end → IsTrue (is_some (page_of self.old p)) → IsTrue (owns self.new p)) }
    {
        for number in first..end {
            self.own_page(number)?;
        }
        Ok(())
    }

    /// Writes these bytes from `a` on, where the image owns all pages of the range.
    fn put_in_own_pages(&mut self, a: u32, from: &[u8])
        requires space { a + length from.now ≤ 2 ^ 32 }
        requires own { (k : ℕ) → k < length from.now → IsTrue (owns self.old ((a + k) / 4096)) }
        ensures content { content self.new ≡ write (content self.old) a from.now }
        ensures advances { Advances (λ _. false) self.old self.new }
    {
        let mut done = 0;
        while done < from.len() {
            let at = a + done as u32;
            let n = rest_of_page(at).min(from.len() - done);
            self.put_in_own_page(at, &from[done..done + n]);
            done += n;
        }
    }

    /// Stores these bytes from `a` on, whoever owns the pages.
    #[cold]
    #[inline(never)]
    fn put_across(&mut self, a: u32, from: &[u8]) -> Result<(), StoreFault>
        requires { length from.now < 2 ^ 32 }
        ensures { Stored self.old self.new a from.now result }
    {
        if !self.is_mapped(a, from.len()) {
            return Err(StoreFault::Unmapped);
        }
        if from.len() == 0 {
            return Ok(());
        }
        let last = a + (from.len() - 1) as u32;
        if self.own_pages(a / PAGE_SIZE, last / PAGE_SIZE + 1).is_err() {
            return Err(StoreFault::NoMemory);
        }
        self.put_in_own_pages(a, from);
        Ok(())
    }

    /// Stores these bytes from `a` on.
    #[inline]
    pub(super) fn put(&mut self, a: u32, from: &[u8]) -> Result<(), StoreFault>
        requires { length from.now < 2 ^ 32 }
        ensures { Stored self.old self.new a from.now result }
    {
        if self.put_in_own_page(a, from) {
            return Ok(());
        }
        self.put_across(a, from)
    }
}
