//! Pages and ranges of an image, to be read.

ghost use Rattle.std.specs.Prelude.{◌≡◌, ◌+◌, ◌-◌, ◌/◌, ◌%◌, ◌^◌, ◌<◌, ◌≤◌, IsTrue, length, slice_get, Some, None, IfSome, IfNone, is_some, option_copied};
ghost use Rattle.guest_model.specs.ByteMap.{mapped, bytes_from, CopiesOut};
ghost use Rattle.guest_model.specs.Place.{IsPiece};
ghost use Rattle.paged_image.specs.Pages.{entry_at, bytes_at, IsPage, LacksPage};
ghost use Rattle.paged_image.specs.Image.{content};
ghost use Rattle.paged_image.specs.Changes.{page_of};

use super::PagedImage;
use crate::entry::Entry;
use crate::page::PAGE_BYTES;
use guest_model::PAGE_SIZE;

impl PagedImage {
    /// The place of a page's entry, None where the page is unmapped.
    #[inline]
    #[tactic(auto, unfolding(crate::specs::Pages::entry_at))]
    pub(super) fn place_of(&self, number: u32) -> Option<usize>
        ensures absent { IfNone result (entry_at self.now.index.value.items self.now.entries.items number ≡ None) }
        ensures index { IfSome result (λ place. slice_get self.now.index.value.items number ≡ Some place) }
        ensures within { IfSome result (λ place. place < length self.now.entries.items) }
    {
        let place = *self.index.get(number as usize)? as usize;
        if place < self.entries.len() {
            Some(place)
        } else {
            None
        }
    }

    /// The entry of a page, None where the page is unmapped.
    #[inline]
    #[tactic(auto, unfolding(crate::specs::Pages::entry_at))]
    pub(super) fn entry(&self, number: u32) -> Option<&Entry>
        ensures { option_copied result ≡ entry_at self.now.index.value.items self.now.entries.items number }
    {
        let place = *self.index.get(number as usize)?;
        self.entries.get(place as usize)
    }

    /// The bytes of a page, None where the page is unmapped.
    #[inline]
    pub(super) fn page_bytes(&self, number: u32) -> Option<&[u8]>
        ensures { option_copied result ≡ bytes_at self.now.index.value.items self.now.entries.items number }
    {
        let entry = self.entry(number)?;
        Some(entry.page.bytes().as_slice())
    }

    /// The bytes of the page with this number, whose first address is `number * 4096`; None where it is unmapped.
    pub fn page(&self, number: u32) -> Option<&[u8]>
        ensures none { IfNone result (LacksPage (content self.now) number) }
        ensures some { IfSome result (λ bytes. IsPage (content self.now) number bytes.now) }
    {
        self.page_bytes(number)
    }

    /// The page is mapped.
    #[inline]
    pub(super) fn has_page(&self, number: u32) -> bool
        ensures { result ≡ is_some (page_of self.now number) }
    {
        self.page_bytes(number).is_some()
    }

    /// The `n` bytes from `a` on, where they are all on one page and it is mapped.
    #[inline]
    pub(super) fn piece(&self, a: u32, n: usize) -> Option<&[u8]>
        ensures some { IfSome result (λ p. IsPiece (content self.now) a n p.now) }
        ensures none { IfNone result (a % 4096 + n ≤ 4096 → page_of self.now (a / 4096) ≡ None) }
    {
        let offset = a as usize % PAGE_BYTES;
        if n > PAGE_BYTES - offset {
            return None;
        }
        let entry = self.entry(a / PAGE_SIZE)?;
        Some(entry.page.piece(offset, n))
    }

    /// The `n` addresses from `a` on are below 2^32 and mapped.
    pub(super) fn is_mapped(&self, a: u32, n: usize) -> bool
        requires { n < 2 ^ 32 }
        ensures { result ≡ mapped (content self.now) a n }
    {
        let end = a as u64 + n as u64;
        if end > 1 << 32 {
            return false;
        }
        if n == 0 {
            return true;
        }
        for number in a / PAGE_SIZE..((end - 1) / PAGE_SIZE as u64) as u32 + 1 {
            if !self.has_page(number) {
                return false;
            }
        }
        true
    }

    /// Fills `into` with the bytes from `a` on, which are all on one mapped page.
    fn fill_from_page(&self, a: u32, into: &mut [u8])
        requires fits { a % 4096 + length into.old ≤ 4096 }
        requires mapped { IsTrue (is_some (page_of self.now (a / 4096))) }
        ensures { into.new ≡ bytes_from (content self.now) a (length into.old) }
    {
        match self.piece(a, into.len()) {
            Some(piece) => into.copy_from_slice(piece),
            None => unreachable!(),
        }
    }

    /// Fills `into` with the bytes from `a` on, page by page.
    pub(super) fn fill(&self, a: u32, into: &mut [u8]) -> bool
        requires { length into.old < 2 ^ 32 }
        ensures { CopiesOut (content self.now) a into.old into.new result }
    {
        if !self.is_mapped(a, into.len()) {
            return false;
        }
        let mut done = 0;
        while done < into.len() {
            let at = a + done as u32;
            let n = rest_of_page(at).min(into.len() - done);
            self.fill_from_page(at, &mut into[done..done + n]);
            done += n;
        }
        true
    }
}

/// The number of bytes from `a` to the end of its page.
#[inline]
pub(super) fn rest_of_page(a: u32) -> usize
    ensures { result ≡ 4096 - a % 4096 }
{
    PAGE_BYTES - a as usize % PAGE_BYTES
}
