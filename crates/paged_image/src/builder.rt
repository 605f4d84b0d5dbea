//! The pages of an image that is being made.

ghost use Rattle.std.specs.Prelude.{◌≡◌, ℕ, ◌+◌, ◌*◌, ◌/◌, ◌^◌, ◌<◌, ◌≤◌, [], Some, length, slice_get, IfOk, OnOk};
ghost use Rattle.guest_model.specs.ByteMap.{write};
ghost use Rattle.guest_model.specs.AreaMap.{IsPageAligned};
ghost use Rattle.paged_image.specs.Owner.{page_bytes};
ghost use Rattle.paged_image.specs.Pages.{Finds, paged, bytes_at};

use crate::entry::Entry;
use crate::owner::{Owner, ZEROS};
use crate::page::{PAGE_BYTES, Page};
use basic_types::NoMemory;
use guest_model::{Area, PAGE_SIZE};
use std::alloc::Global;

/// An index and entries, to which pages are added from the lowest on.
#[derive(Drop)]
pub struct Builder {
    pub alloc: Global,
    pub index: Vec<u32>,
    pub entries: Vec<Entry>,
    pub ghost table: { length index.items ≤ 2 ^ 20 },
    pub ghost finds: { Finds index.items entries.items },
    pub ghost places: { (p place : ℕ) → slice_get index.items p ≡ Some place → length entries.items ≤ place → place ≡ 4294967295 },
}

impl Builder {
    ghost use Rattle.paged_image.specs.Builder.{built};

    /// No pages yet, and an index for those whose numbers are below `end`.
    pub fn new(alloc: Global, end: usize) -> Result<Builder, NoMemory>
        requires { end ≤ 2 ^ 20 }
        ensures { IfOk result (λ b. (b.entries.items ≡ []) × (length b.index.items ≡ end)) }
    {
        let index = empty_index(alloc, end)?;
        Ok(Builder {
            alloc,
            index,
            entries: Vec::new(alloc),
        })
    }

    /// Adds a page, which is own until the image is made, or blank.
    fn push_page(&mut self, number: u32, bytes: &[u8]) -> Result<(), NoMemory>
        requires few { length self.old.entries.items ≤ number }
        requires below { number < length self.old.index.items }
        requires whole { length bytes.now ≡ 4096 }
        ensures pages { OnOk result (built self.new ≡ write (built self.old) (number * 4096) bytes.now) }
        ensures few { OnOk result (length self.new.entries.items ≤ number + 1) }
        ensures index { length self.new.index.items ≡ length self.old.index.items }
    {
        let page = page_of(self.alloc, bytes)?;
        let place = self.entries.len() as u32;
        self.entries.push(Entry { number, page })?;
        self.index[number as usize] = place;
        Ok(())
    }

    /// Adds the pages of an area that lies above those before it.
    pub fn push_area(&mut self, area: &Area) -> Result<(), NoMemory>
        requires few { length self.old.entries.items ≤ area.now.base / 4096 }
        requires aligned { IsPageAligned area.now }
        requires below { area.now.base + length area.now.bytes ≤ length self.old.index.items * 4096 }
        ensures pages { OnOk result (built self.new ≡ write (built self.old) area.now.base area.now.bytes) }
        ensures few { OnOk result (length self.new.entries.items ≤ (area.now.base + length area.now.bytes) / 4096) }
        ensures index { length self.new.index.items ≡ length self.old.index.items }
    {
        let bytes = area.bytes.as_slice();
        let first = area.base / PAGE_SIZE;
        for k in 0..bytes.len() / PAGE_BYTES {
            self.push_page(
                first + k as u32,
                &bytes[k * PAGE_BYTES..k * PAGE_BYTES + PAGE_BYTES],
            )?;
        }
        Ok(())
    }
}

/// A page of these bytes, which takes memory only where one of them isn't zero.
fn page_of(alloc: Global, bytes: &[u8]) -> Result<Owner, NoMemory>
    requires { length bytes.now ≡ 4096 }
    ensures { IfOk result (λ page. page_bytes page ≡ bytes.now) }
{
    if bytes == ZEROS.as_slice() {
        return Ok(Owner::Blank);
    }
    let page = Box::new(alloc, Page::from_slice(bytes))?;
    Ok(Owner::Own(page))
}

/// `n` places past the end of all entries.
fn empty_index(alloc: Global, n: usize) -> Result<Vec<u32>, NoMemory>
    ensures { IfOk result (λ v. (length v.items ≡ n) × ((p place : ℕ) → slice_get v.items p ≡ Some place → place ≡ 4294967295)) }
{
    let index = Vec::from_elem(alloc, u32::MAX, n)?;
    Ok(index)
}
