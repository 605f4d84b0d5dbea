//! Snapshots: every page is shared, and the write set begins anew.

ghost use Rattle.std.specs.Prelude.{◌≡◌, ◌≤◌, false, [], map, OnOk, OnErr, IfOk};
ghost use Rattle.paged_image.specs.Entries.{face, NoneOwn};
ghost use Rattle.paged_image.specs.Changes.{Grows};
ghost use Rattle.paged_image.specs.Image.{content, written_of, owned_of};

use super::PagedImage;
use crate::entry::Entry;
use crate::write_set::WriteSet;
use basic_types::NoMemory;
use core::mem;
use std::alloc::Global;
use std::sync::Arc;

impl PagedImage {
    /// A second image with the same bytes. It takes the write set over; this image's is empty then. Both share all
    /// pages, so that what is stored later in one is not seen in the other.
    ///
    /// # Errors
    /// `NoMemory` where there is no room for the entries. The bytes and the write set are then as before, and the image
    /// may be used on; some of its own pages may be shared by then.
    pub fn snapshot(&mut self) -> Result<PagedImage, NoMemory>
        ensures content { content self.new ≡ content self.old }
        ensures written { OnOk result (written_of self.new ≡ []) }
        ensures owned { OnOk result (owned_of self.new ≡ 0) }
        ensures ok { IfOk result (λ t. (content t ≡ content self.old) × (written_of t ≡ written_of self.old) × (owned_of t ≡ 0)) }
        ensures err { OnErr result ((written_of self.new ≡ written_of self.old) × (owned_of self.new ≤ owned_of self.old)) }
    {
        let index = Arc::try_clone(&self.index)?;
        let entries = share_all(self.alloc, &mut self.entries)?;
        let written = mem::replace(&mut self.written, WriteSet::new(self.alloc));
        Ok(PagedImage {
            alloc: self.alloc,
            index,
            entries,
            written,
        })
    }

    /// Makes the write set of an image empty that owns no page, as that of a snapshot is.
    pub fn forget_written(&mut self)
        requires { owned_of self.old ≡ 0 }
        ensures content { content self.new ≡ content self.old }
        ensures written { written_of self.new ≡ [] }
        ensures owned { owned_of self.new ≡ 0 }
    {
        self.written = WriteSet::new(self.alloc);
    }
}

/// Shares all pages, and gives entries for a second image.
pub(super) fn share_all(alloc: Global, entries: &mut Vec<Entry>) -> Result<Vec<Entry>, NoMemory>
    ensures faces { map face entries.new.items ≡ map face entries.old.items }
    ensures grows { Grows (λ _. false) entries.old.items entries.new.items }
    ensures shared { OnOk result (NoneOwn entries.new.items) }
    ensures others { IfOk result (λ others. (map face others.items ≡ map face entries.old.items) × NoneOwn others.items) }
{
    let mut others = Vec::with_capacity(alloc, entries.len())?;
    for place in 0..entries.len() {
        let entry = &mut entries[place];
        let page = entry.page.share(alloc)?;
        others.push(Entry {
            number: entry.number,
            page,
        })?;
    }
    Ok(others)
}
