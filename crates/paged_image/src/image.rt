ghost use Rattle.std.specs.Prelude.{◌≡◌, ◌+◌, ◌*◌, ◌^◌, ◌≤◌, length, All};
ghost use Rattle.guest_model.specs.AreaMap.{IsLayout};
ghost use Rattle.paged_image.specs.Pages.{Finds, OwnIsWritten};

use crate::builder::Builder;
use crate::entry::Entry;
use crate::page::PAGE_BYTES;
use crate::write_set::WriteSet;
use basic_types::NoMemory;
use guest_model::Area;
use std::alloc::Global;
use std::sync::Arc;

mod memory;
mod reads;
mod snapshot;
mod stores;
#[cfg(test)]
mod tests;

use snapshot::share_all;

/// A memory of pages of 4,096 bytes, some of which it owns and the others of which it shares with its snapshots.
///
/// A page is copied at the first write into it after a snapshot. Contracts see the bytes (`content`), the numbers of
/// the pages written since the last snapshot (`written_of`), and how many pages no other image has (`owned_of`).
#[derive(Drop)]
pub struct PagedImage {
    alloc: Global,
    /// For each page number up to the last mapped one a place in `entries`, or a number past its end where the page is
    /// unmapped. It never changes, and all snapshots share it.
    index: Arc<Vec<u32>>,
    entries: Vec<Entry>,
    written: WriteSet,
    ghost table: { length index.value.items ≤ 2 ^ 20 },
    ghost finds: { Finds index.value.items entries.items },
    ghost own_written: { OwnIsWritten entries.items written },
}

impl PagedImage {
    ghost use Rattle.std.specs.Prelude.{ℕ, [], IsTrue, IfOk};
    ghost use Rattle.guest_model.specs.AreaMap.{areas_bytes};
    ghost use Rattle.paged_image.specs.Image.{content, written_of, owned_of, owns_page};
    ghost use Rattle.paged_image.specs.WriteSet.{has};

    /// An image that holds these bytes: all pages are shared, and nothing is written yet.
    ///
    /// # Errors
    /// `NoMemory` where there is no room for them.
    pub fn from_areas(alloc: Global, areas: &[Area]) -> Result<PagedImage, NoMemory>
        requires { IsLayout areas.now }
        ensures { IfOk result (λ t. (content t ≡ areas_bytes areas.now) × (written_of t ≡ []) × (owned_of t ≡ 0)) }
    {
        let mut builder = Builder::new(alloc, end_page(areas))?;
        for area in areas {
            builder.push_area(area)?;
        }
        let Builder {
            alloc,
            index,
            entries,
        } = builder;
        let mut entries = entries;
        // All at once, so that the counts of owners, which each snapshot changes, lie close together.
        let _others = share_all(alloc, &mut entries)?;
        Ok(PagedImage {
            alloc,
            index: Arc::new(alloc, index)?,
            entries,
            written: WriteSet::new(alloc),
        })
    }

    /// The pages that stores and `copy_in` touched since the image was made or last gave a snapshot, those of a call
    /// that was refused for want of memory perhaps among them.
    #[tactic(auto, unfolding(crate::specs::Image::written_of))]
    pub fn written(&self) -> &WriteSet
        ensures pages { result.now ≡ written_of self.now }
        ensures own { (page : ℕ) → IsTrue (owns_page self.now page) → IsTrue (has (written_of self.now) page) }
    {
        &self.written
    }

    /// The number of pages that no other image has.
    #[tactic(auto, unfolding(crate::specs::Image::owned_of))]
    pub fn owned(&self) -> u64
        ensures { result ≡ owned_of self.now }
    {
        self.entries
            .iter()
            .filter(|entry| entry.page.is_own())
            .count() as u64
    }
}

/// The number of the page behind the last area, 0 where there is none.
fn end_page(areas: &[Area]) -> usize
    requires { IsLayout areas.now }
    ensures space { result ≤ 2 ^ 20 }
    ensures behind { All (λ x. x.base + length x.bytes ≤ result * 4096) areas.now }
{
    match areas.last() {
        Some(area) => (area.base as usize + area.bytes.len()) / PAGE_BYTES,
        None => 0,
    }
}
