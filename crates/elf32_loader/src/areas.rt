//! The areas of memory that an image starts with.

ghost use Rattle.std.specs.Prelude.{◌≡◌, ℕ, ◌+◌, ◌^◌, ◌<◌, ◌≤◌, false, length, slice_index, IfOk};
ghost use Rattle.std.specs.List.{All};
ghost use Rattle.guest_model.specs.AreaMap.{areas_bytes, IsLayout};
ghost use Rattle.guest_model.specs.ImageFault.{is_bad};
ghost use Rattle.elf32_loader.specs.PageRanges.{IsPageRange, IsRising, IsAreaOf, file_byte, byte_above, pages_bytes};

use crate::address_space::PAGE;
use crate::page_range::PageRange;
use crate::segment::Segment;
use guest_model::{Area, Bytes};
use std::alloc::{AllocError, Global};

/// An area for each range of pages, with the bytes that the segments have in the file and zeros elsewhere.
pub fn areas_of(
    alloc: Global,
    file: &[u8],
    segments: &[Segment],
    ranges: &[PageRange],
) -> Result<Vec<Area>, AllocError>
    requires segments { All (λ s. is_bad (length file.now) s ≡ false) segments.now }
    requires ranges { IsRising ranges.now }
    ensures bytes { IfOk result (λ v. areas_bytes v.items ≡ pages_bytes (file_byte file.now segments.now) ranges.now) }
    ensures layout { IfOk result (λ v. IsLayout v.items) }
{
    let mut areas = Vec::with_capacity(alloc, ranges.len())?;
    for range in ranges {
        areas.push(area_of(alloc, file, segments, *range)?)?;
    }
    Ok(areas)
}

/// The area of one range of pages.
fn area_of(
    alloc: Global,
    file: &[u8],
    segments: &[Segment],
    range: PageRange,
) -> Result<Area, AllocError>
    requires segments { All (λ s. is_bad (length file.now) s ≡ false) segments.now }
    requires range { IsPageRange range }
    ensures { IfOk result (IsAreaOf (file_byte file.now segments.now) range) }
{
    let base = (u64::from(range.first) * PAGE) as u32;
    let len = (u64::from(range.end - range.first) * PAGE) as usize;
    let mut bytes = Bytes::from_vec(vec![in alloc; 0; len]?);
    for i in (0..segments.len()).rev() {
        copy_segment(file, &segments[i], base, &mut bytes);
    }
    Ok(Area { base, bytes })
}

/// Copies the part of the segment's bytes in the file that lies in the memory from `base` on.
fn copy_segment(file: &[u8], segment: &Segment, base: u32, memory: &mut Bytes)
    requires segment { is_bad (length file.now) segment.now ≡ false }
    requires space { base + length memory.old ≤ 2 ^ 32 }
    ensures size { length memory.new ≡ length memory.old }
    ensures bytes { (k : ℕ) → k < length memory.old → slice_index memory.new k ≡ byte_above file.now segment.now (base + k) (slice_index memory.old k) }
{
    if !segment.is_load() {
        return;
    }
    let address = u64::from(segment.address);
    let base = u64::from(base);
    let first = base.max(address);
    let end = (address + u64::from(segment.file_size)).min(base + memory.len() as u64);
    if first < end {
        let from = (u64::from(segment.offset) + (first - address)) as usize;
        let len = (end - first) as usize;
        memory.overwrite((first - base) as usize, &file[from..from + len]);
    }
}
