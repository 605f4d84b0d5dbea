//! Which pages of the address space are mapped.

ghost use Rattle.std.specs.Prelude.{◌≡◌, ℕ, ◌+◌, ◌*◌, ◌^◌, ◌<◌, ◌≤◌, ◌&&◌, ◌∷◌, nat_le, nat_lt, IfOk};
ghost use Rattle.std.specs.List.{All, list_any};
ghost use Rattle.std.specs.List.Sorted.{IsNonDecreasingBy};
ghost use Rattle.guest_model.specs.Image.{last_end, is_mapped_page};
ghost use Rattle.guest_model.specs.Segment.{has_page};
ghost use Rattle.elf32_loader.specs.PageRanges.{has_range, in_range, IsPageRange, IsRising, HasWholePages};

use crate::address_space::{PAGE, STACK_BASE, STACK_END};
use crate::page_range::PageRange;
use crate::segment::Segment;
use guest_model::Heap;
use std::alloc::{AllocError, Global};

/// The pages of the stack.
const STACK: PageRange = PageRange {
    first: (STACK_BASE / PAGE) as u32,
    end: (STACK_END / PAGE) as u32,
};

/// The mapped pages: those that the segments, the stack and the heap touch.
pub fn mapped_pages(
    alloc: Global,
    segments: &[Segment],
    heap: &Heap,
) -> Result<Vec<PageRange>, AllocError>
    requires ends { last_end segments.now ≤ 2 ^ 32 }
    requires heap { HasWholePages heap.now }
    ensures pages { IfOk result (λ v. (p : ℕ) → has_range v.items p ≡ is_mapped_page segments.now heap.now p) }
    ensures rising { IfOk result (λ v. IsRising v.items) }
{
    let mut ranges = touched_ranges(alloc, segments, heap)?;
    ranges.sort_unstable_by_key(|range| range.first);
    merged(alloc, ranges.as_slice())
}

/// The pages of each segment, of the stack and of the heap.
fn touched_ranges(
    alloc: Global,
    segments: &[Segment],
    heap: &Heap,
) -> Result<Vec<PageRange>, AllocError>
    requires ends { last_end segments.now ≤ 2 ^ 32 }
    requires heap { HasWholePages heap.now }
    ensures pages { IfOk result (λ v. (p : ℕ) → has_range v.items p ≡ is_mapped_page segments.now heap.now p) }
    ensures ranges { IfOk result (λ v. All IsPageRange v.items) }
{
    let mut ranges = segment_ranges(alloc, segments)?;
    ranges.push(STACK)?;
    if heap.size > 0 {
        ranges.push(heap_range(heap))?;
    }
    Ok(ranges)
}

/// The pages of each segment.
fn segment_ranges(alloc: Global, segments: &[Segment]) -> Result<Vec<PageRange>, AllocError>
    requires { last_end segments.now ≤ 2 ^ 32 }
    ensures pages { IfOk result (λ v. (p : ℕ) → has_range v.items p ≡ list_any (has_page p) segments.now) }
    ensures ranges { IfOk result (λ v. All IsPageRange v.items) }
{
    let mut ranges = Vec::with_capacity(alloc, segments.len() + 2)?;
    for segment in segments {
        if segment.has_bytes() {
            ranges.push(segment.pages())?;
        }
    }
    Ok(ranges)
}

/// The pages of a heap that has some.
fn heap_range(heap: &Heap) -> PageRange
    requires pages { HasWholePages heap.now }
    requires some { 0 < heap.now.size }
    ensures pages { (p : ℕ) → in_range p result ≡ (nat_le heap.now.start (p * 4096) && nat_lt (p * 4096) (heap.now.start + heap.now.size)) }
    ensures range { IsPageRange result }
{
    let end = u64::from(heap.start) + u64::from(heap.size);
    PageRange {
        first: (u64::from(heap.start) / PAGE) as u32,
        end: (end / PAGE) as u32,
    }
}

/// The same pages in ranges that rise without a common page. Ranges that meet become one.
fn merged(alloc: Global, sorted: &[PageRange]) -> Result<Vec<PageRange>, AllocError>
    requires ranges { All IsPageRange sorted.now }
    requires order { IsNonDecreasingBy (λ r. r.first) sorted.now }
    ensures pages { IfOk result (λ v. (p : ℕ) → has_range v.items p ≡ has_range sorted.now p) }
    ensures rising { IfOk result (λ v. IsRising v.items) }
{
    match sorted {
        [] => Ok(Vec::new(alloc)),
        [first, rest @ ..] => merged_from(alloc, *first, rest),
    }
}

/// The same for a first range and those behind it.
fn merged_from(
    alloc: Global,
    first: PageRange,
    rest: &[PageRange],
) -> Result<Vec<PageRange>, AllocError>
    requires ranges { All IsPageRange (first ∷ rest.now) }
    requires order { IsNonDecreasingBy (λ r. r.first) (first ∷ rest.now) }
    ensures pages { IfOk result (λ v. (p : ℕ) → has_range v.items p ≡ has_range (first ∷ rest.now) p) }
    ensures rising { IfOk result (λ v. IsRising v.items) }
{
    let mut merged = Vec::with_capacity(alloc, rest.len() + 1)?;
    let mut current = first;
    for range in rest {
        match current.joined(*range) {
            Some(both) => current = both,
            None => {
                merged.push(current)?;
                current = *range;
            }
        }
    }
    merged.push(current)?;
    Ok(merged)
}
