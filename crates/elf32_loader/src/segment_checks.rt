//! The checks of the program headers, of which there are at most 64.

ghost use Rattle.std.specs.Prelude.{◌≡◌, ◌+◌, ◌≤◌, length, is_some, option_map, option_and_then};
ghost use Rattle.std.specs.List.{list_any};
ghost use Rattle.guest_model.specs.Difference.{first_some};
ghost use Rattle.guest_model.specs.ImageFault as image;
ghost use Rattle.guest_model.specs.ImageFault.{nth, first_place, first_overlap, overlaps_stack, is_bad, is_too_large, is_entry, segment_faults};
ghost use Rattle.guest_model.specs.Segment.{is_dynamic, has_page};
ghost use Rattle.elf32_loader.specs.FaultOf.{Checks};

use crate::address_space::{PAGE, STACK_BASE, STACK_END};
use crate::fault::ImageFault;
use crate::segment::Segment;

/// How many pages the segments and the stack touch at most, counted one by one.
const MOST_PAGES: u64 = 8192;

/// How many pages the stack has.
const STACK_PAGES: u64 = (STACK_END - STACK_BASE) / PAGE;

/// The program headers have no fault, in a file of this length with this entry.
pub fn check_segments(
    segments: &[Segment],
    file_length: usize,
    entry: u32,
) -> Result<(), ImageFault>
    requires { length segments.now ≤ 64 }
    ensures { Checks (first_some (segment_faults file_length entry segments.now)) result }
{
    check_dynamic(segments)?;
    check_sizes(segments, file_length)?;
    check_overlaps(segments)?;
    check_stack(segments)?;
    if is_too_large(segments) {
        return Err(ImageFault::TooLarge);
    }
    if !is_entry(segments, entry) {
        return Err(ImageFault::Entry);
    }
    Ok(())
}

/// No header asks for dynamic linking.
fn check_dynamic(segments: &[Segment]) -> Result<(), ImageFault>
    requires { length segments.now ≤ 64 }
    ensures { Checks (option_map image.Dynamic (first_place (λ i. is_dynamic (nth segments.now i)) segments.now)) result }
{
    for (i, segment) in segments.iter().enumerate() {
        if segment.is_dynamic() {
            return Err(ImageFault::Dynamic(i as u16));
        }
    }
    Ok(())
}

/// Each segment has file bytes that are there, and memory that is large enough and ends at 2^32 at the latest.
fn check_sizes(segments: &[Segment], file_length: usize) -> Result<(), ImageFault>
    requires { length segments.now ≤ 64 }
    ensures { Checks (option_map image.BadSegment (first_place (λ i. is_bad file_length (nth segments.now i)) segments.now)) result }
{
    for (i, segment) in segments.iter().enumerate() {
        if segment.is_bad(file_length) {
            return Err(ImageFault::Segment(i as u16));
        }
    }
    Ok(())
}

/// No two segments share an address.
fn check_overlaps(segments: &[Segment]) -> Result<(), ImageFault>
    requires { length segments.now ≤ 64 }
    ensures { Checks (option_and_then (λ i. option_map (image.Overlap i) (first_overlap segments.now i)) (first_place (λ i. is_some (first_overlap segments.now i)) segments.now)) result }
{
    for i in 0..segments.len() {
        if let Some(j) = first_overlap(segments, i) {
            return Err(ImageFault::Overlap(i as u16, j));
        }
    }
    Ok(())
}

/// The first place behind `i` whose segment shares an address with that at `i`.
fn first_overlap(segments: &[Segment], i: usize) -> Option<u16>
    requires count { length segments.now ≤ 64 }
    requires place { i + 1 ≤ length segments.now }
    ensures { result ≡ first_overlap segments.now i }
{
    for j in i + 1..segments.len() {
        if segments[i].overlaps(&segments[j]) {
            return Some(j as u16);
        }
    }
    None
}

/// No segment shares an address with the stack.
fn check_stack(segments: &[Segment]) -> Result<(), ImageFault>
    requires { length segments.now ≤ 64 }
    ensures { Checks (option_map image.StackOverlap (first_place (λ i. overlaps_stack (nth segments.now i)) segments.now)) result }
{
    for (i, segment) in segments.iter().enumerate() {
        if segment.overlaps_stack() {
            return Err(ImageFault::StackOverlap(i as u16));
        }
    }
    Ok(())
}

/// The pages of the segments, counted one by one, and those of the stack are too many.
fn is_too_large(segments: &[Segment]) -> bool
    requires { length segments.now ≤ 64 }
    ensures { result ≡ is_too_large segments.now }
{
    let mut pages: u64 = 0;
    for segment in segments {
        pages += segment.page_count();
    }
    MOST_PAGES < pages + STACK_PAGES
}

/// The entry is a multiple of 4 in a page of a segment or of the stack.
fn is_entry(segments: &[Segment], entry: u32) -> bool
    ensures { result ≡ is_entry segments.now entry }
{
    let entry = u64::from(entry);
    let page = entry / PAGE;
    entry % 4 == 0 && (touch_page(segments, page) || STACK_BASE <= entry && entry < STACK_END)
}

/// A segment has a byte in this page.
fn touch_page(segments: &[Segment], page: u64) -> bool
    ensures { result ≡ list_any (has_page page) segments.now }
{
    for segment in segments {
        if segment.has_page(page) {
            return true;
        }
    }
    false
}
