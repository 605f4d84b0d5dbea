ghost use Rattle.std.specs.Prelude.{◌≡◌, ◌≤◌, None, length, IfOk};
ghost use Rattle.guest_model.specs.Difference.{first_some};
ghost use Rattle.guest_model.specs.Image.{heap_of, initial_memory};
ghost use Rattle.guest_model.specs.ImageFault.{header_fault, segment_faults};
ghost use Rattle.guest_model.specs.Segment as elf;
ghost use Rattle.elf32_loader.specs.HeaderTable.{HasTable};
ghost use Rattle.elf32_loader.specs.LoadedImage.{image_of_loaded, Loads};

use crate::areas::areas_of;
use crate::fault::ImageFault;
use crate::fields::word_at;
use crate::header::check_header;
use crate::heap::heap_of;
use crate::loaded::Loaded;
use crate::mapped_pages::mapped_pages;
use crate::segment::Segment;
use crate::segment_checks::check_segments;
use crate::table::{read_segments, segment_count};
use guest_model::Areas;
use std::alloc::{AllocError, Global};

/// Loads the image that the file `bytes` holds.
///
/// The answer is the image exactly: the entry, the bytes of memory, and the heap. Headers of other types than PT_LOAD,
/// flags, alignments, physical addresses and sections are passed over. Memory is taken only once the image is known to
/// have no fault: whole pages for the segments, the stack and the heap, and room for their list.
///
/// # Errors
/// The first fault of the image in the order of `ImageFault`, or `NoMemory` where there is no room for an image that has
/// no fault.
pub fn load(alloc: Global, bytes: &[u8]) -> Result<Loaded, ImageFault>
    ensures { Loads bytes.now result }
{
    check_header(bytes)?;
    let table = read_segments(bytes);
    load_checked(alloc, bytes, &table[..segment_count(bytes)])
}

/// Loads an image whose ELF header has no fault, with its program headers.
fn load_checked(alloc: Global, bytes: &[u8], segments: &[Segment]) -> Result<Loaded, ImageFault>
    requires header { header_fault bytes.now ≡ None }
    requires table { HasTable bytes.now }
    requires segments { segments.now ≡ elf.segments bytes.now }
    ensures { Loads bytes.now result }
{
    let entry = word_at(bytes, 24);
    check_segments(segments, bytes.len(), entry)?;
    let loaded = load_segments(alloc, bytes, segments, entry)?;
    Ok(loaded)
}

/// Loads an image that has no fault.
fn load_segments(
    alloc: Global,
    bytes: &[u8],
    segments: &[Segment],
    entry: u32,
) -> Result<Loaded, AllocError>
    requires { first_some (segment_faults (length bytes.now) entry segments.now) ≡ None }
    ensures { IfOk result (λ l. image_of_loaded l ≡ record { entry = entry; memory = initial_memory bytes.now segments.now (heap_of segments.now); heap = heap_of segments.now }) }
{
    let heap = heap_of(segments);
    let ranges = mapped_pages(alloc, segments, &heap)?;
    let areas = areas_of(alloc, bytes, segments, ranges.as_slice())?;
    Ok(Loaded {
        entry,
        areas: Areas::from_vec(areas),
        heap,
    })
}

#[cfg(test)]
mod tests;
