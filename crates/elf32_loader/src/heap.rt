//! Where the heap lies.

ghost use Rattle.std.specs.Prelude.{◌≡◌, ◌^◌, ◌<◌, ◌≤◌};
ghost use Rattle.guest_model.specs.Image.{last_end, heap_of};
ghost use Rattle.elf32_loader.specs.PageRanges.{HasWholePages};

use crate::address_space::{ADDRESS_END, PAGE, STACK_BASE};
use crate::segment::Segment;
use guest_model::Heap;

/// How many bytes the heap has where there is room for them: 4 MiB.
const HEAP_SIZE: u64 = 0x40_0000;

/// The heap of an image with these segments. It starts on the page behind the last of them and ends at the stack, or
/// behind the stack at 2^32, at the latest. Where no segment has a byte, or the last one ends in the last page, it is
/// empty and starts at 0.
pub fn heap_of(segments: &[Segment]) -> Heap
    requires { last_end segments.now ≤ 2 ^ 32 }
    ensures value { result ≡ heap_of segments.now }
    ensures pages { HasWholePages result }
    ensures start { result.brk ≡ result.start }
{
    let end = last_end(segments);
    let start = end.div_ceil(PAGE) * PAGE;
    if end == 0 || start == ADDRESS_END {
        return Heap {
            start: 0,
            size: 0,
            brk: 0,
        };
    }
    let limit = if start <= STACK_BASE {
        STACK_BASE
    } else {
        ADDRESS_END
    };
    let size = HEAP_SIZE.min(limit - start);
    Heap {
        start: start as u32,
        size: size as u32,
        brk: start as u32,
    }
}

/// The end of the segment that ends last, 0 where none has a byte.
fn last_end(segments: &[Segment]) -> u64
    ensures value { result ≡ last_end segments.now }
    ensures bound { result < 2 ^ 33 }
{
    let mut last = 0;
    for segment in segments {
        if segment.has_bytes() {
            last = segment.end().max(last);
        }
    }
    last
}
