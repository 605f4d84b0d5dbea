use super::load;
use crate::fault::ImageFault;
use crate::segment::Segment;
use guest_model::{Area, Heap};
use std::alloc::{AllocError, Global};
use std::test::Fail;

/// Three instructions at 0x10000 that exit with 0.
const SMALL: [u8; 96] = [
    0x7F, 0x45, 0x4C, 0x46, 1, 1, 1, 0, 0, 0, 0, 0, 0, 0, 0, 0, // identification
    2, 0, 0xF3, 0, 1, 0, 0, 0, 0, 0, 1, 0, 52, 0, 0, 0, // e_type to e_phoff
    0, 0, 0, 0, 0, 0, 0, 0, 52, 0, 32, 0, 1, 0, 0, 0, 0, 0, 0, 0, // e_shoff to e_shstrndx
    1, 0, 0, 0, 0x54, 0, 0, 0, 0, 0, 1, 0, 0, 0, 1, 0, // p_type to p_paddr
    12, 0, 0, 0, 12, 0, 0, 0, 7, 0, 0, 0, 4, 0, 0, 0, // p_filesz to p_align
    0x13, 0x05, 0, 0, 0x93, 0x08, 0xD0, 0x05, 0x73, 0, 0, 0,
];

/// The fault of the small image with these bytes in place of those from `at` on.
fn fault_with(alloc: Global, at: usize, bytes: &[u8]) -> Option<ImageFault> {
    let mut image = SMALL;
    if at <= image.len() && bytes.len() <= image.len() - at {
        image[at..at + bytes.len()].copy_from_slice(bytes);
    }
    load(alloc, &image).err()
}

/// A file with this entry, these program headers and these bytes behind them.
fn file(
    alloc: Global,
    entry: u32,
    segments: &[Segment],
    content: &[u8],
) -> Result<Vec<u8>, AllocError> {
    let mut bytes = Vec::from_slice(alloc, &SMALL[..24])?;
    bytes.extend_from_slice(&entry.to_le_bytes())?;
    bytes.extend_from_slice(&SMALL[28..44])?;
    bytes.extend_from_slice(&(segments.len() as u64).to_le_bytes())?;
    for segment in segments {
        bytes.extend_from_slice(&segment.kind.to_le_bytes())?;
        bytes.extend_from_slice(&segment.offset.to_le_bytes())?;
        bytes.extend_from_slice(&segment.address.to_le_bytes())?;
        bytes.extend_from_slice(&[0; 4])?;
        bytes.extend_from_slice(&segment.file_size.to_le_bytes())?;
        bytes.extend_from_slice(&segment.memory_size.to_le_bytes())?;
        bytes.extend_from_slice(&[0; 8])?;
    }
    bytes.extend_from_slice(content)?;
    Ok(bytes)
}

/// A segment to be loaded that has no bytes in the file.
fn zeros(address: u32, memory_size: u32) -> Segment {
    Segment {
        kind: 1,
        offset: 0,
        address,
        file_size: 0,
        memory_size,
    }
}

#[test]
fn names_the_fault_of_a_changed_byte(rt: HostRuntime) {
    for (at, value, fault) in [
        (0, 0x7E, ImageFault::Magic),
        (3, 0x47, ImageFault::Magic),
        (4, 2, ImageFault::Class),
        (5, 2, ImageFault::ByteOrder),
        (6, 0, ImageFault::Version),
        (20, 2, ImageFault::Version),
        (16, 3, ImageFault::Kind),
        (18, 0x3E, ImageFault::Machine),
        (42, 40, ImageFault::Headers),
        (44, 0, ImageFault::Headers),
        (44, 65, ImageFault::Headers),
        (52, 2, ImageFault::Dynamic(0)),
        (52, 3, ImageFault::Dynamic(0)),
    ] {
        assert_eq!(rt;
            fault_with(rt.alloc(), at, &[value]),
            Some(fault),
            "byte {at}"
        );
    }
}

#[test]
fn names_the_fault_of_a_changed_word(rt: HostRuntime) {
    for (at, value, fault) in [
        (72, 11, Some(ImageFault::Segment(0))),
        (60, 0xFFFF_FFF8, Some(ImageFault::Segment(0))),
        (60, 0x7FFF_FFF8, Some(ImageFault::StackOverlap(0))),
        (60, 0x7FEF_FFFC, Some(ImageFault::StackOverlap(0))),
        (72, 0x01F0_0000, None),
        (72, 0x01F0_0001, Some(ImageFault::TooLarge)),
        (24, 0x1_0002, Some(ImageFault::Entry)),
        (24, 0x1000, Some(ImageFault::Entry)),
        (24, 0x1_0FFC, None),
        (4, 0x0001_0102, Some(ImageFault::Class)),
    ] {
        let value: u32 = value;
        assert_eq!(rt;
            fault_with(rt.alloc(), at, &value.to_le_bytes()),
            fault,
            "word {at}: {value:x}"
        );
    }
}

#[test]
fn names_the_fault_of_a_cut_file(rt: HostRuntime) {
    for len in 0..SMALL.len() {
        let fault = match len {
            0..=51 => ImageFault::Short,
            52..=83 => ImageFault::Headers,
            _ => ImageFault::Segment(0),
        };
        assert_eq!(rt;
            load(rt.alloc(), &SMALL[..len]).err(),
            Some(fault),
            "{len} bytes"
        );
    }
    assert_eq!(rt; load(rt.alloc(), &[0; 52]).err(), Some(ImageFault::Magic));
}

#[test]
fn names_the_first_of_several_headers(rt: HostRuntime) -> Result<(), Fail> {
    let empty = file(rt.alloc(), 0x1_0000, &[zeros(0x1_0000, 0)], &[])?;
    assert_eq!(rt;
        load(rt.alloc(), empty.as_slice()).err(),
        Some(ImageFault::Entry)
    );

    let code = zeros(0x1_0000, 16);
    let ignored = Segment::EMPTY;
    let interpreter = Segment { kind: 3, ..ignored };
    let past_file = Segment {
        file_size: 16,
        offset: 0xFFFF_FFFF,
        ..code
    };
    for (segments, fault) in [
        (
            [code, ignored, zeros(0x1_000F, 1)],
            ImageFault::Overlap(0, 2),
        ),
        (
            [code, zeros(0x1_0010, 16), zeros(0x1_001F, 9)],
            ImageFault::Overlap(1, 2),
        ),
        (
            [zeros(0x7FFF_FFFF, 1), code, code],
            ImageFault::Overlap(1, 2),
        ),
        (
            [code, ignored, zeros(0x7FFF_FFFF, 1)],
            ImageFault::StackOverlap(2),
        ),
        ([code, past_file, interpreter], ImageFault::Dynamic(2)),
        ([code, code, past_file], ImageFault::Segment(2)),
        (
            [ignored, zeros(0x2_0000, 16), zeros(0x1_0000, 0)],
            ImageFault::Entry,
        ),
    ] {
        let bytes = file(rt.alloc(), 0x1_0000, &segments, &[])?;
        assert_eq!(rt; load(rt.alloc(), bytes.as_slice()).err(), Some(fault));
    }
    Ok(())
}

#[test]
fn places_the_heap(rt: HostRuntime) -> Result<(), Fail> {
    for (address, size, start, heap_size) in [
        (0x1_0000, 12, 0x1_1000, 0x40_0000),
        (0x1_0000, 0x1000, 0x1_1000, 0x40_0000),
        (0x1_0000, 0x1001, 0x1_2000, 0x40_0000),
        (0x7FE0_0000, 1, 0x7FE0_1000, 0xF_F000),
        (0x7FEF_F000, 0x1000, 0x7FF0_0000, 0),
        (0x8000_0000, 1, 0x8000_1000, 0x40_0000),
        (0xFFFF_E000, 1, 0xFFFF_F000, 0x1000),
        (0xFFFF_F000, 12, 0, 0),
        (0xFFFF_F000, 0x1000, 0, 0),
    ] {
        let bytes = file(rt.alloc(), address, &[zeros(address, size)], &[])?;
        let heap = Heap {
            start,
            size: heap_size,
            brk: start,
        };
        let loaded = load(rt.alloc(), bytes.as_slice())?;
        assert_eq!(rt; loaded.heap, heap, "{address:x} {size:x}");
        assert_eq!(rt; loaded.entry, address);
    }
    Ok(())
}

/// The area at this place begins here and has this many bytes.
fn is_area(areas: &[Area], place: usize, base: u32, len: usize) -> bool {
    match areas.get(place) {
        Some(area) => area.base == base && area.bytes.len() == len,
        None => false,
    }
}

/// The first area has these bytes from `at` on, and as many bytes that are not 0 as these and `other` together.
fn has_bytes(areas: &[Area], at: usize, bytes: &[u8], other: &[u8]) -> bool {
    let Some(area) = areas.first() else {
        return false;
    };
    let memory = area.bytes.as_slice();
    let Some(from) = memory.get(at..) else {
        return false;
    };
    from.starts_with(bytes) && nonzero(memory) == nonzero(bytes).wrapping_add(nonzero(other))
}

/// How many bytes are not 0.
fn nonzero(bytes: &[u8]) -> usize {
    bytes.iter().filter(|byte| **byte != 0).count()
}

/// The nine words that write six bytes from 0x110F8, take argc from the stack and exit with it, and the six bytes.
fn hello(alloc: Global) -> Result<Vec<u8>, AllocError> {
    let words: [u32; 9] = [
        0x0010_0513,
        0x0001_15B7,
        0x0F85_8593,
        0x0060_0613,
        0x0400_0893,
        0x0000_0073,
        0x0001_2503,
        0x05D0_0893,
        0x0000_0073,
    ];
    let mut content = Vec::new(alloc);
    for word in words {
        content.extend_from_slice(&word.to_le_bytes())?;
    }
    content.extend_from_slice(b"hello\n")?;
    Ok(content)
}

#[test]
fn loads_two_segments_and_zeros(rt: HostRuntime) -> Result<(), Fail> {
    let ignored = Segment::EMPTY;
    let segments = [
        Segment {
            kind: 0x7000_0003,
            ..ignored
        },
        Segment {
            kind: 1,
            offset: 0,
            address: 0x1_0000,
            file_size: 0xF8,
            memory_size: 0xF8,
        },
        Segment {
            kind: 1,
            offset: 0xF8,
            address: 0x1_10F8,
            file_size: 6,
            memory_size: 0x100,
        },
        Segment { kind: 4, ..ignored },
        Segment {
            kind: 0x6474_E551,
            ..ignored
        },
    ];
    let content = hello(rt.alloc())?;
    let bytes = file(rt.alloc(), 0x1_00D4, &segments, content.as_slice())?;
    let loaded = load(rt.alloc(), bytes.as_slice())?;
    let areas = loaded.areas.as_slice();
    assert_eq!(rt; bytes.len(), 254);
    assert_eq!(rt; loaded.entry, 0x1_00D4);
    assert_eq!(rt;
        loaded.heap,
        Heap {
            start: 0x1_2000,
            size: 0x40_0000,
            brk: 0x1_2000
        }
    );
    assert!(rt; is_area(areas, 0, 0x1_0000, 0x40_2000));
    assert!(rt; is_area(areas, 1, 0x7FF0_0000, 0x10_0000));
    assert_eq!(rt; areas.len(), 2);
    let (first, second) = bytes.as_slice().split_at(248);
    assert!(rt; has_bytes(areas, 0, first, second));
    assert!(rt; has_bytes(areas, 0x10F8, second, first));
    Ok(())
}

#[test]
fn loads_two_segments_of_one_page(rt: HostRuntime) -> Result<(), Fail> {
    let segments = [
        Segment {
            kind: 1,
            offset: 120,
            address: 0x1_0800,
            file_size: 4,
            memory_size: 8,
        },
        Segment {
            kind: 1,
            offset: 116,
            address: 0x1_07FC,
            file_size: 4,
            memory_size: 4,
        },
    ];
    let bytes = file(rt.alloc(), 0x1_07FC, &segments, b"abcdefgh")?;
    let loaded = load(rt.alloc(), bytes.as_slice())?;
    let areas = loaded.areas.as_slice();
    assert!(rt; is_area(areas, 0, 0x1_0000, 0x40_1000));
    assert!(rt; has_bytes(areas, 0x7FB, b"\0abcdefgh\0\0\0\0\0", &[]));
    Ok(())
}
