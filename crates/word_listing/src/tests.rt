//! What no clause says: worked listings and texts, and places of worked faults.

use crate::{MOST_BYTES, MOST_LINES, OutputFault, PackFault, TextPlace, pack, write_listing};
use basic_types::{Bytes, NoMemory};
use elf32_loader::load;
use host_io::MemorySink;
use rv32_asm::small_image;
use std::alloc::Global;
use std::test::Fail;

/// The words of a program with a region and its fast version.
const WORDS: [u32; 15] = [
    0x7d00_0893,
    0x0000_0073,
    0x0005_1e63,
    0x0000_0513,
    0x00a0_0293, //
    0x0055_0533,
    0xfff2_8293,
    0xfe02_9ce3,
    0x00c0_006f,
    0x0370_0513, //
    0x0000_0293,
    0x7d10_0893,
    0x0000_0073,
    0x05d0_0893,
    0x0000_0073,
];

/// Their texts.
const TEXT: &str = "addi x17, x0, 2000
ecall
bne x10, x0, 28
addi x10, x0, 0
addi x5, x0, 10
add x10, x10, x5
addi x5, x5, -1
bne x5, x0, -8
jal x0, 12
addi x10, x0, 55
addi x5, x0, 0
addi x17, x0, 2001
ecall
addi x17, x0, 93
ecall
";

/// The listing of its image.
const LISTING: &str = "00010000 addi x17, x0, 2000
00010004 ecall
00010008 bne x10, x0, 28
0001000c addi x10, x0, 0
00010010 addi x5, x0, 10
00010014 add x10, x10, x5
00010018 addi x5, x5, -1
0001001c bne x5, x0, -8
00010020 jal x0, 12
00010024 addi x10, x0, 55
00010028 addi x5, x0, 0
0001002c addi x17, x0, 2001
00010030 ecall
00010034 addi x17, x0, 93
00010038 ecall
";

#[test]
fn lists_and_packs_a_program(rt: HostRuntime) -> Result<(), Fail> {
    let alloc = rt.alloc();
    let image = small_image(alloc, &WORDS)?;
    let loaded = load(alloc, image.as_slice())?;
    let mut out = MemorySink::new(alloc, 1_024, Vec::new(alloc))?;
    assert_eq!(rt; write_listing(alloc, &loaded, &mut out), Ok(()));
    assert_eq!(rt; out.written(), LISTING.as_bytes());
    let packed = pack(alloc, TEXT.as_bytes())?;
    assert_eq!(rt; packed.as_slice(), image.as_slice());
    Ok(())
}

/// Where the words of the small image are loaded, these words, and the listing.
const IMAGES: [([u8; 4], [u32; 3], &str); 4] = [
    // The word 0 is left out.
    (
        [0, 0, 1, 0],
        [0x13, 0, 0x73],
        "00010000 addi x0, x0, 0\n00010008 ecall\n",
    ),
    // Data words count, and so do words over the end of a page.
    (
        [0xfc, 0x0f, 1, 0],
        [0x13, 0xffff_ffff, 0],
        "00010ffc addi x0, x0, 0\n00011000 word ffffffff\n",
    ),
    // The words at multiples of 4 count, wherever the segment begins.
    (
        [2, 0, 1, 0],
        [0x0073_0013, 0, 0x0013_0000],
        "00010000 word 00130000\n00010004 ecall\n0001000c addi x0, x0, 0\n",
    ),
    ([0, 0, 1, 0], [0, 0, 0], ""),
];

/// The small image of these words, with its segment at this address.
fn image_at(alloc: Global, address: &[u8; 4], words: &[u32; 3]) -> Result<Bytes, NoMemory> {
    let mut image = small_image(alloc, words)?;
    if image.len() >= 64 {
        image.overwrite(60, address);
    }
    Ok(image)
}

#[test]
fn lists_the_words_that_are_mapped(rt: HostRuntime) -> Result<(), Fail> {
    let alloc = rt.alloc();
    for (address, words, listing) in IMAGES {
        let image = image_at(alloc, &address, &words)?;
        let loaded = load(alloc, image.as_slice())?;
        let mut out = MemorySink::new(alloc, 1_024, Vec::new(alloc))?;
        assert_eq!(rt; write_listing(alloc, &loaded, &mut out), Ok(()));
        assert_eq!(rt; out.written(), listing.as_bytes());
    }
    Ok(())
}

#[test]
fn stops_where_the_sink_fails(rt: HostRuntime) -> Result<(), Fail> {
    let alloc = rt.alloc();
    let image = image_at(alloc, &[0xfc, 0x0f, 1, 0], &[0x73, 0x73, 0])?;
    let loaded = load(alloc, image.as_slice())?;
    // The room, the call of write that fails, and what is written.
    let rows: [(usize, u64, &[u8]); 3] = [
        (99, 0, b""),
        (99, 1, b"00010ffc ecall\n"),
        (20, 9, b"00010ffc ecall\n00011"),
    ];
    for (room, failing, want) in rows {
        let mut out = MemorySink::new(alloc, room, vec![in alloc; failing]?)?;
        let answer = write_listing(alloc, &loaded, &mut out);
        assert_eq!(rt; answer, Err(OutputFault::Write));
        assert_eq!(rt; out.written(), want);
    }
    Ok(())
}

/// Texts that are refused, and the line and the place of each.
const FAULTS: [(&[u8], u64, u64); 10] = [
    (b"ecall", 1, 5),
    (b"ecall\necal", 2, 4),
    (b"\n", 1, 0),
    (b"ecall\n\necall\n", 2, 0),
    (b"ecall\r\n", 1, 5),
    (b"ebreak\nbne x1, x2, \xc3\xa9\n", 2, 12),
    (b"ecall\xff\n", 1, 0),
    (b"ebreak\nadd x01\n", 2, 6),
    (b"addi x1, x2, 2048\n\xff", 1, 16),
    (b"ecall\n00010000 ecall\n", 2, 0),
];

#[test]
fn refuses_other_texts(rt: HostRuntime) -> Result<(), Fail> {
    for (text, line, place) in FAULTS {
        let fault = TextPlace { line, place };
        assert_eq!(rt; pack(rt.alloc(), text).err(), Some(PackFault::Text(fault)));
    }
    Ok(())
}

/// So many times this piece, and another behind them.
fn repeated(alloc: Global, piece: &[u8], count: usize, behind: &[u8]) -> Result<Vec<u8>, NoMemory> {
    let mut text = Vec::new(alloc);
    for _ in 0..count {
        text.extend_from_slice(piece)?;
    }
    text.extend_from_slice(behind)?;
    Ok(text)
}

#[test]
fn keeps_the_limits(rt: HostRuntime) -> Result<(), Fail> {
    let alloc = rt.alloc();
    // A piece, how often it stands there, what is behind it, and the fault.
    let rows: [(&[u8], usize, &[u8], Option<(u64, u64)>); 7] = [
        (b"", 0, b"", None),
        (b"ecall\n", MOST_LINES, b"", None),
        (b"ecall\n", MOST_LINES, b"ecall\n", Some((65_537, 0))),
        (b"ecall\n", MOST_LINES, b"\xff", Some((65_537, 0))),
        (b"ecall\n", MOST_LINES - 1, b"ecal", Some((65_536, 4))),
        (b"e", MOST_BYTES, b"", Some((1, 1))),
        (b"e", MOST_BYTES, b"e", Some((0, 0))),
    ];
    for (piece, count, behind, fault) in rows {
        let text = repeated(alloc, piece, count, behind)?;
        let want = fault.map(|(line, place)| PackFault::Text(TextPlace { line, place }));
        assert_eq!(rt; pack(alloc, text.as_slice()).err(), want);
    }
    Ok(())
}
