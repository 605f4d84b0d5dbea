ghost use Rattle.std.specs.Prelude.{◌≡◌, ◌+◌, ◌%◌, ◌^◌, ◌<◌, ◌≤◌, length, IfOk};

use super::PagedImage;
use crate::commands::{Command, Data, run_commands};
use basic_types::{Bytes, NoMemory};
use guest_model::{Area, Memory, StoreFault};
use std::alloc::Global;
use std::test::Fail;

const STACK_TOP_PAGE: u32 = 0x7FFF_F000;

fn zeros(alloc: Global, n: usize) -> Result<Vec<u8>, NoMemory>
    ensures { IfOk result (λ bytes. length bytes.items ≡ n) }
{
    let bytes = Vec::from_elem(alloc, 0, n)?;
    Ok(bytes)
}

/// An image of one area of zeros.
fn zero_image(alloc: Global, base: u32, n: usize) -> Result<PagedImage, NoMemory>
    requires base { base % 4096 ≡ 0 }
    requires length { n % 4096 ≡ 0 }
    requires within { base + n ≤ 2 ^ 32 }
{
    let mut areas = Vec::new(alloc);
    areas.push(Area {
        base,
        bytes: Bytes::from_vec(zeros(alloc, n)?),
    })?;
    PagedImage::from_areas(alloc, &areas)
}

#[test]
fn a_store_after_a_snapshot_is_seen_in_one_image(rt: HostRuntime) -> Result<(), Fail> {
    let mut image = zero_image(rt.alloc(), STACK_TOP_PAGE, 4096)?;
    assert_eq!(rt; image.owned(), 0);
    assert_eq!(rt; image.store8(STACK_TOP_PAGE, 0xAB), Ok(()));
    assert_eq!(rt; image.owned(), 1);
    let mut taken = image.snapshot()?;
    assert_eq!(rt; image.written().as_slice(), [].as_slice());
    assert_eq!(rt; taken.written().as_slice(), [0x7FFFF].as_slice());
    assert_eq!(rt; image.store8(STACK_TOP_PAGE, 0xCD), Ok(()));
    assert_eq!(rt;
        (taken.load8(STACK_TOP_PAGE), taken.owned()),
        (Some(0xAB), 0)
    );
    assert_eq!(rt;
        (image.load8(STACK_TOP_PAGE), image.owned()),
        (Some(0xCD), 1)
    );
    assert_eq!(rt; image.written().as_slice(), [0x7FFFF].as_slice());
    assert_eq!(rt; taken.copy_in(STACK_TOP_PAGE, b""), Ok(()));
    assert_eq!(rt; taken.owned(), 0);
    Ok(())
}

#[test]
fn pages_of_zeros_beside_another(rt: HostRuntime) -> Result<(), Fail> {
    let mut bytes = zeros(rt.alloc(), 12288)?;
    bytes[4096] = 7;
    let mut areas = Vec::new(rt.alloc());
    areas.push(Area {
        base: 0x10000,
        bytes: Bytes::from_vec(bytes),
    })?;
    let mut image = PagedImage::from_areas(rt.alloc(), &areas)?;
    assert_eq!(rt;
        (image.load32(0x10FFE), image.owned()),
        (Some(0x0007_0000), 0)
    );
    let taken = image.snapshot()?;
    assert_eq!(rt; image.store16(0x11FFF, 0x0908), Ok(()));
    assert_eq!(rt; image.load32(0x11FFE), Some(0x0009_0800));
    assert_eq!(rt;
        (taken.load32(0x11FFE), taken.load8(0x11000)),
        (Some(0), Some(7))
    );
    assert_eq!(rt; (image.owned(), taken.owned()), (2, 0));
    assert_eq!(rt; (image.load8(0x13000), image.load8(0xFFFF)), (None, None));
    Ok(())
}

#[test]
fn ranges_over_edges(rt: HostRuntime) -> Result<(), Fail> {
    // two pages at each end of the address space
    for base in [0, 0xFFFF_E000] {
        let mut image = two_pages(rt.alloc(), base)?;
        let edge = base + 0xFFE;
        assert_eq!(rt; image.store32(edge, 0x4433_2211), Ok(()));
        assert_eq!(rt; image.load32(edge), Some(0x4433_2211), "at {base}");
        assert_eq!(rt; image.load16(edge + 1), Some(0x3322));
        assert_eq!(rt; image.load8(edge + 2), Some(0x33));
        assert_eq!(rt; image.owned(), 2);
        assert_eq!(rt; image.store16(base + 0xFFF, 0xBEEF), Ok(()));
        let mut into = [0; 6];
        assert!(rt; image.copy_out(base + 0xFFD, &mut into));
        assert_eq!(rt; into, [0, 0x11, 0xEF, 0xBE, 0x44, 0]);
        assert!(rt; image.mapped(base, 8192));
        assert!(rt; image.page(base / 4096).is_some());
        // past the last page: at 8,192, or at 2^32
        let last = base + 0x1FFF;
        assert_eq!(rt;
            (
                image.load8(last),
                image.load16(last),
                image.load32(last - 2)
            ),
            (Some(0), None, None)
        );
        assert_eq!(rt; image.store32(last - 2, 1), Err(StoreFault::Unmapped));
        assert_eq!(rt; image.copy_in(last, b"ab"), Err(StoreFault::Unmapped));
        assert!(rt; !image.copy_out(last, &mut into));
        assert!(rt; !image.mapped(base + 1, 8192));
    }
    Ok(())
}

fn two_pages(alloc: Global, base: u32) -> Result<PagedImage, NoMemory> {
    if base == 0 {
        zero_image(alloc, 0, 8192)
    } else {
        zero_image(alloc, 0xFFFF_E000, 8192)
    }
}

#[test]
fn commands_are_carried_out_in_order(rt: HostRuntime) -> Result<(), Fail> {
    let alloc = rt.alloc();
    let mut block = Bytes::new(alloc);
    block.append(b"xyz")?;
    let commands = [
        Command::Store {
            image: 0,
            at: 0x1FFE,
            data: Data::Word(0x6463_6261),
        },
        Command::Snapshot { image: 0 },
        Command::Store {
            image: 1,
            at: 0x1FFF,
            data: Data::Half(0x3130),
        },
        Command::Store {
            image: 0,
            at: 0x1FFD,
            data: Data::Block(block),
        },
        Command::Store {
            image: 0,
            at: 0x3000,
            data: Data::Byte(b'?'),
        },
        Command::Store {
            image: 2,
            at: 0x1FFE,
            data: Data::Byte(b'?'),
        },
    ];
    let mut images = Vec::new(alloc);
    images.push(zero_image(alloc, 0x1000, 8192)?)?;
    assert_eq!(rt; run_commands(&mut images, &commands), Ok(()));
    assert_eq!(rt; images.len(), 2);
    let mut into = [0; 5];
    for (image, want) in images.iter().zip([b"xyzcd", b"\0a01d"].iter()) {
        assert!(rt; image.copy_out(0x1FFD, &mut into));
        assert_eq!(rt; into, **want);
    }
    Ok(())
}

/// Pseudorandom numbers (xorshift).
#[derive(Drop)]
struct Random(u64);

impl Random {
    fn below(&mut self, n: u32) -> u32
        requires { 0 < n }
        ensures { result < n }
    {
        self.0 ^= self.0 << 13;
        self.0 ^= self.0 >> 7;
        self.0 ^= self.0 << 17;
        (self.0 % n as u64) as u32
    }
}

const BASE: u32 = 0x1_0000;

const SIZE: u32 = 0x4000;

/// An image from `BASE` on, and the bytes that it is to have.
#[derive(Drop)]
struct Pair {
    image: PagedImage,
    plain: Vec<u8>,
}

impl Pair {
    fn copied(&mut self) -> Result<Pair, Fail> {
        Ok(Pair {
            image: self.image.snapshot()?,
            plain: self.plain.clone()?,
        })
    }

    /// The same store in both; whether both took it or both refused it.
    fn agree_on(&mut self, taken: Result<(), StoreFault>, offset: u32, from: &[u8]) -> bool {
        let offset = offset as usize;
        if offset > self.plain.len() {
            return taken == Err(StoreFault::Unmapped);
        }
        if from.len() > self.plain.len() - offset {
            return taken == Err(StoreFault::Unmapped);
        }
        self.plain[offset..offset + from.len()].copy_from_slice(from);
        taken == Ok(())
    }

    fn turn(&mut self, random: &mut Random, block: &[u8]) -> bool {
        let offset = random.below(SIZE + 4);
        let at = BASE + offset;
        let word = random.below(u32::MAX);
        let half = (word % 65536) as u16;
        let byte = (word % 256) as u8;
        match random.below(8) {
            0 => {
                let taken = self.image.store8(at, byte);
                self.agree_on(taken, offset, &[byte])
            }
            1 => {
                let taken = self.image.store16(at, half);
                self.agree_on(taken, offset, &half.to_le_bytes())
            }
            2 | 3 => {
                let taken = self.image.store32(at, word);
                self.agree_on(taken, offset, &word.to_le_bytes())
            }
            4 => {
                let part = &block[..random.below(10_000) as usize % (block.len() + 1)];
                let taken = self.image.copy_in(at, part);
                self.agree_on(taken, offset, part)
            }
            5 => self.image.load8(at) == self.plain.get(offset as usize).copied(),
            6 => self.image.load16(at)
                == plain_load(&self.plain, offset, 2).map(|word| (word % 65536) as u16),
            _ => self.image.load32(at) == plain_load(&self.plain, offset, 4),
        }
    }
}

/// The little-endian number of the `n` bytes at `offset`.
fn plain_load(plain: &[u8], offset: u32, n: usize) -> Option<u32> {
    let mut word = 0u32;
    for k in 0..n {
        let byte = *plain.get((offset as usize).saturating_add(n - 1 - k))?;
        word = word.wrapping_mul(256).wrapping_add(byte as u32);
    }
    Some(word)
}

#[test]
fn random_calls_agree_with_plain_bytes(rt: HostRuntime) -> Result<(), Fail> {
    let alloc = rt.alloc();
    let mut random = Random(0x9E37_79B9_7F4A_7C15);
    let mut block = Vec::new(alloc);
    for k in 0..9_000u32 {
        block.push((k * 7 % 251) as u8)?;
    }
    let mut pairs = Vec::new(alloc);
    pairs.push(Pair {
        image: zero_image(alloc, BASE, 0x4000)?,
        plain: zeros(alloc, 0x4000)?,
    })?;
    for call in 0..10_000 {
        let Some(pair) = pairs.get_mut(random.below(6) as usize) else {
            continue;
        };
        assert!(rt; pair.turn(&mut random, &block), "at call {call}");
        if random.below(50) == 0 {
            let copy = pair.copied()?;
            pairs.push(copy)?;
            if pairs.len() > 6 {
                pairs.swap_remove(random.below(7) as usize);
            }
        }
    }
    let mut into = zeros(alloc, 0x4000)?;
    for pair in &pairs {
        assert!(rt; pair.image.copy_out(BASE, &mut into));
        assert!(rt; into.as_slice() == pair.plain.as_slice());
    }
    Ok(())
}
