ghost use Rattle.std.specs.Prelude.{◌≡◌, ◌+◌, ◌%◌, ◌^◌, ◌≤◌, [], length, IfOk};
ghost use Rattle.paged_image.specs.Image.{content, written_of};
ghost use Rattle.page_compare.specs.Comparison.{SameShape, AgreeOutside};

use super::differing_runs;
use crate::run::{Run, Runs};
use basic_types::{Bytes, NoMemory};
use guest_model::{Area, Memory, StoreFault};
use paged_image::PagedImage;
use std::alloc::Global;
use std::test::Fail;

/// Two pages with nothing mapped beside them.
const BASE: u32 = 0x1_0000;

/// The last two pages of the address space.
const TOP: u32 = 0xFFFF_E000;

fn zeros(alloc: Global, n: usize) -> Result<Bytes, NoMemory>
    ensures { IfOk result (λ bytes. length bytes ≡ n) }
{
    let bytes = Vec::from_elem(alloc, 0, n)?;
    Ok(Bytes::from_vec(bytes))
}

/// Four pages: two from `BASE` and two from `TOP` on.
fn four_pages(alloc: Global) -> Result<PagedImage, NoMemory>
    ensures { IfOk result (λ t. written_of t ≡ []) }
{
    let mut areas = Vec::new(alloc);
    areas.push(Area {
        base: BASE,
        bytes: zeros(alloc, 8192)?,
    })?;
    areas.push(Area {
        base: TOP,
        bytes: zeros(alloc, 8192)?,
    })?;
    let image = PagedImage::from_areas(alloc, &areas)?;
    Ok(image)
}

/// Two images that began as one.
#[derive(Drop)]
struct Two {
    left: PagedImage,
    right: PagedImage,
    ghost shape: { SameShape (content left) (content right) },
    ghost outside: { AgreeOutside (written_of left) (written_of right) (content left) (content right) },
}

impl Two {
    fn new(alloc: Global) -> Result<Two, NoMemory> {
        let mut left = four_pages(alloc)?;
        let right = left.snapshot()?;
        Ok(Two { left, right })
    }

    fn store_left(&mut self, at: u32, value: u8) -> Result<(), StoreFault> {
        self.left.store8(at, value)
    }

    fn store_right(&mut self, at: u32, value: u8) -> Result<(), StoreFault> {
        self.right.store8(at, value)
    }

    fn runs(&self, alloc: Global, most: usize) -> Result<Runs, NoMemory> {
        differing_runs(alloc, &self.left, &self.right, most)
    }
}

/// Bytes that are stored one by one.
struct Stored {
    from: u32,
    bytes: &'static [u8],
}

struct WantedRun {
    address: u32,
    length: u64,
    left: &'static [u8],
    right: &'static [u8],
}

struct Row {
    left: &'static [Stored],
    right: &'static [Stored],
    runs: &'static [WantedRun],
    more: u64,
}

/// Of each row two runs are kept.
const MOST: usize = 2;

const ROWS: [Row; 8] = [
    // neither writes
    Row {
        left: &[],
        right: &[],
        runs: &[],
        more: 0,
    },
    // one byte
    Row {
        left: &[Stored {
            from: 0x1_0005,
            bytes: &[7],
        }],
        right: &[],
        runs: &[WantedRun {
            address: 0x1_0005,
            length: 1,
            left: &[7],
            right: &[0],
        }],
        more: 0,
    },
    // over the edge of two pages, of which each image wrote one
    Row {
        left: &[Stored {
            from: 0x1_0FFE,
            bytes: &[1, 2],
        }],
        right: &[Stored {
            from: 0x1_1000,
            bytes: &[3],
        }],
        runs: &[WantedRun {
            address: 0x1_0FFE,
            length: 3,
            left: &[1, 2, 0],
            right: &[0, 0, 3],
        }],
        more: 0,
    },
    // an equal byte parts two runs
    Row {
        left: &[Stored {
            from: 0x1_0000,
            bytes: &[1, 9, 3],
        }],
        right: &[Stored {
            from: 0x1_0001,
            bytes: &[9],
        }],
        runs: &[
            WantedRun {
                address: 0x1_0000,
                length: 1,
                left: &[1],
                right: &[0],
            },
            WantedRun {
                address: 0x1_0002,
                length: 1,
                left: &[3],
                right: &[0],
            },
        ],
        more: 0,
    },
    // the last byte of the address space, with unmapped addresses before its area
    Row {
        left: &[
            Stored {
                from: 0x1_1FFF,
                bytes: &[4],
            },
            Stored {
                from: 0xFFFF_E000,
                bytes: &[5],
            },
        ],
        right: &[Stored {
            from: 0xFFFF_FFFF,
            bytes: &[6],
        }],
        runs: &[
            WantedRun {
                address: 0x1_1FFF,
                length: 1,
                left: &[4],
                right: &[0],
            },
            WantedRun {
                address: 0xFFFF_E000,
                length: 1,
                left: &[5],
                right: &[0],
            },
        ],
        more: 1,
    },
    Row {
        left: &[],
        right: &[Stored {
            from: 0xFFFF_FFFE,
            bytes: &[5, 6],
        }],
        runs: &[WantedRun {
            address: 0xFFFF_FFFE,
            length: 2,
            left: &[0, 0],
            right: &[5, 6],
        }],
        more: 0,
    },
    // bytes written with the value that they had
    Row {
        left: &[Stored {
            from: 0x1_0010,
            bytes: &[0, 0],
        }],
        right: &[],
        runs: &[],
        more: 0,
    },
    // the first sixteen bytes of seventeen
    Row {
        left: &[Stored {
            from: 0x1_0020,
            bytes: &[1, 2, 3, 4, 5, 6, 7, 8, 9, 10, 11, 12, 13, 14, 15, 16, 17],
        }],
        right: &[],
        runs: &[WantedRun {
            address: 0x1_0020,
            length: 17,
            left: &[1, 2, 3, 4, 5, 6, 7, 8, 9, 10, 11, 12, 13, 14, 15, 16],
            right: &[0, 0, 0, 0, 0, 0, 0, 0, 0, 0, 0, 0, 0, 0, 0, 0],
        }],
        more: 0,
    },
];

fn is_wanted(run: &Run, wanted: &WantedRun) -> bool {
    run.address == wanted.address
        && run.length == wanted.length
        && run.left.as_slice() == wanted.left
        && run.right.as_slice() == wanted.right
}

fn store_all(two: &mut Two, row: &Row) -> Result<(), StoreFault> {
    for stored in row.left {
        let mut at = stored.from;
        for value in stored.bytes {
            two.store_left(at, *value)?;
            at = at.wrapping_add(1);
        }
    }
    for stored in row.right {
        let mut at = stored.from;
        for value in stored.bytes {
            two.store_right(at, *value)?;
            at = at.wrapping_add(1);
        }
    }
    Ok(())
}

#[test]
fn finds_runs(rt: HostRuntime) -> Result<(), Fail> {
    for row in &ROWS {
        let mut two = Two::new(rt.alloc())?;
        assert_eq!(rt; store_all(&mut two, row), Ok(()));
        let found = two.runs(rt.alloc(), MOST)?;
        assert_eq!(rt; (found.runs.len(), found.more), (row.runs.len(), row.more));
        for (run, wanted) in found.runs.iter().zip(row.runs.iter()) {
            assert!(rt; is_wanted(run, wanted), "{run:?}");
        }
    }
    Ok(())
}

#[test]
fn keeps_the_first_of_many(rt: HostRuntime) -> Result<(), Fail> {
    let mut two = Two::new(rt.alloc())?;
    for k in 0..200u32 {
        assert_eq!(rt; two.store_right(BASE + k * 3, 1), Ok(()));
    }
    let found = two.runs(rt.alloc(), 32)?;
    assert_eq!(rt; (found.runs.len(), found.more), (32, 168));
    assert_eq!(rt; found.runs.last().map(|run| run.address), Some(BASE + 93));
    let none_kept = two.runs(rt.alloc(), 0)?;
    assert_eq!(rt; (none_kept.runs.len(), none_kept.more), (0, 200));
    Ok(())
}
