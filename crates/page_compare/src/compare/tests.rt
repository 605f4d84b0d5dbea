ghost use Rattle.std.specs.Prelude.{◌≡◌, [], length, IfOk};
ghost use Rattle.paged_image.specs.Image.{content, written_of};
ghost use Rattle.page_compare.specs.Comparison.{SameShape, AgreeOutside};

use super::first_difference;
use basic_types::{Bytes, NoMemory, Steps};
use guest_model::{Area, Memory, StoreFault};
use paged_image::PagedImage;
use std::alloc::Global;
use std::test::Fail;

fn zeros(alloc: Global, n: usize) -> Result<Bytes, NoMemory>
    ensures { IfOk result (λ bytes. length bytes ≡ n) }
{
    let bytes = Vec::from_elem(alloc, 0, n)?;
    Ok(Bytes::from_vec(bytes))
}

/// The two topmost pages of the stack.
fn stack(alloc: Global) -> Result<PagedImage, NoMemory>
    ensures { IfOk result (λ t. written_of t ≡ []) }
{
    let mut areas = Vec::new(alloc);
    areas.push(Area {
        base: 0x7FFF_E000,
        bytes: zeros(alloc, 8192)?,
    })?;
    let stack = PagedImage::from_areas(alloc, &areas)?;
    Ok(stack)
}

/// Two images that began as one.
#[derive(Drop)]
struct Two {
    left: PagedImage,
    right: PagedImage,
    ghost shape: { SameShape (content left) (content right) },
    ghost outside: { AgreeOutside (written_of left) (written_of right) (content left) (content right) },
}

impl Two {
    fn new(alloc: Global) -> Result<Two, NoMemory> {
        let mut left = stack(alloc)?;
        let right = left.snapshot()?;
        Ok(Two { left, right })
    }

    fn store_left(&mut self, at: u32, value: u8) -> Result<(), StoreFault> {
        self.left.store8(at, value)
    }

    fn store_right(&mut self, at: u32, value: u8) -> Result<(), StoreFault> {
        self.right.store8(at, value)
    }

    fn difference(&self) -> (Option<u32>, u64) {
        let _left = self.left.written().as_slice();
        let _right = self.right.written().as_slice();
        let mut steps = Steps::<Two>::new();
        let difference = first_difference(&self.left, &self.right, &mut steps);
        (difference, steps.count())
    }
}

/// The stores into each of the two, the difference, and the pages that were compared.
struct Row {
    left: &'static [(u32, u8)],
    right: &'static [(u32, u8)],
    difference: Option<u32>,
    steps: u64,
}

const ROWS: [Row; 7] = [
    // neither writes, as two versions of a region that work in registers alone
    Row {
        left: &[],
        right: &[],
        difference: None,
        steps: 0,
    },
    // one byte that only one version writes, and one written with the value that it had
    Row {
        left: &[],
        right: &[(0x7FFF_FEFF, 0xD1)],
        difference: Some(0x7FFF_FEFF),
        steps: 1,
    },
    Row {
        left: &[(0x7FFF_FEFF, 0)],
        right: &[],
        difference: None,
        steps: 1,
    },
    // a page that both wrote is compared once
    Row {
        left: &[(0x7FFF_F000, 1)],
        right: &[(0x7FFF_F000, 1)],
        difference: None,
        steps: 1,
    },
    Row {
        left: &[(0x7FFF_F000, 0xCD)],
        right: &[(0x7FFF_F000, 0xAB)],
        difference: Some(0x7FFF_F000),
        steps: 1,
    },
    // the lower page comes first, whichever wrote it
    Row {
        left: &[(0x7FFF_F004, 1)],
        right: &[(0x7FFF_EFFF, 1)],
        difference: Some(0x7FFF_EFFF),
        steps: 1,
    },
    Row {
        left: &[(0x7FFF_E000, 1)],
        right: &[(0x7FFF_E000, 1), (0x7FFF_F007, 2)],
        difference: Some(0x7FFF_F007),
        steps: 2,
    },
];

#[test]
fn compares_written_pages(rt: HostRuntime) -> Result<(), Fail> {
    for row in &ROWS {
        let mut two = Two::new(rt.alloc())?;
        for (at, value) in row.left {
            assert_eq!(rt; two.store_left(*at, *value), Ok(()));
        }
        for (at, value) in row.right {
            assert_eq!(rt; two.store_right(*at, *value), Ok(()));
        }
        assert_eq!(rt; two.difference(), (row.difference, row.steps));
    }
    Ok(())
}
