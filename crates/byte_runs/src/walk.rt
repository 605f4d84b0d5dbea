//! The walk over the pages that either image wrote.

ghost use Rattle.std.specs.Prelude.{IfOk};
ghost use Rattle.paged_image.specs.Image.{content, written_of};
ghost use Rattle.page_compare.specs.Comparison.{SameShape, AgreeOutside};
ghost use Rattle.byte_runs.specs.Runs.{IsRunsOf};

use crate::collector::Collector;
use crate::run::Runs;
use basic_types::NoMemory;
use page_compare::{next_page, past_page};
use paged_image::PagedImage;
use std::alloc::Global;

#[cfg(test)]
mod tests;

/// The runs of bytes that differ in the two images, of which the first `most` are kept and the others counted.
///
/// Both have the same pages, and outside of both write sets their bytes are the same. Only written pages are read.
///
/// # Errors
/// `NoMemory` where there is no room for the result.
pub fn differing_runs(
    alloc: Global,
    a: &PagedImage,
    b: &PagedImage,
    most: usize,
) -> Result<Runs, NoMemory>
    requires shape { SameShape (content a.now) (content b.now) }
    requires outside { AgreeOutside (written_of a.now) (written_of b.now) (content a.now) (content b.now) }
    ensures { IfOk result (IsRunsOf (content a.now) (content b.now) most) }
{
    let us = a.written().as_slice();
    let ws = b.written().as_slice();
    let mut found = Collector::new(alloc, most);
    let mut i = 0;
    let mut j = 0;
    while let Some(page) = next_page(us, i, ws, j) {
        found.add_page(a, b, page)?;
        i = past_page(us, i, page);
        j = past_page(ws, j, page);
    }
    Ok(found.into_runs())
}
