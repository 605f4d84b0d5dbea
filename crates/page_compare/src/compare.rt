ghost use Rattle.std.specs.Prelude.{◌≡◌, ℕ, ◌+◌, ◌-◌, ◌*◌, ◌^◌, ◌<◌, ◌≤◌, ◌↔◌, ◌≢◌, None, length, slice_index, IfSome, IfNone};
ghost use Rattle.guest_model.specs.Difference.{byte_difference};
ghost use Rattle.paged_image.specs.Image.{content, written_of};
ghost use Rattle.page_compare.specs.Comparison.{SameShape, AgreeOutside, SamePage, DiffersFirst, in_either, IsNextPage, PassesPage};

use basic_types::Steps;
use guest_model::PAGE_SIZE;
use paged_image::PagedImage;

#[cfg(test)]
mod tests;

/// The lowest address at which the images' bytes differ, None exactly where their contents are the same.
///
/// Both have the same pages, and outside of both write sets their bytes are the same. One step is counted for each page
/// that is compared; at most those of either write set are.
pub fn first_difference<L>(a: &PagedImage, b: &PagedImage, steps: &mut Steps<L>) -> Option<u32>
    requires shape { SameShape (content a.now) (content b.now) }
    requires outside { AgreeOutside (written_of a.now) (written_of b.now) (content a.now) (content b.now) }
    requires room { steps.old + in_either (written_of a.now) (written_of b.now) < 2 ^ 64 }
    ensures lowest { result ≡ byte_difference (content a.now) (content b.now) }
    ensures none { (result ≡ None) ↔ (content a.now ≡ content b.now) }
    ensures steps { steps.new ≤ steps.old + in_either (written_of a.now) (written_of b.now) }
{
    let us = a.written().as_slice();
    let ws = b.written().as_slice();
    let mut i = 0;
    let mut j = 0;
    while let Some(page) = next_page(us, i, ws, j) {
        if let Some(q) = page_difference(a, b, page, steps) {
            return Some(q);
        }
        i = past_page(us, i, page);
        j = past_page(ws, j, page);
    }
    None
}

/// The lesser of the next pages of both lists, None at the end of both.
pub fn next_page(us: &[u32], i: usize, ws: &[u32], j: usize) -> Option<u32>
    ensures none { IfNone result ((length us.now ≤ i) × (length ws.now ≤ j)) }
    ensures some { IfSome result (IsNextPage us.now i ws.now j) }
{
    match (us.get(i), ws.get(j)) {
        (Some(u), Some(w)) => Some((*u).min(*w)),
        (Some(u), None) => Some(*u),
        (None, Some(w)) => Some(*w),
        (None, None) => None,
    }
}

/// The place after `i` where this page stands at `i`, else `i`.
pub fn past_page(pages: &[u32], i: usize, page: u32) -> usize
    ensures { PassesPage pages.now i page result }
{
    if i < pages.len() && pages[i] == page {
        i + 1
    } else {
        i
    }
}

/// Compares one page, which is one step. Only pages that one of the images has are compared.
fn page_difference<L>(
    a: &PagedImage,
    b: &PagedImage,
    page: u32,
    steps: &mut Steps<L>,
) -> Option<u32>
    requires shape { SameShape (content a.now) (content b.now) }
    requires room { steps.old < 2 ^ 64 - 1 }
    ensures step { steps.new ≡ steps.old + 1 }
    ensures none { IfNone result (SamePage (content a.now) (content b.now) page) }
    ensures some { IfSome result (λ q. DiffersFirst (content a.now) (content b.now) page q) }
{
    steps.tick();
    let Some(x) = a.page(page) else {
        return None;
    };
    let Some(y) = b.page(page) else {
        return None;
    };
    let k = first_mismatch(x, y)?;
    Some(page * PAGE_SIZE + k as u32)
}

/// The first index at which the two differ.
fn first_mismatch(x: &[u8], y: &[u8]) -> Option<usize>
    requires { length x.now ≡ length y.now }
    ensures none { IfNone result (x.now ≡ y.now) }
    ensures some { IfSome result (λ k. (k < length x.now) × (slice_index x.now k ≢ slice_index y.now k) × ((i : ℕ) → i < k → slice_index x.now i ≡ slice_index y.now i)) }
{
    if x == y {
        return None;
    }
    for k in 0..x.len() {
        if x[k] != y[k] {
            return Some(k);
        }
    }
    None
}
