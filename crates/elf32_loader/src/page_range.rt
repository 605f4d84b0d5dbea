//! Ranges of pages.

/// The pages from `first` up to `end`.
#[derive(Clone, Copy, Debug, PartialEq, Eq)]
pub struct PageRange {
    pub first: u32,
    pub end: u32,
}

impl PageRange {
    ghost use Rattle.std.specs.Prelude.{◌≡◌, ℕ, ◌<◌, ◌≤◌, ◌||◌, IfSome, IfNone};
    ghost use Rattle.elf32_loader.specs.PageRanges.{in_range, IsPageRange, IsBefore};

    /// The range of the pages of both, where the other one begins in this one or right behind it.
    pub fn joined(self, other: PageRange) -> Option<PageRange>
        requires this { IsPageRange self }
        requires that { IsPageRange other }
        requires order { self.first ≤ other.first }
        ensures pages { IfSome result (λ r. (p : ℕ) → in_range p r ≡ (in_range p self || in_range p other)) }
        ensures first { IfSome result (λ r. r.first ≡ self.first) }
        ensures range { IfSome result IsPageRange }
        ensures apart { IfNone result (IsBefore self other) }
    {
        if other.first <= self.end {
            Some(PageRange {
                first: self.first,
                end: self.end.max(other.end),
            })
        } else {
            None
        }
    }
}
