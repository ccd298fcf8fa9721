// Ranges of pages.
ghost use Rattle.std.specs.Prelude.{◌≡◌, ◌+◌};
ghost use Rattle.image.specs.Pages.{Covers, Covered, Outside, LowestOf};

// The pages from `first` on, `count` of them.
#[derive(Clone, Copy, PartialEq, Eq, Debug, Default)]
pub struct PageRange {
    pub first: u32,
    pub count: u32,
}

impl PageRange {
    // The page behind the last one.
    fn end(self) -> u64
        ensures { result ≡ self.first + self.count }
    {
        self.first as u64 + self.count as u64
    }

    // The lowest page of the range outside a window.
    fn outside(self, window: PageRange) -> Option<u64>
        ensures { LowestOf (λ p. Covers self p × Outside window.first window.count p) result }
    {
        if self.count == 0 {
            return None;
        }
        if self.first < window.first {
            return Some(self.first as u64);
        }
        if self.end() <= window.end() {
            return None;
        }
        Some(window.end().max(self.first as u64))
    }

    // The lowest page that the range shares with another.
    fn shared(self, other: PageRange) -> Option<u64>
        ensures { LowestOf (λ p. Covers self p × Covers other p) result }
    {
        let first = self.first.max(other.first) as u64;
        if first < self.end() && first < other.end() {
            Some(first)
        } else {
            None
        }
    }

    // The lowest page of the range that the ranges of a list cover too.
    fn within(self, ranges: &[PageRange]) -> Option<u64>
        ensures { LowestOf (λ p. Covers self p × Covered ranges.now p) result }
    {
        ranges.iter().filter_map(|other| other.shared(self)).min()
    }
}

// The lowest page of the ranges outside a window.
pub fn lowest_outside(ranges: &[PageRange], window: PageRange) -> Option<u64>
    ensures { LowestOf (λ p. Covered ranges.now p × Outside window.first window.count p) result }
{
    ranges
        .iter()
        .filter_map(|range| range.outside(window))
        .min()
}

// The lowest page that ranges of both lists cover.
pub fn lowest_shared(a: &[PageRange], b: &[PageRange]) -> Option<u64>
    ensures { LowestOf (λ p. Covered a.now p × Covered b.now p) result }
{
    a.iter().filter_map(|range| range.within(b)).min()
}
