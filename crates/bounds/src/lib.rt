// Ranges of numbers, as the Rust's `CondBounds`: an end cut at a largest number, emptiness, intersection; and the first and the last number of a range.
#![tactic(auto)]

ghost use Rattle.std.specs.Prelude.{◌≡◌};
ghost use Rattle.answer.specs.Paper.{says};
ghost use Rattle.bounds.specs.Bounds.{from_start, to_end, last_of, clipped_end, clipped, is_excluded, empty_from, is_empty, starts_later, number_up_to, ends_earlier, intersection, first_last};

use answer::{BoundFault, Refusal, refuse};
use std::ops::Bound;

// Where a range starts and where it ends: nowhere, with a number, or just past a start and just before an end.
// No `Debug`, which std's `Bound` lacks.
#[derive(Clone, Copy, PartialEq, Eq)]
pub struct CondBounds {
    pub start: Bound<u64>,
    pub end: Bound<u64>,
}

// The end cut at a largest number.
fn clip(end: Bound<u64>, most: u64) -> Bound<u64>
    ensures { result ≡ clipped_end end most }
{
    match end {
        Bound::Unbounded => Bound::Included(most),
        Bound::Included(e) => Bound::Included(e.min(most)),
        // An excluded end may stand one past it.
        Bound::Excluded(e) if e.saturating_sub(1) <= most => Bound::Excluded(e),
        Bound::Excluded(_) => Bound::Included(most),
    }
}

// ---- which numbers lie in a range

fn from_start(start: Bound<u64>, n: u64) -> bool
    ensures { result ≡ from_start start n }
{
    match start {
        Bound::Unbounded => true,
        Bound::Included(a) => a <= n,
        Bound::Excluded(a) => a < n,
    }
}

fn to_end(end: Bound<u64>, n: u64) -> bool
    ensures { result ≡ to_end end n }
{
    match end {
        Bound::Unbounded => true,
        Bound::Included(e) => n <= e,
        Bound::Excluded(e) => n < e,
    }
}

fn last(end: Bound<u64>) -> u64
    ensures { result ≡ last_of end }
{
    match end {
        Bound::Unbounded => u64::MAX,
        Bound::Included(e) => e,
        Bound::Excluded(e) => e.saturating_sub(1),
    }
}

// ---- emptiness and intersection

fn is_excluded(start: Bound<u64>) -> bool
    ensures { result ≡ is_excluded start }
{
    matches!(start, Bound::Excluded(_))
}

fn empty_from(first: u64, end: Bound<u64>) -> bool
    ensures { result ≡ empty_from first end }
{
    match end {
        Bound::Unbounded => u64::MAX <= first,
        Bound::Included(e) => e < first,
        Bound::Excluded(e) => e <= first,
    }
}

// Of two starts the later one.
fn starts_later(a: Bound<u64>, b: Bound<u64>) -> bool
    ensures { result ≡ starts_later a b }
{
    match a {
        Bound::Unbounded => false,
        Bound::Included(n) => from_start(b, n),
        Bound::Excluded(_) => true,
    }
}

// Whether a number is at most that of an end, of either kind.
fn number_up_to(n: u64, end: Bound<u64>) -> bool
    ensures { result ≡ number_up_to n end }
{
    match end {
        Bound::Unbounded => true,
        Bound::Included(e) | Bound::Excluded(e) => n <= e,
    }
}

// Of two ends the earlier one.
fn ends_earlier(a: Bound<u64>, b: Bound<u64>) -> bool
    ensures { result ≡ ends_earlier a b }
{
    match a {
        Bound::Unbounded => false,
        Bound::Included(e) => to_end(b, e),
        Bound::Excluded(e) => number_up_to(e, b),
    }
}

impl CondBounds {
    // The range with its end cut at a largest number.
    pub fn update_end(self, most: u64) -> CondBounds
        ensures { result ≡ clipped self most }
    {
        CondBounds {
            start: self.start,
            end: clip(self.end, most),
        }
    }

    // Whether the range counts as empty; bound 1 for an excluded start.
    #[tactic(auto, unfolding(crate::specs::Bounds::is_empty))]
    pub fn is_empty(self) -> Result<bool, Refusal>
        ensures { says result ≡ is_empty self }
    {
        let first = match self.start {
            Bound::Unbounded => 0,
            Bound::Included(a) => a,
            Bound::Excluded(_) => return Err(Refusal::Bound(BoundFault::StartExcluded)),
        };
        Ok(empty_from(first, self.end))
    }

    // What two ranges have in common; bound 1 where either start is excluded.
    #[tactic(auto, unfolding(crate::specs::Bounds::intersection))]
    pub fn intersect(self, other: CondBounds) -> Result<CondBounds, Refusal>
        ensures { says result ≡ intersection self other }
    {
        let excluded = is_excluded(self.start) || is_excluded(other.start);
        refuse(excluded, Refusal::Bound(BoundFault::StartExcluded))?;
        Ok(CondBounds {
            start: if starts_later(self.start, other.start) {
                self.start
            } else {
                other.start
            },
            end: if ends_earlier(self.end, other.end) {
                self.end
            } else {
                other.end
            },
        })
    }

    // The first and the last number that lie in the range.
    pub fn first_last(self) -> Option<(u64, u64)>
        ensures { result ≡ first_last self }
    {
        let first = match self.start {
            Bound::Unbounded => 0,
            Bound::Included(a) => a,
            Bound::Excluded(a) => a.checked_add(1)?,
        };
        to_end(self.end, first).then_some((first, last(self.end)))
    }
}
