//! The rectangles of bands that share a point with another one, found by halving.
ghost use Rattle.std.specs.Prelude.{◌≡◌, ℕ, ℤ, ◌<◌, ◌≤◌, IsTrue, length, slice_index_or, take, true};
ghost use Rattle.sf_base.specs.Geometry.{covers};
ghost use Rattle.sf_base.specs.declared.geometry.Rect.{Rect as RectValue};
ghost use Rattle.sf_region.specs.inner.Bands.{EndsBefore};
ghost use Rattle.sf_region.specs.Canonical.{IsBanded};
ghost use Rattle.sf_region.specs.Points.{IsInBounds, has};

use crate::edges::{bottom_of, span_of, top_of};
use crate::spans::PAST_ALL;
use sf_base::Rect;

/// Whether a rectangle ends above a row, or at that row and no further right than a column.
fn ends_before(rect: &Rect, low: u32, column: u32) -> bool
    requires { IsInBounds rect.now }
    ensures { IsTrue result → EndsBefore low column rect.now }
{
    let bottom = bottom_of(rect);
    if bottom == low {
        span_of(rect).end <= column
    } else {
        bottom < low
    }
}

/// The index of the first rectangle, from one on, that does not end there: those before it end earlier.
fn past(rects: &[Rect], from: usize, low: u32, column: u32) -> usize
    requires banded { IsBanded rects.now }
    requires within { from ≤ length rects.now }
    ensures from { from ≤ result }
    ensures within { result ≤ length rects.now }
    ensures before { (k : ℕ) (d : RectValue) → from ≤ k → k < result → EndsBefore low column (slice_index_or rects.now k d) }
{
    let (mut first, mut last) = (from, rects.len());
    while first < last {
        let middle = first + (last - first) / 2;
        if ends_before(&rects[middle], low, column) {
            first = middle + 1;
        } else {
            last = middle;
        }
    }
    first
}

/// The index of a rectangle where it shares a point with another one, and else a later index: none of
/// the rectangles between shares a point with that one.
fn step(rects: &[Rect], at: usize, rect: &Rect) -> usize
    requires banded { IsBanded rects.now }
    requires near { IsInBounds rect.now }
    requires within { at < length rects.now }
    ensures from { at ≤ result }
    ensures within { result ≤ length rects.now }
    ensures same { (x y : ℤ) → covers rect.now x y ≡ true → has (take result rects.now) x y ≡ has (take at rects.now) x y }
{
    let one = &rects[at];
    let low = bottom_of(one);
    let span = span_of(one);
    let other = span_of(rect);
    if bottom_of(rect) <= top_of(one) {
        rects.len()
    } else if low <= top_of(rect) {
        past(rects, at + 1, top_of(rect), PAST_ALL)
    } else if span.end <= other.start {
        past(rects, at + 1, low, other.start)
    } else if other.end <= span.start {
        past(rects, at + 1, low, PAST_ALL)
    } else {
        at
    }
}

/// The index of the first rectangle of bands, from one on, that shares a point with another one, or how
/// many there are.
pub fn next_meeting(rects: &[Rect], from: usize, rect: &Rect) -> usize
    requires banded { IsBanded rects.now }
    requires near { IsInBounds rect.now }
    requires within { from ≤ length rects.now }
    ensures from { from ≤ result }
    ensures within { result ≤ length rects.now }
    ensures same { (x y : ℤ) → covers rect.now x y ≡ true → has (take result rects.now) x y ≡ has (take from rects.now) x y }
{
    let mut at = from;
    while at < rects.len() {
        let next = step(rects, at, rect);
        if next == at {
            return at;
        }
        at = next;
    }
    at
}
