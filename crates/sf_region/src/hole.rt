//! A faster way to take one rectangle away from another: at most four are left.
ghost use Rattle.std.specs.Prelude.{◌≡◌, ◌++◌, ◌∷◌, [], ℕ, ◌≤◌, OnOk, IfOk, IsTrue};
ghost use Rattle.sf_region.specs.inner.Bands.{AreMet, band_between};
ghost use Rattle.sf_region.specs.Canonical.{IsBanded, IsCanonical, IsFull};
ghost use Rattle.sf_region.specs.Edges.{past_all};
ghost use Rattle.sf_region.specs.Points.{IsInBounds};
ghost use Rattle.sf_region.specs.Spans.{on, keeps, row, span_between};
ghost use Rattle.sf_region.specs.declared.combine.Combine.TheVariants.{Subtract};

use crate::bands::combine_rects;
use crate::combine::Combine;
use crate::edges::{bottom_of, rect_from, span_of, top_of};
use crate::spans::Span;
use sf_base::{NoMemory, Rect};
use std::alloc::Global;

/// Whether two rectangles share a point.
fn are_met(rect: &Rect, hole: &Rect) -> bool
    requires rect { IsInBounds rect.now }
    requires hole { IsInBounds hole.now }
    ensures { IsTrue result → AreMet rect.now hole.now }
{
    let span = span_of(rect);
    let gap = span_of(hole);
    span.start < gap.end
        && gap.start < span.end
        && top_of(rect) < bottom_of(hole)
        && top_of(hole) < bottom_of(rect)
}

/// Appends the rectangle between these edges, if it has a point.
fn push_between(
    rects: &mut Vec<Rect>,
    start: u32,
    end: u32,
    top: u32,
    bottom: u32,
) -> Result<(), NoMemory>
    requires right { end ≤ past_all }
    requires low { bottom ≤ past_all }
    ensures { OnOk result (rects.new.items ≡ rects.old.items ++ band_between (span_between start end) top bottom) }
{
    if start < end && top < bottom {
        rects.push(rect_from(Span { start, end }, top, bottom))?;
    }
    Ok(())
}

/// What is left of a rectangle where another that shares a point with it is taken away: at most four
/// rectangles, in bands.
fn less_hole(alloc: Global, rect: &Rect, hole: &Rect) -> Result<Vec<Rect>, NoMemory>
    requires rect { IsFull rect.now }
    requires hole { IsFull hole.now }
    requires met { AreMet rect.now hole.now }
    ensures canonical { IfOk result (λ rects. IsCanonical rects.items) }
    ensures kept { IfOk result (λ rects. (x y : ℕ) → on (row rects.items y) x
        ≡ keeps Subtract (on (row (rect.now ∷ []) y) x) (on (row (hole.now ∷ []) y) x)) }
{
    let span = span_of(rect);
    let gap = span_of(hole);
    let top = top_of(rect);
    let bottom = bottom_of(rect);
    let start = gap.start.max(span.start);
    let end = gap.end.min(span.end);
    let upper = top_of(hole).max(top);
    let lower = bottom_of(hole).min(bottom);
    let mut rects = Vec::with_capacity(alloc, 4)?;
    push_between(&mut rects, span.start, span.end, top, upper)?;
    push_between(&mut rects, span.start, start, upper, lower)?;
    push_between(&mut rects, end, span.end, upper, lower)?;
    push_between(&mut rects, span.start, span.end, lower, bottom)?;
    Ok(rects)
}

/// Combines two regions as `combine_rects` does, and faster where a rectangle is taken away from one.
pub fn combine_bands(
    alloc: Global,
    first: &[Rect],
    second: &[Rect],
    how: Combine,
) -> Result<Vec<Rect>, NoMemory>
    requires first { IsBanded first.now }
    requires second { IsBanded second.now }
    ensures canonical { IfOk result (λ rects. IsCanonical rects.items) }
    ensures kept { IfOk result (λ rects. (x y : ℕ)
        → on (row rects.items y) x
        ≡ keeps how (on (row first.now y) x) (on (row second.now y) x)) }
{
    match (how, first, second) {
        (Combine::Subtract, [rect], [hole]) if are_met(rect, hole) => less_hole(alloc, rect, hole),
        _ => combine_rects(alloc, first, second, how),
    }
}
