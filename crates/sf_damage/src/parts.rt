//! Parts of rectangles and regions: whether they meet, and what of one lies in another.
ghost use Rattle.std.specs.Prelude.{◌≡◌, ◌↔◌, ℕ, ℤ, pos, ◌+ℤ◌, int_lt, ◌&&◌, ◌||◌, not, IfOk, IsTrue, []};
ghost use Rattle.std.specs.List.{list_all, list_any};
ghost use Rattle.sf_base.specs.Geometry.{covers};
ghost use Rattle.sf_region.specs.Points.{has, IsInBounds};
ghost use Rattle.sf_damage.specs.inner.Meeting.{meets, rect_has, span_has, spans_meet};

use sf_base::{NoMemory, Rect};
use sf_region::Region;
use std::alloc::Global;

/// Whether a coordinate stands before the end of a span.
fn is_before_end(at: i32, start: i32, extent: u32) -> bool
    ensures { result ≡ int_lt at (start +ℤ pos extent) }
{
    i64::from(at) < i64::from(start) + i64::from(extent)
}

/// Whether each of two spans of coordinates starts before the other ends.
fn spans_meet(start: i32, extent: u32, other: i32, many: u32) -> bool
    ensures { result ≡ spans_meet start extent other many }
{
    is_before_end(start, other, many) && is_before_end(other, start, extent)
}

/// Whether two rectangles may share a point.
pub fn meets(one: &Rect, other: &Rect) -> bool
    ensures { result ≡ meets one.now other.now }
{
    spans_meet(one.x, one.width, other.x, other.width)
        && spans_meet(one.y, one.height, other.y, other.height)
}

/// Where a span ends.
pub fn end_of(start: i32, extent: u32) -> i64
    ensures { result ≡ (start +ℤ pos extent) }
{
    i64::from(start) + i64::from(extent)
}

/// Whether a span has all coordinates of another.
fn span_has(start: i32, extent: u32, other: i32, many: u32) -> bool
    ensures { result ≡ span_has start extent other many }
{
    start <= other && end_of(other, many) <= end_of(start, extent)
}

/// Whether a rectangle has all points of another.
pub fn rect_has(one: &Rect, other: &Rect) -> bool
    ensures { result ≡ rect_has one.now other.now }
{
    span_has(one.x, one.width, other.x, other.width)
        && span_has(one.y, one.height, other.y, other.height)
}

/// Whether a region may have a point of a rectangle.
fn touches(region: &Region, rect: &Rect) -> bool
    ensures { result ≡ list_any (λ part. meets part rect.now) region.now }
{
    region.rects().iter().any(|part| meets(part, rect))
}

/// Whether a rectangle has all points of a region.
fn has_all(rect: &Rect, region: &Region) -> bool
    ensures { result ≡ list_all (λ part. rect_has rect.now part) region.now }
{
    region.rects().iter().all(|part| rect_has(rect, part))
}

/// Whether a region has no point.
pub fn is_empty(region: &Region) -> bool
    ensures { IsTrue result ↔ (region.now ≡ []) }
{
    region.rects().is_empty()
}

// A region in two: the points that a rectangle covers, and the others.
#[derive(Drop)]
pub struct Halves {
    pub inside: Region,
    pub outside: Region,
}

/// Splits a region at a rectangle. Where they don't meet, or the rectangle has all of the region, it
/// takes no memory.
pub fn split(alloc: Global, region: Region, rect: Rect) -> Result<Halves, NoMemory>
    requires { IsInBounds rect }
    ensures inside { IfOk result (λ parts. (x y : ℤ) → has parts.inside x y ≡ (has region x y && covers rect x y)) }
    ensures outside { IfOk result (λ parts. (x y : ℤ) → has parts.outside x y ≡ (has region x y && not (covers rect x y))) }
{
    if !touches(&region, &rect) {
        return Ok(Halves {
            inside: Region::empty(alloc),
            outside: region,
        });
    }
    if has_all(&rect, &region) {
        return Ok(Halves {
            inside: region,
            outside: Region::empty(alloc),
        });
    }
    let cover = Region::rect(alloc, rect)?;
    let inside = region.intersect(&cover)?;
    let outside = region.subtract(&cover)?;
    Ok(Halves { inside, outside })
}

/// The points of two regions. Where one of them is empty, it takes no memory.
pub fn join(one: Region, other: Region) -> Result<Region, NoMemory>
    ensures { IfOk result (λ region. (x y : ℤ) → has region x y ≡ (has one x y || has other x y)) }
{
    if is_empty(&one) {
        return Ok(other);
    }
    if is_empty(&other) {
        return Ok(one);
    }
    Ok(one.union(&other)?)
}
