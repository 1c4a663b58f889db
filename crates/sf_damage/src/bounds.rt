//! The least rectangle that has the points of a region.
ghost use Rattle.std.specs.Prelude.{◌≡◌, ℤ, ◌≤ℤ◌, ◌+ℤ◌, pos, true};
ghost use Rattle.sf_base.specs.Geometry.{covers, is_within};
ghost use Rattle.sf_region.specs.Points.{IsInBounds, far, has, neg_far};

use sf_base::Rect;
use sf_region::Region;

// A rectangle without points.
const NOWHERE: Rect = Rect {
    x: 0,
    y: 0,
    width: 0,
    height: 0,
};

/// How many coordinates there are from one on and before another.
fn count_from(first: i32, end: i32) -> u32
    requires from { neg_far ≤ℤ first }
    requires to { end ≤ℤ far }
    requires ordered { first ≤ℤ end }
    ensures { (first +ℤ pos result) ≡ end }
{
    (end - first) as u32
}

/// The least span of coordinates that has those of two.
fn span_of_both(start: i32, extent: u32, other: i32, many: u32) -> (i32, u32)
    requires from { neg_far ≤ℤ start }
    requires to { (start +ℤ pos extent) ≤ℤ far }
    requires other_from { neg_far ≤ℤ other }
    requires other_to { (other +ℤ pos many) ≤ℤ far }
    ensures from { neg_far ≤ℤ result.0 }
    ensures to { (result.0 +ℤ pos result.1) ≤ℤ far }
    ensures one { (at : ℤ) → is_within start extent at ≡ true → is_within result.0 result.1 at ≡ true }
    ensures other { (at : ℤ) → is_within other many at ≡ true → is_within result.0 result.1 at ≡ true }
{
    let first = start.min(other);
    let end = (start + extent as i32).max(other + many as i32);
    (first, count_from(first, end))
}

/// The least rectangle that has the points of two.
fn rect_of_both(one: &Rect, other: &Rect) -> Rect
    requires one { IsInBounds one.now }
    requires other { IsInBounds other.now }
    ensures near { IsInBounds result }
    ensures one { (x y : ℤ) → covers one.now x y ≡ true → covers result x y ≡ true }
    ensures other { (x y : ℤ) → covers other.now x y ≡ true → covers result x y ≡ true }
{
    if one.width == 0 {
        return *other;
    }
    let (x, width) = span_of_both(one.x, one.width, other.x, other.width);
    let (y, height) = span_of_both(one.y, one.height, other.y, other.height);
    Rect {
        x,
        y,
        width,
        height,
    }
}

/// The least rectangle that has the points of a region.
pub fn bounds(region: &Region) -> Rect
    ensures near { IsInBounds result }
    ensures points { (x y : ℤ) → has region.now x y ≡ true → covers result x y ≡ true }
{
    let mut all = NOWHERE;
    for rect in region.rects() {
        all = rect_of_both(&all, rect);
    }
    all
}
