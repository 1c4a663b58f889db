//! A rectangle of points of a frame, by its edges.
ghost use Rattle.std.specs.Prelude.{◌≡◌, ◌<◌, ◌≤◌, ℕ, pos, ◌&&◌};
ghost use Rattle.sf_compose.specs.inner.Painting.{is_in_area};
ghost use Rattle.sf_base.specs.Geometry.{is_within};

use sf_base::{Rect, clipped, is_within};

// The points from one side on and before another, and from one edge on and before another. It is
// empty where a side or an edge does not stand before the other.
#[derive(Clone, Copy)]
pub struct Area {
    pub left: u32,
    pub right: u32,
    pub top: u32,
    pub bottom: u32,
}

impl Area {
    /// Whether the area has a point.
    pub fn has(self, x: u32, y: u32) -> bool
        ensures { result ≡ is_in_area self x y }
    {
        (self.left <= x && x < self.right) && (self.top <= y && y < self.bottom)
    }
}

/// Whether a rectangle has a point.
pub fn has_point(rect: &Rect, x: u32, y: u32) -> bool
    ensures { result ≡ (is_within rect.now.x rect.now.width (pos x) && is_within rect.now.y rect.now.height (pos y)) }
{
    is_within(rect.x, rect.width, i64::from(x)) && is_within(rect.y, rect.height, i64::from(y))
}

/// The points of an area that a rectangle has.
pub fn cut(area: Area, rect: &Rect) -> Area
    ensures top { area.top ≤ result.top }
    ensures right { result.right ≤ area.right }
    ensures bottom { result.bottom ≤ area.bottom }
    ensures points { (x y : ℕ) → is_in_area result x y
        ≡ (is_in_area area x y && (is_within rect.now.x rect.now.width (pos x) && is_within rect.now.y rect.now.height (pos y))) }
{
    let (left, right) = clipped(rect.x, rect.width, area.right);
    let (top, bottom) = clipped(rect.y, rect.height, area.bottom);
    Area {
        left: left.max(area.left),
        right,
        top: top.max(area.top),
        bottom,
    }
}

/// How many points an area has.
pub fn points_of(area: Area) -> u64 {
    let width = u64::from(area.right.saturating_sub(area.left));
    width.saturating_mul(u64::from(area.bottom.saturating_sub(area.top)))
}
