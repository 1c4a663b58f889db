//! Rectangles of pixels.
ghost use Rattle.std.specs.Prelude.{◌≡◌, ◌<◌, ◌≤◌, ℕ, pos, int_lt, nat_le, nat_lt, ◌&&◌};
ghost use Rattle.sf_base.specs.Geometry.{covers, is_within};

/// A rectangle of pixels: its upper left corner, and its size, which may be 0. It covers the
/// columns from `x` up to, and without, `x + width`, and the rows likewise.
#[derive(Clone, Copy, Debug, PartialEq, Eq)]
pub struct Rect {
    pub x: i32,
    pub y: i32,
    pub width: u32,
    pub height: u32,
}

impl Rect {
    /// Whether the rectangle covers a point.
    #[tactic(auto, unfolding(crate::specs::Geometry::covers))]
    pub fn covers(&self, x: i32, y: i32) -> bool
        ensures { result ≡ covers self.now x y }
    {
        is_within(self.x, self.width, i64::from(x)) && is_within(self.y, self.height, i64::from(y))
    }
}

/// Whether a coordinate is among so many from a start on.
pub fn is_within(start: i32, extent: u32, at: i64) -> bool
    ensures { result ≡ is_within start extent at }
{
    let start = i64::from(start);
    start <= at && at < start + i64::from(extent)
}

/// How many of the coordinates from 0 on and below a limit lie below an end.
fn count_below(end: i64, limit: u32) -> u32
    ensures limited { result ≤ limit }
    ensures same { (at : ℕ) → at < limit → int_lt (pos at) end ≡ nat_lt at result }
{
    if end <= 0 {
        0
    } else if end >= i64::from(limit) {
        limit
    } else {
        end as u32
    }
}

/// The coordinates below a limit that are among so many from a start on: they begin at the first
/// number of the answer and end before the second.
pub fn clipped(start: i32, extent: u32, limit: u32) -> (u32, u32)
    ensures ordered { result.0 ≤ result.1 }
    ensures limited { result.1 ≤ limit }
    ensures same { (at : ℕ) → at < limit → is_within start extent (pos at) ≡ (nat_le result.0 at && nat_lt at result.1) }
{
    let start = i64::from(start);
    let first = count_below(start, limit);
    let end = count_below(start + i64::from(extent), limit);
    (first, end.max(first))
}
