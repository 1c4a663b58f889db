//! A region of many rectangles, put together by halves.
ghost use Rattle.std.specs.List.{All};
ghost use Rattle.std.specs.Prelude.{◌≡◌, ◌↔◌, ℤ, IfOk, IsTrue};
ghost use Rattle.sf_region.specs.Points.{IsInBounds, has};

use crate::parts::join;
use sf_base::{NoMemory, Rect};
use sf_region::Region;
use std::alloc::Global;

pub fn are_same(rect: &Rect, other: &Rect) -> bool
    ensures { IsTrue result ↔ (rect.now ≡ other.now) }
{
    rect == other
}

/// The points of these rectangles. Halves of them are put together, so that each is gone over only
/// as often as they can be halved.
pub fn region_of(alloc: Global, rects: &[Rect]) -> Result<Region, NoMemory>
    requires { All IsInBounds rects.now }
    ensures { IfOk result (λ region. (x y : ℤ) → has region x y ≡ has rects.now x y) }
{
    match rects {
        [] => Ok(Region::empty(alloc)),
        [rect] => Ok(Region::rect(alloc, *rect)?),
        [rect, other] if are_same(rect, other) => Ok(Region::rect(alloc, *rect)?),
        _ => {
            let half = rects.len() / 2;
            let one = region_of(alloc, &rects[..half])?;
            let other = region_of(alloc, &rects[half..])?;
            join(one, other)
        }
    }
}
