//! From rectangles to the edges and spans that regions are combined by, and back.
ghost use Rattle.std.specs.Prelude.{◌≡◌, ◌<◌, ◌≤◌};
ghost use Rattle.sf_region.specs.Edges.{left, right, top, bottom, past_all};
ghost use Rattle.sf_region.specs.Points.{IsInBounds};
ghost use Rattle.sf_region.specs.Spans.{rect_of};

use crate::spans::Span;
use sf_base::Rect;

// Places are counted from this coordinate, so that each edge of a region is a natural number.
const ORIGIN: i32 = -67108864;

/// The span of a rectangle in each of its rows.
#[tactic(auto, unfolding(crate::specs::Edges::left, crate::specs::Edges::right))]
pub fn span_of(rect: &Rect) -> Span
    requires { IsInBounds rect.now }
    ensures { result ≡ record { start = left rect.now; end = right rect.now } }
{
    let start = (rect.x - ORIGIN) as u32;
    Span {
        start,
        end: start + rect.width,
    }
}

/// The first row of a rectangle.
#[tactic(auto, unfolding(crate::specs::Edges::top))]
pub fn top_of(rect: &Rect) -> u32
    requires { IsInBounds rect.now }
    ensures { result ≡ top rect.now }
{
    (rect.y - ORIGIN) as u32
}

/// The row below a rectangle.
#[tactic(auto, unfolding(crate::specs::Edges::bottom))]
pub fn bottom_of(rect: &Rect) -> u32
    requires { IsInBounds rect.now }
    ensures { result ≡ bottom rect.now }
{
    (rect.y - ORIGIN) as u32 + rect.height
}

/// The rectangle of a span, from one row down to another.
#[tactic(auto, unfolding(crate::specs::Spans::rect_of))]
pub fn rect_from(span: Span, top: u32, bottom: u32) -> Rect
    requires wide { span.start ≤ span.end }
    requires high { top ≤ bottom }
    requires right { span.end ≤ past_all }
    requires low { bottom ≤ past_all }
    ensures { result ≡ rect_of span top bottom }
{
    Rect {
        x: span.start as i32 + ORIGIN,
        y: top as i32 + ORIGIN,
        width: span.end - span.start,
        height: bottom - top,
    }
}
