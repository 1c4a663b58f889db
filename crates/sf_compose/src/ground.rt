//! Which layers hide all that lies below them in an area, so that nothing below need be painted.
ghost use Rattle.std.specs.Prelude.{◌≡◌};
ghost use Rattle.sf_compose.specs.inner.Ground.{has_area, hides, is_solid, is_solid_colour, may_hide, spans};

use crate::area::Area;
use sf_base::{Rect, Rgba};
use sf_damage::sf_view::{Content, Drawn};

// A display where nothing is drawn.
pub const OPAQUE_BLACK: Rgba = Rgba {
    r: 0,
    g: 0,
    b: 0,
    a: 255,
};

/// Whether a span of so many coordinates from a start on has those from one on and before another.
fn spans(start: i32, extent: u32, first: u32, end: u32) -> bool
    ensures { result ≡ spans start extent first end }
{
    let start = i64::from(start);
    start <= i64::from(first) && i64::from(end) <= start + i64::from(extent)
}

/// Whether a rectangle has each point of an area.
pub fn has_area(rect: &Rect, area: Area) -> bool
    ensures { result ≡ has_area area rect.now }
{
    spans(rect.x, rect.width, area.left, area.right)
        && spans(rect.y, rect.height, area.top, area.bottom)
}

/// Whether a layer shows a colour that lets no light through.
fn is_solid_colour(content: &Content) -> bool
    ensures { result ≡ is_solid_colour content.now }
{
    match content {
        Content::Colour(colour) => colour.a == 255,
        Content::Buffer(_) => false,
    }
}

/// Whether each pixel of a drawn layer hides what lies below.
fn is_solid(drawn: &Drawn) -> bool
    ensures { result ≡ is_solid drawn.now }
{
    drawn.alpha == 255 && (drawn.opaque || is_solid_colour(&drawn.content))
}

/// Whether a drawn layer hides the ground at each point of an area, whatever its pixels are.
pub fn hides(drawn: &Drawn, area: Area) -> bool
    ensures { result ≡ hides area drawn.now }
{
    is_solid(drawn) && has_area(&drawn.clip, area)
}

/// Whether a drawn layer hides the ground there if the alphas of its pixels are 255.
pub fn may_hide(drawn: &Drawn, area: Area) -> bool
    ensures { result ≡ may_hide area drawn.now }
{
    drawn.alpha == 255 && !drawn.opaque && has_area(&drawn.clip, area)
}
