//! Whether layers hide together all that lies below an area, side by side or one over another.
ghost use Rattle.std.specs.Prelude.{◌≡◌, ◌<◌, ◌≤◌, length, map, true, IfSome, IsTrue};
ghost use Rattle.sf_compose.specs.Composed.{AreReadableIn};
ghost use Rattle.sf_compose.specs.Readings.{IsReadable};
ghost use Rattle.sf_compose.specs.inner.Cover.{HidesBelow, HidesGround, rows_between};
ghost use Rattle.sf_compose.specs.inner.Painting.{is_in_area};
ghost use Rattle.sf_compose.specs.inner.Seen.{IsPaintable};

use crate::area::{Area, cut, has_point, points_of};
use crate::composition::{Composition, SourcedLayer};
use crate::contents::read;
use crate::pixels::Pixels;
use sf_damage::sf_view::Content;

// To look at each layer for each layer takes as long as to paint so many points black.
const LOOK: u64 = 16;

/// Whether each pixel of a drawn layer hides what lies below, by its format, its colour or its pixels.
fn hides_below<C: Pixels>(layer: &SourcedLayer<C>) -> bool
    requires readable { IsReadable (map C.picture layer.now.contents.now) layer.now.drawn.now.content layer.now.source }
    requires paintable { IsPaintable layer.now.drawn.now }
    ensures { IsTrue result → HidesBelow (map C.picture layer.now.contents.now) layer.now.drawn.now layer.now.source }
{
    let drawn = layer.drawn;
    if drawn.alpha != 255 {
        return false;
    }
    if drawn.opaque {
        return true;
    }
    match drawn.content {
        Content::Colour(colour) => colour.a == 255,
        Content::Buffer(_) => read(layer.contents, layer.source).is_solid(),
    }
}

/// The points of an area that one layer hides, if it hides this one.
fn hidden_around<C: Pixels>(
    composition: &Composition<C>,
    area: Area,
    x: u32,
    y: u32,
) -> Option<Area>
    requires readable { AreReadableIn C.picture composition.now }
    ensures right { IfSome result (λ part. part.right ≤ area.right) }
    ensures bottom { IfSome result (λ part. part.bottom ≤ area.bottom) }
    ensures here { IfSome result (λ part. is_in_area part x y ≡ true) }
    ensures hidden { IfSome result (λ part.
        HidesGround (is_in_area part) (map C.picture composition.now.contents.now) composition.now.view.now.drawn composition.now.sources.now) }
{
    if !area.has(x, y) {
        return None;
    }
    let layers = composition.drawn();
    let mut at = 0;
    while at < layers.len() {
        if has_point(&layers[at].clip, x, y) {
            let layer = SourcedLayer {
                drawn: &layers[at],
                contents: composition.contents,
                source: composition.sources[at],
            };
            if hides_below(&layer) {
                return Some(cut(area, &layers[at].clip));
            }
        }
        at += 1;
    }
    None
}

/// Before which row layers hide all points of an area from a row on: this one where they do not hide
/// all of it.
fn hidden_until<C: Pixels>(composition: &Composition<C>, area: Area, y: u32) -> u32
    requires readable { AreReadableIn C.picture composition.now }
    requires within { y < area.bottom }
    ensures more { y ≤ result }
    ensures within { result ≤ area.bottom }
    ensures hidden { HidesGround (is_in_area (rows_between area y result))
        (map C.picture composition.now.contents.now) composition.now.view.now.drawn composition.now.sources.now }
{
    let (mut x, mut bottom) = (area.left, area.bottom);
    while x < area.right {
        let Some(part) = hidden_around(composition, area, x, y) else {
            return y;
        };
        x = part.right;
        bottom = bottom.min(part.bottom);
    }
    bottom
}

/// Whether it takes fewer steps to look for layers that hide an area together than to paint it black.
fn is_worth_looking<C>(composition: &Composition<C>, area: Area) -> bool {
    let layers = composition.drawn().len() as u64;
    layers.saturating_mul(layers).saturating_mul(LOOK) <= points_of(area)
}

/// Whether layers hide together all that lies below an area. Where that would take long to find, the
/// answer is no.
pub fn is_hidden<C: Pixels>(composition: &Composition<C>, area: Area) -> bool
    requires readable { AreReadableIn C.picture composition.now }
    ensures { IsTrue result →
        HidesGround (is_in_area area) (map C.picture composition.now.contents.now) composition.now.view.now.drawn composition.now.sources.now }
{
    if !is_worth_looking(composition, area) {
        return false;
    }
    let mut y = area.top;
    while y < area.bottom {
        let next = hidden_until(composition, area, y);
        if next == y {
            return false;
        }
        y = next;
    }
    true
}
