//! Composes a part of many rectangles layer by layer, so that each layer meets only the rectangles
//! that lie where it shows.
ghost use Rattle.std.specs.Prelude.{map};
ghost use Rattle.sf_base.specs.Paint.{painted};
ghost use Rattle.sf_compose.specs.Composed.{AreReadableIn, image_of, layers_over_black, over_sourced};
ghost use Rattle.sf_compose.specs.Readings.{IsReadable};
ghost use Rattle.sf_compose.specs.inner.Bands.{HasRows, is_in, IsInBand, RepaintsBand};
ghost use Rattle.sf_compose.specs.inner.Painting.{is_in_parts, is_met, is_shown, Paints};
ghost use Rattle.sf_compose.specs.inner.Seen.{ArePaintable, AreSeenAt, IsPaintable};
ghost use Rattle.sf_damage.specs.Visible.{AreVisibleIn};
ghost use Rattle.sf_damage.specs.sf_region.Points.{IsInBounds};
ghost use Rattle.sf_damage.specs.sf_view.Image.{opaque_black};

use crate::area::{Area, cut};
use crate::band::{Band, area_of};
use crate::composition::{Composition, SourcedLayer};
use crate::ground::OPAQUE_BLACK;
use crate::layer::{paint_area, paint_layer};
use crate::pixels::Pixels;
use sf_base::Rect;
use sf_damage::sf_region::Region;

/// Paints a drawn layer over the points of an area that lie in a part and in a rectangle.
fn paint_met<C: Pixels>(
    layer: &SourcedLayer<C>,
    part: &Region,
    shown: &Rect,
    frame: &mut [u8],
    band: Band,
    area: Area,
)
    requires readable { IsReadable (map C.picture layer.now.contents.now) layer.now.drawn.now.content layer.now.source }
    requires paintable { IsPaintable layer.now.drawn.now }
    requires near { IsInBounds shown.now }
    requires within { IsInBand band area }
    requires room { HasRows band frame.old }
    ensures { Paints band.width band.top (is_met area shown.now part.now) (over_sourced C.picture layer.now) frame.old frame.new }
{
    let rects = part.rects();
    let here = cut(area, shown);
    let mut at = part.next_meeting(0, shown);
    while at < rects.len() {
        let piece = cut(here, &rects[at]);
        paint_layer(layer, frame, band, piece);
        let next = part.next_meeting(at + 1, shown);
        at = next;
    }
}

/// Paints a drawn layer over the points of an area that lie in a part and in rectangles, no two of which
/// share a point.
fn paint_shown<C: Pixels>(
    layer: &SourcedLayer<C>,
    part: &Region,
    shows: &Region,
    frame: &mut [u8],
    band: Band,
    area: Area,
)
    requires readable { IsReadable (map C.picture layer.now.contents.now) layer.now.drawn.now.content layer.now.source }
    requires paintable { IsPaintable layer.now.drawn.now }
    requires within { IsInBand band area }
    requires room { HasRows band frame.old }
    ensures { Paints band.width band.top (is_shown area part.now shows.now) (over_sourced C.picture layer.now) frame.old frame.new }
{
    for shown in shows.rects() {
        paint_met(layer, part, shown, frame, band, area);
    }
}

/// Paints the points of an area that lie in a part black.
fn paint_ground(part: &Region, frame: &mut [u8], band: Band, area: Area)
    requires within { IsInBand band area }
    requires room { HasRows band frame.old }
    ensures { Paints band.width band.top (is_in_parts area part.now) (λ x y under. painted under opaque_black 255) frame.old frame.new }
{
    for rect in part.rects() {
        paint_area(frame, band, cut(area, rect), OPAQUE_BLACK, 255);
    }
}

/// Composes the points of an area that lie in a part: black, and layer after layer only what shows of it.
fn compose_layers<C: Pixels>(
    composition: &Composition<C>,
    shows: &[Region],
    part: &Region,
    frame: &mut [u8],
    band: Band,
    area: Area,
)
    requires readable { AreReadableIn C.picture composition.now }
    requires visible { AreSeenAt (is_in_parts area part.now) composition.now.view.now.drawn shows.now }
    requires within { IsInBand band area }
    requires room { HasRows band frame.old }
    ensures { Paints band.width band.top (is_in_parts area part.now) (layers_over_black C.picture composition.now) frame.old frame.new }
{
    let layers = composition.drawn();
    paint_ground(part, frame, band, area);
    let mut at = 0;
    while at < layers.len() {
        let layer = SourcedLayer {
            drawn: &layers[at],
            contents: composition.contents,
            source: composition.sources[at],
        };
        paint_shown(&layer, part, &shows[at], frame, band, area);
        at += 1;
    }
}

/// Composes the points of a band that lie in a part of many rectangles, so that a layer meets no rectangles
/// but those where it shows.
pub fn compose_scattered<C: Pixels>(
    composition: &Composition<C>,
    shows: &[Region],
    part: &Region,
    band: Band,
    frame: &mut [u8],
)
    requires readable { AreReadableIn C.picture composition.now }
    requires visible { AreVisibleIn part.now composition.now.view.now.drawn shows.now }
    requires room { HasRows band frame.old }
    ensures { RepaintsBand band (is_in part.now) (image_of C.picture composition.now) frame.old frame.new }
{
    let area = area_of(band);
    compose_layers(composition, shows, part, frame, band, area);
}
