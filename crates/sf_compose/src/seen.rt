//! Composes rows of a frame in one thread: of each layer all of it, or only what the layers in front
//! of it leave to be seen.
ghost use Rattle.std.specs.Prelude.{◌+◌, ◌<◌, length, map, pos};
ghost use Rattle.sf_base.specs.Geometry.{covers};
ghost use Rattle.sf_compose.specs.Composed.{AreReadableIn, AreShownAt, AreShownIn, image_of, layers_over_black};
ghost use Rattle.sf_compose.specs.inner.Bands.{HasRows, is_in, IsInBand, RepaintsBand};
ghost use Rattle.sf_compose.specs.inner.Begun.{AreaIsBegun, Spares};
ghost use Rattle.sf_compose.specs.inner.Painting.{is_in_area, PaintsArea};
ghost use Rattle.sf_compose.specs.inner.Seen.{AreGivenAt};

use crate::area::{Area, cut};
use crate::band::{Band, area_of};
use crate::begin::begin;
use crate::composition::{Composition, SourcedLayer};
use crate::layer::paint_layer;
use crate::pixels::Pixels;
use crate::scattered::compose_scattered;
use crate::slices::{rows_at_once, slice_from};
use crate::steps::is_faster_whole;
use sf_base::Rect;
use sf_damage::sf_region::Region;

// A part of more rectangles is composed layer by layer, where more layers are drawn.
const MANY: usize = 16;

/// Paints a drawn layer over the points of an area where it shows. It is painted over all of them where
/// that takes fewer steps, since the layers above paint over what does not show, and where it is not
/// given where layers show.
fn paint_shown<C: Pixels>(
    composition: &Composition<C>,
    at: usize,
    frame: &mut [u8],
    band: Band,
    area: Area,
)
    requires inside { at < length composition.now.view.now.drawn }
    requires readable { AreReadableIn C.picture composition.now }
    requires visible { AreGivenAt (is_in_area area) composition.now.view.now.drawn composition.now.shows }
    requires within { IsInBand band area }
    requires room { HasRows band frame.old }
    requires begun { AreaIsBegun band area (map C.picture composition.now.contents.now)
        composition.now.view.now.drawn composition.now.sources.now at frame.old }
    ensures spared { Spares band.width band.top (is_in_area area) frame.old frame.new }
    ensures begun { AreaIsBegun band area (map C.picture composition.now.contents.now)
        composition.now.view.now.drawn composition.now.sources.now (at + 1) frame.new }
{
    let layers = composition.drawn();
    let layer = SourcedLayer {
        drawn: &layers[at],
        contents: composition.contents,
        source: composition.sources[at],
    };
    let Some(shows) = composition.shows else {
        paint_layer(&layer, frame, band, area);
        return;
    };
    let parts = shows[at].rects();
    if parts.len() > 1 && is_faster_whole(&layer, parts, band, area) {
        paint_layer(&layer, frame, band, area);
        return;
    }
    for part in parts {
        paint_layer(&layer, frame, band, cut(area, part));
    }
}

/// Composes an area, layer after layer.
fn compose_slice<C: Pixels>(composition: &Composition<C>, band: Band, area: Area, frame: &mut [u8])
    requires readable { AreReadableIn C.picture composition.now }
    requires visible { AreGivenAt (is_in_area area) composition.now.view.now.drawn composition.now.shows }
    requires within { IsInBand band area }
    requires room { HasRows band frame.old }
    ensures { PaintsArea band area (layers_over_black C.picture composition.now) frame.old frame.new }
{
    let layers = composition.drawn();
    let mut at = begin(composition, band, area, frame);
    while at < layers.len() {
        paint_shown(composition, at, frame, band, area);
        at += 1;
    }
}

/// Composes the points of a band that lie in a rectangle, slice by slice.
pub fn compose_rect<C: Pixels>(
    composition: &Composition<C>,
    rect: &Rect,
    band: Band,
    frame: &mut [u8],
)
    requires readable { AreReadableIn C.picture composition.now }
    requires visible { AreShownAt (covers rect.now) composition.now.view.now.drawn composition.now.shows }
    requires room { HasRows band frame.old }
    ensures { RepaintsBand band (λ x y. covers rect.now (pos x) (pos y)) (image_of C.picture composition.now) frame.old frame.new }
{
    let area = cut(area_of(band), rect);
    if area.left >= area.right || area.top >= area.bottom {
        return;
    }
    let rows = rows_at_once(area);
    let mut top = area.top;
    while top < area.bottom {
        let slice = slice_from(area, top, rows);
        compose_slice(composition, band, slice, frame);
        top = slice.bottom;
    }
}

/// Composes the points of a band that lie in a part.
pub fn compose_band<C: Pixels>(
    composition: &Composition<C>,
    part: &Region,
    band: Band,
    frame: &mut [u8],
)
    requires readable { AreReadableIn C.picture composition.now }
    requires visible { AreShownIn part.now composition.now.view.now.drawn composition.now.shows }
    requires room { HasRows band frame.old }
    ensures { RepaintsBand band (is_in part.now) (image_of C.picture composition.now) frame.old frame.new }
{
    if let Some(shows) = composition.shows {
        if part.rects().len() > MANY && shows.len() > MANY {
            compose_scattered(composition, shows, part, band, frame);
            return;
        }
    }
    for rect in part.rects() {
        compose_rect(composition, rect, band, frame);
    }
}
