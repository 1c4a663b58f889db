//! Paints one drawn layer over an area of a frame: a colour, a crop of a buffer, or an oriented crop.
ghost use Rattle.std.specs.Prelude.{◌≡◌, ◌≤◌, ℕ, map, pos, true, IsTrue, ◌&&◌};
ghost use Rattle.sf_base.specs.Geometry.{is_within, LiesWithin};
ghost use Rattle.sf_base.specs.Paint.{painted};
ghost use Rattle.sf_compose.specs.Composed.{over_sourced};
ghost use Rattle.sf_compose.specs.Readings.{IsReadable};
ghost use Rattle.sf_compose.specs.inner.Bands.{HasRows, IsInBand};
ghost use Rattle.sf_compose.specs.inner.Begun.{Spares};
ghost use Rattle.sf_compose.specs.inner.Crops.{crop_of, crop_pixel, over_crop};
ghost use Rattle.sf_compose.specs.inner.Orientations.{oriented_of};
ghost use Rattle.sf_compose.specs.inner.Painting.{at_full_alpha, is_in_area, PaintsAnew, PaintsArea};
ghost use Rattle.sf_compose.specs.inner.Seen.{IsPaintable};
ghost use Rattle.sf_damage.specs.sf_view.Contents.{source_of};

use crate::area::{Area, cut};
use crate::band::{Band, row_start};
use crate::composition::SourcedLayer;
use crate::contents::read;
use crate::crop::{Crop, crop_row};
use crate::ground::may_hide;
use crate::moving::move_crop;
use crate::oriented::{Oriented, copy_oriented, paint_oriented};
use crate::pixels::Pixels;
use crate::spans::{copy_pixels, paint_colour, paint_pixels};
use sf_base::Rgba;
use sf_damage::sf_layer::Shown;
use sf_damage::sf_picture::Painted;
use sf_damage::sf_view::{Content, Drawn};

/// Paints a colour over an area.
pub fn paint_area(frame: &mut [u8], band: Band, area: Area, colour: Rgba, alpha: u8)
    requires within { IsInBand band area }
    requires room { HasRows band frame.old }
    ensures { PaintsArea band area (λ x y under. painted under colour alpha) frame.old frame.new }
{
    if area.left >= area.right || area.top >= area.bottom {
        return;
    }
    for y in area.top..area.bottom {
        let row = row_start(band, y);
        paint_colour(
            frame,
            row + area.left as usize,
            row + area.right as usize,
            colour,
            alpha,
        );
    }
}

/// Paints a crop over an area that it covers.
fn paint_crop(picture: &Painted, crop: Crop, frame: &mut [u8], band: Band, area: Area)
    requires crop { LiesWithin crop.rect picture.now.width picture.now.height }
    requires inside { (x y : ℕ) → is_in_area area x y ≡ true
        → (is_within crop.place.0 crop.rect.width (pos x) && is_within crop.place.1 crop.rect.height (pos y)) ≡ true }
    requires within { IsInBand band area }
    requires room { HasRows band frame.old }
    ensures { PaintsArea band area (over_crop picture.now crop) frame.old frame.new }
{
    if area.left >= area.right || area.top >= area.bottom {
        return;
    }
    if crop.alpha == 255 && picture.is_solid() {
        move_crop(picture, crop, frame, band, area);
        return;
    }
    for y in area.top..area.bottom {
        let pixels = crop_row(picture, crop, y, area.left, area.right);
        let row = row_start(band, y);
        paint_pixels(
            frame,
            row + area.left as usize,
            row + area.right as usize,
            pixels,
            crop.opaque,
            crop.alpha,
        );
    }
}

/// Copies a crop over an area that it covers, and returns whether each of its pixels hides what was
/// there. If not, some of them may be copied.
fn copy_crop(picture: &Painted, crop: Crop, frame: &mut [u8], band: Band, area: Area) -> bool
    requires crop { LiesWithin crop.rect picture.now.width picture.now.height }
    requires inside { (x y : ℕ) → is_in_area area x y ≡ true
        → (is_within crop.place.0 crop.rect.width (pos x) && is_within crop.place.1 crop.rect.height (pos y)) ≡ true }
    requires within { IsInBand band area }
    requires room { HasRows band frame.old }
    ensures spared { Spares band.width band.top (is_in_area area) frame.old frame.new }
    ensures copied { IsTrue result → PaintsAnew band area (at_full_alpha (crop_pixel picture.now crop)) frame.old frame.new }
{
    if area.left >= area.right || area.top >= area.bottom {
        return false;
    }
    if picture.is_solid() {
        move_crop(picture, crop, frame, band, area);
        return true;
    }
    for y in area.top..area.bottom {
        let pixels = crop_row(picture, crop, y, area.left, area.right);
        let row = row_start(band, y);
        let start = row + area.left as usize;
        if !copy_pixels(frame, start, row + area.right as usize, pixels) {
            return false;
        }
    }
    true
}

/// A colour as its layer shows it: the alpha of an opaque layer's counts as 255.
fn seen_colour(colour: Rgba, opaque: bool) -> Rgba
    ensures { result ≡ source_of opaque colour }
{
    if opaque {
        Rgba { a: 255, ..colour }
    } else {
        colour
    }
}

/// What a drawn layer shows of a buffer, if it is not oriented.
fn crop_of(shown: Shown, drawn: &Drawn) -> Crop
    ensures { result ≡ crop_of shown drawn.now }
{
    Crop {
        rect: shown.crop,
        place: drawn.place,
        opaque: drawn.opaque,
        alpha: drawn.alpha,
    }
}

/// What a drawn layer shows of a buffer.
fn oriented_of(shown: Shown, drawn: &Drawn) -> Oriented
    ensures { result ≡ oriented_of shown drawn.now }
{
    Oriented {
        crop: shown.crop,
        orient: drawn.orient,
        place: drawn.place,
        opaque: drawn.opaque,
        alpha: drawn.alpha,
    }
}

/// Paints a drawn layer over the points of an area that are in its clip.
pub fn paint_layer<C: Pixels>(layer: &SourcedLayer<C>, frame: &mut [u8], band: Band, area: Area)
    requires readable { IsReadable (map C.picture layer.now.contents.now) layer.now.drawn.now.content layer.now.source }
    requires paintable { IsPaintable layer.now.drawn.now }
    requires within { IsInBand band area }
    requires room { HasRows band frame.old }
    ensures { PaintsArea band area (over_sourced C.picture layer.now) frame.old frame.new }
{
    let drawn = layer.drawn;
    let area = cut(area, &drawn.clip);
    match drawn.content {
        Content::Colour(colour) => {
            let colour = seen_colour(colour, drawn.opaque);
            paint_area(frame, band, area, colour, drawn.alpha);
        }
        Content::Buffer(shown) => {
            let picture = read(layer.contents, layer.source);
            if drawn.orient == 0 {
                paint_crop(picture, crop_of(shown, drawn), frame, band, area);
            } else {
                paint_oriented(picture, oriented_of(shown, drawn), frame, band, area);
            }
        }
    }
}

/// Copies what a drawn layer shows over an area, and returns whether it hides what was there at
/// each point of it. If not, some points of the area may be copied.
pub fn copy_layer<C: Pixels>(
    layer: &SourcedLayer<C>,
    frame: &mut [u8],
    band: Band,
    area: Area,
) -> bool
    requires readable { IsReadable (map C.picture layer.now.contents.now) layer.now.drawn.now.content layer.now.source }
    requires paintable { IsPaintable layer.now.drawn.now }
    requires within { IsInBand band area }
    requires room { HasRows band frame.old }
    ensures spared { Spares band.width band.top (is_in_area area) frame.old frame.new }
    ensures copied { IsTrue result → PaintsAnew band area (over_sourced C.picture layer.now) frame.old frame.new }
{
    let drawn = layer.drawn;
    if !may_hide(drawn, area) {
        return false;
    }
    match drawn.content {
        Content::Colour(_) => false,
        Content::Buffer(shown) => {
            let picture = read(layer.contents, layer.source);
            if drawn.orient == 0 {
                copy_crop(picture, crop_of(shown, drawn), frame, band, area)
            } else {
                copy_oriented(picture, oriented_of(shown, drawn), frame, band, area)
            }
        }
    }
}
