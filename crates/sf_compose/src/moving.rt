//! Copies crops of pictures that hide what lies below, many rows at once where it can.
ghost use Rattle.std.specs.Prelude.{◌≡◌, ◌<◌, ℕ, pos, true, ◌&&◌};
ghost use Rattle.sf_base.specs.Geometry.{is_within, LiesWithin};
ghost use Rattle.sf_compose.specs.inner.Bands.{HasRows, IsInBand};
ghost use Rattle.sf_compose.specs.inner.Crops.{crop_pixel};
ghost use Rattle.sf_compose.specs.inner.Moving.{Moves};
ghost use Rattle.sf_compose.specs.inner.Painting.{is_in_area};
ghost use Rattle.sf_damage.specs.sf_picture.Solid.{IsSolid};

use crate::area::Area;
use crate::band::{Band, row_start};
use crate::crop::{Crop, crop_rows, crop_start};
use crate::spans::{move_part, move_pixels};
use sf_damage::sf_picture::Painted;

/// Moves the points of rows over those of a frame that is as wide as they are.
fn move_rows(picture: &Painted, crop: Crop, frame: &mut [u8], band: Band, area: Area)
    requires crop { LiesWithin crop.rect picture.now.width picture.now.height }
    requires solid { IsSolid picture.now }
    requires wide { band.width ≡ picture.now.width }
    requires first { area.left ≡ 0 }
    requires last { area.right ≡ band.width }
    requires across { area.left < area.right }
    requires down { area.top < area.bottom }
    requires inside { (x y : ℕ) → is_in_area area x y ≡ true
        → (is_within crop.place.0 crop.rect.width (pos x) && is_within crop.place.1 crop.rect.height (pos y)) ≡ true }
    requires within { IsInBand band area }
    requires room { HasRows band frame.old }
    ensures { Moves (crop_pixel picture.now crop) band area frame.old frame.new }
{
    let rows = crop_rows(picture, crop, band.width, area.top, area.bottom);
    move_pixels(
        frame,
        row_start(band, area.top),
        row_start(band, area.bottom),
        rows,
    );
}

/// Moves a crop of a solid picture over an area that it covers: all rows at once where they follow one
/// another in both, else row by row.
pub fn move_crop(picture: &Painted, crop: Crop, frame: &mut [u8], band: Band, area: Area)
    requires crop { LiesWithin crop.rect picture.now.width picture.now.height }
    requires solid { IsSolid picture.now }
    requires across { area.left < area.right }
    requires down { area.top < area.bottom }
    requires inside { (x y : ℕ) → is_in_area area x y ≡ true
        → (is_within crop.place.0 crop.rect.width (pos x) && is_within crop.place.1 crop.rect.height (pos y)) ≡ true }
    requires within { IsInBand band area }
    requires room { HasRows band frame.old }
    ensures { Moves (crop_pixel picture.now crop) band area frame.old frame.new }
{
    let width = picture.picture().width;
    if width == band.width && area.left == 0 && area.right == width {
        move_rows(picture, crop, frame, band, area);
        return;
    }
    let pixels = picture.bytes();
    let count = (area.right - area.left) as usize;
    let mut from = crop_start(picture, crop, area.top, area.left, area.right);
    let mut to = row_start(band, area.top) + area.left as usize;
    for _ in area.top..area.bottom {
        move_part(frame, to, pixels, from, count);
        from += width as usize;
        to += band.width as usize;
    }
}
