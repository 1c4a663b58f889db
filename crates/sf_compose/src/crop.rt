//! The pixels of a picture that a crop shows at the points of a row.
ghost use Rattle.std.specs.Prelude.{◌≡◌, ◌+◌, ◌-◌, ◌*◌, ◌<◌, ◌≤◌, ℕ, length, pos, true, ◌≤ℤ◌};
ghost use Rattle.std.specs.List.{between};
ghost use Rattle.sf_base.specs.Bytes.{pixel_in};
ghost use Rattle.sf_base.specs.Geometry.{is_within, LiesWithin};
ghost use Rattle.sf_compose.specs.inner.Crops.{coordinate, crop_number, crop_pixel};

use sf_base::Rect;
use sf_damage::sf_picture::Painted;

// What a layer shows of a picture: a crop, whose corner stands at a place.
#[derive(Clone, Copy)]
pub struct Crop {
    pub rect: Rect,
    pub place: (i32, i32),
    pub opaque: bool,
    pub alpha: u8,
}

/// The coordinate of a picture at a point, where the edge of a crop stands at a place.
fn coordinate(at: u32, place: i32, edge: i32) -> usize
    requires placed { place ≤ℤ pos at }
    requires cropped { pos 0 ≤ℤ edge }
    ensures { result ≡ coordinate at place edge }
{
    (i64::from(at) - i64::from(place) + i64::from(edge)) as usize
}

/// The number of the picture's pixel that a crop shows at a point of a row from one on and before
/// another: that of the first. The others follow it.
pub fn crop_start(picture: &Painted, crop: Crop, y: u32, left: u32, right: u32) -> usize
    requires crop { LiesWithin crop.rect picture.now.width picture.now.height }
    requires ordered { left < right }
    requires first { is_within crop.place.0 crop.rect.width (pos left) ≡ true }
    requires last { is_within crop.place.0 crop.rect.width (pos (right - 1)) ≡ true }
    requires down { is_within crop.place.1 crop.rect.height (pos y) ≡ true }
    ensures number { result ≡ crop_number picture.now crop left y }
    ensures room { result + (right - left) ≤ picture.now.width * picture.now.height }
{
    let column = coordinate(left, crop.place.0, crop.rect.x);
    let row = coordinate(y, crop.place.1, crop.rect.y);
    row * picture.picture().width as usize + column
}

/// So many pixels of bytes, from one on.
fn pixels_from(bytes: &[u8], from: usize, count: usize) -> &[u8]
    requires { 4 * (from + count) ≤ length bytes.now }
    ensures { result.now ≡ between (4 * from) (4 * (from + count)) bytes.now }
{
    &bytes[4 * from..4 * (from + count)]
}

/// The pixels of a crop at the points of a row from one on and before another.
pub fn crop_row(picture: &Painted, crop: Crop, y: u32, left: u32, right: u32) -> &[u8]
    requires crop { LiesWithin crop.rect picture.now.width picture.now.height }
    requires ordered { left < right }
    requires first { is_within crop.place.0 crop.rect.width (pos left) ≡ true }
    requires last { is_within crop.place.0 crop.rect.width (pos (right - 1)) ≡ true }
    requires down { is_within crop.place.1 crop.rect.height (pos y) ≡ true }
    ensures size { length result.now ≡ 4 * (right - left) }
    ensures pixels { (k : ℕ) → k < right - left → pixel_in result.now k ≡ crop_pixel picture.now crop (left + k) y }
{
    let from = crop_start(picture, crop, y, left, right);
    pixels_from(picture.bytes(), from, (right - left) as usize)
}

/// The pixels of a crop that is as wide as its picture and starts at column 0, at the points of the rows
/// from one on and before another.
pub fn crop_rows(picture: &Painted, crop: Crop, width: u32, top: u32, bottom: u32) -> &[u8]
    requires crop { LiesWithin crop.rect picture.now.width picture.now.height }
    requires wide { width ≡ picture.now.width }
    requires ordered { top < bottom }
    requires some { 0 < width }
    requires first { is_within crop.place.0 crop.rect.width (pos 0) ≡ true }
    requires last { is_within crop.place.0 crop.rect.width (pos (width - 1)) ≡ true }
    requires upper { is_within crop.place.1 crop.rect.height (pos top) ≡ true }
    requires lower { is_within crop.place.1 crop.rect.height (pos (bottom - 1)) ≡ true }
    ensures size { length result.now ≡ 4 * ((bottom - top) * width) }
    ensures pixels { (x y : ℕ) → x < width → top ≤ y → y < bottom → pixel_in result.now ((y - top) * width + x) ≡ crop_pixel picture.now crop x y }
{
    let from = crop_start(picture, crop, top, 0, width);
    let last = crop_start(picture, crop, bottom - 1, 0, width);
    pixels_from(picture.bytes(), from, last - from + width as usize)
}
