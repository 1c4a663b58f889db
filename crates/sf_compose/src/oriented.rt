//! Paints a crop that is oriented or mirrored: each row is picked out of the buffer first.
ghost use Rattle.std.specs.Prelude.{◌≡◌, ◌+◌, ◌-◌, ◌*◌, ◌<◌, ◌≤◌, ℕ, length, pos, true, IsTrue, ◌≤ℤ◌, ◌+ℤ◌, neg_ℤ};
ghost use Rattle.sf_base.specs.Bytes.{pixel_in};
ghost use Rattle.sf_base.specs.Geometry.{covers, is_within, LiesWithin};
ghost use Rattle.sf_compose.specs.inner.Bands.{HasRows, IsInBand};
ghost use Rattle.sf_compose.specs.inner.Begun.{Spares};
ghost use Rattle.sf_compose.specs.inner.Orientations.{along, is_back_across, is_back_down, oriented_number, oriented_pixel, over_oriented, point_shown, step_of};
ghost use Rattle.sf_compose.specs.inner.Painting.{at_full_alpha, is_in_area, PaintsAnew, PaintsArea, PaintsRow, PaintsRowAnew, PaintsSpan};
ghost use Rattle.sf_damage.specs.sf_picture.Pixels.{HasSize};
ghost use Rattle.sf_damage.specs.sf_view.Boxes.{box_of, is_sideways};

use crate::area::Area;
use crate::band::{Band, row_start};
use crate::oriented_moving::move_oriented;
use crate::spans::{RowSpan, copy_pixels, paint_pixels};
use sf_base::Rect;
use sf_damage::sf_picture::{Painted, Picture};
use sf_rows::pick_row;

// What an oriented layer shows of a picture: a crop, oriented or mirrored, whose box has its corner at a
// place.
#[derive(Clone, Copy)]
pub struct Oriented {
    pub crop: Rect,
    pub orient: u8,
    pub place: (i32, i32),
    pub opaque: bool,
    pub alpha: u8,
}

// A buffer is at most so many pixels wide and high, and a row of its box too.
const MOST_COLUMNS: u32 = 512;

// So many columns of a crop that stands on its side are painted at a time, all rows one after
// another: a row of them comes from as many rows of the buffer, which stay in a processor's cache
// for the next row.
const COLUMNS_SIDEWAYS: u32 = 128;

/// Whether the crop's columns are shown as rows.
pub fn is_sideways(orient: u8) -> bool
    ensures { result ≡ is_sideways orient }
{
    orient % 2 == 1
}

/// Whether a crop's columns are shown from the last one back.
pub fn is_back_across(orient: u8) -> bool
    ensures { result ≡ is_back_across orient }
{
    2 <= orient && orient <= 5
}

/// Whether its rows are.
fn is_back_down(orient: u8) -> bool
    ensures { result ≡ is_back_down orient }
{
    orient % 4 == 1 || orient % 4 == 2
}

/// How far a coordinate is from the start of a span that has it.
fn distance(at: u32, start: i32, extent: u32) -> u32
    requires { is_within start extent (pos at) ≡ true }
    ensures distance { pos result ≡ pos at +ℤ neg_ℤ start }
    ensures within { result < extent }
{
    (i64::from(at) - i64::from(start)) as u32
}

/// So far along a span, from its start on or back from its end.
fn along(back: bool, start: i32, extent: u32, far: u32) -> u32
    requires start { pos 0 ≤ℤ start }
    requires small { extent ≤ 512 }
    requires within { far < extent }
    ensures { pos result ≡ along back start extent (pos far) }
{
    if back {
        start as u32 + (extent - 1 - far)
    } else {
        start as u32 + far
    }
}

/// The point of the picture that a crop shows at a point of its box: its column and its row.
fn shown_point(picture: &Picture, oriented: Oriented, x: u32, y: u32) -> (u32, u32)
    requires size { HasSize picture.now }
    requires crop { LiesWithin oriented.crop picture.now.width picture.now.height }
    requires orient { oriented.orient ≤ 7 }
    requires inside { covers (box_of oriented.crop oriented.orient oriented.place) (pos x) (pos y) ≡ true }
    ensures column { pos result.0 ≡ (point_shown oriented.crop oriented.orient oriented.place (pos x) (pos y)).0 }
    ensures row { pos result.1 ≡ (point_shown oriented.crop oriented.orient oriented.place (pos x) (pos y)).1 }
{
    let crop = oriented.crop;
    let orient = oriented.orient;
    if is_sideways(orient) {
        let right = distance(x, oriented.place.0, crop.height);
        let down = distance(y, oriented.place.1, crop.width);
        (
            along(is_back_across(orient), crop.x, crop.width, down),
            along(is_back_down(orient), crop.y, crop.height, right),
        )
    } else {
        let right = distance(x, oriented.place.0, crop.width);
        let down = distance(y, oriented.place.1, crop.height);
        (
            along(is_back_across(orient), crop.x, crop.width, right),
            along(is_back_down(orient), crop.y, crop.height, down),
        )
    }
}

/// How many pixels further in the picture the pixel of the next column to the right stands.
pub fn step_of(picture: &Picture, orient: u8) -> i32
    requires size { HasSize picture.now }
    ensures { result ≡ step_of orient picture.now.width }
{
    let width = picture.width as i32;
    match (
        is_sideways(orient),
        is_back_down(orient),
        is_back_across(orient),
    ) {
        (true, true, _) => -width,
        (true, false, _) => width,
        (false, _, true) => -1,
        (false, _, false) => 1,
    }
}

/// The number of the pixel that a crop shows at a point of its box.
pub fn shown_number(picture: &Picture, oriented: Oriented, x: u32, y: u32) -> u32
    requires size { HasSize picture.now }
    requires crop { LiesWithin oriented.crop picture.now.width picture.now.height }
    requires orient { oriented.orient ≤ 7 }
    requires inside { covers (box_of oriented.crop oriented.orient oriented.place) (pos x) (pos y) ≡ true }
    ensures { result ≡ oriented_number picture.now oriented x y }
{
    let (column, row) = shown_point(picture, oriented, x, y);
    row * picture.width + column
}

/// Picks the pixels of an oriented crop at the points of a row from one on and before another.
pub fn pick_oriented(
    picture: &Painted,
    oriented: Oriented,
    y: u32,
    left: u32,
    right: u32,
    row: &mut [u8],
)
    requires crop { LiesWithin oriented.crop picture.now.width picture.now.height }
    requires orient { oriented.orient ≤ 7 }
    requires ordered { left < right }
    requires inside { (x : ℕ) → left ≤ x → x < right → covers (box_of oriented.crop oriented.orient oriented.place) (pos x) (pos y) ≡ true }
    requires size { length row.old ≡ 4 * (right - left) }
    ensures size { length row.new ≡ length row.old }
    ensures pixels { (k : ℕ) → k < right - left → pixel_in row.new k ≡ oriented_pixel picture.now oriented (left + k) y }
{
    let first = shown_number(picture.picture(), oriented, left, y);
    let step = step_of(picture.picture(), oriented.orient);
    pick_row(row, picture.bytes(), first, step);
}

/// Paints the points of a row from one on and before another, where the row starts at a pixel of the
/// frame. It picks them into a row of its own first.
fn paint_oriented_row(
    picture: &Painted,
    oriented: Oriented,
    picked: &mut [u8],
    frame: &mut [u8],
    row: RowSpan,
)
    requires crop { LiesWithin oriented.crop picture.now.width picture.now.height }
    requires orient { oriented.orient ≤ 7 }
    requires ordered { row.left < row.right }
    requires inside { (x : ℕ) → row.left ≤ x → x < row.right → covers (box_of oriented.crop oriented.orient oriented.place) (pos x) (pos row.y) ≡ true }
    requires few { 4 * (row.right - row.left) ≤ length picked.old }
    requires room { 4 * (row.start + row.right) ≤ length frame.old }
    ensures { PaintsRow row (over_oriented picture.now oriented) frame.old frame.new }
{
    let pixels = &mut picked[..4 * (row.right - row.left) as usize];
    pick_oriented(picture, oriented, row.y, row.left, row.right, pixels);
    paint_pixels(
        frame,
        row.start + row.left as usize,
        row.start + row.right as usize,
        pixels,
        oriented.opaque,
        oriented.alpha,
    );
}

/// Copies the points of such a row, and returns whether all of them hide what was there. If not,
/// some of them may be copied.
fn copy_oriented_row(
    picture: &Painted,
    oriented: Oriented,
    picked: &mut [u8],
    frame: &mut [u8],
    row: RowSpan,
) -> bool
    requires crop { LiesWithin oriented.crop picture.now.width picture.now.height }
    requires orient { oriented.orient ≤ 7 }
    requires ordered { row.left < row.right }
    requires inside { (x : ℕ) → row.left ≤ x → x < row.right → covers (box_of oriented.crop oriented.orient oriented.place) (pos x) (pos row.y) ≡ true }
    requires few { 4 * (row.right - row.left) ≤ length picked.old }
    requires room { 4 * (row.start + row.right) ≤ length frame.old }
    ensures touched { PaintsSpan frame.old frame.new (row.start + row.left) (row.start + row.right) (λ i under. pixel_in frame.new i) }
    ensures copied { IsTrue result → PaintsRowAnew row (at_full_alpha (oriented_pixel picture.now oriented)) frame.old frame.new }
{
    let pixels = &mut picked[..4 * (row.right - row.left) as usize];
    pick_oriented(picture, oriented, row.y, row.left, row.right, pixels);
    let start = row.start + row.left as usize;
    copy_pixels(frame, start, row.start + row.right as usize, pixels)
}

/// Paints an oriented crop over an area that its box has, row by row.
fn paint_oriented_rows(
    picture: &Painted,
    oriented: Oriented,
    picked: &mut [u8],
    frame: &mut [u8],
    band: Band,
    area: Area,
)
    requires crop { LiesWithin oriented.crop picture.now.width picture.now.height }
    requires orient { oriented.orient ≤ 7 }
    requires inside { (x y : ℕ) → is_in_area area x y ≡ true → covers (box_of oriented.crop oriented.orient oriented.place) (pos x) (pos y) ≡ true }
    requires few { 4 * (area.right - area.left) ≤ length picked.old }
    requires within { IsInBand band area }
    requires room { HasRows band frame.old }
    ensures { PaintsArea band area (over_oriented picture.now oriented) frame.old frame.new }
{
    if area.left >= area.right || area.top >= area.bottom {
        return;
    }
    for y in area.top..area.bottom {
        let start = row_start(band, y);
        let row = RowSpan {
            start,
            y,
            left: area.left,
            right: area.right,
        };
        paint_oriented_row(picture, oriented, picked, frame, row);
    }
}

/// Copies an oriented crop over an area that its box has, row by row, and returns whether each of
/// its pixels hides what was there. If not, some of them may be copied.
fn copy_oriented_rows(
    picture: &Painted,
    oriented: Oriented,
    picked: &mut [u8],
    frame: &mut [u8],
    band: Band,
    area: Area,
) -> bool
    requires crop { LiesWithin oriented.crop picture.now.width picture.now.height }
    requires orient { oriented.orient ≤ 7 }
    requires inside { (x y : ℕ) → is_in_area area x y ≡ true → covers (box_of oriented.crop oriented.orient oriented.place) (pos x) (pos y) ≡ true }
    requires few { 4 * (area.right - area.left) ≤ length picked.old }
    requires within { IsInBand band area }
    requires room { HasRows band frame.old }
    ensures spared { Spares band.width band.top (is_in_area area) frame.old frame.new }
    ensures copied { IsTrue result → PaintsAnew band area (at_full_alpha (oriented_pixel picture.now oriented)) frame.old frame.new }
{
    if area.left >= area.right || area.top >= area.bottom {
        return false;
    }
    for y in area.top..area.bottom {
        let start = row_start(band, y);
        let row = RowSpan {
            start,
            y,
            left: area.left,
            right: area.right,
        };
        if !copy_oriented_row(picture, oriented, picked, frame, row) {
            return false;
        }
    }
    true
}

/// How many columns of a crop with an orientation are painted at a time.
pub fn columns_at_once(orient: u8) -> u32
    ensures some { 1 ≤ result }
    ensures few { result ≤ 512 }
{
    if is_sideways(orient) {
        COLUMNS_SIDEWAYS
    } else {
        MOST_COLUMNS
    }
}

/// The columns of an area from one on, at most so many.
pub fn columns_from(area: Area, left: u32, columns: u32) -> Area
    requires some { 1 ≤ columns }
    requires inside { left < area.right }
    ensures left { result.left ≡ left }
    ensures top { result.top ≡ area.top }
    ensures bottom { result.bottom ≡ area.bottom }
    ensures more { left < result.right }
    ensures few { result.right - result.left ≤ columns }
    ensures right { result.right ≤ area.right }
{
    Area {
        left,
        right: left + columns.min(area.right - left),
        ..area
    }
}

/// Paints an oriented crop over an area that its box has, some columns after others.
pub fn paint_oriented(
    picture: &Painted,
    oriented: Oriented,
    frame: &mut [u8],
    band: Band,
    area: Area,
)
    requires crop { LiesWithin oriented.crop picture.now.width picture.now.height }
    requires orient { oriented.orient ≤ 7 }
    requires inside { (x y : ℕ) → is_in_area area x y ≡ true → covers (box_of oriented.crop oriented.orient oriented.place) (pos x) (pos y) ≡ true }
    requires within { IsInBand band area }
    requires room { HasRows band frame.old }
    ensures { PaintsArea band area (over_oriented picture.now oriented) frame.old frame.new }
{
    if area.left >= area.right || area.top >= area.bottom {
        return;
    }
    if oriented.alpha == 255 && picture.is_solid() {
        move_oriented(picture, oriented, frame, band, area);
        return;
    }
    let mut row = [0u8; 4 * MOST_COLUMNS as usize];
    let columns = columns_at_once(oriented.orient);
    let mut left = area.left;
    while left < area.right {
        let block = columns_from(area, left, columns);
        paint_oriented_rows(picture, oriented, &mut row, frame, band, block);
        left = block.right;
    }
}

/// Copies an oriented crop over an area that its box has, some columns after others, and returns
/// whether each of its pixels hides what was there. If not, some of them may be copied.
pub fn copy_oriented(
    picture: &Painted,
    oriented: Oriented,
    frame: &mut [u8],
    band: Band,
    area: Area,
) -> bool
    requires crop { LiesWithin oriented.crop picture.now.width picture.now.height }
    requires orient { oriented.orient ≤ 7 }
    requires inside { (x y : ℕ) → is_in_area area x y ≡ true → covers (box_of oriented.crop oriented.orient oriented.place) (pos x) (pos y) ≡ true }
    requires within { IsInBand band area }
    requires room { HasRows band frame.old }
    ensures spared { Spares band.width band.top (is_in_area area) frame.old frame.new }
    ensures copied { IsTrue result → PaintsAnew band area (at_full_alpha (oriented_pixel picture.now oriented)) frame.old frame.new }
{
    if area.left >= area.right || area.top >= area.bottom {
        return false;
    }
    if picture.is_solid() {
        move_oriented(picture, oriented, frame, band, area);
        return true;
    }
    let mut row = [0u8; 4 * MOST_COLUMNS as usize];
    let columns = columns_at_once(oriented.orient);
    let mut left = area.left;
    while left < area.right {
        let block = columns_from(area, left, columns);
        if !copy_oriented_rows(picture, oriented, &mut row, frame, band, block) {
            return false;
        }
        left = block.right;
    }
    true
}
