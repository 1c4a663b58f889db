//! Copies oriented crops of pictures that hide what lies below.
ghost use Rattle.std.specs.Prelude.{◌≡◌, ◌+◌, ◌-◌, ◌*◌, ◌%◌, ◌<◌, ◌≤◌, ℕ, if◌then◌else◌, length, pos, true};
ghost use Rattle.sf_base.specs.Geometry.{covers, LiesWithin};
ghost use Rattle.sf_compose.specs.inner.Bands.{HasRows, IsInBand};
ghost use Rattle.sf_compose.specs.inner.Moving.{Moves, MovesSpan};
ghost use Rattle.sf_compose.specs.inner.Orientations.{oriented_pixel};
ghost use Rattle.sf_compose.specs.inner.Painting.{is_in_area};
ghost use Rattle.sf_damage.specs.sf_picture.Solid.{IsSolid};
ghost use Rattle.sf_damage.specs.sf_view.Boxes.{box_of, is_sideways};

use crate::area::Area;
use crate::band::{Band, row_start};
use crate::oriented::{
    Oriented, columns_at_once, columns_from, is_back_across, is_sideways, pick_oriented,
    shown_number, step_of,
};
use crate::spans::RowSpan;
use sf_damage::sf_picture::Painted;
use sf_rows::{FourRows, pick_four_rows};

/// Moves the points of a row from one on and before another, where the row starts at a pixel of the
/// frame.
fn move_oriented_row(picture: &Painted, oriented: Oriented, frame: &mut [u8], row: RowSpan)
    requires crop { LiesWithin oriented.crop picture.now.width picture.now.height }
    requires orient { oriented.orient ≤ 7 }
    requires solid { IsSolid picture.now }
    requires ordered { row.left < row.right }
    requires inside { (x : ℕ) → row.left ≤ x → x < row.right → covers (box_of oriented.crop oriented.orient oriented.place) (pos x) (pos row.y) ≡ true }
    requires room { 4 * (row.start + row.right) ≤ length frame.old }
    ensures { MovesSpan frame.old frame.new (row.start + row.left) (row.start + row.right) (λ i. oriented_pixel picture.now oriented (i - row.start) row.y) }
{
    let from = 4 * (row.start + row.left as usize);
    let to = 4 * (row.start + row.right as usize);
    let pixels = &mut frame[from..to];
    pick_oriented(picture, oriented, row.y, row.left, row.right, pixels);
}

/// Moves an oriented crop of a solid picture over an area that its box has, which may have no points,
/// row by row.
fn move_oriented_rows(
    picture: &Painted,
    oriented: Oriented,
    frame: &mut [u8],
    band: Band,
    area: Area,
)
    requires crop { LiesWithin oriented.crop picture.now.width picture.now.height }
    requires orient { oriented.orient ≤ 7 }
    requires solid { IsSolid picture.now }
    requires inside { (x y : ℕ) → is_in_area area x y ≡ true → covers (box_of oriented.crop oriented.orient oriented.place) (pos x) (pos y) ≡ true }
    requires within { IsInBand band area }
    requires room { HasRows band frame.old }
    ensures { Moves (oriented_pixel picture.now oriented) band area frame.old frame.new }
{
    if area.left >= area.right || area.top >= area.bottom {
        return;
    }
    for y in area.top..area.bottom {
        let start = row_start(band, y);
        let row = RowSpan {
            start,
            y,
            left: area.left,
            right: area.right,
        };
        move_oriented_row(picture, oriented, frame, row);
    }
}

/// Of four rows from one on, the row whose pixels have the lowest numbers in the picture.
fn lowest_row(back: bool, top: u32) -> u32
    requires { top + 3 < 4294967296 }
    ensures { result ≡ (if back then top + 3 else top) }
{
    if back { top + 3 } else { top }
}

/// Moves four rows of a crop that stands on its side, and of a solid picture.
fn move_four_rows(picture: &Painted, oriented: Oriented, frame: &mut [u8], band: Band, area: Area)
    requires crop { LiesWithin oriented.crop picture.now.width picture.now.height }
    requires orient { oriented.orient ≤ 7 }
    requires side { is_sideways oriented.orient ≡ true }
    requires solid { IsSolid picture.now }
    requires across { area.left < area.right }
    requires columns { (area.right - area.left) % 4 ≡ 0 }
    requires rows { area.bottom ≡ area.top + 4 }
    requires inside { (x y : ℕ) → is_in_area area x y ≡ true → covers (box_of oriented.crop oriented.orient oriented.place) (pos x) (pos y) ≡ true }
    requires within { IsInBand band area }
    requires room { HasRows band frame.old }
    ensures { Moves (oriented_pixel picture.now oriented) band area frame.old frame.new }
{
    let back = is_back_across(oriented.orient);
    let row = lowest_row(back, area.top);
    let first = shown_number(picture.picture(), oriented, area.left, row);
    let step = step_of(picture.picture(), oriented.orient);
    let rows = FourRows {
        start: row_start(band, area.top) + area.left as usize,
        apart: band.width as usize,
        length: (area.right - area.left) as usize,
    };
    pick_four_rows(frame, rows, picture.bytes(), first, step, back);
}

/// Moves the rows of such a crop over an area, four after four.
fn move_fours(picture: &Painted, oriented: Oriented, frame: &mut [u8], band: Band, area: Area)
    requires crop { LiesWithin oriented.crop picture.now.width picture.now.height }
    requires orient { oriented.orient ≤ 7 }
    requires side { is_sideways oriented.orient ≡ true }
    requires solid { IsSolid picture.now }
    requires down { area.top ≤ area.bottom }
    requires columns { (area.right - area.left) % 4 ≡ 0 }
    requires rows { (area.bottom - area.top) % 4 ≡ 0 }
    requires inside { (x y : ℕ) → is_in_area area x y ≡ true → covers (box_of oriented.crop oriented.orient oriented.place) (pos x) (pos y) ≡ true }
    requires within { IsInBand band area }
    requires room { HasRows band frame.old }
    ensures { Moves (oriented_pixel picture.now oriented) band area frame.old frame.new }
{
    if area.left >= area.right {
        return;
    }
    let mut top = area.top;
    while top < area.bottom {
        let bottom = top + 4;
        let rows = Area {
            top,
            bottom,
            ..area
        };
        move_four_rows(picture, oriented, frame, band, rows);
        top = bottom;
    }
}

/// Moves a crop that stands on its side over an area: by fours, then the columns and the rows that are
/// left.
fn move_sideways(picture: &Painted, oriented: Oriented, frame: &mut [u8], band: Band, area: Area)
    requires crop { LiesWithin oriented.crop picture.now.width picture.now.height }
    requires orient { oriented.orient ≤ 7 }
    requires side { is_sideways oriented.orient ≡ true }
    requires solid { IsSolid picture.now }
    requires across { area.left < area.right }
    requires down { area.top < area.bottom }
    requires inside { (x y : ℕ) → is_in_area area x y ≡ true → covers (box_of oriented.crop oriented.orient oriented.place) (pos x) (pos y) ≡ true }
    requires within { IsInBand band area }
    requires room { HasRows band frame.old }
    ensures { Moves (oriented_pixel picture.now oriented) band area frame.old frame.new }
{
    let right = area.right - (area.right - area.left) % 4;
    let bottom = area.bottom - (area.bottom - area.top) % 4;
    let fours = Area {
        right,
        bottom,
        ..area
    };
    let beside = Area {
        left: right,
        bottom,
        ..area
    };
    let below = Area {
        top: bottom,
        ..area
    };
    move_fours(picture, oriented, frame, band, fours);
    move_oriented_rows(picture, oriented, frame, band, beside);
    move_oriented_rows(picture, oriented, frame, band, below);
}

/// Moves an oriented crop of a solid picture over an area: by fours where it stands on its side, else row
/// by row.
fn move_block(picture: &Painted, oriented: Oriented, frame: &mut [u8], band: Band, area: Area)
    requires crop { LiesWithin oriented.crop picture.now.width picture.now.height }
    requires orient { oriented.orient ≤ 7 }
    requires solid { IsSolid picture.now }
    requires across { area.left < area.right }
    requires down { area.top < area.bottom }
    requires inside { (x y : ℕ) → is_in_area area x y ≡ true → covers (box_of oriented.crop oriented.orient oriented.place) (pos x) (pos y) ≡ true }
    requires within { IsInBand band area }
    requires room { HasRows band frame.old }
    ensures { Moves (oriented_pixel picture.now oriented) band area frame.old frame.new }
{
    if is_sideways(oriented.orient) {
        move_sideways(picture, oriented, frame, band, area);
        return;
    }
    move_oriented_rows(picture, oriented, frame, band, area);
}

/// Moves an oriented crop of a solid picture over an area that its box has, some columns after others.
pub fn move_oriented(
    picture: &Painted,
    oriented: Oriented,
    frame: &mut [u8],
    band: Band,
    area: Area,
)
    requires crop { LiesWithin oriented.crop picture.now.width picture.now.height }
    requires orient { oriented.orient ≤ 7 }
    requires solid { IsSolid picture.now }
    requires across { area.left < area.right }
    requires down { area.top < area.bottom }
    requires inside { (x y : ℕ) → is_in_area area x y ≡ true → covers (box_of oriented.crop oriented.orient oriented.place) (pos x) (pos y) ≡ true }
    requires within { IsInBand band area }
    requires room { HasRows band frame.old }
    ensures { Moves (oriented_pixel picture.now oriented) band area frame.old frame.new }
{
    let columns = columns_at_once(oriented.orient);
    let mut left = area.left;
    while left < area.right {
        let block = columns_from(area, left, columns);
        move_block(picture, oriented, frame, band, block);
        left = block.right;
    }
}
