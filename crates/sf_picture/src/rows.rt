//! Paints a picture row by row, each from the last fill to the first, so that each pixel is painted
//! once.
ghost use Rattle.std.specs.Prelude.{◌≡◌, ℕ, ◌+◌, ◌*◌, ◌<◌, ◌≤◌, length, pos, slice_index, nat_le, nat_lt, ◌&&◌};
ghost use Rattle.sf_base.specs.Formats.{seen_as};
ghost use Rattle.sf_base.specs.Geometry.{covers, is_within};
ghost use Rattle.sf_picture.specs.Pixels.{HasSize, ShowsPicture};
ghost use Rattle.sf_picture.specs.inner.Rows.{ArePainted, KeepsPainted, KeepsRows, LeapsOverPainted, Marks, PaintsBare, ShowsMarked, ShowsRow, ShowsRows};

use crate::cover::TRANSPARENT;
use crate::fill::Fill;
use crate::picture::Picture;
use sf_base::{Rgba, clipped, is_within, put_pixel, seen_as};

/// Sets the bare pixels of a row that starts at a pixel, from one on and before another.
///
/// `leaps` has for each pixel of the row a number of pixels, it and those behind it, that are
/// painted; 0 where it is bare.
fn paint_bare(
    bytes: &mut [u8],
    leaps: &mut [u16],
    first: usize,
    left: usize,
    right: usize,
    colour: Rgba,
)
    requires ordered { left ≤ right }
    requires within { right ≤ length leaps.old }
    requires few { length leaps.old ≤ 512 }
    requires room { 4 * (first + right) ≤ length bytes.old }
    requires leaps { LeapsOverPainted leaps.old }
    ensures marks { Marks leaps.old leaps.new left right }
    ensures paints { PaintsBare leaps.old bytes.old bytes.new first left right colour }
{
    let mut at = left;
    while at < right {
        let leap = usize::from(leaps[at]);
        if leap == 0 {
            put_pixel(bytes, first + at, colour);
            leaps[at] = (right - at) as u16;
            at += 1;
        } else if leap < right - at {
            leaps[at] = (right - at) as u16;
            at += leap;
        } else {
            at = right;
        }
    }
}

/// The first bare pixel of a row from one on, or their number.
fn first_bare(leaps: &[u16], from: usize) -> usize
    requires within { from ≤ length leaps.now }
    requires leaps { LeapsOverPainted leaps.now }
    requires painted { ArePainted leaps.now from }
    ensures within { result ≤ length leaps.now }
    ensures painted { ArePainted leaps.now result }
{
    let mut at = from;
    while at < leaps.len() {
        let leap = usize::from(leaps[at]);
        if leap == 0 {
            return at;
        }
        at = leaps.len().min(at + leap);
    }
    at
}

/// Whether a fill has a row.
fn has_row(fill: &Fill, y: u32) -> bool
    ensures { result ≡ is_within fill.now.rect.y fill.now.rect.height (pos y) }
{
    is_within(fill.rect.y, fill.rect.height, i64::from(y))
}

/// The columns of a row that a fill covers: from one on and before another.
fn columns_of(fill: &Fill, width: u32, y: u32) -> (u32, u32)
    ensures ordered { result.0 ≤ result.1 }
    ensures limited { result.1 ≤ width }
    ensures covers { (x : ℕ) → x < width → covers fill.now.rect (pos x) (pos y) ≡ (nat_le result.0 x && nat_lt x result.1) }
{
    if has_row(fill, y) {
        clipped(fill.rect.x, fill.rect.width, width)
    } else {
        (0, 0)
    }
}

/// Paints what a fill covers of a row and is bare.
fn paint_beneath(bytes: &mut [u8], leaps: &mut [u16], picture: &Picture, y: u32, at: usize)
    requires size { HasSize picture.now }
    requires room { length bytes.old ≡ 4 * (picture.now.width * picture.now.height) }
    requires row { y < picture.now.height }
    requires fill { at < length picture.now.fills }
    requires wide { length leaps.old ≡ picture.now.width }
    requires leaps { LeapsOverPainted leaps.old }
    requires shows { ShowsMarked picture.now (at + 1) y leaps.old bytes.old }
    ensures leaps { LeapsOverPainted leaps.new }
    ensures kept { KeepsPainted leaps.old leaps.new }
    ensures shows { ShowsMarked picture.now at y leaps.new bytes.new }
    ensures rows { KeepsRows picture.now.width y bytes.old bytes.new }
{
    let fill = &picture.fills.as_slice()[at];
    let (left, right) = columns_of(fill, picture.width, y);
    let first = y as usize * picture.width as usize;
    let colour = seen_as(picture.format, fill.colour);
    paint_bare(bytes, leaps, first, left as usize, right as usize, colour);
}

/// Paints what no fill covers of a row.
fn paint_rest(bytes: &mut [u8], leaps: &mut [u16], picture: &Picture, y: u32)
    requires size { HasSize picture.now }
    requires room { length bytes.old ≡ 4 * (picture.now.width * picture.now.height) }
    requires row { y < picture.now.height }
    requires wide { length leaps.old ≡ picture.now.width }
    requires leaps { LeapsOverPainted leaps.old }
    requires shows { ShowsMarked picture.now 0 y leaps.old bytes.old }
    ensures shows { ShowsRow picture.now y bytes.new }
    ensures rows { KeepsRows picture.now.width y bytes.old bytes.new }
{
    let first = y as usize * picture.width as usize;
    let ground = seen_as(picture.format, TRANSPARENT);
    paint_bare(bytes, leaps, first, 0, picture.width as usize, ground);
}

/// Marks each pixel of a row as bare.
fn clear(leaps: &mut [u16])
    ensures size { length leaps.new ≡ length leaps.old }
    ensures bare { (i : ℕ) → slice_index leaps.new i ≡ 0 }
{
    for at in 0..leaps.len() {
        leaps[at] = 0;
    }
}

/// Paints a row.
fn paint_row(bytes: &mut [u8], leaps: &mut [u16], picture: &Picture, y: u32)
    requires size { HasSize picture.now }
    requires room { length bytes.old ≡ 4 * (picture.now.width * picture.now.height) }
    requires row { y < picture.now.height }
    requires wide { length leaps.old ≡ picture.now.width }
    ensures shows { ShowsRow picture.now y bytes.new }
    ensures rows { KeepsRows picture.now.width y bytes.old bytes.new }
{
    clear(leaps);
    let mut bare = 0;
    let mut at = picture.fills.len();
    while at > 0 {
        at -= 1;
        paint_beneath(bytes, leaps, picture, y, at);
        bare = first_bare(leaps, bare);
        if bare == leaps.len() {
            return;
        }
    }
    paint_rest(bytes, leaps, picture, y);
}

/// Paints every pixel anew, each once.
pub(crate) fn paint_rows(bytes: &mut [u8], picture: &Picture)
    requires size { HasSize picture.now }
    requires room { length bytes.old ≡ 4 * (picture.now.width * picture.now.height) }
    ensures { ShowsPicture picture.now bytes.new }
{
    let mut table = [0u16; 512];
    let leaps = &mut table[..picture.width as usize];
    for y in 0..picture.height {
        paint_row(bytes, leaps, picture, y);
    }
}

/// Whether the fills of a picture cover so much that it is faster to paint each pixel once: a pixel
/// that is looked up costs about twelve that are filled.
pub(crate) fn is_faster_by_rows(picture: &Picture) -> bool {
    let mut filled: u64 = 0;
    for fill in picture.fills.as_slice() {
        let (left, right) = clipped(fill.rect.x, fill.rect.width, picture.width);
        let (top, bottom) = clipped(fill.rect.y, fill.rect.height, picture.height);
        filled = filled.saturating_add(u64::from(right - left) * u64::from(bottom - top));
    }
    let looked_at = (picture.fills.len() as u64).saturating_add(u64::from(picture.width));
    filled / 12 > looked_at.saturating_mul(u64::from(picture.height))
}
