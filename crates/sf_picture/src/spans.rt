//! Paints one fill of a picture, row by row.
ghost use Rattle.std.specs.Prelude.{◌≡◌, ◌*◌, ◌<◌, ◌≤◌, ℕ, length, pos, true};
ghost use Rattle.sf_base.specs.Bytes.{FillsSpan};
ghost use Rattle.sf_base.specs.Formats.{seen_as};
ghost use Rattle.sf_base.specs.Geometry.{is_within};
ghost use Rattle.sf_picture.specs.inner.Spans.{CoversAll, EndsCovered, PaintsFill};

use crate::fill::Fill;
use sf_base::{Format, Rgba, clipped, put_pixel, seen_as};

/// Sets the pixels numbered from `start` and below `end`.
pub(crate) fn fill_span(bytes: &mut [u8], start: usize, end: usize, colour: Rgba)
    requires ordered { start ≤ end }
    requires within { 4 * end ≤ length bytes.old }
    ensures { FillsSpan bytes.old bytes.new start end colour }
{
    for at in start..end {
        put_pixel(bytes, at, colour);
    }
}

/// Whether all below a limit is within a range.
fn spans_all(start: i32, extent: u32, limit: u32) -> bool
    ensures { result ≡ true → (at : ℕ) → at < limit → is_within start extent (pos at) ≡ true }
{
    let (first, end) = clipped(start, extent, limit);
    first == 0 && end == limit
}

/// Whether a fill covers every pixel of a picture of this size.
pub(crate) fn covers_all(fill: &Fill, width: u32, height: u32) -> bool
    ensures { result ≡ true → CoversAll fill.now.rect width height }
{
    spans_all(fill.rect.x, fill.rect.width, width)
        && spans_all(fill.rect.y, fill.rect.height, height)
}

/// How many fills there are up to the last one that covers every pixel; 0 where none does.
pub(crate) fn count_covered(fills: &[Fill], width: u32, height: u32) -> usize
    ensures { EndsCovered fills.now result width height }
{
    let mut count = fills.len();
    while count > 0 {
        if covers_all(&fills[count - 1], width, height) {
            return count;
        }
        count -= 1;
    }
    0
}

/// Fills what lies inside a picture of this size and format, row by row.
pub(crate) fn paint_fill(bytes: &mut [u8], width: u32, height: u32, format: Format, fill: &Fill)
    requires wide { width ≤ 512 }
    requires high { height ≤ 512 }
    requires size { length bytes.old ≡ 4 * (width * height) }
    ensures { PaintsFill bytes.old bytes.new width height fill.now.rect (seen_as format fill.now.colour) }
{
    let colour = seen_as(format, fill.colour);
    let (left, right) = clipped(fill.rect.x, fill.rect.width, width);
    let (top, bottom) = clipped(fill.rect.y, fill.rect.height, height);
    for y in top..bottom {
        let row = y as usize * width as usize;
        fill_span(bytes, row + left as usize, row + right as usize, colour);
    }
}
