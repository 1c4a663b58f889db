//! The last pixels of a row, which blocks of four leave, one by one.
ghost use Rattle.std.specs.Prelude.{◌≡◌, ◌+◌, ◌*◌, ◌≤◌, length};
ghost use Rattle.sf_base.specs.Bytes.{FillsSpan, pixel_in};
ghost use Rattle.sf_base.specs.Paint.{painted};

use sf_base::{Rgba, get_pixel, over, put_pixel};

/// Paints one source over the pixel of this number.
#[inline(always)]
pub fn paint_pixel(row: &mut [u8], at: usize, source: Rgba, alpha: u8)
    requires { 4 * (at + 1) ≤ length row.old }
    ensures size { length row.new ≡ length row.old }
    ensures one { FillsSpan row.old row.new at (at + 1) (painted (pixel_in row.old at) source alpha) }
{
    put_pixel(row, at, over(get_pixel(row, at), source, alpha));
}
