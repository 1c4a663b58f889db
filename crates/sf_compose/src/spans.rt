//! The pixels of one row of a frame, painted by the kernels of `sf_rows`.
ghost use Rattle.std.specs.Prelude.{◌≡◌, ℕ, ◌+◌, ◌-◌, ◌*◌, ◌≤◌, length, IsTrue};
ghost use Rattle.sf_base.specs.Paint.{painted};
ghost use Rattle.sf_compose.specs.inner.Painting.{PaintsSpan, PaintsSpanAnew};
ghost use Rattle.sf_base.specs.Bytes.{pixel_in};
ghost use Rattle.sf_damage.specs.sf_view.Contents.{source_of};

use crate::solid::copy_solid;
use sf_base::Rgba;
use sf_rows::{blend_colour, blend_row, blend_row_opaque};

// Points of a row of a frame: those of row `y` from one on and before another. The row starts at a pixel
// of the frame.
#[derive(Clone, Copy)]
pub struct RowSpan {
    pub start: usize,
    pub y: u32,
    pub left: u32,
    pub right: u32,
}

/// Paints a colour over the pixels from one number on and before another.
pub fn paint_colour(frame: &mut [u8], start: usize, end: usize, colour: Rgba, alpha: u8)
    requires ordered { start ≤ end }
    requires within { 4 * end ≤ length frame.old }
    ensures { PaintsSpan frame.old frame.new start end (λ i under. painted under colour alpha) }
{
    blend_colour(&mut frame[4 * start..4 * end], colour, alpha);
}

/// Paints pixels, which may count as opaque, over those from one number on and before another.
pub fn paint_pixels(frame: &mut [u8], start: usize, end: usize, row: &[u8], opaque: bool, alpha: u8)
    requires ordered { start ≤ end }
    requires within { 4 * end ≤ length frame.old }
    requires same { length row.now ≡ 4 * end - 4 * start }
    ensures { PaintsSpan frame.old frame.new start end
        (λ i under. painted under (source_of opaque (pixel_in row.now (i - start))) alpha) }
{
    let target = &mut frame[4 * start..4 * end];
    if opaque {
        blend_row_opaque(target, row, alpha);
    } else {
        blend_row(target, row, alpha);
    }
}

/// Moves pixels over those from one number on and before another.
pub fn move_pixels(frame: &mut [u8], start: usize, end: usize, row: &[u8])
    requires ordered { start ≤ end }
    requires within { 4 * end ≤ length frame.old }
    requires same { length row.now ≡ 4 * end - 4 * start }
    ensures { PaintsSpan frame.old frame.new start end (λ i under. pixel_in row.now (i - start)) }
{
    frame[4 * start..4 * end].copy_from_slice(row);
}

/// Moves pixels over others. It is not inlined: a loop over rows that calls it keeps what it needs in
/// registers, and the copy looks at both rows itself.
#[inline(never)]
fn move_row(row: &mut [u8], pixels: &[u8])
    requires { length row.old ≡ length pixels.now }
    ensures len { length row.new ≡ length row.old }
    ensures after { row.new ≡ pixels.now }
{
    row.copy_from_slice(pixels);
}

/// Moves so many pixels of others, from one number on, over those from a number on.
pub fn move_part(frame: &mut [u8], to: usize, pixels: &[u8], from: usize, count: usize)
    requires room { 4 * (to + count) ≤ length frame.old }
    requires within { 4 * (from + count) ≤ length pixels.now }
    ensures { PaintsSpan frame.old frame.new to (to + count) (λ i under. pixel_in pixels.now (from + (i - to))) }
{
    move_row(
        &mut frame[4 * to..4 * (to + count)],
        &pixels[4 * from..4 * (from + count)],
    );
}

/// Copies pixels over those from one number on and before another, and returns whether all of them
/// hide what was there. If not, some of them may be copied.
pub fn copy_pixels(frame: &mut [u8], start: usize, end: usize, row: &[u8]) -> bool
    requires ordered { start ≤ end }
    requires within { 4 * end ≤ length frame.old }
    requires same { length row.now ≡ 4 * end - 4 * start }
    ensures touched { PaintsSpan frame.old frame.new start end (λ i under. pixel_in frame.new i) }
    ensures copied { IsTrue result → PaintsSpanAnew frame.old frame.new start end (λ i under. painted under (pixel_in row.now (i - start)) 255) }
{
    copy_solid(&mut frame[4 * start..4 * end], row)
}
