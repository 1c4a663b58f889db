//! The kernel for a row of premultiplied pixels, which most layers with buffers take.
ghost use Rattle.std.specs.Prelude.{◌≡◌, ℕ, ◌*◌, ◌%◌, ◌<◌, length};
ghost use Rattle.sf_base.specs.Bytes.{pixel_in};
ghost use Rattle.sf_base.specs.Paint.{painted};
ghost use Rattle.sf_rows.specs.inner.Channels.{row_channel, PaintedPixels};

use crate::lanes::{are_solid, four_pixels, four_whole_pixels};
use crate::rest::paint_pixel;
use sf_base::get_pixel;
use std::simd::prelude::*;

/// Paints a row of RGBA pixels over another of the same length, pixel by pixel.
///
/// The sources are premultiplied, which is not checked: a channel that would pass 255 is 255.
/// `alpha` is the layer's, 0 to 255. The rows have any number of whole pixels, none included.
pub fn blend_row(dst: &mut [u8], src: &[u8], alpha: u8)
    requires same { length src.now ≡ length dst.old }
    requires whole { length dst.old % 4 ≡ 0 }
    ensures each_pixel { (k : ℕ) → 4 * k < length dst.old
        → pixel_in dst.new k ≡ painted (pixel_in dst.old k) (pixel_in src.now k) alpha }
    ensures len { length dst.new ≡ length dst.old }
{
    let done = blend_row_blocks(dst, src, alpha) / 4;
    for k in done..dst.len() / 4 {
        paint_pixel(dst, k, get_pixel(src, k), alpha);
    }
}

/// Paints a row of sources as far as blocks of four pixels go, and says how many bytes are done.
#[inline(always)]
fn blend_row_blocks(dst: &mut [u8], src: &[u8], alpha: u8) -> usize
    requires { length src.now ≡ length dst.old }
    ensures { PaintedPixels dst.old (row_channel dst.old src.now alpha) result dst.new }
{
    if alpha == 255 {
        row_whole_blocks(dst, src)
    } else {
        row_blocks(dst, src, alpha)
    }
}

/// The same where the layer has no alpha of its own: a copy, as far as the sources are solid.
#[inline(always)]
fn row_whole_blocks(dst: &mut [u8], src: &[u8]) -> usize
    requires { length src.now ≡ length dst.old }
    ensures { PaintedPixels dst.old (row_channel dst.old src.now 255) result dst.new }
{
    let mut at = row_solid_blocks(dst, src);
    while dst.len() - at >= 16 {
        let painted = four_whole_pixels(
            u8x16::from_slice(&dst[at..]),
            u8x16::from_slice(&src[at..]),
        );
        painted.copy_to_slice(&mut dst[at..]);
        at += 16;
    }
    at
}

/// Copies sources as long as each of four pixels has an alpha of 255, and says how many bytes are done.
#[inline(always)]
fn row_solid_blocks(dst: &mut [u8], src: &[u8]) -> usize
    requires { length src.now ≡ length dst.old }
    ensures { PaintedPixels dst.old (row_channel dst.old src.now 255) result dst.new }
{
    let mut at = 0;
    while dst.len() - at >= 16 {
        let block = u8x16::from_slice(&src[at..]);
        if !are_solid(block) {
            return at;
        }
        block.copy_to_slice(&mut dst[at..]);
        at += 16;
    }
    at
}

/// Paints sources over destinations, four pixels at a time, and says how many bytes are done.
#[inline(always)]
fn row_blocks(dst: &mut [u8], src: &[u8], alpha: u8) -> usize
    requires { length src.now ≡ length dst.old }
    ensures { PaintedPixels dst.old (row_channel dst.old src.now alpha) result dst.new }
{
    let mut at = 0;
    while dst.len() - at >= 16 {
        let painted = four_pixels(
            u8x16::from_slice(&dst[at..]),
            u8x16::from_slice(&src[at..]),
            alpha,
        );
        painted.copy_to_slice(&mut dst[at..]);
        at += 16;
    }
    at
}
