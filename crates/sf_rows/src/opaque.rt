//! The kernel for a row of pixels whose own alpha does not count, which opaque layers take.
ghost use Rattle.std.specs.Prelude.{◌≡◌, ℕ, ◌*◌, ◌%◌, ◌<◌, length};
ghost use Rattle.sf_base.specs.Bytes.{pixel_in};
ghost use Rattle.sf_base.specs.Paint.{painted};
ghost use Rattle.sf_rows.specs.inner.Channels.{opaque_channel, PaintedPixels};
ghost use Rattle.sf_rows.specs.Pixels.{opaque_pixel};

use crate::lanes::{four_opaque_pixels, four_opaque_whole};
use crate::rest::paint_pixel;
use sf_base::{Rgba, get_pixel};
use std::simd::prelude::*;

/// Paints a row of RGBA pixels, each taken as opaque, over another of the same length.
///
/// What stands in the sources' alpha bytes plays no part. `alpha` is the layer's, 0 to 255; at
/// 255 the row becomes the sources with alphas of 255. The rows have any number of whole pixels,
/// none included.
pub fn blend_row_opaque(dst: &mut [u8], src: &[u8], alpha: u8)
    requires same { length src.now ≡ length dst.old }
    requires whole { length dst.old % 4 ≡ 0 }
    ensures each_pixel { (k : ℕ) → 4 * k < length dst.old
        → pixel_in dst.new k ≡ painted (pixel_in dst.old k) (opaque_pixel (pixel_in src.now k)) alpha }
    ensures len { length dst.new ≡ length dst.old }
{
    let done = blend_opaque_blocks(dst, src, alpha) / 4;
    for k in done..dst.len() / 4 {
        let source = Rgba {
            a: 255,
            ..get_pixel(src, k)
        };
        paint_pixel(dst, k, source, alpha);
    }
}

/// Paints a row of opaque sources as far as blocks of four pixels go, and says how many bytes
/// are done.
#[inline(always)]
fn blend_opaque_blocks(dst: &mut [u8], src: &[u8], alpha: u8) -> usize
    requires { length src.now ≡ length dst.old }
    ensures { PaintedPixels dst.old (opaque_channel dst.old src.now alpha) result dst.new }
{
    if alpha == 255 {
        opaque_whole_blocks(dst, src)
    } else {
        opaque_blocks(dst, src, alpha)
    }
}

/// The same where the layer has no alpha of its own: a copy with whole alphas.
#[inline(always)]
fn opaque_whole_blocks(dst: &mut [u8], src: &[u8]) -> usize
    requires { length src.now ≡ length dst.old }
    ensures { PaintedPixels dst.old (opaque_channel dst.old src.now 255) result dst.new }
{
    let mut at = 0;
    while dst.len() - at >= 16 {
        let painted = four_opaque_whole(
            u8x16::from_slice(&dst[at..]),
            u8x16::from_slice(&src[at..]),
        );
        painted.copy_to_slice(&mut dst[at..]);
        at += 16;
    }
    at
}

/// Paints sources whose alphas are taken as 255, four pixels at a time, and says how many bytes
/// are done.
#[inline(always)]
fn opaque_blocks(dst: &mut [u8], src: &[u8], alpha: u8) -> usize
    requires { length src.now ≡ length dst.old }
    ensures { PaintedPixels dst.old (opaque_channel dst.old src.now alpha) result dst.new }
{
    let mut at = 0;
    while dst.len() - at >= 16 {
        let painted = four_opaque_pixels(
            u8x16::from_slice(&dst[at..]),
            u8x16::from_slice(&src[at..]),
            alpha,
        );
        painted.copy_to_slice(&mut dst[at..]);
        at += 16;
    }
    at
}
