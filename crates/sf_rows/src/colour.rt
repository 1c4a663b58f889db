//! The kernel for a row of one colour, which colour layers take.
ghost use Rattle.std.specs.Prelude.{◌≡◌, ℕ, ◌*◌, ◌%◌, ◌<◌, length, slice_index};
ghost use Rattle.sf_base.specs.Bytes.{pixel_in};
ghost use Rattle.sf_base.specs.Paint.{painted};
ghost use Rattle.sf_rows.specs.inner.Channels.{colour_channel, colour_part, PaintedPixels};

use crate::lanes::{four_pixels, four_times};
use crate::rest::paint_pixel;
use sf_base::Rgba;
use std::simd::prelude::*;

/// Paints one colour over each pixel of a row of RGBA bytes.
///
/// The colour is premultiplied, which is not checked: a channel that would pass 255 is 255.
/// `alpha` is the layer's, 0 to 255. The row has any number of whole pixels, none included.
pub fn blend_colour(dst: &mut [u8], colour: Rgba, alpha: u8)
    requires { length dst.old % 4 ≡ 0 }
    ensures each_pixel { (k : ℕ) → 4 * k < length dst.old
        → pixel_in dst.new k ≡ painted (pixel_in dst.old k) colour alpha }
    ensures len { length dst.new ≡ length dst.old }
{
    let done = blend_colour_blocks(dst, colour, alpha) / 4;
    for k in done..dst.len() / 4 {
        paint_pixel(dst, k, colour, alpha);
    }
}

/// Paints one colour as far as blocks of four pixels go, and says how many bytes are done.
#[inline(always)]
fn blend_colour_blocks(dst: &mut [u8], colour: Rgba, alpha: u8) -> usize
    ensures { PaintedPixels dst.old (colour_channel dst.old colour alpha) result dst.new }
{
    let lanes = four_times(colour);
    if alpha == 255 && colour.a == 255 {
        solid_blocks(dst, lanes, colour)
    } else {
        colour_blocks(dst, lanes, colour, alpha)
    }
}

/// Stores a solid colour, which hides what was there.
#[inline(always)]
fn solid_blocks(dst: &mut [u8], lanes: u8x16, colour: Rgba) -> usize
    requires each { (k : ℕ) → k < 16 → slice_index lanes k ≡ colour_part colour k }
    requires solid { colour.a ≡ 255 }
    ensures { PaintedPixels dst.old (colour_channel dst.old colour 255) result dst.new }
{
    let mut at = 0;
    while dst.len() - at >= 16 {
        lanes.copy_to_slice(&mut dst[at..]);
        at += 16;
    }
    at
}

/// Blends a colour.
#[inline(always)]
fn colour_blocks(dst: &mut [u8], lanes: u8x16, colour: Rgba, alpha: u8) -> usize
    requires each { (k : ℕ) → k < 16 → slice_index lanes k ≡ colour_part colour k }
    ensures { PaintedPixels dst.old (colour_channel dst.old colour alpha) result dst.new }
{
    let mut at = 0;
    while dst.len() - at >= 16 {
        let painted = four_pixels(u8x16::from_slice(&dst[at..]), lanes, alpha);
        painted.copy_to_slice(&mut dst[at..]);
        at += 16;
    }
    at
}
