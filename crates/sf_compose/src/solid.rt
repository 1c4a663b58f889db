//! Copies a row of pixels as long as they hide what was there.
ghost use Rattle.std.specs.Prelude.{◌≡◌, ℕ, ◌+◌, ◌*◌, ◌/◌, ◌%◌, ◌<◌, ◌≤◌, length, IsTrue};
ghost use Rattle.sf_compose.specs.inner.Solid.{CopiesBelow};

use sf_base::{get_pixel, put_pixel};
use sf_damage::sf_picture::are_solid;
use std::simd::prelude::*;

/// Copies pixels as long as each of sixteen has an alpha of 255, and says how many are copied.
#[inline(always)]
fn copy_blocks(dst: &mut [u8], src: &[u8]) -> usize
    requires { length src.now ≡ length dst.old }
    ensures size { length dst.new ≡ length dst.old }
    ensures copied { CopiesBelow result src.now dst.new }
{
    let mut at = 0;
    while dst.len() - at >= 64 {
        let pixels = u8x64::from_slice(&src[at..]);
        if !are_solid(pixels) {
            return at / 4;
        }
        pixels.copy_to_slice(&mut dst[at..]);
        at += 64;
    }
    at / 4
}

/// Copies a row of pixels over another of the same length, as long as their alphas are 255, and
/// returns whether that is all of them.
pub fn copy_solid(dst: &mut [u8], src: &[u8]) -> bool
    requires same { length src.now ≡ length dst.old }
    requires whole { length dst.old % 4 ≡ 0 }
    ensures size { length dst.new ≡ length dst.old }
    ensures copied { IsTrue result → CopiesBelow (length src.now / 4) src.now dst.new }
{
    let done = copy_blocks(dst, src);
    for k in done..src.len() / 4 {
        let pixel = get_pixel(src, k);
        if pixel.a != 255 {
            return false;
        }
        put_pixel(dst, k, pixel);
    }
    true
}
