//! Whether all pixels of a painted picture hide what lies below, asked once when it is painted.
ghost use Rattle.std.specs.Prelude.{◌≡◌, ℕ, ◌+◌, ◌*◌, ◌/◌, ◌<◌, ◌≤◌, ◌↔◌, length, slice_index, IsTrue};
ghost use Rattle.sf_picture.specs.Solid.{AreSolid};

use sf_base::get_pixel;
use std::simd::prelude::*;

/// Whether no lane is below the least word whose highest byte is 255.
#[inline(always)]
fn are_highest(words: u32x16) -> bool
    ensures { IsTrue result → (j : ℕ) → j < 16 → 4278190080 ≤ slice_index words j }
{
    words.simd_lt(u32x16::splat(0xff00_0000)).to_bitmask() == 0
}

/// Whether each of sixteen pixels has an alpha of 255.
#[inline(always)]
pub fn are_solid(pixels: u8x64) -> bool
    ensures { IsTrue result → (j : ℕ) → j < 16 → slice_index pixels (4 * j + 3) ≡ 255 }
{
    are_highest(u32x16::from_le_bytes(pixels))
}

/// How many pixels from the first on have an alpha of 255, as far as blocks of sixteen show.
fn solid_blocks(bytes: &[u8]) -> usize
    ensures within { 4 * result ≤ length bytes.now }
    ensures solid { AreSolid result bytes.now }
{
    let mut at = 0;
    while bytes.len() - at >= 64 {
        if !are_solid(u8x64::from_slice(&bytes[at..])) {
            return at / 4;
        }
        at += 64;
    }
    at / 4
}

/// Whether each pixel has an alpha of 255.
pub(crate) fn are_all_solid(bytes: &[u8]) -> bool
    ensures { IsTrue result ↔ AreSolid (length bytes.now / 4) bytes.now }
{
    for at in solid_blocks(bytes)..bytes.len() / 4 {
        if get_pixel(bytes, at).a != 255 {
            return false;
        }
    }
    true
}
