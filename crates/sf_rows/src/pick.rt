//! Picks a row of a turned or mirrored layer out of its buffer, before a kernel blends it.
ghost use Rattle.std.specs.Prelude.{◌≡◌, ℕ, ◌*◌, ◌%◌, ◌<◌, ◌≤◌, ◌^◌, pos, neg_ℤ, length};
ghost use Rattle.sf_base.specs.Bytes.{pixel_in};
ghost use Rattle.sf_rows.specs.Pixels.{HasPixel, picked, PickedBelow};

use crate::lanes::sixteen_back;
use sf_base::{Rgba, get_pixel, put_pixel};
use std::simd::prelude::*;

/// Picks a row of RGBA pixels out of others: pixel `k` becomes pixel `first + k * step` of the
/// source. So a step of -1 mirrors a row, and a step of a picture's width goes down a column.
///
/// Both have any number of whole pixels, and each pixel that is picked is in the source.
pub fn pick_row(dst: &mut [u8], src: &[u8], first: u32, step: i32)
    requires whole { length dst.old % 4 ≡ 0 }
    requires whole_source { length src.now % 4 ≡ 0 }
    requires inside { (k : ℕ) → 4 * k < length dst.old → HasPixel src.now (picked first step k) }
    ensures each_pixel { (k j : ℕ) → 4 * k < length dst.old → pos j ≡ picked first step k
        → pixel_in dst.new k ≡ pixel_in src.now j }
    ensures len { length dst.new ≡ length dst.old }
{
    let done = pick_neighbours(dst, src, first, step);
    for k in done..dst.len() / 4 {
        put_pixel(dst, k, picked_pixel(src, first, step, k));
    }
}

/// Picks pixels that stand beside one another, on or back, and says how many are picked.
#[inline(always)]
fn pick_neighbours(dst: &mut [u8], src: &[u8], first: u32, step: i32) -> usize
    requires whole { length dst.old % 4 ≡ 0 }
    requires whole_source { length src.now % 4 ≡ 0 }
    requires inside { (k : ℕ) → 4 * k < length dst.old → HasPixel src.now (picked first step k) }
    ensures len { length dst.new ≡ length dst.old }
    ensures picked { PickedBelow src.now first step result dst.new }
{
    match step {
        1 => pick_on(dst, src, first),
        -1 => pick_back(dst, src, first),
        _ => 0,
    }
}

/// Picks all pixels, each from behind the one before it: a copy.
#[inline(always)]
fn pick_on(dst: &mut [u8], src: &[u8], first: u32) -> usize
    requires whole { length dst.old % 4 ≡ 0 }
    requires whole_source { length src.now % 4 ≡ 0 }
    requires inside { (k : ℕ) → 4 * k < length dst.old → HasPixel src.now (picked first (pos 1) k) }
    ensures len { length dst.new ≡ length dst.old }
    ensures picked { PickedBelow src.now first (pos 1) result dst.new }
{
    if dst.is_empty() {
        return 0;
    }
    let from = 4 * first as usize;
    dst.copy_from_slice(&src[from..from + dst.len()]);
    dst.len() / 4
}

/// Picks pixels, each from before the one before it, as far as blocks of sixteen go, and says how many
/// are picked.
#[inline(always)]
fn pick_back(dst: &mut [u8], src: &[u8], first: u32) -> usize
    requires whole { length dst.old % 4 ≡ 0 }
    requires whole_source { length src.now % 4 ≡ 0 }
    requires inside { (k : ℕ) → 4 * k < length dst.old → HasPixel src.now (picked first (neg_ℤ (pos 1)) k) }
    ensures len { length dst.new ≡ length dst.old }
    ensures picked { PickedBelow src.now first (neg_ℤ (pos 1)) result dst.new }
{
    let mut at = 0;
    while dst.len() - at >= 64 {
        let from = 4 * first as usize - 60 - at;
        sixteen_back(u8x64::from_slice(&src[from..])).copy_to_slice(&mut dst[at..]);
        at += 64;
    }
    at / 4
}

/// The number of the pixel that is so many steps from the first one.
#[inline(always)]
#[tactic(auto, unfolding(crate::specs::Pixels::picked))]
pub fn number_at(src: &[u8], first: u32, step: i32, k: usize) -> usize
    requires few { k < 2 ^ 62 }
    requires inside { HasPixel src.now (picked first step k) }
    ensures { pos result ≡ picked first step k }
{
    let _ = src;
    let number = i64::from(first) + i64::from(step) * k as i64;
    number as usize
}

/// The pixel that is so many steps from the first one.
#[inline(always)]
fn picked_pixel(src: &[u8], first: u32, step: i32, k: usize) -> Rgba
    requires whole { length src.now % 4 ≡ 0 }
    requires few { k < 2 ^ 62 }
    requires inside { HasPixel src.now (picked first step k) }
    ensures { (j : ℕ) → pos j ≡ picked first step k → result ≡ pixel_in src.now j }
{
    get_pixel(src, number_at(src, first, step, k))
}
