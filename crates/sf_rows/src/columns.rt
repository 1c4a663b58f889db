//! Picks four rows at once of a layer that stands on its side. In the buffer the four pixels of a
//! column stand beside one another, so a column is one load, and two columns are four stores.
ghost use Rattle.std.specs.Prelude.{◌≡◌, ℕ, ◌+◌, ◌-◌, ◌*◌, ◌%◌, ◌<◌, ◌≤◌, ◌^◌, if◌then◌else◌, length, pos};
ghost use Rattle.sf_base.specs.Bytes.{pixel_in};
ghost use Rattle.sf_rows.specs.Pixels.{column_pixel, HasPixel, LiesBeside, picked, PicksColumns};
ghost use Rattle.sf_rows.specs.inner.Pairs.{HasPair, row_of};

use crate::lanes::{first_half, first_pairs, last_half, last_pairs};
use crate::pick::number_at;
use std::simd::prelude::*;

/// Four rows of pixels of a frame: the number of the first one's first pixel, how many pixels further
/// each begins than the one before it, and how many each has.
#[derive(Clone, Copy)]
pub struct FourRows {
    pub start: usize,
    pub apart: usize,
    pub length: usize,
}

// What four rows show: the number of the source's pixel that the first of them begins with, how many pixels
// further the next column stands, and whether the rows go back.
#[derive(Clone, Copy)]
struct Columns {
    first: u32,
    step: i32,
    back: bool,
}

// Two pixels of each of four rows.
#[derive(Clone, Copy)]
struct Pairs {
    first: u8x8,
    second: u8x8,
    third: u8x8,
    fourth: u8x8,
}

/// Picks four rows of RGBA pixels at once: pixel `k` of row `r` becomes pixel `first + r + k * step` of
/// the source, and of row `3 - r` where the rows go back.
///
/// Each row has a number of pixels that fours leave nothing of, and each pixel that is picked is in
/// the source. What does not lie in the rows stays as it is.
pub fn pick_four_rows(dst: &mut [u8], rows: FourRows, src: &[u8], first: u32, step: i32, back: bool)
    requires whole_source { length src.now % 4 ≡ 0 }
    requires small { first + 3 < 2 ^ 32 }
    requires fours { rows.length % 4 ≡ 0 }
    requires apart { rows.length ≤ rows.apart }
    requires few { rows.length < 2 ^ 62 }
    requires room { 4 * (rows.start + 3 * rows.apart + rows.length) ≤ length dst.old }
    requires low { (k : ℕ) → k < rows.length → HasPixel src.now (picked first step k) }
    requires high { (k : ℕ) → k < rows.length → HasPixel src.now (picked (first + 3) step k) }
    ensures { PicksColumns rows.start rows.apart src.now (column_pixel first step back 0) rows.length dst.old dst.new }
{
    if back {
        let columns = Columns {
            first,
            step,
            back: true,
        };
        pick_columns(dst, rows, src, columns);
    } else {
        let columns = Columns {
            first,
            step,
            back: false,
        };
        pick_columns(dst, rows, src, columns);
    }
}

/// Picks all columns of four rows, two pairs of them at a time.
#[inline(always)]
fn pick_columns(dst: &mut [u8], rows: FourRows, src: &[u8], columns: Columns)
    requires whole_source { length src.now % 4 ≡ 0 }
    requires small { columns.first + 3 < 2 ^ 32 }
    requires fours { rows.length % 4 ≡ 0 }
    requires apart { rows.length ≤ rows.apart }
    requires few { rows.length < 2 ^ 62 }
    requires room { 4 * (rows.start + 3 * rows.apart + rows.length) ≤ length dst.old }
    requires low { (k : ℕ) → k < rows.length → HasPixel src.now (picked columns.first columns.step k) }
    requires high { (k : ℕ) → k < rows.length → HasPixel src.now (picked (columns.first + 3) columns.step k) }
    ensures { PicksColumns rows.start rows.apart src.now (column_pixel columns.first columns.step columns.back 0) rows.length dst.old dst.new }
{
    let mut k = 0;
    while k < rows.length {
        pick_pair(dst, rows, src, columns, k);
        pick_pair(dst, rows, src, columns, k + 2);
        k += 4;
    }
}

/// Picks two columns of four rows, from a number on.
#[inline(always)]
fn pick_pair(dst: &mut [u8], rows: FourRows, src: &[u8], columns: Columns, k: usize)
    requires whole_source { length src.now % 4 ≡ 0 }
    requires apart { 2 ≤ rows.apart }
    requires few { k + 2 < 2 ^ 62 }
    requires room { 4 * (rows.start + 3 * rows.apart + (k + 2)) ≤ length dst.old }
    requires low { (j : ℕ) → j < 2 → HasPixel src.now (picked columns.first columns.step (k + j)) }
    requires high { (j : ℕ) → j < 2 → HasPixel src.now (picked (columns.first + 3) columns.step (k + j)) }
    ensures { PicksColumns (rows.start + k) rows.apart src.now (column_pixel columns.first columns.step columns.back k) 2 dst.old dst.new }
{
    let left = column_at(src, columns.first, columns.step, k);
    let right = column_at(src, columns.first, columns.step, k + 1);
    let pairs = ordered(pairs_of(left, right), columns.back);
    put_pairs(dst, rows.start + k, rows.apart, pairs);
}

/// The pixels of two columns, row by row.
#[inline(always)]
fn pairs_of(left: u8x16, right: u8x16) -> Pairs
    ensures { (row : ℕ) → row < 4 → HasPair left right row (row_of result row) }
{
    let upper = first_pairs(left, right);
    let lower = last_pairs(left, right);
    let first = first_half(upper);
    let second = last_half(upper);
    let third = first_half(lower);
    let fourth = last_half(lower);
    Pairs {
        first,
        second,
        third,
        fourth,
    }
}

/// These pairs, from the last row on if the rows go back.
#[inline(always)]
fn ordered(pairs: Pairs, back: bool) -> Pairs
    ensures { (row : ℕ) → row < 4 → row_of result row ≡ row_of pairs (if back then 3 - row else row) }
{
    if back {
        Pairs {
            first: pairs.fourth,
            second: pairs.third,
            third: pairs.second,
            fourth: pairs.first,
        }
    } else {
        pairs
    }
}

/// The four pixels of a column.
#[inline(always)]
fn column_at(src: &[u8], first: u32, step: i32, k: usize) -> u8x16
    requires whole { length src.now % 4 ≡ 0 }
    requires few { k < 2 ^ 62 }
    requires low { HasPixel src.now (picked first step k) }
    requires high { HasPixel src.now (picked (first + 3) step k) }
    ensures { (r j : ℕ) → r < 4 → pos j ≡ picked (first + r) step k → pixel_in result r ≡ pixel_in src.now j }
{
    let from = 4 * number_at(src, first, step, k);
    u8x16::from_slice(&src[from..])
}

/// Stores two pixels in each of four rows.
#[inline(always)]
fn put_pairs(dst: &mut [u8], at: usize, apart: usize, pairs: Pairs)
    requires apart { 2 ≤ apart }
    requires room { 4 * (at + 3 * apart + 2) ≤ length dst.old }
    ensures size { length dst.new ≡ length dst.old }
    ensures pixels { (row j : ℕ) → row < 4 → j < 2 → pixel_in dst.new (at + row * apart + j) ≡ pixel_in (row_of pairs row) j }
    ensures rest { (i : ℕ) → LiesBeside at apart 2 i → pixel_in dst.new i ≡ pixel_in dst.old i }
{
    put_two(dst, at, pairs.first);
    put_two(dst, at + apart, pairs.second);
    put_two(dst, at + 2 * apart, pairs.third);
    put_two(dst, at + 3 * apart, pairs.fourth);
}

/// Stores two pixels from a number on.
#[inline(always)]
fn put_two(dst: &mut [u8], at: usize, two: u8x8)
    requires room { 4 * (at + 2) ≤ length dst.old }
    ensures size { length dst.new ≡ length dst.old }
    ensures pixels { (j : ℕ) → j < 2 → pixel_in dst.new (at + j) ≡ pixel_in two j }
    ensures below { (i : ℕ) → i < at → pixel_in dst.new i ≡ pixel_in dst.old i }
    ensures above { (i : ℕ) → at + 2 ≤ i → pixel_in dst.new i ≡ pixel_in dst.old i }
{
    two.copy_to_slice(&mut dst[4 * at..]);
}
