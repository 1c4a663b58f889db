//! Four pixels at a time in 128-bit lanes: the arithmetic that all row kernels share.
ghost use Rattle.std.specs.Prelude.{◌≡◌, ℕ, ◌+◌, ◌-◌, ◌*◌, ◌/◌, ◌<◌, ◌≤◌, length, List, slice_index, IsTrue};
ghost use Rattle.std.specs.Simd.Lanes.{zip2, Each1};
ghost use Rattle.sf_base.specs.Blend.{product};
ghost use Rattle.sf_base.specs.Bytes.{pixel_in};
ghost use Rattle.sf_rows.specs.inner.Channels.{capped_sum, mix, row_channel, alpha_index};
ghost use Rattle.sf_rows.specs.inner.Channels.{opaque_source, opaque_channel, colour_part};

use sf_base::Rgba;
use std::simd::prelude::*;

/// The channels at even indices.
#[inline(always)]
fn even_channels(a: u8x16) -> u16x8
    ensures each { (j : ℕ) → j < 8 → slice_index result j ≡ slice_index a (2 * j) }
    ensures len { length result ≡ 8 }
    ensures small { Each1 (λ x. x ≤ 255) result }
{
    u16x8::from_le_bytes(a) & u16x8::splat(255)
}

/// The channels at odd indices.
#[inline(always)]
fn odd_channels(a: u8x16) -> u16x8
    ensures each { (j : ℕ) → j < 8 → slice_index result j ≡ slice_index a (2 * j + 1) }
    ensures len { length result ≡ 8 }
    ensures small { Each1 (λ x. x ≤ 255) result }
{
    u16x8::from_le_bytes(a) >> u16x8::splat(8)
}

/// The channels of both, in turn.
#[inline(always)]
fn in_turn(even: u16x8, odd: u16x8) -> u8x16
    requires even { Each1 (λ x. x ≤ 255) even }
    requires odd { Each1 (λ x. x ≤ 255) odd }
    ensures even { (j : ℕ) → j < 8 → slice_index result (2 * j) ≡ slice_index even j }
    ensures odd { (j : ℕ) → j < 8 → slice_index result (2 * j + 1) ≡ slice_index odd j }
{
    (even + (odd << u16x8::splat(8))).to_le_bytes()
}

/// The rounded products of two vectors of channels.
#[inline(always)]
fn products(a: u16x8, b: u16x8) -> u16x8
    requires a { Each1 (λ x. x ≤ 255) a }
    requires b { Each1 (λ x. x ≤ 255) b }
    ensures value { result ≡ zip2 product a b }
    ensures small { Each1 (λ x. x ≤ 255) result }
{
    let sum = (a * b + u16x8::splat(128)).cast::<u32>();
    ((sum * u32x8::splat(257)) >> u32x8::splat(16)).cast::<u16>()
}

/// Each channel times the factor of its pair.
#[inline(always)]
fn scaled(a: u8x16, factors: u16x8) -> u8x16
    requires { Each1 (λ x. x ≤ 255) factors }
    ensures each { (k : ℕ) → k < 16
        → slice_index result k ≡ product (slice_index a k) (slice_index factors (k / 2)) }
    ensures len { length result ≡ 16 }
{
    in_turn(
        products(even_channels(a), factors),
        products(odd_channels(a), factors),
    )
}

/// The sums of two vectors of channels, and 255 where one is more.
#[inline(always)]
fn capped_sums(a: u8x16, b: u8x16) -> u8x16
    ensures { result ≡ zip2 capped_sum a b }
{
    a.saturating_add(b)
}

/// What each pixel's alpha leaves, for each pair of its channels.
#[inline(always)]
fn left_by_alphas(a: u8x16) -> u16x8
    ensures each { (j : ℕ) → j < 8 → slice_index result j ≡ 255 - slice_index a (alpha_index (2 * j)) }
    ensures len { length result ≡ 8 }
    ensures small { Each1 (λ x. x ≤ 255) result }
{
    u16x8::splat(255) - odd_channels(a).swizzle([1, 1, 3, 3, 5, 5, 7, 7])
}

/// Four pixels of sources over four of destinations.
#[inline(always)]
pub fn four_pixels(dst: u8x16, src: u8x16, alpha: u8) -> u8x16
    ensures each { (k : ℕ) → k < 16 → slice_index result k ≡ row_channel dst src alpha k }
    ensures len { length result ≡ 16 }
{
    let painted = scaled(src, u16x8::splat(u16::from(alpha)));
    capped_sums(painted, scaled(dst, left_by_alphas(painted)))
}

/// Four pixels of sources, with no alpha of a layer, over four of destinations.
#[inline(always)]
pub fn four_whole_pixels(dst: u8x16, src: u8x16) -> u8x16
    ensures each { (k : ℕ) → k < 16 → slice_index result k ≡ row_channel dst src 255 k }
    ensures len { length result ≡ 16 }
{
    capped_sums(src, scaled(dst, left_by_alphas(src)))
}

/// Whether nothing is left of what four pixels cover.
#[inline(always)]
fn leaves_nothing(left: u16x8) -> bool
    requires { length left ≡ 8 }
    ensures { IsTrue result → (j : ℕ) → j < 8 → slice_index left j ≡ 0 }
{
    left.simd_ne(u16x8::splat(0)).to_bitmask() == 0
}

/// Whether four pixels of sources, with no alpha of a layer, are what they make of any four pixels
/// that they cover: their own alphas are 255.
#[inline(always)]
pub fn are_solid(src: u8x16) -> bool
    ensures { IsTrue result → (dst : List ℕ) (k : ℕ) → k < 16 → slice_index src k ≡ row_channel dst src 255 k }
{
    leaves_nothing(left_by_alphas(src))
}

/// The sources with alphas of 255.
#[inline(always)]
fn four_opaque(src: u8x16) -> u8x16
    ensures each { (k : ℕ) → k < 16 → slice_index result k ≡ opaque_source src k }
    ensures len { length result ≡ 16 }
{
    let whole = [0, 0, 0, 255, 0, 0, 0, 255, 0, 0, 0, 255, 0, 0, 0, 255];
    capped_sums(src, u8x16::from_array(whole))
}

/// Each channel of one vector times a share of 255, plus the same of another times what the share
/// leaves. No sum passes 255.
#[inline(always)]
fn mixed(a: u16x8, b: u16x8, share: u8) -> u16x8
    requires a { Each1 (λ x. x ≤ 255) a }
    requires b { Each1 (λ x. x ≤ 255) b }
    ensures value { result ≡ zip2 (mix share) a b }
    ensures small { Each1 (λ x. x ≤ 255) result }
{
    let left = 255 - share;
    products(a, u16x8::splat(u16::from(share))) + products(b, u16x8::splat(u16::from(left)))
}

/// Four pixels of sources whose alphas are taken as 255 over four of destinations.
#[inline(always)]
pub fn four_opaque_pixels(dst: u8x16, src: u8x16, alpha: u8) -> u8x16
    ensures each { (k : ℕ) → k < 16 → slice_index result k ≡ opaque_channel dst src alpha k }
    ensures len { length result ≡ 16 }
{
    let source = four_opaque(src);
    in_turn(
        mixed(even_channels(source), even_channels(dst), alpha),
        mixed(odd_channels(source), odd_channels(dst), alpha),
    )
}

/// The same with no alpha of a layer.
#[inline(always)]
pub fn four_opaque_whole(dst: u8x16, src: u8x16) -> u8x16
    ensures each { (k : ℕ) → k < 16 → slice_index result k ≡ opaque_channel dst src 255 k }
    ensures len { length result ≡ 16 }
{
    let _ = dst;
    four_opaque(src)
}

/// The colour four times.
#[inline(always)]
pub fn four_times(colour: Rgba) -> u8x16
    ensures each { (k : ℕ) → k < 16 → slice_index result k ≡ colour_part colour k }
    ensures len { length result ≡ 16 }
{
    let Rgba { r, g, b, a } = colour;
    u8x16::from_array([r, g, b, a, r, g, b, a, r, g, b, a, r, g, b, a])
}

/// Sixteen pixels, the last one first.
#[inline(always)]
pub fn sixteen_back(pixels: u8x64) -> u8x64
    ensures each { (k c : ℕ) → k < 16 → c < 4 → slice_index result (4 * k + c) ≡ slice_index pixels (4 * (15 - k) + c) }
    ensures len { length result ≡ 64 }
{
    u32x16::from_le_bytes(pixels).reverse().to_le_bytes()
}

/// The first two pixels of two vectors: the first of both, and the second of both.
#[inline(always)]
pub fn first_pairs(a: u8x16, b: u8x16) -> u8x16
    ensures left { (r : ℕ) → r < 2 → pixel_in result (2 * r) ≡ pixel_in a r }
    ensures right { (r : ℕ) → r < 2 → pixel_in result (2 * r + 1) ≡ pixel_in b r }
{
    a.shuffle(b, [0, 1, 2, 3, 16, 17, 18, 19, 4, 5, 6, 7, 20, 21, 22, 23])
}

/// The last two pixels of two vectors: the third of both, and the fourth of both.
#[inline(always)]
pub fn last_pairs(a: u8x16, b: u8x16) -> u8x16
    ensures left { (r : ℕ) → r < 2 → pixel_in result (2 * r) ≡ pixel_in a (2 + r) }
    ensures right { (r : ℕ) → r < 2 → pixel_in result (2 * r + 1) ≡ pixel_in b (2 + r) }
{
    a.shuffle(
        b,
        [8, 9, 10, 11, 24, 25, 26, 27, 12, 13, 14, 15, 28, 29, 30, 31],
    )
}

/// The first two of four pixels.
#[inline(always)]
pub fn first_half(a: u8x16) -> u8x8
    ensures { (j : ℕ) → j < 2 → pixel_in result j ≡ pixel_in a j }
{
    a.swizzle([0, 1, 2, 3, 4, 5, 6, 7])
}

/// The last two of them.
#[inline(always)]
pub fn last_half(a: u8x16) -> u8x8
    ensures { (j : ℕ) → j < 2 → pixel_in result j ≡ pixel_in a (2 + j) }
{
    a.swizzle([8, 9, 10, 11, 12, 13, 14, 15])
}
