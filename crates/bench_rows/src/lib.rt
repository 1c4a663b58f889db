//! The row kernels for callers in C, and beside each the plain loop of one pixel at a time: what
//! the benchmark of `bench/rows` times against other libraries.
#![tactic(auto)]

ghost use Rattle.std.specs.Prelude.{◌≡◌, ◌%◌, ◌≤◌, ◌+◌, ◌*◌, length};

use sf_base::{Rgba, get_pixel, over, put_pixel};

/// `blend_row` of the row kernels.
#[unsafe(no_mangle)]
pub extern "C" fn bench_rows_blend_row(dst: &mut [u8], src: &[u8], alpha: u8)
    requires same { length src.now ≡ length dst.old }
    requires whole { length dst.old % 4 ≡ 0 }
{
    sf_rows::blend_row(dst, src, alpha);
}

/// `blend_row_opaque` of the row kernels.
#[unsafe(no_mangle)]
pub extern "C" fn bench_rows_blend_row_opaque(dst: &mut [u8], src: &[u8], alpha: u8)
    requires same { length src.now ≡ length dst.old }
    requires whole { length dst.old % 4 ≡ 0 }
{
    sf_rows::blend_row_opaque(dst, src, alpha);
}

/// `blend_colour` of the row kernels, over a colour in four numbers.
#[unsafe(no_mangle)]
pub extern "C" fn bench_rows_blend_colour(dst: &mut [u8], r: u8, g: u8, b: u8, a: u8, alpha: u8)
    requires { length dst.old % 4 ≡ 0 }
{
    sf_rows::blend_colour(dst, Rgba { r, g, b, a }, alpha);
}

/// Paints one pixel over the pixel of this number.
fn paint_at(row: &mut [u8], at: usize, source: Rgba, alpha: u8)
    requires { 4 * (at + 1) ≤ length row.old }
{
    put_pixel(row, at, over(get_pixel(row, at), source, alpha));
}

/// The plain loop that `blend_row` is compared with.
#[unsafe(no_mangle)]
pub extern "C" fn bench_rows_plain_row(dst: &mut [u8], src: &[u8], alpha: u8)
    requires same { length src.now ≡ length dst.old }
{
    for k in 0..dst.len() / 4 {
        paint_at(dst, k, get_pixel(src, k), alpha);
    }
}

/// The plain loop that `blend_row_opaque` is compared with.
#[unsafe(no_mangle)]
pub extern "C" fn bench_rows_plain_row_opaque(dst: &mut [u8], src: &[u8], alpha: u8)
    requires same { length src.now ≡ length dst.old }
{
    for k in 0..dst.len() / 4 {
        let source = Rgba {
            a: 255,
            ..get_pixel(src, k)
        };
        paint_at(dst, k, source, alpha);
    }
}

/// The plain loop that `blend_colour` is compared with.
#[unsafe(no_mangle)]
pub extern "C" fn bench_rows_plain_colour(dst: &mut [u8], r: u8, g: u8, b: u8, a: u8, alpha: u8) {
    for k in 0..dst.len() / 4 {
        paint_at(dst, k, Rgba { r, g, b, a }, alpha);
    }
}
