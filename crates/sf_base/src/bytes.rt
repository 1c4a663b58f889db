//! Pixels in the bytes of a buffer or a frame, four to a pixel.
ghost use Rattle.std.specs.Prelude.{◌≡◌, ◌+◌, ◌*◌, ◌≤◌, length};
ghost use Rattle.sf_base.specs.Bytes.{FillsSpan, pixel_in};

use crate::Rgba;

/// The pixel of this number, from 0, in bytes that have four to a pixel: red, green, blue, alpha.
#[inline(always)]
pub fn get_pixel(bytes: &[u8], at: usize) -> Rgba
    requires { 4 * (at + 1) ≤ length bytes.now }
    ensures { result ≡ pixel_in bytes.now at }
{
    Rgba {
        r: bytes[4 * at],
        g: bytes[4 * at + 1],
        b: bytes[4 * at + 2],
        a: bytes[4 * at + 3],
    }
}

/// Sets the pixel of this number. All other pixels stay.
#[inline(always)]
pub fn put_pixel(bytes: &mut [u8], at: usize, pixel: Rgba)
    requires { 4 * (at + 1) ≤ length bytes.old }
    ensures size { length bytes.new ≡ length bytes.old }
    ensures one { FillsSpan bytes.old bytes.new at (at + 1) pixel }
{
    bytes[4 * at] = pixel.r;
    bytes[4 * at + 1] = pixel.g;
    bytes[4 * at + 2] = pixel.b;
    bytes[4 * at + 3] = pixel.a;
}
