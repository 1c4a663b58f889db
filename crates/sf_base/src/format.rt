//! The formats of buffers, and what a reader sees of a colour in each.
ghost use Rattle.std.specs.Prelude.{◌≡◌};
ghost use Rattle.sf_base.specs.Formats.{seen_as, through_five_bits, through_six_bits};

use crate::Rgba;

/// How the pixels of a buffer are kept.
#[derive(Clone, Copy)]
pub enum Format {
    /// Red, green, blue and alpha, 8 bits each.
    Rgba,
    /// Red, green and blue, 8 bits each. Its pixels are opaque.
    Rgbx,
    /// Red in 5 bits, green in 6 and blue in 5. Its pixels are opaque.
    Rgb565,
}

/// The upper 5 bits of a channel, widened to 8.
fn through_five_bits(channel: u8) -> u8
    ensures { result ≡ through_five_bits channel }
{
    let kept = channel / 8;
    8 * kept + kept / 4
}

/// The upper 6 bits of a channel, widened to 8.
fn through_six_bits(channel: u8) -> u8
    ensures { result ≡ through_six_bits channel }
{
    let kept = channel / 4;
    4 * kept + kept / 16
}

/// What a reader sees of a colour that was written into a buffer of this format. What a format
/// keeps of a channel is widened to 8 bits by repeating its highest bits.
#[tactic(auto, unfolding(crate::specs::Formats::seen_as))]
pub fn seen_as(format: Format, colour: Rgba) -> Rgba
    ensures { result ≡ seen_as format colour }
{
    match format {
        Format::Rgba => colour,
        Format::Rgbx => Rgba {
            r: colour.r,
            g: colour.g,
            b: colour.b,
            a: 255,
        },
        Format::Rgb565 => Rgba {
            r: through_five_bits(colour.r),
            g: through_six_bits(colour.g),
            b: through_five_bits(colour.b),
            a: 255,
        },
    }
}
