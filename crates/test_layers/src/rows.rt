//! Channels, pixels and rows of pixels: blending, formats, and what is picked from a row.
ghost use Rattle.std.specs.Prelude.{◌≡◌, ◌%◌, ◌<◌, length};

use crate::answer::Answer;
use crate::made::Made;
use sf_base::{Format, Rgba, mul, over, seen_as};
use sf_rows::{blend_colour, blend_row, blend_row_opaque, pick_row};
use std::alloc::{AllocError, Global};
use std::str::SplitWhitespace;
use test_words::{named, number8};

/// How many pixels a row has at most.
const MOST_PIXELS: u32 = 64;

/// The next word, as a colour: its channels in base 16 behind `#`, red in the highest byte.
pub fn hex_colour(words: &mut SplitWhitespace<'_>) -> Option<Rgba> {
    let digits = words.next()?.strip_prefix('#')?;
    let [r, g, b, a] = u32::from_str_radix(digits, 16).ok()?.to_be_bytes();
    Some(Rgba { r, g, b, a })
}

/// What is painted over a row.
#[derive(Clone, Copy)]
enum Paint {
    Row,
    Opaque,
    Colour,
}

/// Which pixels are picked from a row.
#[derive(Clone, Copy)]
enum Pick {
    /// All, from the last to the first.
    Back,
    /// Every fourth.
    Column,
}

/// What comes of one or two colours or channels.
#[derive(Clone, Copy)]
enum Blend {
    Mul,
    Over,
    SeenAs(Format),
}

/// What a word asks for.
#[derive(Clone, Copy)]
enum Form {
    Frame,
    Source,
    Paint(Paint),
    Pick(Pick),
    Blend(Blend),
}

/// The words of rows.
const FORMS: &[(&str, Form)] = &[
    ("frame", Form::Frame),
    ("source", Form::Source),
    ("row", Form::Paint(Paint::Row)),
    ("opaque", Form::Paint(Paint::Opaque)),
    ("colour", Form::Paint(Paint::Colour)),
    ("back", Form::Pick(Pick::Back)),
    ("column", Form::Pick(Pick::Column)),
    ("mul", Form::Blend(Blend::Mul)),
    ("over", Form::Blend(Blend::Over)),
    ("rgba", Form::Blend(Blend::SeenAs(Format::Rgba))),
    ("rgbx", Form::Blend(Blend::SeenAs(Format::Rgbx))),
    ("rgb565", Form::Blend(Blend::SeenAs(Format::Rgb565))),
];

impl Made {
    /// Does what a line says of rows. None where it can't be done.
    pub fn row(&mut self, word: &str, words: &mut SplitWhitespace<'_>) -> Option<Answer> {
        match named(FORMS, word)? {
            Form::Frame => self.frame = pixels(self.alloc, words)?,
            Form::Source => self.source = pixels(self.alloc, words)?,
            Form::Paint(what) => return self.paint_row(what, words),
            Form::Pick(which) => return self.pick(which),
            Form::Blend(what) => return blended(what, words),
        }
        Some(Answer::Done)
    }

    /// Paints over a copy of the frame's row.
    fn paint_row(&self, what: Paint, words: &mut SplitWhitespace<'_>) -> Option<Answer> {
        let mut row = Vec::from_slice(self.alloc, &self.frame).ok()?;
        if row.len() != self.source.len() || row.len() % 4 != 0 {
            return None;
        }
        match what {
            Paint::Row => blend_row(&mut row, &self.source, number8(words)?),
            Paint::Opaque => blend_row_opaque(&mut row, &self.source, number8(words)?),
            Paint::Colour => blend_colour(&mut row, hex_colour(words)?, number8(words)?),
        }
        Some(Answer::Bytes(row))
    }

    /// Picks the source's pixels from its end back, or every fourth of them.
    fn pick(&self, which: Pick) -> Option<Answer> {
        let source = self.source.as_slice();
        if source.is_empty() || source.len() >= 4096 || source.len() % 4 != 0 {
            return None;
        }
        let row = match which {
            Pick::Back => picked_back(self.alloc, source),
            Pick::Column => every_fourth(self.alloc, source),
        };
        Some(Answer::Bytes(row.ok()?))
    }
}

/// The bytes of the pixels of the colours that a line says.
fn pixels(alloc: Global, words: &mut SplitWhitespace<'_>) -> Option<Vec<u8>> {
    let mut bytes = Vec::new(alloc);
    for _ in 0..MOST_PIXELS {
        let Some(Rgba { r, g, b, a }) = hex_colour(words) else {
            break;
        };
        bytes.extend_from_slice(&[r, g, b, a]).ok()?;
    }
    Some(bytes)
}

/// The pixels of a row from the last to the first.
fn picked_back(alloc: Global, source: &[u8]) -> Result<Vec<u8>, AllocError>
    requires some { 0 < length source.now }
    requires few { length source.now < 4096 }
    requires whole { length source.now % 4 ≡ 0 }
{
    let mut row = vec![in alloc; 0u8; source.len()]?;
    pick_row(&mut row, source, source.len() as u32 / 4 - 1, -1);
    Ok(row)
}

/// The first pixel of a row, and every fourth one after it: a column of a picture four pixels wide.
fn every_fourth(alloc: Global, source: &[u8]) -> Result<Vec<u8>, AllocError>
    requires few { length source.now < 4096 }
    requires whole { length source.now % 4 ≡ 0 }
{
    let mut row = vec![in alloc; 0u8; source.len() / 16 * 4]?;
    pick_row(&mut row, source, 0, 4);
    Ok(row)
}

/// The product of two channels, a pixel over another, or what is seen of a colour in a format.
fn blended(what: Blend, words: &mut SplitWhitespace<'_>) -> Option<Answer> {
    match what {
        Blend::Mul => Some(Answer::Channel(mul(number8(words)?, number8(words)?))),
        Blend::Over => {
            let (under, source) = (hex_colour(words)?, hex_colour(words)?);
            Some(Answer::Pixel(over(under, source, number8(words)?)))
        }
        Blend::SeenAs(format) => Some(Answer::Pixel(seen_as(format, hex_colour(words)?))),
    }
}
