//! Pictures on a stack: drawn, painted, repainted, copied and compared.
ghost use Rattle.std.specs.Prelude.{IfSome};
ghost use Rattle.sf_picture.specs.Pixels.{HasSize};

use crate::answer::Answer;
use crate::made::Made;
use crate::rows::hex_colour;
use sf_base::{Format, Items};
use sf_picture::{Fill, Painted, Picture, blank, paint};
use std::alloc::Global;
use std::str::SplitWhitespace;
use test_words::{buffer_size, is_buffer_size, named, number32, rect};

/// A new picture.
#[derive(Clone, Copy)]
enum New {
    /// A copy of the uppermost one.
    Copy,
    Blank,
    /// One without fills.
    Plain(Format),
}

/// What is asked of pictures.
#[derive(Clone, Copy)]
enum Ask {
    Same,
    Pixel,
    Bytes,
    Sums,
}

/// What a word asks for.
#[derive(Clone, Copy)]
enum Form {
    New(New),
    Fill,
    Paint,
    Repaint,
    Ask(Ask),
}

/// The words of pictures.
const FORMS: &[(&str, Form)] = &[
    ("copy", Form::New(New::Copy)),
    ("blank", Form::New(New::Blank)),
    ("rgba", Form::New(New::Plain(Format::Rgba))),
    ("rgbx", Form::New(New::Plain(Format::Rgbx))),
    ("rgb565", Form::New(New::Plain(Format::Rgb565))),
    ("fill", Form::Fill),
    ("paint", Form::Paint),
    ("repaint", Form::Repaint),
    ("same", Form::Ask(Ask::Same)),
    ("pixel", Form::Ask(Ask::Pixel)),
    ("bytes", Form::Ask(Ask::Bytes)),
    ("sums", Form::Ask(Ask::Sums)),
];

impl Made {
    /// Does what a line says of pictures. None where it can't be done.
    pub fn picture(&mut self, word: &str, words: &mut SplitWhitespace<'_>) -> Option<Answer> {
        match named(FORMS, word)? {
            Form::New(what) => {
                let picture = drawn(self.alloc, &self.pictures, what, words)?;
                self.pictures.push(picture).ok()?;
            }
            Form::Fill => {
                let fill = Fill {
                    rect: rect(words)?,
                    colour: hex_colour(words)?,
                };
                self.pictures.last_mut()?.fills.push(fill).ok()?;
            }
            Form::Paint => {
                let picture = take_picture(&mut self.pictures)?;
                self.painted = Some(paint(self.alloc, picture).ok()?);
            }
            Form::Repaint => {
                let picture = take_picture(&mut self.pictures)?;
                self.painted = Some(repainted(self.painted.take()?, picture)?);
            }
            Form::Ask(what) => return self.asked(what, words),
        }
        Some(Answer::Done)
    }

    /// Compares the upper two pictures, which are taken, asks for a pixel of the uppermost, or for
    /// what was painted last.
    fn asked(&mut self, what: Ask, words: &mut SplitWhitespace<'_>) -> Option<Answer> {
        match what {
            Ask::Same => {
                let second = self.pictures.pop()?;
                Some(Answer::Is(self.pictures.pop()?.is_same(&second)))
            }
            Ask::Pixel => pixel(self.pictures.last()?, words),
            Ask::Bytes => {
                let bytes = self.painted.as_ref()?.bytes();
                Some(Answer::Bytes(Vec::from_slice(self.alloc, bytes).ok()?))
            }
            Ask::Sums => Some(Answer::Sums(sums(self.painted.as_ref()?.bytes()))),
        }
    }
}

/// A copy of the uppermost picture, a blank one, or one without fills of a format, a number and a size.
fn drawn(
    alloc: Global,
    pictures: &[Picture],
    what: New,
    words: &mut SplitWhitespace<'_>,
) -> Option<Picture> {
    match what {
        New::Copy => pictures.last()?.copy(alloc).ok(),
        New::Blank => {
            let size = buffer_size(words)?;
            Some(blank(alloc, size.width, size.height))
        }
        New::Plain(format) => Some(Picture {
            format,
            number: number32(words)?,
            width: number32(words)?,
            height: number32(words)?,
            fills: Items::new(Vec::new(alloc)),
        }),
    }
}

/// Takes the uppermost picture.
fn take_picture(pictures: &mut Vec<Picture>) -> Option<Picture>
    ensures { IfSome result (λ picture. HasSize picture) }
{
    let picture = pictures.pop()?;
    if is_buffer_size(picture.width, picture.height) {
        Some(picture)
    } else {
        None
    }
}

/// A pixel of a picture.
fn pixel(picture: &Picture, words: &mut SplitWhitespace<'_>) -> Option<Answer> {
    let (x, y) = (number32(words)?, number32(words)?);
    if is_buffer_size(picture.width, picture.height) && x < picture.width && y < picture.height {
        Some(Answer::Pixel(picture.pixel(x, y)))
    } else {
        None
    }
}

/// The pixels with another picture, where it has their size.
fn repainted(painted: Painted, picture: Picture) -> Option<Painted>
    requires { HasSize picture }
{
    let (width, height) = (painted.picture().width, painted.picture().height);
    if picture.width == width && picture.height == height {
        Some(painted.repaint(picture))
    } else {
        None
    }
}

/// The sums of the four channels over all pixels.
fn sums(bytes: &[u8]) -> [u64; 4] {
    let mut sums = [0u64; 4];
    for (at, byte) in bytes.iter().enumerate() {
        let channel = at % 4;
        sums[channel] = sums[channel].wrapping_add(u64::from(*byte));
    }
    sums
}
