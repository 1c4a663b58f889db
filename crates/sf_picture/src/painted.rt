//! A picture with its pixels: the block of bytes that a buffer has, which a producer paints and the
//! compositor reads.
ghost use Rattle.std.specs.Prelude.{◌≡◌, ◌*◌, ◌≤◌, ◌↔◌, IfOk, IfErr, IsTrue, length, take, true};
ghost use Rattle.sf_picture.specs.Pixels.{HasSize, IsPainted, ShowsPicture};
ghost use Rattle.sf_picture.specs.Solid.{IsSolid};
ghost use Rattle.sf_picture.specs.inner.Spans.{ShowsFills, ShowsNothing};

use crate::cover::TRANSPARENT;
use crate::picture::Picture;
use crate::rows::{is_faster_by_rows, paint_rows};
use crate::solid::are_all_solid;
use crate::spans::{count_covered, fill_span, paint_fill};
use sf_base::{Format, NoMemory, seen_as};
use std::alloc::Global;
use std::marker::Model;

/// A picture with its pixels as a reader sees them: four bytes each, in the order red, green, blue,
/// alpha, row by row from the top. Contracts see the picture alone, since it determines the bytes.
/// Whether all alphas are 255 is found once, when it is painted.
pub struct Painted {
    picture: Picture,
    bytes: Vec<u8>,
    solid: bool,
}

impl Model for Painted {
    ghost use Rattle.sf_picture.specs.declared.picture.Picture.{Picture};
    ghost use Rattle.sf_picture.specs.Pixels.{IsPainted};
    ghost use Rattle.sf_picture.specs.Solid.{TellsSolid};

    ghost Value = { Picture };

    ghost view = { λ p. p.picture };

    ghost invariant = { λ p. IsPainted p.picture p.bytes.items × TellsSolid p.solid p.picture };
}

impl Painted {
    /// The picture that was painted last.
    pub fn picture(&self) -> &Picture
        ensures same { result.now ≡ self.now }
        ensures size { HasSize result.now }
    {
        &self.picture
    }

    /// The pixels, row by row.
    pub fn bytes(&self) -> &[u8]
        ensures { ShowsPicture self.now result.now }
    {
        &self.bytes
    }

    /// Whether each pixel has an alpha of 255.
    pub fn is_solid(&self) -> bool
        ensures { IsTrue result ↔ IsSolid self.now }
    {
        self.solid
    }

    /// The same block of pixels with another picture of the same size. It takes no memory.
    pub fn repaint(self, picture: Picture) -> Painted
        requires size { HasSize picture }
        requires same_width { picture.width ≡ self.width }
        requires same_height { picture.height ≡ self.height }
        ensures { result ≡ picture }
    {
        let Painted {
            picture: _,
            mut bytes,
            solid: _,
        } = self;
        paint_all(&mut bytes, &picture);
        with_pixels(picture, bytes)
    }
}

/// A picture with its pixels.
fn with_pixels(picture: Picture, bytes: Vec<u8>) -> Painted
    requires { IsPainted picture bytes.items }
    ensures { result ≡ picture }
{
    let solid = are_all_solid(&bytes);
    Painted {
        picture,
        bytes,
        solid,
    }
}

/// Paints the last fill that covers every pixel, or what lies below all fills where none does; and
/// up to how many fills the pixels show then. What an earlier fill paints is not seen.
fn paint_ground(bytes: &mut [u8], picture: &Picture) -> usize
    requires size { HasSize picture.now }
    requires room { length bytes.old ≡ 4 * (picture.now.width * picture.now.height) }
    ensures room { length bytes.new ≡ length bytes.old }
    ensures few { result ≤ length picture.now.fills }
    ensures shows { ShowsFills picture.now.format (take result picture.now.fills) picture.now.width picture.now.height bytes.new }
{
    let fills = picture.fills.as_slice();
    let covered = count_covered(fills, picture.width, picture.height);
    if covered > 0 {
        paint_fill(
            bytes,
            picture.width,
            picture.height,
            picture.format,
            &fills[covered - 1],
        );
        return covered;
    }
    let ground = seen_as(picture.format, TRANSPARENT);
    let count = picture.width as usize * picture.height as usize;
    fill_span(bytes, 0, count, ground);
    0
}

/// Paints every pixel anew.
fn paint_all(bytes: &mut [u8], picture: &Picture)
    requires size { HasSize picture.now }
    requires room { length bytes.old ≡ 4 * (picture.now.width * picture.now.height) }
    ensures { ShowsPicture picture.now bytes.new }
{
    if is_faster_by_rows(picture) {
        paint_rows(bytes, picture);
        return;
    }
    let painted = paint_ground(bytes, picture);
    let fills = picture.fills.as_slice();
    for at in painted..fills.len() {
        paint_fill(
            bytes,
            picture.width,
            picture.height,
            picture.format,
            &fills[at],
        );
    }
}

/// Whether a picture has no fill, in a format with alpha: its bytes are all 0.
fn shows_nothing(picture: &Picture) -> bool
    ensures { result ≡ true → ShowsNothing picture.now }
{
    match picture.format {
        Format::Rgba => picture.fills.len() == 0,
        Format::Rgbx | Format::Rgb565 => false,
    }
}

/// A picture's pixels. Where there is no memory for them, the picture comes back.
pub fn paint(alloc: Global, picture: Picture) -> Result<Painted, (NoMemory, Picture)>
    requires size { HasSize picture }
    ensures ok { IfOk result (λ painted. painted ≡ picture) }
    ensures err { IfErr result (λ back. back.1 ≡ picture) }
{
    let count = 4 * picture.width as usize * picture.height as usize;
    match vec![in alloc; 0u8; count] {
        Ok(mut bytes) => {
            if !shows_nothing(&picture) {
                paint_all(&mut bytes, &picture);
            }
            Ok(with_pixels(picture, bytes))
        }
        Err(_) => Err((NoMemory, picture)),
    }
}

impl Drop for Painted {
    fn drop(self) {
        let Painted {
            picture: _,
            bytes: _,
            solid: _,
        } = self;
    }
}
