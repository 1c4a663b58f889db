//! What a client draws, as plain data: size, fills and format. A script declares pictures, and a
//! frame names the one that it shows.
ghost use Rattle.std.specs.Prelude.{◌≡◌, ◌<◌, ◌≤◌, ◌↔◌, [], IfOk, IsTrue};

use crate::cover::top_colour;
use crate::fill::Fill;
use sf_base::{Format, Items, NoMemory, Rgba, seen_as};
use std::alloc::Global;

/// What a client draws: its number in the script, its size in pixels, its fills, of which a later
/// one covers an earlier one, and the format of the buffer that it is drawn into.
pub struct Picture {
    pub number: u32,
    pub width: u32,
    pub height: u32,
    pub fills: Items<Fill>,
    pub format: Format,
}

impl Picture {
    ghost use Rattle.sf_picture.specs.Pixels.{HasSameForm, HasSize, pixel_at};

    /// The colour of a pixel as a reader of the buffer sees it: that of the last fill that covers
    /// it, or transparent black where none does, in the picture's format. In a format without
    /// alpha a pixel that no fill covers is opaque black.
    pub fn pixel(&self, x: u32, y: u32) -> Rgba
        requires size { HasSize self.now }
        requires in_row { x < self.now.width }
        requires in_column { y < self.now.height }
        ensures { result ≡ pixel_at self.now x y }
    {
        seen_as(self.format, top_colour(self.fills.as_slice(), x, y))
    }

    /// An equal picture.
    pub fn copy(&self, alloc: Global) -> Result<Picture, NoMemory>
        ensures same { IfOk result (λ copy. copy ≡ self.now) }
    {
        Ok(Picture {
            number: self.number,
            width: self.width,
            height: self.height,
            fills: Items::new(Vec::from_slice(alloc, self.fills.as_slice())?),
            format: self.format,
        })
    }

    /// Whether two pictures are equal: number, size, fills in their order, and format. It takes no
    /// memory.
    pub fn is_same(&self, other: &Picture) -> bool
        ensures { IsTrue result ↔ (self.now ≡ other.now) }
    {
        self.has_same_form(other) && are_same_fills(self.fills.as_slice(), other.fills.as_slice())
    }

    /// Whether two pictures are equal except for their fills.
    fn has_same_form(&self, other: &Picture) -> bool
        ensures { IsTrue result ↔ HasSameForm self.now other.now }
    {
        self.number == other.number
            && self.width == other.width
            && self.height == other.height
            && self.format == other.format
    }
}

/// Whether two lists of fills are equal.
fn are_same_fills(fills: &[Fill], others: &[Fill]) -> bool
    ensures { IsTrue result ↔ (fills.now ≡ others.now) }
{
    fills == others
}

/// The picture number 0 of this size, in pixels, without fills, of red, green, blue and alpha. It
/// takes no memory.
pub fn blank(alloc: Global, width: u32, height: u32) -> Picture
    requires wide { 1 ≤ width }
    requires narrow { width ≤ 512 }
    requires high { 1 ≤ height }
    requires low { height ≤ 512 }
    ensures { result ≡ record { number = 0; width = width; height = height; fills = []; format = Format.Rgba } }
{
    Picture {
        number: 0,
        width,
        height,
        fills: Items::new(Vec::new(alloc)),
        format: Format::Rgba,
    }
}

impl Drop for Picture {
    fn drop(self) {
        let Picture {
            number: _,
            width: _,
            height: _,
            fills: _,
            format: _,
        } = self;
    }
}
