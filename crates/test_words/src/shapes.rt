//! The readers of sizes, rectangles and colours.
ghost use Rattle.std.specs.Prelude.{◌≤◌, ◌↔◌, IsTrue};

use crate::{coordinate, number8, number32};
use sf_base::{Rect, Rgba};
use std::str::SplitWhitespace;

/// A size that buffers may have, in pixels.
#[derive(Clone, Copy)]
pub struct BufferSize {
    pub width: u32,
    pub height: u32,
    ghost wide: { 1 ≤ width },
    ghost narrow: { width ≤ 512 },
    ghost high: { 1 ≤ height },
    ghost low: { height ≤ 512 },
}

/// Whether buffers may have this size: 1 to 512 pixels each way.
pub fn is_buffer_size(width: u32, height: u32) -> bool
    ensures { IsTrue result ↔ ((1 ≤ width) × (width ≤ 512) × (1 ≤ height) × (height ≤ 512)) }
{
    1 <= width && width <= 512 && 1 <= height && height <= 512
}

/// The next two words, as a size that buffers may have: 1 to 512 pixels each way.
pub fn buffer_size(words: &mut SplitWhitespace<'_>) -> Option<BufferSize> {
    let width = number32(words)?;
    let height = number32(words)?;
    if is_buffer_size(width, height) {
        Some(BufferSize { width, height })
    } else {
        None
    }
}

/// The next four words, as a rectangle: its corner and its size.
pub fn rect(words: &mut SplitWhitespace<'_>) -> Option<Rect> {
    Some(Rect {
        x: coordinate(words)?,
        y: coordinate(words)?,
        width: number32(words)?,
        height: number32(words)?,
    })
}

/// The next four words, as the channels of a colour: red, green, blue and alpha.
pub fn colour(words: &mut SplitWhitespace<'_>) -> Option<Rgba> {
    Some(Rgba {
        r: number8(words)?,
        g: number8(words)?,
        b: number8(words)?,
        a: number8(words)?,
    })
}
