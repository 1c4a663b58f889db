//! The buffer that a layer shows, as plain data, with its crop.
ghost use Rattle.std.specs.Prelude.{IsTrue, ◌↔◌};
ghost use Rattle.sf_base.specs.Geometry.{IsWithin, LiesWithin};

use sf_base::{QueueId, Rect};

/// A buffer that a layer shows: the frame of a queue with the picture that was drawn in it.
#[derive(Clone, Copy, PartialEq, Eq)]
pub struct Shown {
    pub queue: QueueId,
    pub frame: u64,
    pub picture: u32,
    /// The part of the buffer that is shown, in the buffer's pixels.
    pub crop: Rect,
}

impl Shown {
    /// Whether the crop lies within the greatest buffer, 512 x 512 pixels.
    pub fn is_in_range(&self) -> bool
        ensures { IsTrue result ↔ LiesWithin self.now.crop 512 512 }
    {
        is_inside(self.crop.x, self.crop.width) && is_inside(self.crop.y, self.crop.height)
    }
}

// How wide and high a buffer is at most, in pixels.
const GREATEST_BUFFER: u32 = 512;

/// Whether so many pixels from there on lie within the side of the greatest buffer.
fn is_inside(from: i32, extent: u32) -> bool
    ensures { IsTrue result ↔ IsWithin from extent 512 }
{
    0 <= from && extent <= GREATEST_BUFFER && from as u32 <= GREATEST_BUFFER - extent
}
