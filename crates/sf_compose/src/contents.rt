//! The pixels of a view's buffers, by their places.
ghost use Rattle.std.specs.Prelude.{◌≡◌, ◌<◌, length, map};
ghost use Rattle.sf_compose.specs.Readings.{content_at};

use crate::pixels::Pixels;
use sf_damage::sf_picture::Painted;

/// The pixels at a place of the contents.
pub fn read<C: Pixels>(contents: &[C], source: u32) -> &Painted
    requires { source < length (map C.picture contents.now) }
    ensures { result.now ≡ content_at (map C.picture contents.now) source }
{
    contents[source as usize].pixels()
}
