//! Composes a part of a frame in one thread.
ghost use Rattle.std.specs.Prelude.{◌≡◌, ◌*◌, length, map, IsOk, OnErr, OnOk};
ghost use Rattle.sf_compose.specs.Frames.{KeepsRest, ShowsPart};
ghost use Rattle.sf_compose.specs.Readings.{AreReadable, read_image};
ghost use Rattle.sf_damage.specs.Visible.{AreVisibleIn};

use crate::band::all_rows;
use crate::composition::Composition;
use crate::pixels::Pixels;
use crate::seen::compose_band;
use sf_base::NoMemory;
use sf_damage::sf_region::Region;
use sf_damage::sf_view::View;

/// Composes a view into a part of a frame: each point of the display that is in the part gets the
/// colour that the drawn layers, read from the contents, paint there over opaque black, and no
/// other byte changes. What the part has beside the display is left out. That colour is the view's
/// image, by `what_is_read_is_the_image`.
///
/// The frame has four bytes for each pixel of the display, in the order red, green, blue, alpha,
/// row by row from the top. A drawn layer that shows a buffer finds its picture among the
/// contents, at the index that stands for the layer in `sources`, and what it shows of the buffer
/// lies in that picture. For a layer that shows a colour any number may stand there.
///
/// Each rectangle of the part is composed in slices of rows, which stay in a processor's cache until
/// the last layer is painted. In each slice the layers are painted from the topmost one that hides
/// all of it. Where none does, all are painted, over black if they do not hide it together. It needs
/// no memory.
pub fn compose_one<'a, C: Pixels>(
    view: &'a View,
    contents: &'a [C],
    sources: &'a [u32],
    part: &Region,
    frame: &mut [u8],
) -> Result<(), NoMemory>
    requires readable { AreReadable (map C.picture contents.now) view.now.drawn sources.now }
    requires room { length frame.old ≡ 4 * (view.now.width * view.now.height) }
    ensures ok { IsOk result }
    ensures image { OnOk result (ShowsPart view.now part.now
        (read_image (map C.picture contents.now) view.now sources.now) frame.new) }
    ensures err { OnErr result (frame.new ≡ frame.old) }
    ensures rest { KeepsRest view.now part.now frame.old frame.new }
{
    let composition = Composition {
        view,
        contents,
        sources,
        shows: None,
    };
    compose_band(&composition, part, all_rows(view), frame);
    Ok(())
}

/// Composes a view into a part of a frame as `compose_one` does, with the same bytes, and paints of
/// each layer only what shows of it: `shows` has for each drawn layer, from the back, a region that of
/// the points of the part has those that no opaque layer above hides, as `sf_damage::visible` gives it.
/// Where a layer's pixels are moved as they are, and a slice of it is moved faster as a whole than in
/// many rectangles, all of that slice is painted, and the layers above paint over what does not show.
/// It needs no memory.
pub fn compose_seen<'a, C: Pixels>(
    view: &'a View,
    contents: &'a [C],
    sources: &'a [u32],
    shows: &[Region],
    part: &Region,
    frame: &mut [u8],
) -> Result<(), NoMemory>
    requires readable { AreReadable (map C.picture contents.now) view.now.drawn sources.now }
    requires visible { AreVisibleIn part.now view.now.drawn shows.now }
    requires room { length frame.old ≡ 4 * (view.now.width * view.now.height) }
    ensures ok { IsOk result }
    ensures image { OnOk result (ShowsPart view.now part.now
        (read_image (map C.picture contents.now) view.now sources.now) frame.new) }
    ensures err { OnErr result (frame.new ≡ frame.old) }
    ensures rest { KeepsRest view.now part.now frame.old frame.new }
{
    let composition = Composition {
        view,
        contents,
        sources,
        shows: Some(shows),
    };
    compose_band(&composition, part, all_rows(view), frame);
    Ok(())
}
