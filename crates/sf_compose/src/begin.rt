//! How an area is begun: from the topmost layer that hides all below it, or on black.
ghost use Rattle.std.specs.Prelude.{◌≡◌, ◌≤◌, length, map};
ghost use Rattle.sf_compose.specs.Composed.{AreReadableIn};
ghost use Rattle.sf_compose.specs.inner.Bands.{HasRows, IsInBand};
ghost use Rattle.sf_compose.specs.inner.Begun.{AreaIsBegun, Spares};
ghost use Rattle.sf_compose.specs.inner.Painting.{is_in_area};

use crate::area::Area;
use crate::band::Band;
use crate::composition::{Composition, SourcedLayer};
use crate::cover::is_hidden;
use crate::ground::{OPAQUE_BLACK, has_area, hides};
use crate::layer::{copy_layer, paint_area};
use crate::pixels::Pixels;

/// Begins an area under drawn layers, and returns from which of them on it is still to be painted:
/// from the topmost one that hides all of it, or behind that one where its pixels were copied.
/// Where none hides it, all of them are to be painted, over black, or over what is there where they
/// hide it together.
pub fn begin<C: Pixels>(
    composition: &Composition<C>,
    band: Band,
    area: Area,
    frame: &mut [u8],
) -> usize
    requires readable { AreReadableIn C.picture composition.now }
    requires within { IsInBand band area }
    requires room { HasRows band frame.old }
    ensures few { result ≤ length composition.now.view.now.drawn }
    ensures spared { Spares band.width band.top (is_in_area area) frame.old frame.new }
    ensures begun { AreaIsBegun band area (map C.picture composition.now.contents.now)
        composition.now.view.now.drawn composition.now.sources.now result frame.new }
{
    let layers = composition.drawn();
    let (contents, sources) = (composition.contents, composition.sources);
    let mut at = layers.len();
    while at > 0 {
        let above = at;
        at -= 1;
        if !has_area(&layers[at].clip, area) {
            continue;
        }
        if hides(&layers[at], area) {
            return at;
        }
        let layer = SourcedLayer {
            drawn: &layers[at],
            contents,
            source: sources[at],
        };
        if copy_layer(&layer, frame, band, area) {
            return above;
        }
    }
    if is_hidden(composition, area) {
        return 0;
    }
    paint_area(frame, band, area, OPAQUE_BLACK, 255);
    0
}
