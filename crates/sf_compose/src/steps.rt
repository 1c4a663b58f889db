//! Whether a layer is painted faster as a whole than by the parts of it that are seen.
ghost use Rattle.std.specs.Prelude.{map};
ghost use Rattle.sf_compose.specs.Readings.{IsReadable};

use crate::area::{Area, cut, points_of};
use crate::band::Band;
use crate::composition::SourcedLayer;
use crate::contents::read;
use crate::pixels::Pixels;
use sf_base::Rect;
use sf_damage::sf_view::Content;

// A row that is moved by itself takes as long as so many pixels more.
const ROW_PIXELS: u64 = 128;

/// How long it takes to move the pixels of an area, counted in pixels. Rows of the whole width are moved
/// at once.
fn steps_of(area: Area, band: Band) -> u64 {
    let points = points_of(area);
    if area.left == 0 && area.right == band.width {
        return points;
    }
    let rows = u64::from(area.bottom.saturating_sub(area.top));
    points.saturating_add(rows.saturating_mul(ROW_PIXELS))
}

/// How long it takes for each of some parts of an area.
fn steps_of_parts(parts: &[Rect], band: Band, area: Area) -> u64 {
    let mut steps: u64 = 0;
    for part in parts {
        steps = steps.saturating_add(steps_of(cut(area, part), band));
    }
    steps
}

/// Whether the pixels of a drawn layer are moved as they are.
fn is_moved<C: Pixels>(layer: &SourcedLayer<C>) -> bool
    requires { IsReadable (map C.picture layer.now.contents.now) layer.now.drawn.now.content layer.now.source }
{
    let drawn = layer.drawn;
    match drawn.content {
        Content::Colour(_) => false,
        Content::Buffer(_) => {
            drawn.alpha == 255 && drawn.orient == 0 && read(layer.contents, layer.source).is_solid()
        }
    }
}

/// Whether a drawn layer is painted over an area faster as a whole than by parts of its clip. It is not
/// inlined: most layers show in one part, and the loop over all layers is shorter without it.
#[inline(never)]
pub fn is_faster_whole<C: Pixels>(
    layer: &SourcedLayer<C>,
    parts: &[Rect],
    band: Band,
    area: Area,
) -> bool
    requires { IsReadable (map C.picture layer.now.contents.now) layer.now.drawn.now.content layer.now.source }
{
    is_moved(layer)
        && steps_of(cut(area, &layer.drawn.clip), band) < steps_of_parts(parts, band, area)
}
