//! Slices of an area that stay in a processor's cache while all layers are painted on them.
ghost use Rattle.std.specs.Prelude.{◌≡◌, ◌<◌, ◌≤◌};

use crate::area::Area;

// So many bytes of a frame are composed at a time, all layers one after another: they stay in a
// processor's cache until the last layer is painted.
const SLICE_BYTES: usize = 262_144;

/// How many rows of an area are composed at a time.
pub fn rows_at_once(area: Area) -> u32
    requires { area.left < area.right }
    ensures { 1 ≤ result }
{
    let row = 4 * (area.right - area.left) as usize;
    (SLICE_BYTES / row).max(1) as u32
}

/// The rows of an area from one on, at most so many.
pub fn slice_from(area: Area, top: u32, rows: u32) -> Area
    requires some { 1 ≤ rows }
    requires inside { top < area.bottom }
    ensures left { result.left ≡ area.left }
    ensures right { result.right ≡ area.right }
    ensures top { result.top ≡ top }
    ensures more { top < result.bottom }
    ensures bottom { result.bottom ≤ area.bottom }
{
    Area {
        left: area.left,
        right: area.right,
        top,
        bottom: top + rows.min(area.bottom - top),
    }
}
