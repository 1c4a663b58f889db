//! Which colour a pixel has: that of the last fill that covers it.
ghost use Rattle.std.specs.Prelude.{◌≡◌, find, pos, reverse};
ghost use Rattle.std.specs.Option.{option_copied};
ghost use Rattle.sf_base.specs.Geometry.{covers};
ghost use Rattle.sf_picture.specs.Pixels.{colour_at};

use crate::fill::Fill;
use sf_base::{Rgba, is_within};

/// No colour, and no cover of what lies below.
pub(crate) const TRANSPARENT: Rgba = Rgba {
    r: 0,
    g: 0,
    b: 0,
    a: 0,
};

/// Whether a fill covers the point.
#[tactic(auto, unfolding(sf_base::specs::Geometry::covers))]
fn is_covered(fill: &Fill, x: u32, y: u32) -> bool
    ensures { result ≡ covers fill.now.rect (pos x) (pos y) }
{
    is_within(fill.rect.x, fill.rect.width, i64::from(x))
        && is_within(fill.rect.y, fill.rect.height, i64::from(y))
}

/// The last fill that covers the point.
fn top_fill(fills: &[Fill], x: u32, y: u32) -> Option<&Fill>
    ensures { option_copied result ≡ find (λ fill. covers fill.rect (pos x) (pos y)) (reverse fills.now) }
{
    fills.iter().rev().find(|fill| is_covered(fill, x, y))
}

/// The colour of the last fill that covers the point, transparent black where none does.
pub(crate) fn top_colour(fills: &[Fill], x: u32, y: u32) -> Rgba
    ensures { result ≡ colour_at fills.now x y }
{
    match top_fill(fills, x, y) {
        Some(fill) => fill.colour,
        None => TRANSPARENT,
    }
}
