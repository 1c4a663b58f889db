//! The answer to a hit test: the layer in front at a point of a view.
ghost use Rattle.std.specs.Prelude.{◌≡◌, find, reverse};
ghost use Rattle.std.specs.Option.{option_copied};
ghost use Rattle.sf_output_shown.specs.Hits.{hit_in};
ghost use Rattle.sf_output_shown.specs.sf_view.Views.{IsView, is_in_clip};

use sf_base::{LayerId, is_within};
use sf_output_shown::sf_view::{Drawn, View};

/// Whether a drawn layer's clip has a point.
#[tactic(auto, unfolding(sf_base::specs::Geometry::covers))]
fn has_point(drawn: &Drawn, x: i32, y: i32) -> bool
    ensures { result ≡ is_in_clip drawn.now x y }
{
    is_within(drawn.clip.x, drawn.clip.width, i64::from(x))
        && is_within(drawn.clip.y, drawn.clip.height, i64::from(y))
}

/// The last drawn layer whose clip has a point.
fn last_at(drawn: &[Drawn], x: i32, y: i32) -> Option<&Drawn>
    ensures { option_copied result ≡ find (λ one. is_in_clip one x y) (reverse drawn.now) }
{
    drawn.iter().rev().find(|one| has_point(one, x, y))
}

/// The layer in front at a point of a view, x pixels to the right and y down from the display's upper
/// left corner: the last drawn one whose clip has the point; None exactly where there is none, as at a
/// point off the display. It takes no memory.
pub fn hit(view: &View, x: i32, y: i32) -> Option<LayerId>
    ensures value { result ≡ hit_in view.now x y }
    ensures kept { IsView view.now }
{
    match last_at(view.drawn.as_slice(), x, y) {
        Some(drawn) => Some(drawn.layer),
        None => None,
    }
}
