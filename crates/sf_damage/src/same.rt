//! Whether two drawn layers are the same, with or without their clips.
ghost use Rattle.std.specs.Prelude.{◌≡◌, ◌↔◌, IsTrue};
ghost use Rattle.sf_view.specs.Stacks.{sheet_of};
ghost use Rattle.sf_damage.specs.inner.Manners.{manner_of};

use sf_base::LayerId;
use sf_view::{Content, Drawn};

/// Whether two contents are the same.
fn is_same_content(one: &Content, other: &Content) -> bool
    ensures { IsTrue result ↔ (one.now ≡ other.now) }
{
    match (one, other) {
        (Content::Colour(one), Content::Colour(other)) => one == other,
        (Content::Buffer(one), Content::Buffer(other)) => one == other,
        _ => false,
    }
}

/// What of a drawn layer is neither its clip nor its content.
fn manner(drawn: &Drawn) -> (LayerId, (i32, i32), u8, bool, u8)
    ensures { result ≡ manner_of drawn.now }
{
    (
        drawn.layer,
        drawn.place,
        drawn.alpha,
        drawn.opaque,
        drawn.orient,
    )
}

/// Whether two drawn layers are the same except for their clips.
pub fn has_same_sheet(one: &Drawn, other: &Drawn) -> bool
    ensures { IsTrue result ↔ (sheet_of one.now ≡ sheet_of other.now) }
{
    manner(one) == manner(other) && is_same_content(&one.content, &other.content)
}

/// Whether two drawn layers are the same, with their clips.
pub fn is_same(one: &Drawn, other: &Drawn) -> bool
    ensures { IsTrue result ↔ (one.now ≡ other.now) }
{
    one.clip == other.clip && has_same_sheet(one, other)
}
