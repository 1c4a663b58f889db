//! The operations of transactions on layers, and their ranges: a script's steps make them, a
//! transaction keeps them, and the tree does them.
ghost use Rattle.std.specs.Prelude.{◌≡◌, IsTrue, ◌↔◌};
ghost use Rattle.sf_layer.specs.Kinds.{kind_of};
ghost use Rattle.sf_layer.specs.Ranges.{IsCoordinate, IsCrop, IsInRange};

use crate::kind::Kind;
use crate::parent::Parent;
use crate::shown::Shown;
use sf_base::{LayerId, Rect, Rgba};

/// An operation on a layer.
#[derive(Clone, Copy)]
pub enum Op {
    /// Makes the layer, the newest of all.
    Create(Kind, Parent),
    /// Takes the layer out: its children have no parent then, and a layer that was relative to
    /// it keeps its z and is relative to none.
    Destroy,
    /// Hangs the layer elsewhere. It stays relative to what it was relative to.
    Reparent(Parent),
    /// Sets z. The layer is relative to none then.
    Z(i32),
    /// Draws the layer with another instead of its parent, with this z.
    Relative(LayerId, i32),
    /// Sets where the layer lies from its parent, in pixels to the right and down, each -16,384
    /// to 16,384.
    Position(i32, i32),
    /// Sets or ends the crop, from the layer's own place on: its corner -16,384 to 16,384, its
    /// width and height at most 16,384.
    Crop(Option<Rect>),
    /// Sets the alpha.
    Alpha(u8),
    /// Leaves the layer and all below it out, or not.
    Hidden(bool),
    /// Takes the alpha of the layer's own pixels as 255, or not.
    Opaque(bool),
    /// Sets what a colour layer shows.
    Colour(Rgba),
    /// Lets at most one buffer for the layer through in a vsync, or any number.
    Backpressure(bool),
    /// Sets what a buffer layer shows. The crop lies within 512 x 512.
    Show(Shown),
    /// Sets how the layer's buffer is turned, 0 to 7. It may be set on any layer, and changes
    /// nothing on one that shows no buffer.
    Orient(u8),
}

impl Op {
    /// The kind of the operation. In a transaction an operation takes the place of an earlier one
    /// of its kind for the same layer; z and relative are one kind.
    pub fn kind_of(&self) -> u8
        ensures { result ≡ kind_of self.now }
    {
        match self {
            Op::Create(..) => 0,
            Op::Destroy => 1,
            Op::Reparent(..) => 2,
            Op::Z(..) | Op::Relative(..) => 3,
            Op::Position(..) => 4,
            Op::Crop(..) => 5,
            Op::Alpha(..) => 6,
            Op::Hidden(..) => 7,
            Op::Opaque(..) => 8,
            Op::Colour(..) => 9,
            Op::Backpressure(..) => 10,
            Op::Show(..) => 11,
            Op::Orient(..) => 12,
        }
    }

    /// Whether positions, crops and an orientation are in their ranges.
    pub fn is_in_range(&self) -> bool
        ensures { IsTrue result ↔ IsInRange self.now }
    {
        match self {
            Op::Position(x, y) => is_coordinate(*x) && is_coordinate(*y),
            Op::Crop(Some(crop)) => is_crop(crop),
            Op::Show(shown) => shown.is_in_range(),
            Op::Orient(orient) => *orient <= GREATEST_ORIENTATION,
            _ => true,
        }
    }
}

// How far positions and crops' corners lie at most, in pixels to each side.
const FARTHEST: i32 = 16_384;
// How wide and high a layer's crop is at most, in pixels.
const GREATEST_CROP: u32 = 16_384;
// The greatest orientation of a buffer: there are eight, from 0 on.
const GREATEST_ORIENTATION: u8 = 7;

/// Whether it is a position or a crop's corner.
fn is_coordinate(at: i32) -> bool
    ensures { IsTrue result ↔ IsCoordinate at }
{
    -FARTHEST <= at && at <= FARTHEST
}

/// Whether it is a layer's crop.
fn is_crop(crop: &Rect) -> bool
    ensures { IsTrue result ↔ IsCrop crop.now }
{
    is_coordinate(crop.x)
        && is_coordinate(crop.y)
        && crop.width <= GREATEST_CROP
        && crop.height <= GREATEST_CROP
}
