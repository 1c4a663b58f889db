//! Where a layer lies on the display, by the places and crops of the layers above it.
ghost use Rattle.std.specs.Prelude.{◌≡◌, ◌<◌, ◌≤◌, ◌∷◌, [], List, length, ℕ, ◌&&◌, ℤ, ◌+ℤ◌};
ghost use Rattle.std.specs.List.{All};
ghost use Rattle.sf_tree.specs.sf_layer.Ranges.{IsCrop};
ghost use Rattle.sf_tree.specs.sf_layer.declared.layer.Layer.{Layer as LayerValue};
ghost use Rattle.sf_tree.specs.Kept.{IsLayerInRange};
ghost use Rattle.sf_view.specs.Placements.{HasSmallCrop, is_in_bounds, IsInReach, IsOnDisplay, IsPlaced};
ghost use Rattle.sf_view.specs.Boxes.{box_of};
ghost use Rattle.sf_view.specs.Contents.{is_in_content};
ghost use Rattle.sf_view.specs.Views.{IsDisplay};

use crate::content::Content;
use crate::interval::Interval;
use sf_base::{Rect, mul};
use sf_tree::sf_layer::Layer;

// Where a layer lies on the display, how opaque it is drawn, and the part of the display to which
// its crop and those of its ancestors cut it.
#[derive(Clone, Copy)]
pub struct Placement {
    pub x: i32,
    pub y: i32,
    pub alpha: u8,
    pub across: Interval,
    pub down: Interval,
}

fn moved(at: i32, by: i32) -> i32
    requires at { IsInReach 65537 at }
    requires by { IsInReach 1 by }
    ensures { result ≡ at +ℤ by }
{
    at + by
}

impl Placement {
    /// The placement of the root.
    pub fn root(width: u32, height: u32) -> Placement
        requires { IsDisplay width height }
        ensures { IsPlaced width height [] result }
    {
        Placement {
            x: 0,
            y: 0,
            alpha: 255,
            across: Interval {
                from: 0,
                to: width as i32,
            },
            down: Interval {
                from: 0,
                to: height as i32,
            },
        }
    }

    /// The placement of a layer below one with this placement.
    pub fn below(self, layer: &Layer) -> Placement
        requires near { IsInReach 65535 self.x × IsInReach 65535 self.y }
        requires in_range { IsLayerInRange layer.now }
        ensures { (width height : ℕ) (above : List LayerValue) → IsPlaced width height above self → IsPlaced width height (layer.now ∷ above) result }
    {
        let x = moved(self.x, layer.position.0);
        let y = moved(self.y, layer.position.1);
        let alpha = mul(self.alpha, layer.alpha);
        match layer.crop {
            Some(crop) => Placement {
                x,
                y,
                alpha,
                across: self.across.cut(moved(x, crop.x), crop.width),
                down: self.down.cut(moved(y, crop.y), crop.height),
            },
            None => Placement {
                x,
                y,
                alpha,
                across: self.across,
                down: self.down,
            },
        }
    }
}

/// How wide and high the box is in which a crop is shown.
fn box_size(crop: &Rect, orient: u8) -> (u32, u32)
    ensures { (place : ℤ × ℤ) → (result.0 ≡ (box_of crop.now orient place).width) × (result.1 ≡ (box_of crop.now orient place).height) }
{
    if orient % 2 == 1 {
        (crop.height, crop.width)
    } else {
        (crop.width, crop.height)
    }
}

/// Cuts the bounds of a layer with this placement to what it shows.
#[tactic(auto, unfolding(sf_base::specs::Geometry::covers))]
pub fn cut_to_content(at: Placement, content: &Content, orient: u8) -> Placement
    requires near { IsInReach 65536 at.x × IsInReach 65536 at.y }
    requires size { HasSmallCrop content.now }
    ensures bounds { (x y : ℤ) → is_in_bounds result x y ≡ (is_in_bounds at x y && is_in_content content.now orient (at.x, at.y) x y) }
    ensures same { (result.x ≡ at.x) × (result.y ≡ at.y) × (result.alpha ≡ at.alpha) }
    ensures on_display { (width height : ℕ) → IsOnDisplay width height at → IsOnDisplay width height result }
{
    match content {
        Content::Colour(_) => at,
        Content::Buffer(shown) => {
            let (width, height) = box_size(&shown.crop, orient);
            Placement {
                x: at.x,
                y: at.y,
                alpha: at.alpha,
                across: at.across.cut(at.x, width),
                down: at.down.cut(at.y, height),
            }
        }
    }
}
