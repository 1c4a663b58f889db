//! From a layer tree and an order of layers to what a display shows: composing, damage and hit
//! tests go by this.
ghost use Rattle.std.specs.Prelude.{◌≡◌, ◌≤◌, IfOk, List, pos, ◌≤ℤ◌};
ghost use Rattle.sf_tree.specs.sf_layer.declared.layer.Layer.{Layer as LayerValue};
ghost use Rattle.sf_tree.specs.Kept.{IsLayerInRange};
ghost use Rattle.sf_view.specs.Ancestry.{ancestry};
ghost use Rattle.sf_view.specs.inner.Clips.{IsClipOf};
ghost use Rattle.sf_view.specs.Contents.{content_of};
ghost use Rattle.sf_view.specs.Placements.{IsPlaced, IsPlacement};
ghost use Rattle.sf_view.specs.Views.{Draws, IsClip, IsDisplay, Views, ViewsInOrder};

use crate::content::{Content, content_of};
use crate::drawn::Drawn;
use crate::interval::Interval;
use crate::placement::{Placement, cut_to_content};
use crate::placing::{layer_at, place};
use sf_base::{Items, LayerId, NoMemory, Rect};
use sf_tree::Tree;
use sf_tree::sf_layer::Layer;
use std::alloc::Global;
use std::marker::Model;

/// What a display shows of a layer tree. Its width and height are 1 to 1,024 pixels, and each clip
/// lies in the display and in what its layer shows; every orientation is at most 7.
pub struct View {
    pub width: u32,
    pub height: u32,
    /// The drawn layers, from the back.
    pub drawn: Items<Drawn>,
}

impl Model for View {
    ghost use Rattle.sf_view.specs.Views.{IsView, ViewOf};

    ghost Value = { ViewOf };

    ghost view = { λ s. record { width = s.width; height = s.height; drawn = s.drawn } };

    ghost invariant = { λ s. IsView (record { width = s.width; height = s.height; drawn = s.drawn }) };
}

/// A clip of these pixels, which is empty where there are none.
#[tactic(auto, unfolding(sf_base::specs::Geometry::covers))]
fn clip_of(across: Interval, down: Interval) -> Rect
    requires left { pos 0 ≤ℤ across.from }
    requires top { pos 0 ≤ℤ down.from }
    ensures { IsClipOf across down result }
{
    let width = across.extent();
    let height = down.extent();
    if width == 0 || height == 0 {
        return Rect {
            x: 0,
            y: 0,
            width: 0,
            height: 0,
        };
    }
    Rect {
        x: across.from,
        y: down.from,
        width,
        height,
    }
}

/// A layer with this content and placement, as the display draws it.
fn draw_layer(layer: &Layer, content: Content, at: Placement, width: u32, height: u32) -> Drawn
    requires content { Some content ≡ content_of layer.now }
    requires in_range { IsLayerInRange layer.now }
    requires placed { IsPlacement width height at }
    ensures draws { (tree : List LayerValue) → IsPlaced width height (ancestry tree layer.now) at → Draws tree width height layer.now result }
    ensures clip { IsClip width height result }
    ensures orient { result.orient ≤ 7 }
{
    let shown = cut_to_content(at, &content, layer.orient);
    Drawn {
        layer: layer.number,
        clip: clip_of(shown.across, shown.down),
        place: (at.x, at.y),
        alpha: at.alpha,
        opaque: layer.opaque,
        content,
        orient: layer.orient,
    }
}

/// The view of the layers of a tree that an order names, from the back, on a display of this size,
/// 1 to 1,024 pixels wide and high: each that shows a colour or a buffer, in order. A number of no
/// layer is passed over. A point of the display is in a layer's clip exactly where it is in the
/// crops of the layer and of its ancestors and in what the layer shows.
pub fn view_in_order(
    alloc: Global,
    tree: &Tree,
    order: &[LayerId],
    width: u32,
    height: u32,
) -> Result<View, NoMemory>
    requires { IsDisplay width height }
    ensures { IfOk result (ViewsInOrder tree.now.layers order.now width height) }
{
    let count = tree.layers().len();
    let mut found = vec![in alloc; None; count]?;
    let mut drawn = Vec::new(alloc);
    for id in order {
        let Some(index) = tree.index_of(*id) else {
            continue;
        };
        let layer = layer_at(tree, index);
        let Some(content) = content_of(&layer) else {
            continue;
        };
        let at = place(tree, &mut found, width, height, index, count);
        drawn.push(draw_layer(&layer, content, at, width, height))?;
    }
    Ok(View {
        width,
        height,
        drawn: Items::new(drawn),
    })
}

/// The view of a whole tree: that of its draw order, in which each layer that shows stands once.
pub fn view_of(alloc: Global, tree: &Tree, width: u32, height: u32) -> Result<View, NoMemory>
    requires { IsDisplay width height }
    ensures { IfOk result (Views tree.now.layers width height) }
{
    let order = tree.draw_order()?;
    view_in_order(alloc, tree, &order, width, height)
}

impl Drop for View {
    fn drop(self) {
        let View {
            width: _,
            height: _,
            drawn: _,
        } = self;
    }
}
