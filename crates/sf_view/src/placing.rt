//! The placements of a tree's layers, each found once by way of its parent's.
ghost use Rattle.std.specs.Prelude.{◌≡◌, ◌+◌, ◌<◌, length, slice_get};
ghost use Rattle.sf_tree.specs.sf_layer.declared.layer.Layer.{Layer as LayerValue};
ghost use Rattle.sf_tree.specs.Kept.{IsTree};
ghost use Rattle.sf_tree.specs.inner.Known.{Outranks};
ghost use Rattle.sf_tree.specs.Layers.{layer_of, parent_layer};
ghost use Rattle.sf_view.specs.Ancestry.{ancestry, and_above};
ghost use Rattle.sf_view.specs.Placements.{AreFound, IsPlaced};
ghost use Rattle.sf_view.specs.Views.{IsDisplay};

use crate::placement::Placement;
use sf_tree::Tree;
use sf_tree::sf_layer::{Layer, Parent};

/// The layer that stands at an index of the tree.
pub fn layer_at(tree: &Tree, index: usize) -> Layer
    requires { index < length tree.now.layers }
    ensures layer { slice_get tree.now.layers index ≡ Some result }
    ensures kept { IsTree tree.now.most tree.now.layers }
{
    tree.layers()[index]
}

/// The placement of the layer that stands at an index of the tree. It and those of its ancestors are
/// noted, so that each is found once. The steps bound how far up.
#[cycle(place)]
pub fn place(
    tree: &Tree,
    found: &mut [Option<Placement>],
    width: u32,
    height: u32,
    index: usize,
    steps: usize,
) -> Placement
    requires display { IsDisplay width height }
    requires inside { index < length tree.now.layers }
    requires found { AreFound tree.now.layers width height found.old }
    requires steps { (layer : LayerValue) → slice_get tree.now.layers index ≡ Some layer → Outranks tree.now.layers layer (steps + 1) }
    ensures placed { (layer : LayerValue) → slice_get tree.now.layers index ≡ Some layer → IsPlaced width height (ancestry tree.now.layers layer) result }
    ensures found { AreFound tree.now.layers width height found.new }
{
    if let Some(placement) = found[index] {
        return placement;
    }
    let layer = layer_at(tree, index);
    let above = place_parent(tree, found, width, height, layer.parent, steps);
    let placement = above.below(&layer);
    found[index] = Some(placement);
    placement
}

/// The placement of what a layer hangs from.
#[cycle(place)]
fn place_parent(
    tree: &Tree,
    found: &mut [Option<Placement>],
    width: u32,
    height: u32,
    parent: Parent,
    steps: usize,
) -> Placement
    requires display { IsDisplay width height }
    requires found { AreFound tree.now.layers width height found.old }
    requires steps { (layer : LayerValue) → parent_layer tree.now.layers parent ≡ Some layer → Outranks tree.now.layers layer steps }
    ensures placed { IsPlaced width height (and_above (ancestry tree.now.layers) (parent_layer tree.now.layers parent)) result }
    ensures found { AreFound tree.now.layers width height found.new }
{
    match parent {
        Parent::Root | Parent::Nothing => Placement::root(width, height),
        Parent::Layer(id) => match tree.index_of(id) {
            Some(index) => place(tree, found, width, height, index, steps - 1),
            None => Placement::root(width, height),
        },
    }
}
