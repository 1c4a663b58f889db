//! Looks up from each layer for one above it, once for all layers: a display asks which layer hangs
//! from the root, a capture or a mirror which layers stand below one.
ghost use Rattle.std.specs.Prelude.{◌≡◌, ◌+◌, ◌∷◌, ◌<◌, IfOk, length, map, slice_get};
ghost use Rattle.sf_view.specs.sf_layer.declared.layer.Layer.{Layer as LayerValue};
ghost use Rattle.sf_output_shown.specs.Above.{AreFound, found_above, found_on, is_wanted};
ghost use Rattle.sf_view.specs.sf_tree.Kept.{IsTree};
ghost use Rattle.sf_view.specs.sf_tree.inner.Known.{Outranks};
ghost use Rattle.sf_view.specs.sf_tree.Layers.{parent_layer};
ghost use Rattle.sf_view.specs.Ancestry.{ancestry, and_above};

use sf_base::{LayerId, NoMemory};
use sf_view::sf_layer::{Layer, Parent};
use sf_view::sf_tree::Tree;
use std::alloc::Global;

/// Which layer is looked for on the way up from another.
#[derive(Clone, Copy)]
pub enum Wanted {
    /// The one of this number.
    Numbered(LayerId),
    /// The one that hangs from the root.
    Top,
}

/// Whether a layer is the one of this number, or one that stands right at the root.
fn is_wanted(wanted: Wanted, layer: &Layer) -> bool
    ensures { result ≡ is_wanted wanted layer.now }
{
    match (wanted, layer.parent) {
        (Wanted::Numbered(id), _) => layer.number.0 == id.0,
        (Wanted::Top, Parent::Root) => true,
        (Wanted::Top, Parent::Layer(_) | Parent::Nothing) => false,
    }
}

pub fn layer_at(tree: &Tree, index: usize) -> Layer
    requires { index < length tree.now.layers }
    ensures layer { slice_get tree.now.layers index ≡ Some result }
    ensures kept { IsTree tree.now.most tree.now.layers }
{
    tree.layers()[index]
}

/// The wanted layer on the way up from the layer at an index, itself included. What was found of it
/// and of its ancestors is noted, so that each is looked at once. The steps bound how far up.
#[cycle(find)]
fn find(
    tree: &Tree,
    wanted: Wanted,
    found: &mut [Option<Option<LayerId>>],
    index: usize,
    steps: usize,
) -> Option<LayerId>
    requires inside { index < length tree.now.layers }
    requires found { AreFound wanted tree.now.layers found.old }
    requires steps { (layer : LayerValue) → slice_get tree.now.layers index ≡ Some layer → Outranks tree.now.layers layer (steps + 1) }
    ensures value { (layer : LayerValue) → slice_get tree.now.layers index ≡ Some layer → result ≡ found_above wanted tree.now.layers layer }
    ensures found { AreFound wanted tree.now.layers found.new }
{
    if let Some(above) = found[index] {
        return above;
    }
    let layer = layer_at(tree, index);
    let above = find_from(tree, wanted, found, &layer, steps);
    found[index] = Some(above);
    above
}

/// The wanted layer on the way up from this one, itself included. The steps bound the way.
#[cycle(find)]
fn find_from(
    tree: &Tree,
    wanted: Wanted,
    found: &mut [Option<Option<LayerId>>],
    layer: &Layer,
    steps: usize,
) -> Option<LayerId>
    requires found { AreFound wanted tree.now.layers found.old }
    requires steps { Outranks tree.now.layers layer.now (steps + 1) }
    ensures value { result ≡ found_on wanted (layer.now ∷ and_above (ancestry tree.now.layers) (parent_layer tree.now.layers layer.now.parent)) }
    ensures found { AreFound wanted tree.now.layers found.new }
{
    if is_wanted(wanted, layer) {
        return Some(layer.number);
    }
    match layer.parent {
        Parent::Root | Parent::Nothing => None,
        Parent::Layer(id) => match tree.index_of(id) {
            Some(index) => find(tree, wanted, found, index, steps - 1),
            None => None,
        },
    }
}

/// For each layer of a tree, in the order of creation, the number of the wanted layer on the way up
/// from it, itself included, if there is one. Each layer is looked at once.
pub fn found_above(
    alloc: Global,
    tree: &Tree,
    wanted: Wanted,
) -> Result<Vec<Option<LayerId>>, NoMemory>
    ensures value { IfOk result (λ list. list.items ≡ map (found_above wanted tree.now.layers) tree.now.layers) }
    ensures kept { IsTree tree.now.most tree.now.layers }
{
    let count = tree.layers().len();
    let mut found = vec![in alloc; None; count]?;
    let mut list = Vec::new(alloc);
    for index in 0..count {
        list.push(find(tree, wanted, &mut found, index, count))?;
    }
    Ok(list)
}
