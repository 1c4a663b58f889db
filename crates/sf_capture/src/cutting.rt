//! From a layer tree to that of one layer with all below it, which a capture views as a display
//! views the whole tree.
ghost use Rattle.std.specs.Prelude.{◌≡◌, IfOk, map};
ghost use Rattle.std.specs.Option.{option_copied};
ghost use Rattle.sf_output_shown.specs.Cuts.{cut_layer, cut_of, relative_in};
ghost use Rattle.sf_output_shown.specs.sf_tree.Layers.{layer_of};

use sf_base::{LayerId, NoMemory};
use sf_output_shown::sf_layer::{Layer, Parent};
use sf_output_shown::sf_tree::Tree;
use sf_output_shown::{tree_of, under};
use std::alloc::Global;

/// The layer of this number, if it is one of these.
fn layer_of(layers: &[Layer], id: LayerId) -> Option<&Layer>
    ensures { option_copied result ≡ layer_of layers.now id }
{
    layers.iter().find(|layer| layer.number.0 == id.0)
}

/// What a layer is relative to, if that is one of these.
fn relative_in(kept: &[Layer], relative: Option<LayerId>) -> Option<LayerId>
    ensures { result ≡ relative_in kept.now relative }
{
    match relative {
        Some(id) => match layer_of(kept, id) {
            Some(_) => Some(id),
            None => None,
        },
        None => None,
    }
}

/// What a layer is where the one of this number hangs from the root, with these layers alone.
fn cut_layer(kept: &[Layer], id: LayerId, layer: &Layer) -> Layer
    ensures { result ≡ cut_layer kept.now id layer.now }
{
    if layer.number.0 == id.0 {
        Layer {
            parent: Parent::Root,
            position: (0, 0),
            relative: None,
            ..*layer
        }
    } else {
        Layer {
            relative: relative_in(kept, layer.relative),
            ..*layer
        }
    }
}

/// What each of these layers is where the one of this number hangs from the root.
fn cut_layers(alloc: Global, kept: &[Layer], id: LayerId) -> Result<Vec<Layer>, NoMemory>
    ensures { IfOk result (λ layers. layers.items ≡ map (cut_layer kept.now id) kept.now) }
{
    let mut layers = Vec::new(alloc);
    for layer in kept {
        layers.push(cut_layer(kept, id, layer))?;
    }
    Ok(layers)
}

/// The tree of a layer with all that reaches it by parents, in the order of creation, as if the
/// layer hung from the root at its upper left corner and were relative to none. Each other layer
/// keeps all that it has, but is relative to none where what it is relative to is not among them.
/// None exactly where the layer is not in the tree.
pub fn cut(alloc: Global, tree: &Tree, layer: LayerId) -> Result<Option<Tree>, NoMemory>
    ensures { IfOk result (λ cut. cut ≡ cut_of tree.now.layers layer) }
{
    if tree.layer(layer).is_none() {
        return Ok(None);
    }
    let kept = under(alloc, tree, layer)?;
    let layers = cut_layers(alloc, &kept, layer)?;
    Ok(Some(tree_of(alloc, &layers)?))
}
