//! The way up from a layer to the root.
ghost use Rattle.std.specs.Prelude.{◌≡◌, IfOk};
ghost use Rattle.sf_tree.specs.Layers.{parent_layer};
ghost use Rattle.sf_view.specs.Ancestry.{ancestry};

use sf_base::NoMemory;
use sf_tree::Tree;
use sf_tree::sf_layer::{Layer, Parent};
use std::alloc::Global;

/// The layer that a layer hangs from, if it is one.
fn parent_layer(tree: &Tree, parent: Parent) -> Option<Layer>
    ensures { result ≡ parent_layer tree.now.layers parent }
{
    match parent {
        Parent::Layer(id) => tree.layer(id),
        Parent::Root | Parent::Nothing => None,
    }
}

/// A layer of a tree and its ancestors: the way up from the layer.
#[tactic(auto, unfolding(crate::specs::Ancestry::ancestry))]
pub fn ancestry(alloc: Global, tree: &Tree, layer: Layer) -> Result<Vec<Layer>, NoMemory>
    ensures { IfOk result (λ list. list.items ≡ ancestry tree.now.layers layer) }
{
    let mut list = Vec::new(alloc);
    let mut next = Some(layer);
    let mut steps = tree.layers().len();
    while steps > 0 {
        let Some(layer) = next else {
            return Ok(list);
        };
        list.push(layer)?;
        next = parent_layer(tree, layer.parent);
        steps -= 1;
    }
    Ok(list)
}
