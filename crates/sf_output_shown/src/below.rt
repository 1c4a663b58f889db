//! The layer of a number with all layers below it: what a capture shows, and what a mirror copies.
ghost use Rattle.std.specs.Prelude.{◌≡◌, IfOk};
ghost use Rattle.sf_output_shown.specs.Cuts.{under};
ghost use Rattle.sf_view.specs.sf_tree.Kept.{IsTree};

use crate::above::{Wanted, found_above, layer_at};
use sf_base::{LayerId, NoMemory};
use sf_view::sf_layer::Layer;
use sf_view::sf_tree::Tree;
use std::alloc::Global;

/// The layer of this number and all that reach it by parents, in the order of creation: none
/// where the tree has no such layer. Its only error is out of memory.
pub fn under(alloc: Global, tree: &Tree, id: LayerId) -> Result<Vec<Layer>, NoMemory>
    ensures value { IfOk result (λ kept. kept.items ≡ under tree.now.layers id) }
    ensures kept { IsTree tree.now.most tree.now.layers }
{
    let found = found_above(alloc, tree, Wanted::Numbered(id))?;
    let mut kept = Vec::new(alloc);
    for index in 0..tree.layers().len() {
        if found[index].is_some() {
            kept.push(layer_at(tree, index))?;
        }
    }
    Ok(kept)
}
