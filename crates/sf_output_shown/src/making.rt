//! A layer tree of given layers, as a capture and written mirrors need one.
ghost use Rattle.std.specs.Prelude.{◌≡◌, IfOk};
ghost use Rattle.sf_view.specs.sf_tree.Kept.{IsTree};

use sf_base::NoMemory;
use sf_view::sf_layer::Layer;
use sf_view::sf_tree::Tree;
use std::alloc::Global;

/// How many layers a tree of given layers can have: as many as any tree can.
const MOST: u32 = 9_216;

/// A tree of these layers, in this order, which can have 9,216 layers. The layers are those of such a
/// tree, as what `cut` and `written` ask for is, so its only error is out of memory.
pub fn tree_of(alloc: Global, layers: &[Layer]) -> Result<Tree, NoMemory>
    requires { IsTree 9216 layers.now }
    ensures { IfOk result (λ tree. tree ≡ record { layers = layers.now; most = 9216 }) }
{
    match Tree::of_layers(alloc, MOST, layers)? {
        Some(tree) => Ok(tree),
        None => unreachable!(),
    }
}
