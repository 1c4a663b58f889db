//! Calls on a layer tree.
ghost use Rattle.std.specs.List.{All};
ghost use Rattle.std.specs.Prelude.{◌≡◌, ◌≤◌, length, OnOk};
ghost use Rattle.sf_layer.specs.Ranges.{IsOperation};
ghost use Rattle.sf_tree.specs.Changes.{after};

use sf_base::LayerId;
use sf_layer::Op;
use sf_tree::{ApplyFault, Tree};

/// Operations that are done are done all.
pub fn apply_does_all(tree: &mut Tree, ops: &[(LayerId, Op)]) -> Result<(), ApplyFault>
    requires few { length ops.now ≤ 4294967295 }
    requires in_range { All IsOperation ops.now }
    ensures ok { OnOk result (after tree.old ops.now ≡ Ok tree.new) }
{
    tree.apply(ops)
}
