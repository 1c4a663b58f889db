//! A law about trees, called for its clauses alone: no layer reaches itself.
ghost use Rattle.std.specs.Prelude.{◌≡◌, ℕ, List, false};
ghost use Rattle.sf_base.specs.declared.ids.LayerId.{LayerId as LayerIdValue};
ghost use Rattle.sf_layer.specs.declared.layer.Layer.{Layer as LayerValue};
ghost use Rattle.sf_tree.specs.Kept.{IsTree};
ghost use Rattle.sf_tree.specs.Steps.{all_steps, parent_steps, reaches_itself};

/// In a tree no layer is its own ancestor, nor reaches itself by steps to parents and to relative
/// layers.
pub fn no_layer_reaches_itself()
    ensures parents { (most : ℕ) (layers : List LayerValue) (id : LayerIdValue) → IsTree most layers → reaches_itself parent_steps layers id ≡ false }
    ensures all { (most : ℕ) (layers : List LayerValue) (id : LayerIdValue) → IsTree most layers → reaches_itself all_steps layers id ≡ false }
{}
