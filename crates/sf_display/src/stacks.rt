//! Which of the declared stacks count for the layers that a tree has now: asked once before several
//! displays are viewed.
ghost use Rattle.std.specs.Prelude.{◌≡◌, ℕ, IfOk, filter};
ghost use Rattle.sf_display.specs.Stacks.{is_of_layer, stacks_in};
ghost use Rattle.sf_output_shown.specs.Displays.{order_on};

use sf_base::{LayerId, NoMemory};
use sf_tree::Tree;
use std::alloc::Global;

/// Whether the tree has the layer for which a stack is declared.
#[tactic(auto, using(sf_tree::proofs::Lookups::lookups))]
fn is_of_layer(tree: &Tree, stack: (u32, u32)) -> bool
    ensures { result ≡ is_of_layer tree.now.layers stack }
{
    tree.index_of(LayerId(stack.0)).is_some()
}

/// Of these stacks those that are declared for layers of the tree: by them each stack has the same
/// layers. There may be far more stacks than layers, so who views several displays asks for these
/// once.
pub fn stacks_in(
    alloc: Global,
    tree: &Tree,
    stacks: &[(u32, u32)],
) -> Result<Vec<(u32, u32)>, NoMemory>
    ensures value { IfOk result (λ kept. kept.items ≡ stacks_in tree.now.layers stacks.now) }
    ensures same { IfOk result (λ kept. (stack : ℕ) → order_on tree.now.layers kept.items stack ≡ order_on tree.now.layers stacks.now stack) }
{
    let mut kept = Vec::new(alloc);
    for stack in stacks {
        if is_of_layer(tree, *stack) {
            kept.push(*stack)?;
        }
    }
    Ok(kept)
}
