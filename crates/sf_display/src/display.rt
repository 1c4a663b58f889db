//! From a layer tree to what one display shows: the drawn layers on its stack. `sf_output_plan`
//! asks for it once for each display of a vsync.
ghost use Rattle.std.specs.Option.{option_map_or};
ghost use Rattle.std.specs.Prelude.{◌≡◌, ℕ, List, IfOk, map};
ghost use Rattle.sf_display.specs.inner.Index.{by_layer, declared_for};
ghost use Rattle.sf_output_shown.specs.Above.{found_above};
ghost use Rattle.sf_output_shown.specs.Displays.{order_on, stack_on};
ghost use Rattle.sf_output_shown.specs.declared.above.Wanted.TheVariants as wanted;
ghost use Rattle.sf_output_shown.specs.sf_view.Views.{IsDisplay, ViewsInOrder};

use sf_base::{LayerId, NoMemory};
use sf_output_shown::sf_view::{View, view_in_order};
use sf_output_shown::{ByLayer, Wanted, found_above};
use sf_tree::Tree;
use std::alloc::Global;

/// The declared stacks by the layers that they are declared for.
fn declared(alloc: Global, stacks: &[(u32, u32)]) -> Result<ByLayer<u32>, NoMemory>
    ensures { IfOk result (λ declared. declared ≡ map by_layer stacks.now) }
{
    let mut notes = Vec::new(alloc);
    for (number, stack) in stacks {
        notes.push((LayerId(*number), *stack))?;
    }
    ByLayer::new(alloc, notes)
}

/// The stack that is declared for a layer, if there is one, 0 where none is.
fn stack_of(declared: &ByLayer<u32>, layer: Option<LayerId>) -> u32
    ensures { result ≡ option_map_or (declared_for declared.now) layer 0 }
{
    match layer {
        Some(id) => declared.of(id).unwrap_or(0),
        None => 0,
    }
}

/// The stack that the layer of this number is on, 0 where there is no such layer. Of each layer of the
/// tree it is known which one above it hangs from the root.
fn stack_on(tree: &Tree, tops: &[Option<LayerId>], declared: &ByLayer<u32>, id: LayerId) -> u32
    requires { tops.now ≡ map (found_above wanted.Top tree.now.layers) tree.now.layers }
    ensures { (stacks : List (ℕ × ℕ)) → declared.now ≡ map by_layer stacks → result ≡ stack_on tree.now.layers stacks id }
{
    match tree.index_of(id) {
        Some(index) => stack_of(declared, tops[index]),
        None => 0,
    }
}

/// The draw order without the layers that are not on this stack.
fn order_on(
    alloc: Global,
    tree: &Tree,
    stacks: &[(u32, u32)],
    stack: u32,
) -> Result<Vec<LayerId>, NoMemory>
    ensures { IfOk result (λ order. order.items ≡ order_on tree.now.layers stacks.now stack) }
{
    let tops = found_above(alloc, tree, Wanted::Top)?;
    let declared = declared(alloc, stacks)?;
    let all = tree.draw_order()?;
    let mut order = Vec::new(alloc);
    for id in &all {
        if stack_on(tree, &tops, &declared, *id) == stack {
            order.push(*id)?;
        }
    }
    Ok(order)
}

/// What a display that shows a stack shows of a tree, `width` pixels wide and `height` high, each 1 to
/// 1,024: the drawn layers of the tree that are on the stack, in order. A layer is on the stack that is
/// declared for the layer on the way up from it, itself included, that hangs from the root: the second
/// number of the first pair whose first number is that layer's. Where none is declared it is on stack 0.
/// Its only error is out of memory.
pub fn display_view(
    alloc: Global,
    tree: &Tree,
    stacks: &[(u32, u32)],
    stack: u32,
    width: u32,
    height: u32,
) -> Result<View, NoMemory>
    requires { IsDisplay width height }
    ensures { IfOk result (ViewsInOrder tree.now.layers (order_on tree.now.layers stacks.now stack) width height) }
{
    let order = order_on(alloc, tree, stacks, stack)?;
    view_in_order(alloc, tree, &order, width, height)
}
