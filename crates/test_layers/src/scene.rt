//! Applies operations to the tree of a case, and makes the views that a line asks for.
ghost use Rattle.std.specs.List.{All};
ghost use Rattle.std.specs.Prelude.{◌≡◌, ◌≤◌, IfSome, IsTrue, length};
ghost use Rattle.sf_layer.specs.Ranges.{IsOperation};
ghost use Rattle.sf_view.specs.Views.{IsDisplay};

use sf_base::LayerId;
use sf_layer::Op;
use sf_tree::{ApplyFault, Tree};
use sf_view::{View, ancestry, view_in_order, view_of};
use std::alloc::Global;
use std::io;
use std::str::SplitWhitespace;
use test_words::number32;

/// Whether a transaction may carry these operations.
fn are_operations(ops: &[(LayerId, Op)]) -> bool
    ensures few { IsTrue result → length ops.now ≤ 4294967295 }
    ensures in_range { IsTrue result → All IsOperation ops.now }
{
    ops.len() <= u32::MAX as usize && ops.iter().all(|op| op.0.0 > 0 && op.1.is_in_range())
}

/// Applies operations to a tree, and prints what it answers.
pub fn apply(rt: &impl Print, tree: &mut Tree, ops: &[(LayerId, Op)]) -> io::Result<()> {
    if !are_operations(ops) {
        return println!(rt; "apply: not in range");
    }
    match tree.apply(ops) {
        Ok(()) => println!(rt; "apply: ok"),
        Err(ApplyFault::Reject { cause, op }) => {
            println!(rt; "apply: cause {cause}, operation {op}")
        }
        Err(ApplyFault::NoMemory) => println!(rt; "apply: no memory"),
    }
}

/// Prints each operation's kind, and whether it is in its range.
pub fn kinds(rt: &impl Print, ops: &[(LayerId, Op)]) -> io::Result<()> {
    for (_, op) in ops {
        if op.is_in_range() {
            println!(rt; "kind {}", op.kind_of())?;
        } else {
            println!(rt; "kind {}, not in range", op.kind_of())?;
        }
    }
    Ok(())
}

/// Prints the layers in the order in which they are drawn.
pub fn order(rt: &impl Print, tree: &Tree) -> io::Result<()> {
    print!(rt; "order:")?;
    if let Ok(order) = tree.draw_order() {
        for id in &order {
            print!(rt; " {}", id.0)?;
        }
    }
    println!(rt; "")
}

/// Prints a layer and its ancestors, from the layer up.
pub fn above(rt: &impl Print, alloc: Global, tree: &Tree, id: LayerId) -> io::Result<()> {
    let Some(layer) = tree.layer(id) else {
        return println!(rt; "above {}: no layer", id.0);
    };
    print!(rt; "above:")?;
    if let Ok(layers) = ancestry(alloc, tree, layer) {
        for layer in &layers {
            print!(rt; " {}", layer.number.0)?;
        }
    }
    println!(rt; "")
}

/// The layers that the rest of a line names.
fn named(alloc: Global, words: &mut SplitWhitespace<'_>) -> Option<Vec<LayerId>> {
    let mut ids = Vec::new(alloc);
    for word in words {
        ids.push(LayerId(word.parse().ok()?)).ok()?;
    }
    Some(ids)
}

/// The size of a display, as width and height.
fn size(words: &mut SplitWhitespace<'_>) -> Option<(u32, u32)>
    ensures { IfSome result (λ size. IsDisplay size.0 size.1) }
{
    let width = number32(words)?;
    let height = number32(words)?;
    if 1 <= width && width <= 1024 && 1 <= height && height <= 1024 {
        Some((width, height))
    } else {
        None
    }
}

/// What a display of the size of the next two words shows.
pub fn sized(alloc: Global, tree: &Tree, words: &mut SplitWhitespace<'_>) -> Option<View> {
    let (width, height) = size(words)?;
    view_of(alloc, tree, width, height).ok()
}

/// What a display of a size shows: of all layers, or of those of an order.
pub fn viewed(alloc: Global, tree: &Tree, words: &mut SplitWhitespace<'_>) -> Option<View> {
    let (width, height) = size(words)?;
    let ids = named(alloc, words)?;
    let view = if ids.is_empty() {
        view_of(alloc, tree, width, height)
    } else {
        view_in_order(alloc, tree, &ids, width, height)
    };
    view.ok()
}
