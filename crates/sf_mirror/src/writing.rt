//! From a layer tree to the tree with its mirrors written out, which displays then view like any
//! other.
ghost use Rattle.std.specs.Prelude.{◌≡◌, ◌≤◌, ◌+◌, IfOk, OnOk, length, map};
ghost use Rattle.sf_output_shown.specs.Copies.{mirrors, number_of, with_copies, written};
ghost use Rattle.sf_mirror.specs.inner.Extended.{Extends};

use crate::copies::copy_all;
use crate::naming::name_all;
use sf_base::{LayerId, NoMemory};
use sf_output_shown::sf_layer::{Kind, Layer};
use sf_output_shown::sf_tree::Tree;
use sf_output_shown::{ByLayer, tree_of, under};
use std::alloc::Global;

/// Whether a mirror shows copies: it is a container of the tree, and what it mirrors is in the tree.
fn mirrors(tree: &Tree, pair: &(u32, u32)) -> bool
    ensures { result ≡ mirrors tree.now.layers pair.now }
{
    match tree.layer(LayerId(pair.0)) {
        Some(layer) => match layer.kind {
            Kind::Container => tree.layer(LayerId(pair.1)).is_some(),
            Kind::Colour | Kind::Buffer => false,
        },
        None => false,
    }
}

/// The numbers of these layers, in order.
fn numbers(alloc: Global, layers: &[Layer]) -> Result<Vec<LayerId>, NoMemory>
    ensures { IfOk result (λ numbers. numbers.items ≡ map number_of layers.now) }
{
    let mut numbers = Vec::new(alloc);
    for layer in layers {
        numbers.push(layer.number)?;
    }
    Ok(numbers)
}

/// Adds the copies that a mirror shows, if it shows any, behind these layers.
fn push_copies(
    alloc: Global,
    tree: &Tree,
    layers: &mut Vec<Layer>,
    pair: &(u32, u32),
) -> Result<(), NoMemory>
    requires few { length layers.old.items + length tree.now.layers ≤ 9216 }
    requires tree { Extends tree.now.layers layers.old.items }
    ensures tree { OnOk result (Extends tree.now.layers layers.new.items) }
    ensures long { OnOk result (length layers.new.items ≤ length layers.old.items + length tree.now.layers) }
    ensures value { OnOk result (layers.new.items ≡ with_copies tree.now.layers layers.old.items pair.now) }
{
    if !mirrors(tree, pair) {
        return Ok(());
    }
    let id = LayerId(pair.1);
    let originals = under(alloc, tree, id)?;
    let mut taken = numbers(alloc, layers)?;
    let names = ByLayer::new(alloc, name_all(alloc, &mut taken, &originals)?)?;
    let mut copies = copy_all(alloc, LayerId(pair.0), id, &names, &originals)?;
    layers.append(&mut copies)?;
    Ok(())
}

/// A tree with its mirrors written out: behind its layers stand, for each mirror in order, copies of
/// a layer and of all that reach it by parents in the tree, in the order of creation. A mirror is the
/// number of the layer that shows them and the number of the layer that it shows; it is written out
/// where the first is a container of the tree and the second is in the tree.
///
/// A copy has the least number from 1 that neither a layer nor a copy before it has. The copy of the
/// layer that is shown hangs from the mirror at its upper left corner, with z 0 and relative to none.
/// Each other copy hangs from the copy of its layer's parent, and is relative to the copy of what its
/// layer is relative to, or to none where that was not copied. It keeps all else, the buffer too.
///
/// There are at most 8 mirrors, and at most 1,024 layers in the tree; the new one can have 9,216.
pub fn written(alloc: Global, tree: &Tree, pairs: &[(u32, u32)]) -> Result<Tree, NoMemory>
    requires few { length pairs.now ≤ 8 }
    requires small { length tree.now.layers ≤ 1024 }
    ensures { IfOk result (λ made. made ≡ record { layers = written tree.now.layers pairs.now; most = 9216 }) }
{
    let mut layers = Vec::new(alloc);
    layers.extend_from_slice(tree.layers())?;
    for pair in pairs {
        push_copies(alloc, tree, &mut layers, pair)?;
    }
    tree_of(alloc, &layers)
}
