//! All operations of a transaction on the tree, whole or not at all: what a commit does to layers.
ghost use Rattle.std.specs.Prelude.{◌≡◌, ◌≤◌, List, length, IfErr, OnOk, OnErr};
ghost use Rattle.sf_layer.specs.declared.layer.Layer.{Layer as LayerValue};
ghost use Rattle.sf_tree.specs.Answers.{IsRejection};
ghost use Rattle.sf_tree.specs.inner.ChangeAnswers.{IsDone};
ghost use Rattle.sf_tree.specs.Changes.{after_from, changed};
ghost use Rattle.sf_tree.specs.inner.Journal.{GoesBack};

use crate::changes::{ChangeFault, change, destroy};
use crate::journal::{Journal, take_back};
use crate::layers::Layers;
use sf_base::LayerId;
use sf_layer::Op;
use std::alloc::Global;

/// Why no operation was done.
#[derive(Clone, Copy)]
pub enum ApplyFault {
    /// The operation of this number, from 1, is the first that is rejected, for this cause, which
    /// is the first of these, by number, that it meets:
    /// 1, its layer (except for `create`), or the parent or relative layer that it names, is not
    /// in the tree;
    /// 2, `create` of a number that is in the tree;
    /// 3, after `reparent` the layer would be its own ancestor;
    /// 4, after `reparent` or `relative` the layer would reach itself by steps to a parent or to a
    /// relative layer;
    /// 5, `create` while the tree has as many layers as it can;
    /// 6, a colour for a layer that is no colour layer, or a buffer for one that is no buffer layer.
    Reject { cause: u32, op: u32 },
    /// There was no memory.
    NoMemory,
}

/// Does one operation in place, and notes how it is taken back.
fn step(
    alloc: Global,
    layers: &mut Layers,
    journal: &mut Journal,
    most: u32,
    operation: &(LayerId, Op),
) -> Result<(), ChangeFault>
    ensures done { IsDone result layers.new (changed most layers.old operation.now.0 operation.now.1) }
    ensures back { (first : List LayerValue) → GoesBack journal.old layers.old first → GoesBack journal.new layers.new first }
{
    if let Op::Destroy = operation.1 {
        return destroy(alloc, layers, journal, operation.0);
    }
    let undo = change(alloc, layers, most, operation.0, &operation.1)?;
    match journal.remember(undo) {
        Ok(()) => Ok(()),
        Err(undo) => {
            take_back(layers, undo);
            Err(ChangeFault::NoMemory)
        }
    }
}

/// Does all operations in place, in order, or leaves the layers as they were.
pub fn apply_all(
    alloc: Global,
    layers: &mut Layers,
    most: u32,
    ops: &[(LayerId, Op)],
) -> Result<(), ApplyFault>
    requires { length ops.now ≤ 4294967295 }
    ensures ok { OnOk result (after_from most 1 layers.old ops.now ≡ Ok layers.new) }
    ensures rejected { IfErr result (IsRejection (after_from most 1 layers.old ops.now)) }
    ensures err { OnErr result (layers.new ≡ layers.old) }
{
    let mut journal = Journal::new(alloc);
    let mut number = 0u32;
    for operation in ops {
        number += 1;
        match step(alloc, layers, &mut journal, most, operation) {
            Ok(()) => {}
            Err(ChangeFault::Rejected(cause)) => {
                journal.go_back(layers);
                return Err(ApplyFault::Reject {
                    cause: cause.number(),
                    op: number,
                });
            }
            Err(ChangeFault::NoMemory) => {
                journal.go_back(layers);
                return Err(ApplyFault::NoMemory);
            }
        }
    }
    if journal.has_all() {
        layers.note_places();
    }
    Ok(())
}
