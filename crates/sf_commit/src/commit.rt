//! One transaction is committed or rejected as a whole: applied to the tree, its buffers on the
//! layers, and noted for what is decided after it.
ghost use Rattle.std.specs.Prelude.{◌≡◌, ◌++◌, ◌∷◌, [], ◌≤◌, IfOk, OnOk, length, map};
ghost use Rattle.sf_commit.specs.OnLayers.{brought};
ghost use Rattle.std.specs.List.{All};
ghost use Rattle.sf_view.specs.sf_layer.Ranges.{IsOperation};
ghost use Rattle.sf_commit.specs.inner.Deciding.{ShowsIts};
ghost use Rattle.sf_commit.specs.Inside.{Follows, Notes};
ghost use Rattle.sf_commit.specs.Rounds.{accepted, pressed_in, rejected, shown_if, stage_after, told_of};
ghost use Rattle.sf_commit_next.specs.sf_ready.Facts.{HasSame};
ghost use Rattle.sf_view.specs.sf_tree.Changes.{after};
ghost use Rattle.sf_commit_next.specs.sf_txn.Transactions.{shown_by};

use crate::note::note;
use crate::on::OnLayer;
use crate::stage::show_all;
use crate::vsync::Commit;
use sf_base::{Items, LayerId, NoMemory};
use sf_commit_next::{Arrived, BufferOp, Facts, Lease, Parts};
use sf_view::sf_layer::Shown;
use sf_view::sf_tree::{ApplyFault, Tree};
use std::alloc::Global;
use std::marker::Model;

/// The tree, with the buffers that its layers show, and what a vsync made so far.
#[derive(Drop)]
pub(crate) struct Stage<L: Lease> {
    pub alloc: Global,
    pub tree: Tree,
    pub on: Vec<OnLayer<L>>,
    pub commits: Vec<Commit>,
    /// The buffers that go, in the order in which they left their layers.
    pub gone: Vec<OnLayer<L>>,
}

impl<L: Lease> Model for Stage<L> {
    ghost use Rattle.sf_commit.specs.Rounds.{StageOf};

    ghost Value = { StageOf L };

    ghost view = { λ s. record { tree = s.tree; on = s.on.items; commits = s.commits.items; gone = s.gone.items } };
}

/// The buffers of a transaction, each with its layer.
fn shown_of<L: Lease>(
    alloc: Global,
    buffers: &[BufferOp<L>],
) -> Result<Items<(LayerId, Shown)>, NoMemory>
    ensures { IfOk result (λ shown. shown ≡ map shown_by buffers.now) }
{
    let mut shown = Vec::new(alloc);
    for buffer in buffers {
        shown.push((buffer.layer, buffer.shown))?;
    }
    Ok(Items::new(shown))
}

/// All buffers of a rejected transaction go.
fn give_up<L: Lease + Drop>(
    gone: &mut Vec<OnLayer<L>>,
    buffers: Vec<BufferOp<L>>,
) -> Result<(), NoMemory>
where
    L::Reading: Drop,
    ensures { OnOk result (gone.new.items ≡ gone.old.items ++ map brought buffers.items) }
{
    for buffer in buffers {
        gone.push(OnLayer::brought(buffer))?;
    }
    Ok(())
}

impl<L: Lease + Drop> Stage<L>
where
    L::Reading: Drop,
{
    /// What a transaction that was applied to the tree shows.
    fn accept(&mut self, parts: Parts<L>) -> Result<(), NoMemory>
        ensures { OnOk result (self.new ≡ accepted self.old parts.ops parts.buffers) }
    {
        let Parts { ops, buffers, .. } = parts;
        show_all(
            &mut self.on,
            &mut self.gone,
            ops.as_slice(),
            buffers.into_vec(),
        )
    }

    /// What a transaction that was rejected brought goes.
    fn reject(&mut self, parts: Parts<L>) -> Result<(), NoMemory>
        ensures { OnOk result (self.new ≡ rejected self.old parts.buffers) }
    {
        give_up(&mut self.gone, parts.buffers.into_vec())
    }

    /// Applies a transaction to the tree, whole or not at all. Answers the cause for which it was
    /// rejected and the place of the operation that was, or zeros.
    fn follow(
        &mut self,
        facts: &mut Facts,
        shown: &[(LayerId, Shown)],
        parts: Parts<L>,
    ) -> Result<(u32, u32), NoMemory>
        requires few { length parts.ops ≤ 4294967295 }
        requires in_range { All IsOperation parts.ops }
        requires shown { shown.now ≡ map shown_by parts.buffers }
        requires pressed { HasSame facts.old.pressed (pressed_in self.old.tree.layers) }
        ensures { IfOk result (λ told. Follows self.old self.new facts.old facts.new parts.ops parts.buffers told (after self.old.tree parts.ops)) }
    {
        match self.tree.apply(parts.ops.as_slice()) {
            Ok(()) => {
                note(facts, shown, parts.ops.as_slice())?;
                self.accept(parts)?;
                Ok((0, 0))
            }
            Err(ApplyFault::Reject { cause, op }) => {
                self.reject(parts)?;
                Ok((cause, op))
            }
            Err(ApplyFault::NoMemory) => Err(NoMemory),
        }
    }

    /// Adds a commit to those that the vsync answers.
    fn tell(&mut self, commit: Commit) -> Result<(), NoMemory>
        ensures { OnOk result (self.new ≡ told_of self.old commit) }
    {
        self.commits.push(commit)?;
        Ok(())
    }

    /// Commits a transaction, or rejects it as a whole, and notes what later ones are decided from.
    pub fn commit(&mut self, facts: &mut Facts, arrived: Arrived<L>) -> Result<(), NoMemory>
        requires pressed { HasSame facts.old.pressed (pressed_in self.old.tree.layers) }
        ensures stage { OnOk result (self.new ≡ stage_after self.old arrived) }
        ensures facts { OnOk result (Notes facts.old facts.new
            (shown_if (after self.old.tree arrived.txn.ops) arrived.txn.buffers) self.new.tree.layers) }
        ensures shows { OnOk result (ShowsIts arrived) }
    {
        let Arrived { number, txn, .. } = arrived;
        let buffers = shown_of(self.alloc, txn.buffers())?;
        let token = txn.token();
        let parts = txn.into_parts();
        let (cause, op) = self.follow(facts, buffers.as_slice(), parts)?;
        self.tell(Commit {
            token,
            number,
            cause,
            op,
            buffers,
        })
    }
}
