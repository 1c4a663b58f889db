//! A transaction as a client fills it and the compositor takes it apart: operations, buffers,
//! barriers, token and time.
ghost use Rattle.std.specs.Prelude.{◌≡◌, ◌<◌, ◌++◌, ◌∷◌, [], Some, IfOk, IfErr, OnOk, OnErr};
ghost use Rattle.sf_layer.specs.Ranges.{IsOperation};
ghost use Rattle.sf_txn.specs.Transactions.{empty, IsTransaction, replaced_by, set, set_buffer, shows_of};

use crate::buffer::BufferOp;
use crate::lease::Lease;
use crate::lists::put_buffer;
use crate::ops::Ops;
use sf_base::{Items, LayerId, NoMemory, TokenId};
use sf_layer::Op;
use std::alloc::Global;
use std::marker::Model;

/// Operations on layers that are done together, with the buffers that they show, an apply token, a
/// desired present time and barriers. An operation takes the place of an earlier one of its kind
/// for its layer, except for `create` and `destroy`, so no two others of a kind are for one layer.
/// The operations that show buffers are the buffers, in order. There are at most 4,294,967,295
/// operations, each on a layer of a number of 1 or more, with positions, crops and orientations in
/// their ranges.
pub struct Transaction<L: Lease> {
    pub(crate) alloc: Global,
    pub(crate) token: TokenId,
    pub(crate) desired: Option<u64>,
    pub(crate) ops: Ops,
    pub(crate) buffers: Vec<BufferOp<L>>,
    pub(crate) barriers: Vec<(LayerId, u64)>,
}

impl<L: Lease> Model for Transaction<L> {
    ghost use Rattle.sf_txn.specs.Transactions.{Contents, IsTransaction};

    ghost Value = { Contents L };

    ghost view = { λ t. record { token = t.token; desired = t.desired; ops = t.ops.list; buffers = t.buffers.items; barriers = t.barriers.items } };

    ghost invariant = { λ t. IsTransaction {L = L} (record {
      token = t.token;
      desired = t.desired;
      ops = t.ops.list;
      buffers = t.buffers.items;
      barriers = t.barriers.items;
    }) };
}

/// A transaction taken apart.
#[derive(Drop)]
pub struct Parts<L: Lease> {
    pub token: TokenId,
    /// In nanoseconds, None where it is automatic.
    pub desired: Option<u64>,
    pub ops: Items<(LayerId, Op)>,
    pub buffers: Items<BufferOp<L>>,
    pub barriers: Items<(LayerId, u64)>,
}

impl<L: Lease + Drop> Transaction<L> {
    /// A transaction without operations, for apply token 0, with an automatic time. It takes no
    /// memory.
    pub fn new(alloc: Global) -> Transaction<L>
        ensures { result ≡ empty }
    {
        Transaction {
            alloc,
            token: TokenId(0),
            desired: None,
            ops: Ops::new(alloc),
            buffers: Vec::new(alloc),
            barriers: Vec::new(alloc),
        }
    }

    /// The apply token: transactions of one token are committed in the order in which they were
    /// applied.
    pub fn token(&self) -> TokenId
        ensures { result ≡ self.now.token }
    {
        self.token
    }

    /// The desired present time in nanoseconds, None where it is automatic.
    pub fn desired(&self) -> Option<u64>
        ensures { result ≡ self.now.desired }
    {
        self.desired
    }

    /// A list of the operations, in order.
    pub fn ops(&self) -> Result<Items<(LayerId, Op)>, NoMemory>
        ensures value { IfOk result (λ ops. ops ≡ self.now.ops) }
        ensures kept { IsTransaction self.now }
    {
        Ok(Items::new(self.ops.copied()?))
    }

    /// The buffers, in the order of the operations that show them.
    pub fn buffers(&self) -> &[BufferOp<L>]
        ensures value { result.now ≡ self.now.buffers }
        ensures kept { IsTransaction self.now }
    {
        &self.buffers
    }

    /// The barriers, each a layer and the least frame that has to be committed for it first.
    pub fn barriers(&self) -> &[(LayerId, u64)]
        ensures { result.now ≡ self.now.barriers }
    {
        &self.barriers
    }

    /// All that the transaction holds. It takes no memory.
    pub fn into_parts(self) -> Parts<L>
        ensures token { result.token ≡ self.token }
        ensures desired { result.desired ≡ self.desired }
        ensures ops { result.ops ≡ self.ops }
        ensures buffers { result.buffers ≡ self.buffers }
        ensures barriers { result.barriers ≡ self.barriers }
        ensures kept { IsTransaction self }
    {
        let Transaction {
            alloc: _,
            token,
            desired,
            ops,
            buffers,
            barriers,
        } = self;
        Parts {
            token,
            desired,
            ops: Items::new(ops.into_vec()),
            buffers: Items::new(buffers),
            barriers: Items::new(barriers),
        }
    }

    /// Sets the desired present time, in nanoseconds. It takes no memory.
    pub fn desire(&mut self, time: u64)
        ensures { self.new ≡ record self.old { desired = Some time } }
    {
        self.desired = Some(time);
    }

    /// Sets the apply token. It takes no memory.
    pub fn address(&mut self, token: TokenId)
        ensures { self.new ≡ record self.old { token = token } }
    {
        self.token = token;
    }

    /// Appends a barrier: the transaction waits until a buffer with at least this frame number was
    /// committed for the layer. Out of memory changes nothing.
    pub fn add_barrier(&mut self, layer: LayerId, frame: u64) -> Result<(), NoMemory>
        ensures ok { OnOk result (self.new ≡ record self.old { barriers = self.old.barriers ++ (layer, frame) ∷ [] }) }
        ensures err { OnErr result (self.new ≡ self.old) }
    {
        self.barriers.push((layer, frame))?;
        Ok(())
    }

    /// Sets an operation that shows no buffer. It goes last, and an earlier one of its kind for its
    /// layer goes, except for `create` and `destroy`. The layer's number is 1 or more, and
    /// positions, crops and orientations are in their ranges. Out of memory changes nothing.
    pub fn set(&mut self, layer: LayerId, op: Op) -> Result<(), NoMemory>
        requires plain { shows_of op layer ≡ [] }
        requires in_range { IsOperation (layer, op) }
        ensures ok { OnOk result (self.new ≡ set self.old (layer, op)) }
        ensures err { OnErr result (self.new ≡ self.old) }
    {
        self.ops.make_room(1)?;
        self.ops.put((layer, op));
        Ok(())
    }

    /// Shows a buffer on its layer, whose number is 1 or more, and hands back the one whose place
    /// it takes. Out of memory changes nothing, and hands the buffer back.
    pub fn set_buffer(
        &mut self,
        buffer: BufferOp<L>,
    ) -> Result<Option<BufferOp<L>>, (NoMemory, BufferOp<L>)>
        requires { 0 < buffer.layer.0 }
        ensures ok { OnOk result (self.new ≡ set_buffer self.old buffer) }
        ensures replaced { IfOk result (λ replaced. replaced ≡ replaced_by self.old.buffers buffer) }
        ensures err { OnErr result (self.new ≡ self.old) }
        ensures back { IfErr result (λ back. back.1 ≡ buffer) }
    {
        if self.ops.make_room(1).is_err() || self.buffers.reserve(1).is_err() {
            return Err((NoMemory, buffer));
        }
        self.ops.put((buffer.layer, Op::Show(buffer.shown)));
        Ok(put_buffer(&mut self.buffers, buffer))
    }
}

impl<L: Lease + Drop> Drop for Transaction<L> {
    fn drop(self) {
        let Transaction {
            alloc: _,
            token: _,
            desired: _,
            ops: _,
            buffers: _,
            barriers: _,
        } = self;
    }
}
