//! Two transactions become one, as a client merges them before it applies them.
ghost use Rattle.std.specs.Prelude.{◌≡◌, IfErr, IfOk};
ghost use Rattle.sf_txn.specs.Transactions.{all_replaced, later_time, merged};

use crate::buffer::BufferOp;
use crate::lease::Lease;
use crate::lists::merge_buffers;
use crate::ops::Ops;
use crate::transaction::Transaction;
use sf_base::NoMemory;

/// The greater of the explicit times; automatic where both are.
fn later_time(time: Option<u64>, other: Option<u64>) -> Option<u64>
    ensures { result ≡ later_time time other }
{
    match (time, other) {
        (None, time) | (time, None) => time,
        (Some(time), Some(other)) => Some(time.max(other)),
    }
}

impl<L: Lease + Drop> Transaction<L> {
    /// Sets another transaction's operations and buffers into this one in their order, and appends
    /// its barriers. The time is the greater of the explicit ones, and automatic where both are;
    /// the apply token stays. The buffers whose places others took come back beside it, in the
    /// order in which they went. Out of memory hands both transactions back.
    pub fn merge(
        mut self,
        mut other: Transaction<L>,
    ) -> Result<(Transaction<L>, Vec<BufferOp<L>>), (NoMemory, Transaction<L>, Transaction<L>)>
        ensures merged { IfOk result (λ r. r.0 ≡ merged self other) }
        ensures replaced { IfOk result (λ r. r.1.items ≡ all_replaced self.buffers other.buffers) }
        ensures back { IfErr result (λ e. (e.1 ≡ self) × (e.2 ≡ other)) }
    {
        let Ok(mut replaced) = Vec::with_capacity(self.alloc, other.buffers.len()) else {
            return Err((NoMemory, self, other));
        };
        let Ok(before) = self.ops.make_room_for(&mut other.ops) else {
            return Err((NoMemory, self, other));
        };
        if self.buffers.reserve(other.buffers.len()).is_err()
            || self.barriers.extend_from_slice(&other.barriers).is_err()
        {
            return Err((NoMemory, self, other));
        }
        self.desired = later_time(self.desired, other.desired);
        let ops = std::mem::replace(&mut other.ops, Ops::new(self.alloc));
        let buffers = std::mem::replace(&mut other.buffers, Vec::new(self.alloc));
        self.ops.merge(ops, before);
        merge_buffers(&mut self.buffers, buffers, &mut replaced);
        Ok((self, replaced))
    }
}
