//! Calls on transactions.
ghost use Rattle.std.specs.Prelude.{◌≡◌, IfOk};
ghost use Rattle.sf_txn.specs.Transactions.{all_replaced};

use sf_base::NoMemory;
use sf_txn::{BufferOp, Lease, Transaction};

/// What a merge replaces comes back.
pub fn merge_hands_back<L: Lease + Drop>(
    txn: Transaction<L>,
    other: Transaction<L>,
) -> Result<(Transaction<L>, Vec<BufferOp<L>>), (NoMemory, Transaction<L>, Transaction<L>)>
    ensures replaced { IfOk result (λ r. r.1.items ≡ all_replaced txn.buffers other.buffers) }
{
    txn.merge(other)
}
