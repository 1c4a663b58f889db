//! Calls on the transactions that are pending.
ghost use Rattle.std.specs.Prelude.{◌≡◌, option_copied};
ghost use Rattle.sf_token.specs.Pending.{head_of};

use sf_base::TokenId;
use sf_token::{Arrived, TokenQueues};
use sf_txn::Lease;

/// Of an apply token the transaction comes first that arrived first.
pub fn head_arrived_first<L: Lease + Drop>(
    queues: &TokenQueues<L>,
    token: TokenId,
) -> Option<&Arrived<L>>
    ensures { option_copied result ≡ head_of token queues.now.pending }
{
    queues.head(token)
}
