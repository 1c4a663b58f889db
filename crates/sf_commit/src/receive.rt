//! The begin of a vsync: what arrived since the last one waits behind the earlier transactions of
//! its tokens.
ghost use Rattle.std.specs.Prelude.{◌≡◌, ◌++◌, OnOk};
ghost use Rattle.sf_commit.specs.Handlers.{last_of};
ghost use Rattle.sf_commit_next.specs.sf_token.Pending.{IsRisingFrom};

use sf_base::NoMemory;
use sf_commit_next::{Arrived, Lease, TokenQueues};

/// What arrived waits behind the earlier ones of its tokens.
pub(crate) fn receive<L: Lease + Drop>(
    queues: &mut TokenQueues<L>,
    arrived: Vec<Arrived<L>>,
) -> Result<(), NoMemory>
    requires { IsRisingFrom queues.old.last arrived.items (last_of queues.old.last arrived.items) }
    ensures { OnOk result (queues.new ≡ record {
      pending = queues.old.pending ++ arrived.items;
      last = last_of queues.old.last arrived.items;
    }) }
{
    for one in arrived {
        if let Err(refused) = queues.push(one) {
            drop(refused);
            return Err(NoMemory);
        }
    }
    Ok(())
}
