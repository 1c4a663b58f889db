//! Why the first transaction of a token may not commit in this vsync, the first cause that applies:
//! its time, a fence, a write, a barrier or backpressure.
ghost use Rattle.std.specs.Prelude.{◌≡◌, length};
ghost use Rattle.sf_ready.specs.Holds.{hold_of, number_of};

use crate::causes::{barrier_hold, fence_hold, pressure_hold, time_hold, undrawn_hold};
use crate::facts::Facts;
use sf_base::{LayerId, QueueId, Seen, TimelineId};
use sf_txn::{Lease, Transaction};

/// Why a pending transaction does not commit yet.
#[derive(Clone, Copy, Debug)]
pub enum Hold {
    /// It is not the first of its apply token.
    Behind,
    /// Its desired present time, in nanoseconds, is to come.
    Time(u64),
    /// The acquire fence of a buffer has this point, which is not signalled.
    Fence(TimelineId, u64),
    /// The write of this frame of a queue has not ended.
    Undrawn(QueueId, u64),
    /// No buffer with at least this frame number was committed for the layer.
    Barrier(LayerId, u64),
    /// The layer has backpressure, and got a buffer in this vsync.
    Pressure(LayerId),
}

impl Hold {
    /// The number of this hold in records.
    pub fn number(self) -> u32
        ensures { result ≡ number_of self }
    {
        match self {
            Hold::Behind => 1,
            Hold::Time(_) => 2,
            Hold::Fence(..) => 3,
            Hold::Undrawn(..) => 4,
            Hold::Barrier(..) => 5,
            Hold::Pressure(_) => 6,
        }
    }
}

/// Why the first transaction of a token does not commit at the expected present time, in
/// nanoseconds; None where it may. `drawn` says of each of its buffers, in order, whether the write
/// has ended, and `seen` is what was observed of the timelines. Of several causes it is the first
/// in the order of `Hold`. A fence or a write is that of the first such buffer, and of a fence it
/// is the lowest such timeline. It takes no memory.
#[tactic(auto, unfolding(crate::specs::Holds::hold_of))]
pub fn hold_of<L: Lease + Drop>(
    txn: &Transaction<L>,
    drawn: &[bool],
    facts: &Facts,
    seen: &Seen,
    expected: u64,
) -> Option<Hold>
    requires { length drawn.now ≡ length txn.now.buffers }
    ensures { result ≡ hold_of txn.now drawn.now facts.now seen.now expected }
{
    if let Some(hold) = time_hold(txn.desired(), expected) {
        return Some(hold);
    }
    if let Some(hold) = fence_hold(txn.buffers(), seen) {
        return Some(hold);
    }
    if let Some(hold) = undrawn_hold(txn.buffers(), drawn) {
        return Some(hold);
    }
    if let Some(hold) = barrier_hold(txn.barriers(), facts) {
        return Some(hold);
    }
    pressure_hold(txn.desired(), txn.buffers(), facts)
}
