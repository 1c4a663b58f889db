//! A transaction that a step sends through a pass at the arrivals' lock: it is stamped behind the
//! caller's last call, so that a caller's calls stay in order.
ghost use Rattle.std.specs.Prelude.{◌≡◌, ◌≤◌, Some, IfErr, IfOk};
ghost use Rattle.sf_calls.specs.Histories.{Begins, calls_by};
ghost use Rattle.sf_live_seats.specs.Calls.{IsMade, SentOne, Ticks};
ghost use Rattle.sf_live_seats.specs.Seats.{sent_in, takes_in};

use crate::arrivals::StampedArrivals;
use crate::arrivals_seat::ArrivalsSeat;
use crate::clock::Clock;
use sf_actor::ReadLease;
use sf_base::NoMemory;
use sf_calls::{CallFault, CallLock};
use sf_intake::{ArriveCall, ArriveReply, Transaction};
use sf_turns::TableName;
use std::sync::Wait;

/// Sends a transaction through a pass, for a step of its caller, whose last call this is then. A step
/// before that of the last call is refused as out of memory: a caller's calls are made in order.
pub(crate) fn send_one<R: Wait, B: TableName>(
    rt: &R,
    lock: &CallLock<StampedArrivals<B>>,
    seat: &mut ArrivalsSeat<B>,
    last: &mut Clock,
    step: u32,
    txn: Transaction<ReadLease<B>>,
) -> Result<u32, (NoMemory, Transaction<ReadLease<B>>)>
    requires own { seat.old.table ≡ lock.now }
    requires marked { seat.old.mark ≡ Some tt }
    ensures same { seat.new ≡ record seat.old { seen = seat.new.seen; turns = seat.new.turns } }
    ensures turns { seat.old.turns ≤ seat.new.turns }
    ensures begins { Begins seat.old.seen seat.new.seen }
    ensures ticks { Ticks last.old last.new (sent_in (calls_by seat.old.by seat.old.seen)) (sent_in (calls_by seat.old.by seat.new.seen)) }
    ensures takes { takes_in (calls_by seat.old.by seat.new.seen) ≡ takes_in (calls_by seat.old.by seat.old.seen) }
    ensures step { IfOk result (λ _. last.new.step ≡ step) }
    ensures made { IfOk result (λ _. IsMade last.old last.new (sent_in (calls_by seat.old.by seat.old.seen)) (sent_in (calls_by seat.old.by seat.new.seen))) }
    ensures sent { IfOk result (SentOne seat.old seat.new step txn) }
    ensures back { IfErr result (λ back. (back.1 ≡ txn) × (seat.new ≡ seat.old)) }
{
    if step < last.step {
        return Err((NoMemory, txn));
    }
    match seat
        .pass
        .call(lock, rt, (last.stamp, ArriveCall::Send(step, txn)))
    {
        Ok((stamp, ArriveReply::Number(number))) => {
            *last = Clock { step, stamp };
            Ok(number)
        }
        Err(CallFault::NoMemory((_, ArriveCall::Send(_, txn)))) => Err((NoMemory, txn)),
        _other => unreachable!(),
    }
}
