//! The calls of a compositor that shares the desk of one thread with the actors. It calls as number
//! 0, which no actor has, so that every actor keeps what it keeps.
ghost use Rattle.std.specs.Prelude.{◌≡◌, false, true, IfErr, IfOk, IsErr, OnErr};
ghost use Rattle.sf_actor_steps.specs.sf_actor.Desks.{IsAsBefore, has_queue};
ghost use Rattle.sf_actor_steps.specs.sf_actor.Plain.{home_of, taken_in, view_of};
ghost use Rattle.sf_actor_steps.specs.sf_actor.Tries.{Sees};
ghost use Rattle.sf_actor_set.specs.Compositing.{GivesFrameBack, GoesOnDesk, SeatGoesOn, Takes};
ghost use Rattle.sf_commit.specs.Handlers.{Decides, Stops, last_of};
ghost use Rattle.std.specs.List.{All};
ghost use Rattle.sf_commit.specs.sf_calls.Histories.{IsLegal};
ghost use Rattle.sf_actor_steps.specs.sf_surface.Histories.{Answers};
ghost use Rattle.sf_actor_steps.specs.sf_surface.Objects.{ObjectOf, mark_of};
ghost use Rattle.sf_commit.specs.sf_token.Arrivals.{sent};
ghost use Rattle.sf_commit.specs.sf_token.Pending.{IsRisingFrom};

use sf_actor_steps::{Desk, PlainDesk, QCall, QueueObject, ReadLease, TableName, TurnSeat, settle};
use sf_base::{ActorId, NoMemory, Seen};
use sf_commit::{
    Arrivals, ArriveCall, ArriveReply, Arrived, Batch, Committed, Handler, Lease, Object, Outcome,
    Painted, Release,
};
use std::marker::Brand;

/// The compositor's number as a caller.
const COMPOSITOR: u32 = 0;

/// Looks at the timelines.
pub fn see_at<B: TableName>(desk: &mut PlainDesk<B>) -> Seen
    ensures sees { Sees (home_of desk.old) (view_of desk.old) (view_of desk.new) result }
    ensures times { desk.new ≡ record desk.old { times = desk.new.times } }
    ensures goes { GoesOnDesk (taken_in desk.old.arrivals) desk.old desk.new }
{
    desk.times.see_all(&desk.table)
}

/// States that each queue's calls are legal. It does nothing: each queue keeps this of itself.
pub fn legal_each<B: TableName>(queues: &[QueueObject<B>])
    ensures { All (λ (object : ObjectOf B). IsLegal (Answers (mark_of object)) object.calls) queues.now }
{
    for object in queues {
        object.legal();
    }
}

/// States that the desk's seat at the turns is at the named table. It does nothing.
pub fn owns_at<B: TableName>(desk: &PlainDesk<B>)
    ensures { desk.now.turns.table ≡ B.table }
{
    let _seat = &desk.turns;
}

/// Takes what waits.
fn take_from<B: TableName>(
    arrivals: &mut Arrivals<ReadLease<B>, Brand>,
) -> Result<Vec<Arrived<ReadLease<B>>>, NoMemory>
    ensures taken { IfOk result (λ batch. Takes arrivals.old arrivals.new batch.items) }
    ensures stays { IfErr result (λ _. arrivals.new ≡ arrivals.old) }
    ensures sent { sent arrivals.new ≡ sent arrivals.old }
{
    match arrivals.apply(COMPOSITOR, ArriveCall::Take) {
        Outcome::Done(ArriveReply::Batch(batch)) => {
            let Batch { list } = batch;
            Ok(list)
        }
        Outcome::NoMemory(call) => {
            drop(call);
            Err(NoMemory)
        }
        _other => unreachable!(),
    }
}

/// Takes the transactions that arrived. Out of memory leaves them.
pub fn take_at<B: TableName>(
    desk: &mut PlainDesk<B>,
) -> Result<Vec<Arrived<ReadLease<B>>>, NoMemory>
    ensures taken { IfOk result (λ batch. Takes desk.old.arrivals desk.new.arrivals batch.items) }
    ensures stays { IfErr result (λ _. desk.new ≡ desk.old) }
    ensures arrivals { desk.new ≡ record desk.old { arrivals = desk.new.arrivals } }
    ensures goes { GoesOnDesk (taken_in desk.new.arrivals) desk.old desk.new }
{
    take_from(&mut desk.arrivals)
}

/// A handler's vsync with the seat at the turns as its eye.
fn vsync_through<B: TableName>(
    turns: &mut TurnSeat<Painted>,
    handler: &mut Handler<ReadLease<B>>,
    arrived: Vec<Arrived<ReadLease<B>>>,
    seen: &Seen,
    expected: u64,
) -> Result<Committed<ReadLease<B>>, NoMemory>
    requires own { turns.old.table ≡ B.table }
    requires rising { handler.old.is_spent ≡ false → IsRisingFrom handler.old.last arrived.items (last_of handler.old.last arrived.items) }
    ensures decides { IfOk result (λ told. Decides ⟦<ReadLease<B> as Lease>⟧ handler.old turns.old arrived.items seen.now expected told handler.new turns.new) }
    ensures stops { OnErr result (Stops ⟦<ReadLease<B> as Lease>⟧ handler.old turns.old arrived.items seen.now expected handler.new turns.new) }
    ensures again { handler.old.is_spent ≡ true → IsErr result }
    ensures goes { SeatGoesOn turns.old turns.new }
{
    handler.commit(turns, arrived, seen, expected)
}

/// A handler's vsync with the desk's seat at the turns as its eye.
pub fn vsync_at<B: TableName>(
    desk: &mut PlainDesk<B>,
    handler: &mut Handler<ReadLease<B>>,
    arrived: Vec<Arrived<ReadLease<B>>>,
    seen: &Seen,
    expected: u64,
) -> Result<Committed<ReadLease<B>>, NoMemory>
    requires rising { handler.old.is_spent ≡ false → IsRisingFrom handler.old.last arrived.items (last_of handler.old.last arrived.items) }
    ensures decides { IfOk result (λ told. Decides ⟦<ReadLease<B> as Lease>⟧ handler.old desk.old.turns arrived.items seen.now expected told handler.new desk.new.turns) }
    ensures stops { OnErr result (Stops ⟦<ReadLease<B> as Lease>⟧ handler.old desk.old.turns arrived.items seen.now expected handler.new desk.new.turns) }
    ensures again { handler.old.is_spent ≡ true → IsErr result }
    ensures turns { desk.new ≡ record desk.old { turns = desk.new.turns } }
    ensures goes { GoesOnDesk (taken_in desk.old.arrivals) desk.old desk.new }
{
    vsync_through(&mut desk.turns, handler, arrived, seen, expected)
}

/// Gives a frame back to its queue, as the compositor and for a vsync. A frame that the queue
/// refuses is dropped.
pub fn release_at<B: TableName>(
    desk: &mut PlainDesk<B>,
    vsync: u32,
    release: Release<ReadLease<B>>,
) -> Result<(), NoMemory>
    requires there { has_queue (home_of desk.old) release.queue.0 ≡ true }
    ensures released { IfOk result (λ _. GivesFrameBack desk.old desk.new vsync release) }
    ensures as_before { IfErr result (λ _. IsAsBefore (view_of desk.old) (view_of desk.new)) }
    ensures goes { GoesOnDesk (taken_in desk.old.arrivals) desk.old desk.new }
{
    let Release {
        queue,
        frame: _,
        fence,
        lease,
    } = release;
    let call = QCall::Release(lease, fence);
    settle(desk.call(ActorId(COMPOSITOR), queue, vsync, call))
}
