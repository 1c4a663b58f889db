//! The calls of a compositor that shares the locks with the actors.
ghost use Rattle.std.specs.Prelude.{◌≡◌, ◌<◌, ◌≤◌, [], IfErr, IfOk, None, Some, map};
ghost use Rattle.sf_calls.specs.Histories.{Begins, calls_by};
ghost use Rattle.std.specs.Prelude.{false, true, IsErr, OnErr};
ghost use Rattle.sf_commit.specs.Handlers.{Decides, Stops, last_of};
ghost use Rattle.sf_commit.specs.Lending.{ends_of};
ghost use Rattle.sf_commit.specs.OnLayers.{at_hand};
ghost use Rattle.sf_intake.specs.sf_txn.Leases.{IsEyeAfter};
ghost use Rattle.sf_calls_stamped.specs.Stamps.{newest_stamp};
ghost use Rattle.sf_intake.specs.sf_token.Pending.{IsRisingFrom};
ghost use Rattle.sf_live_seats.specs.Calls.{TookOne};
ghost use Rattle.sf_live_seats.specs.Observers.{SeatGoesOn};
ghost use Rattle.sf_live_seats.specs.Seats.{sent_in};

use crate::arrivals::StampedArrivals;
use crate::arrivals_seat::ArrivalsSeat;
use crate::at_intake::AtIntake;
use crate::clock::Clock;
use crate::locks::Locks;
use crate::seats::Seats;
use crate::shown::Shown;
use sf_actor::ReadLease;
use sf_base::{NoMemory, Seen};
use sf_calls::{CallFault, CallLock};
use sf_commit::{Committed, Contents, Handler};
use sf_intake::{ArriveCall, ArriveReply, Arrived, Batch, Lease};
use sf_turns::sf_picture::Painted;
use sf_turns::{TableName, TurnSeat};
use std::sync::Wait;

/// Takes what waits, through a pass.
fn take_one<R: Wait, B: TableName>(
    rt: &R,
    lock: &CallLock<StampedArrivals<B>>,
    seat: &mut ArrivalsSeat<B>,
    last: &mut Clock,
) -> Result<Vec<Arrived<ReadLease<B>>>, NoMemory>
    requires own { seat.old.table ≡ lock.now }
    requires marked { seat.old.mark ≡ Some tt }
    ensures same { seat.new ≡ record seat.old { seen = seat.new.seen; turns = seat.new.turns } }
    ensures turns { seat.old.turns ≤ seat.new.turns }
    ensures begins { Begins seat.old.seen seat.new.seen }
    ensures step { last.new.step ≡ last.old.step }
    ensures stamp { last.old.stamp ≤ last.new.stamp }
    ensures sends { sent_in (calls_by seat.old.by seat.new.seen) ≡ sent_in (calls_by seat.old.by seat.old.seen) }
    ensures took { IfOk result (λ list. TookOne seat.old seat.new list.items) }
    ensures newest { IfOk result (λ list. (newest_stamp seat.new.seen ≡ last.new.stamp) × (last.old.stamp < last.new.stamp)) }
    ensures stays { IfErr result (λ _. seat.new ≡ seat.old) }
{
    match seat.pass.call(lock, rt, (last.stamp, ArriveCall::Take)) {
        Ok((stamp, ArriveReply::Batch(batch))) => {
            last.stamp = stamp;
            let Batch { list } = batch;
            Ok(list)
        }
        Err(CallFault::NoMemory(_)) => Err(NoMemory),
        _other => unreachable!(),
    }
}

/// A handler's vsync with a seat at the turns as its eye.
fn vsync_through<B: TableName>(
    turns: &mut TurnSeat<Painted>,
    handler: &mut Handler<ReadLease<B>>,
    arrived: Vec<Arrived<ReadLease<B>>>,
    seen: &Seen,
    expected: u64,
) -> Result<Committed<ReadLease<B>>, NoMemory>
    requires own { turns.old.table ≡ B.table }
    requires rising { handler.old.is_spent ≡ false → IsRisingFrom handler.old.last arrived.items (last_of handler.old.last arrived.items) }
    ensures decides { IfOk result (λ told. Decides ⟦<ReadLease<B> as Lease>⟧ handler.old turns.old arrived.items seen.now expected told handler.new turns.new) }
    ensures stops { OnErr result (Stops ⟦<ReadLease<B> as Lease>⟧ handler.old turns.old arrived.items seen.now expected handler.new turns.new) }
    ensures again { handler.old.is_spent ≡ true → IsErr result }
    ensures goes { SeatGoesOn turns.old turns.new }
{
    handler.commit(turns, arrived, seen, expected)
}

/// Gives pixels back to a handler that lent them, with a seat at the turns as its eye: the reads that
/// were kept for them leave through it.
fn give_back_through<B: TableName>(
    turns: &mut TurnSeat<Painted>,
    handler: &mut Handler<ReadLease<B>>,
    contents: Contents,
)
    requires own { turns.old.table ≡ B.table }
    requires lent { handler.old.lent ≡ Some contents }
    ensures back { handler.new ≡ record handler.old { on = map at_hand handler.old.on; lent = None; kept = [] } }
    ensures reads { IsEyeAfter ⟦<ReadLease<B> as Lease>⟧ turns.old turns.new (ends_of ⟦<ReadLease<B> as Lease>⟧ handler.old.kept) }
    ensures goes { SeatGoesOn turns.old turns.new }
{
    handler.give_back(turns, contents);
}

impl<B: TableName> Seats<B> {
    ghost use Rattle.std.specs.Prelude.{◌≡◌, ◌+◌, [], false, true, IfErr, IfOk, IsErr, None, OnErr, OnOk, Some, map};
    ghost use Rattle.sf_commit.specs.Handlers.{Decides, Stops, last_of};
    ghost use Rattle.sf_commit.specs.Lending.{ends_of};
    ghost use Rattle.sf_commit.specs.OnLayers.{at_hand};
    ghost use Rattle.sf_intake.specs.sf_txn.Leases.{IsEyeAfter};
    ghost use Rattle.sf_intake.specs.sf_token.Pending.{IsRisingFrom};
    ghost use Rattle.sf_live_seats.specs.Observers.{SeatGoesOn};
    ghost use Rattle.sf_actor.specs.Desks.{IsAsBefore};
    ghost use Rattle.sf_actor.specs.Tries.{Sees};
    ghost use Rattle.sf_live_seats.specs.Moves.{BringsIn, ChangesArrivals, HasBrought, Stays, Takes};
    ghost use Rattle.sf_live_seats.specs.Seats.{AreSeats, home_of, view_of};

    /// Looks at all timelines.
    pub fn see(&mut self, locks: &Locks<B>) -> Seen
        requires own { AreSeats B.table locks.now self.old }
        ensures own { AreSeats B.table locks.now self.new }
        ensures sees { Sees (home_of locks.now self.old) (view_of self.old) (view_of self.new) result }
        ensures same { self.new ≡ record self.old { times = self.new.times } }
        ensures stays { Stays self.old self.new }
    {
        self.times.see_all(&locks.times)
    }

    /// Puts what was sent through the intake among the arrivals, where this caller takes it.
    fn bring_in<R: Wait>(&mut self, locks: &Locks<B>, rt: &R) -> Result<(), NoMemory>
        requires own { AreSeats B.table locks.now self.old }
        ensures own { AreSeats B.table locks.now self.new }
        ensures brings { BringsIn self.old self.new }
        ensures brought { OnOk result (HasBrought (self.new.last.stamp + 1) self.old.intake self.new.intake) }
    {
        let AtIntake::Takes(inbox) = &mut self.intake else {
            return Ok(());
        };
        let Some(intake) = &locks.intake else {
            unreachable!()
        };
        inbox.bring(rt, intake, &locks.arrivals, &mut self.last)?;
        Ok(())
    }

    /// Takes the transactions that arrived, and waits for its turn under the lock: the first caller's
    /// right, whose number is 0. What was sent through the intake is brought in first, under stamps
    /// below that of the take. Out of memory leaves them.
    pub fn take<R: Wait>(
        &mut self,
        locks: &Locks<B>,
        rt: &R,
    ) -> Result<Vec<Arrived<ReadLease<B>>>, NoMemory>
        requires own { AreSeats B.table locks.now self.old }
        requires first { self.old.by ≡ 0 }
        ensures own { AreSeats B.table locks.now self.new }
        ensures changes { ChangesArrivals self.old self.new }
        ensures took { IfOk result (λ list. Takes self.old self.new list.items) }
        ensures brought { OnOk result (HasBrought self.new.last.stamp self.old.intake self.new.intake) }
        ensures stays { IfErr result (λ _. IsAsBefore (view_of self.old) (view_of self.new)) }
    {
        self.bring_in(locks, rt)?;
        let Some(pass) = &mut self.pass else {
            unreachable!()
        };
        let taken = take_one(rt, &locks.arrivals, pass, &mut self.last);
        self.arrivals = Shown::of(pass);
        taken
    }

    /// A handler's vsync with the seat at the turns as its eye.
    pub fn vsync(
        &mut self,
        handler: &mut Handler<ReadLease<B>>,
        arrived: Vec<Arrived<ReadLease<B>>>,
        seen: &Seen,
        expected: u64,
    ) -> Result<Committed<ReadLease<B>>, NoMemory>
        requires own { self.old.turns.table ≡ B.table }
        requires rising { handler.old.is_spent ≡ false → IsRisingFrom handler.old.last arrived.items (last_of handler.old.last arrived.items) }
        ensures decides { IfOk result (λ told. Decides ⟦<ReadLease<B> as Lease>⟧ handler.old self.old.turns arrived.items seen.now expected told handler.new self.new.turns) }
        ensures stops { OnErr result (Stops ⟦<ReadLease<B> as Lease>⟧ handler.old self.old.turns arrived.items seen.now expected handler.new self.new.turns) }
        ensures again { handler.old.is_spent ≡ true → IsErr result }
        ensures same { self.new ≡ record self.old { turns = self.new.turns } }
        ensures goes { SeatGoesOn self.old.turns self.new.turns }
    {
        vsync_through(&mut self.turns, handler, arrived, seen, expected)
    }

    /// Gives pixels back to a handler that lent them: the reads that were kept for them leave through
    /// the seat at the turns. It takes no memory.
    pub fn give_back(&mut self, handler: &mut Handler<ReadLease<B>>, contents: Contents)
        requires own { self.old.turns.table ≡ B.table }
        requires lent { handler.old.lent ≡ Some contents }
        ensures back { handler.new ≡ record handler.old { on = map at_hand handler.old.on; lent = None; kept = [] } }
        ensures reads { IsEyeAfter ⟦<ReadLease<B> as Lease>⟧ self.old.turns self.new.turns (ends_of ⟦<ReadLease<B> as Lease>⟧ handler.old.kept) }
        ensures same { self.new ≡ record self.old { turns = self.new.turns } }
        ensures goes { SeatGoesOn self.old.turns self.new.turns }
    {
        give_back_through(&mut self.turns, handler, contents);
    }
}
