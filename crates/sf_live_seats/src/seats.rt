//! All that one caller brings to what is shared: a pass for each queue's lock, its seats at
//! timelines and turns, and how it sends transactions.
use crate::arrivals_seat::ArrivalsSeat;
use crate::at_intake::AtIntake;
use crate::clock::Clock;
use crate::locks::{Locks, place_in};
use crate::queue_seat::QueueSeat;
use crate::sending::send_one;
use crate::shown::Shown;
use sf_actor::{QCall, QReply, ReadLease};
use sf_base::{NoMemory, QueueId};
use sf_calls::CallFault;
use sf_intake::Transaction;
use sf_times::TimeSeat;
use sf_turns::sf_picture::Painted;
use sf_turns::{TableName, TurnSeat};
use std::sync::Wait;

/// What one caller brings to what is shared: its passes, one for each lock, and its seats.
pub struct Seats<B: TableName> {
    pub(crate) by: u32,
    // Its last call, of all locks.
    pub(crate) last: Clock,
    // In the order of the locks.
    pub(crate) queues: Vec<QueueSeat<B>>,
    pub(crate) arrivals: Shown<B>,
    // The pass at the arrivals, but where the first caller has it.
    pub(crate) pass: Option<ArrivalsSeat<B>>,
    pub(crate) intake: AtIntake<B>,
    pub(crate) times: TimeSeat,
    pub(crate) turns: TurnSeat<Painted>,
}

/// The seats of a caller, taken apart.
pub(crate) struct SeatsParts<B: TableName> {
    pub(crate) by: u32,
    pub(crate) last: Clock,
    pub(crate) queues: Vec<QueueSeat<B>>,
    pub(crate) arrivals: Shown<B>,
    // The pass at the arrivals, but where the first caller has it.
    pub(crate) pass: Option<ArrivalsSeat<B>>,
    pub(crate) intake: AtIntake<B>,
    pub(crate) times: TimeSeat,
    pub(crate) turns: TurnSeat<Painted>,
}

impl<B: TableName> Seats<B> {
    ghost use Rattle.std.specs.Prelude.{◌≡◌, true, None, Some, IfErr, IfOk};
    ghost use Rattle.sf_calls.specs.Calling.{IfFaultNoMemory, IfFaultNotYet};
    ghost use Rattle.sf_actor.specs.sf_surface.Marks.{PermitFits, SpareFits};
    ghost use Rattle.sf_actor.specs.Desks.{IsAsBefore, MadeCall, MadeSend, WaitsForCall, has_queue};
    ghost use Rattle.sf_live_seats.specs.Moves.{ChangesArrivals, ChangesPasses};
    ghost use Rattle.sf_live_seats.specs.Seats.{AreSeats, MaySend, home_of, view_of, whole_of};

    /// All that the seats are made of.
    pub(crate) fn into_parts(self) -> SeatsParts<B>
        ensures { self ≡ whole_of result }
    {
        let Seats {
            by,
            last,
            queues,
            arrivals,
            pass,
            intake,
            times,
            turns,
        } = self;
        SeatsParts {
            by,
            last,
            queues,
            arrivals,
            pass,
            intake,
            times,
            turns,
        }
    }

    /// Makes a call on a queue, for a step of the caller, and waits for its turn under the lock. It is
    /// stamped behind the caller's last call, so that a caller's calls stay in order: a step before that
    /// of the last call is refused as out of memory.
    pub fn call<R: Wait>(
        &mut self,
        locks: &Locks<B>,
        rt: &R,
        queue: QueueId,
        step: u32,
        call: QCall<B>,
    ) -> Result<QReply<B>, CallFault<QCall<B>>>
        requires own { AreSeats B.table locks.now self.old }
        requires there { has_queue (home_of locks.now self.old) queue.0 ≡ true }
        requires permit { PermitFits B.table call }
        ensures own { AreSeats B.table locks.now self.new }
        ensures changes { ChangesPasses self.old self.new }
        ensures step { IfOk result (λ _. self.new.last.step ≡ step) }
        ensures made { IfOk result (MadeCall (home_of locks.now self.old) (view_of self.old) (view_of self.new) self.old.by queue.0 (step, call)) }
        ensures spare { IfOk result (SpareFits B.table) }
        ensures not_yet { IfFaultNotYet result (λ back. (back ≡ call)
            × WaitsForCall (home_of locks.now self.old) (view_of self.old) (view_of self.new) self.old.by queue.0 (step, call)) }
        ensures no_memory { IfFaultNoMemory result (λ back. (back ≡ call) × IsAsBefore (view_of self.old) (view_of self.new)) }
    {
        if step < self.last.step {
            return Err(CallFault::NoMemory(call));
        }
        let Some(place) = place_in(&locks.queues, queue) else {
            unreachable!()
        };
        let lock = &locks.queues[place];
        let seat = &mut self.queues[place];
        match seat
            .pass
            .call(&lock.lock, rt, (self.last.stamp, (step, call)))
        {
            Ok((stamp, reply)) => {
                self.last = Clock { step, stamp };
                Ok(reply)
            }
            Err(CallFault::NotYet((_, (_, call)))) => Err(CallFault::NotYet(call)),
            Err(CallFault::NoMemory((_, (_, call)))) => Err(CallFault::NoMemory(call)),
        }
    }

    /// Sends a transaction, for a step of the caller: through its sender at the intake, where there is one,
    /// else through its pass. The first caller, whose number is 0, takes what others send.
    pub fn send<R: Wait>(
        &mut self,
        locks: &Locks<B>,
        rt: &R,
        step: u32,
        txn: Transaction<ReadLease<B>>,
    ) -> Result<u32, (NoMemory, Transaction<ReadLease<B>>)>
        requires may { MaySend B.table locks.now self.old }
        ensures own { AreSeats B.table locks.now self.new }
        ensures changes { ChangesArrivals self.old self.new }
        ensures sent { IfOk result (MadeSend (home_of locks.now self.old) (view_of self.old) (view_of self.new) self.old.by step txn) }
        ensures back { IfErr result (λ back. (back.1 ≡ txn) × IsAsBefore (view_of self.old) (view_of self.new)) }
    {
        match &locks.intake {
            Some(intake) => {
                let AtIntake::Sends(outbox) = &mut self.intake else {
                    unreachable!()
                };
                outbox.send(intake, rt, &mut self.last, step, txn)
            }
            None => {
                let Some(pass) = &mut self.pass else {
                    unreachable!()
                };
                let sent = send_one(rt, &locks.arrivals, pass, &mut self.last, step, txn);
                self.arrivals = Shown::of(pass);
                sent
            }
        }
    }
}

impl<B: TableName> Drop for Seats<B> {
    fn drop(self) {
        let Seats {
            by: _,
            last: _,
            queues: _,
            arrivals: _,
            pass: _,
            intake: _,
            times: _,
            turns: _,
        } = self;
    }
}
