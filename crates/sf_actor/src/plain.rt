//! The desk of one thread, which has queues, arrivals and timelines itself: a play has it, and so
//! do the rounds of a live run.
ghost use Rattle.std.specs.Prelude.{◌≡◌, ◌∷◌, IfOk, IfErr};
ghost use Rattle.std.specs.List.{position};
ghost use Rattle.sf_token.specs.sf_calls.Calling.{IfFaultNoMemory, IfFaultNotYet};
ghost use Rattle.sf_token.specs.sf_calls.Histories.{IsLegal, entry};
ghost use Rattle.sf_surface.specs.Histories.{Answers};
ghost use Rattle.sf_surface.specs.Marks.{PermitFits, SpareFits};
ghost use Rattle.sf_surface.specs.Objects.{mark_of};
ghost use Rattle.sf_actor.specs.Plain.{IsSentTo, WaitsOn, is_queue, taken_in};

use crate::desk::Desk;
use crate::tokens::TokensOf;
use sf_base::{ActorId, NoMemory, QueueId, Seen, TimelineId};
use sf_script_scene::sf_picture::{Painted, Picture};
use sf_surface::{
    DrawFault, Ending, Owing, QCall, QReply, QueueObject, ReadLease, TableName, TurnSeat,
    WriteLease,
};
use sf_times::{TimeSeat, Timelines};
use sf_token::{Arrivals, ArriveCall, ArriveReply, CallFault, Object, Outcome, Transaction};
use std::alloc::Global;
use std::marker::{Brand, Model};

/// The desk of one thread. It has the queues, the arrivals and the timelines themselves, and the only
/// seats, so that what it knows is exact; and it serves every caller. A compositor of the same thread
/// takes what arrived, looks through the seat at the turns, and calls the queues; it leaves both
/// seats first ones with no other out.
#[derive(Drop)]
pub struct PlainDesk<B: TableName> {
    /// The queues, with their histories.
    pub queues: Vec<QueueObject<B>>,
    /// The transactions that were sent.
    pub arrivals: Arrivals<ReadLease<B>, Brand>,
    /// The timelines.
    pub table: Timelines,
    /// The only seat at the timelines.
    pub times: TimeSeat,
    /// The only seat at the turns.
    pub turns: TurnSeat<Painted>,
    /// Whether a sender learns the place of its transaction among the arrivals.
    pub tells: bool,
}

impl<B: TableName> Model for PlainDesk<B> {
    ghost use Rattle.sf_actor.specs.Plain.{IsPlain, PlainOf};

    ghost Value = { PlainOf B };

    ghost view = { λ d. record { queues = d.queues.items; arrivals = d.arrivals; times = d.times; turns = d.turns; tells = d.tells } };

    ghost invariant = { λ d. IsPlain d.table B.table (record { queues = d.queues.items; arrivals = d.arrivals; times = d.times; turns = d.turns; tells = d.tells }) };
}

/// The place of the queue of this number.
fn index_of<B: TableName>(queues: &[QueueObject<B>], queue: QueueId) -> Option<usize>
    ensures { result ≡ position (is_queue queue.0) queues.now }
{
    queues.iter().position(|object| object.queue().0 == queue.0)
}

/// Makes a call on a queue. What is not done leaves the queue as it was.
fn call_on<B: TableName>(
    object: &mut QueueObject<B>,
    by: ActorId,
    step: u32,
    call: QCall<B>,
) -> Result<QReply<B>, CallFault<QCall<B>>>
    requires permit { PermitFits B.table call }
    ensures mark { mark_of object.new ≡ mark_of object.old }
    ensures legal { IsLegal (Answers (mark_of object.new)) object.new.calls }
    ensures made { IfOk result (λ reply. object.new.calls ≡ entry by.0 (step, call) reply ∷ object.old.calls) }
    ensures spare { IfOk result (SpareFits B.table) }
    ensures not_yet { IfFaultNotYet result (λ back. (back ≡ call) × WaitsOn object.old object.new by.0 (step, call)) }
    ensures no_memory { IfFaultNoMemory result (λ back. (back ≡ call) × (object.new ≡ object.old)) }
{
    let outcome = object.apply(by.0, (step, call));
    object.legal();
    match outcome {
        Outcome::Done(reply) => Ok(reply),
        Outcome::NotYet((_, call)) => Err(CallFault::NotYet(call)),
        Outcome::NoMemory((_, call)) => Err(CallFault::NoMemory(call)),
    }
}

/// Sends a transaction. What is not done leaves the arrivals as they were.
fn send_to<B: TableName>(
    arrivals: &mut Arrivals<ReadLease<B>, Brand>,
    by: ActorId,
    step: u32,
    txn: Transaction<ReadLease<B>>,
) -> Result<u32, (NoMemory, Transaction<ReadLease<B>>)>
    ensures sent { IfOk result (λ number. IsSentTo arrivals.old arrivals.new by.0 step txn number) }
    ensures back { IfErr result (λ back. (back.1 ≡ txn) × (arrivals.new ≡ arrivals.old)) }
    ensures taken { taken_in arrivals.new ≡ taken_in arrivals.old }
{
    match arrivals.apply(by.0, ArriveCall::Send(step, txn)) {
        Outcome::Done(ArriveReply::Number(number)) => Ok(number),
        Outcome::NoMemory(ArriveCall::Send(_, txn)) => Err((NoMemory, txn)),
        _other => unreachable!(),
    }
}

impl<B: TableName> PlainDesk<B> {
    ghost use Rattle.std.specs.Prelude.{◌≡◌, true};
    ghost use Rattle.sf_times.specs.Seats.{IsAlone};

    /// A desk of these, with their only seats, which reports the place of a transaction to its
    /// sender or does not.
    pub fn new(
        queues: Vec<QueueObject<B>>,
        arrivals: Arrivals<ReadLease<B>, Brand>,
        table: Timelines,
        times: TimeSeat,
        turns: TurnSeat<Painted>,
        tells: bool,
    ) -> PlainDesk<B>
        requires own_times { times.table ≡ table }
        requires alone { IsAlone times.knows }
        requires own_turns { turns.table ≡ B.table }
        requires first { turns.is_first ≡ true }
        requires none_out { turns.out ≡ 0 }
        ensures { result ≡ record { queues = queues.items; arrivals = arrivals; times = times; turns = turns; tells = tells } }
    {
        PlainDesk {
            queues,
            arrivals,
            table,
            times,
            turns,
            tells,
        }
    }
}

impl<B: TableName> Desk<TokensOf<B>> for PlainDesk<B> {
    ghost use Rattle.std.specs.Prelude.{◌≡◌, ℕ, ◌-◌, ◌≤◌, true, IfOk, IfErr, slice_index};
    ghost use Rattle.sf_base.specs.Points.{greatest, points_from};
    ghost use Rattle.sf_token.specs.sf_calls.Calling.{IfFaultNoMemory, IfFaultNotYet};
    ghost use Rattle.sf_surface.specs.Drawing.{DrawsLease, PaysOwing};
    ghost use Rattle.sf_surface.specs.Marks.{PermitFits, SpareFits};
    ghost use Rattle.sf_times.specs.Seats.{all_loaded, raised};
    ghost use Rattle.sf_surface.specs.sf_turns.Views.{Leaves};
    ghost use Rattle.sf_actor.specs.Desks.{ChangesTimes, ChangesTurns, IsAsBefore, KnowsAll, MadeCall, MadeSend, WaitsForCall, has_queue};
    ghost use Rattle.sf_actor.specs.Plain.{home_of, view_of};

    ghost home = { home_of };

    ghost view = { view_of };

    fn exact(&self)
        ensures { (home_of self.now).is_exact ≡ true → KnowsAll (view_of self.now) }
    {
        self.times.exact();
        self.turns.exact();
    }

    fn call(
        &mut self,
        by: ActorId,
        queue: QueueId,
        step: u32,
        call: QCall<B>,
    ) -> Result<QReply<B>, CallFault<QCall<B>>>
        requires served { (home_of self.old).serves by.0 ≡ true }
        requires there { has_queue (home_of self.old) queue.0 ≡ true }
        requires permit { PermitFits B.table call }
        ensures made { IfOk result (MadeCall (home_of self.old) (view_of self.old) (view_of self.new) by.0 queue.0 (step, call)) }
        ensures spare { IfOk result (SpareFits B.table) }
        ensures not_yet { IfFaultNotYet result (λ back. (back ≡ call) × WaitsForCall (home_of self.old) (view_of self.old) (view_of self.new) by.0 queue.0 (step, call)) }
        ensures no_memory { IfFaultNoMemory result (λ back. (back ≡ call) × IsAsBefore (view_of self.old) (view_of self.new)) }
        ensures home { home_of self.new ≡ home_of self.old }
    {
        let Some(place) = index_of(&self.queues, queue) else {
            unreachable!()
        };
        call_on(&mut self.queues[place], by, step, call)
    }

    fn send(
        &mut self,
        by: ActorId,
        step: u32,
        txn: Transaction<ReadLease<B>>,
    ) -> Result<u32, (NoMemory, Transaction<ReadLease<B>>)>
        requires served { (home_of self.old).serves by.0 ≡ true }
        ensures sent { IfOk result (MadeSend (home_of self.old) (view_of self.old) (view_of self.new) by.0 step txn) }
        ensures back { IfErr result (λ back. (back.1 ≡ txn) × IsAsBefore (view_of self.old) (view_of self.new)) }
        ensures home { home_of self.new ≡ home_of self.old }
    {
        let number = send_to(&mut self.arrivals, by, step, txn)?;
        Ok(if self.tells { number } else { 0 })
    }

    fn signal(&mut self, t: TimelineId, v: u64)
        requires low { 1 ≤ t.0 }
        requires high { t.0 ≤ 64 }
        ensures signalled { (view_of self.new).times ≡ raised (view_of self.old).times (t.0, v) }
        ensures times { ChangesTimes (view_of self.old) (view_of self.new) }
        ensures home { home_of self.new ≡ home_of self.old }
    {
        self.times.signal(&self.table, t, v);
    }

    fn see(&mut self) -> Seen
        ensures shown { (view_of self.new).times ≡ all_loaded (view_of self.old).times (points_from 1 result.values) }
        ensures known { (t : ℕ) → 1 ≤ t → t ≤ 64 → greatest t (view_of self.old).times.known ≤ slice_index result.values (t - 1) }
        ensures signalled { (t : ℕ) → 1 ≤ t → t ≤ 64 → greatest t (view_of self.old).times.signals ≤ slice_index result.values (t - 1) }
        ensures exact { (home_of self.old).is_exact ≡ true → (t : ℕ) → 1 ≤ t → t ≤ 64
            → slice_index result.values (t - 1) ≡ greatest t (view_of self.old).times.signals }
        ensures times { ChangesTimes (view_of self.old) (view_of self.new) }
        ensures home { home_of self.new ≡ home_of self.old }
    {
        self.times.see_all(&self.table)
    }

    fn paint(
        &mut self,
        alloc: Global,
        lease: WriteLease<B>,
        picture: &Picture,
        seen: &Seen,
    ) -> Result<WriteLease<B>, DrawFault<WriteLease<B>>>
        ensures draws { DrawsLease lease picture.now seen.now (view_of self.old).turns (view_of self.new).turns result }
        ensures turns { ChangesTurns (view_of self.old) (view_of self.new) }
        ensures home { home_of self.new ≡ home_of self.old }
    {
        lease.draw(alloc, &mut self.turns, picture, seen)
    }

    fn pay(
        &mut self,
        alloc: Global,
        owing: Owing<B>,
        picture: &Picture,
        seen: &Seen,
    ) -> Result<(), DrawFault<Owing<B>>>
        ensures pays { PaysOwing owing picture.now seen.now (view_of self.old).turns (view_of self.new).turns result }
        ensures turns { ChangesTurns (view_of self.old) (view_of self.new) }
        ensures home { home_of self.new ≡ home_of self.old }
    {
        owing.draw(alloc, &mut self.turns, picture, seen)
    }

    fn end(&mut self, ending: Ending<B>)
        ensures leaves { Leaves (view_of self.old).turns ending.turn.buffer ending.turn.number (view_of self.new).turns }
        ensures turns { ChangesTurns (view_of self.old) (view_of self.new) }
        ensures home { home_of self.new ≡ home_of self.old }
    {
        ending.end(&mut self.turns);
    }
}
