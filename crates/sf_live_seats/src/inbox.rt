//! The first caller's side of an intake without a lock: what senders sent is taken out, and put
//! among the arrivals in each sender's name.
ghost use Rattle.std.specs.Prelude.{◌≡◌, ◌++◌, ◌<◌, [], true, false, None, Some, length, Contains, IfOk, IfErr, OnOk, option_to_list};
ghost use Rattle.std.specs.List.{AllByRecursion, AllZip, position};
ghost use Rattle.std.specs.Vec.Iter.{into_iter_items};
ghost use Rattle.sf_intake.specs.Views.{new_sender};
ghost use Rattle.sf_live_seats.specs.Inboxes.{Admits, Carries, GaveMore, HasAll, HasCouriers, Hears, IsAbleTo, IsEmpty, IsInbox, IsLater, IsSameInbox, is_courier, left_of};
ghost use Rattle.sf_live_seats.specs.Reuniting.{MayReunite, Reunites};
ghost use Rattle.sf_live_seats.specs.Seats.{AreWhole, IsHeard, MaySend, SendsTo};

use crate::arrivals::StampedArrivals;
use crate::arrivals_seat::ArrivalsSeat;
use crate::at_intake::AtIntake;
use crate::clock::Clock;
use crate::locks::Locks;
use crate::seats::Seats;
use crate::sending::send_one;
use crate::shown::Shown;
use sf_actor::ReadLease;
use sf_base::{ActorId, NoMemory};
use sf_calls::CallLock;
use sf_intake::{Arrived, Intake, Sender, Taker, Transaction};
use sf_turns::TableName;
use std::alloc::Global;
use std::marker::Brand;
use std::sync::Wait;
use std::vec::IntoIter;

/// How many callers have senders at most.
const MOST_SENDERS: u32 = 64;

/// How many transactions an intake gives at once at most.
const MOST_TAKEN: usize = 4096;

/// A sender's pass at the arrivals, through which what it sent is put there in its name.
#[derive(Drop)]
pub struct Courier<B: TableName> {
    pub(crate) by: u32,
    pub(crate) pass: ArrivalsSeat<B>,
}

/// What the first caller takes from an intake with, and the passes through which it puts what it took
/// among the arrivals.
#[derive(Drop)]
pub struct Inbox<B: TableName> {
    pub(crate) taker: Taker<ReadLease<B>, Brand>,
    // How many senders it made.
    pub(crate) senders: u32,
    pub(crate) couriers: Vec<Courier<B>>,
    // The oldest of what was taken and is not among the arrivals yet, where a refusal left it.
    pub(crate) held: Option<Arrived<ReadLease<B>>>,
    // What was taken behind it.
    pub(crate) rest: IntoIter<Arrived<ReadLease<B>>>,
}

impl<B: TableName> Courier<B> {
    /// Puts a transaction among the arrivals, with a stamp above this one. The stamp that it got.
    fn carry<R: Wait>(
        &mut self,
        rt: &R,
        lock: &CallLock<StampedArrivals<B>>,
        stamp: u64,
        step: u32,
        txn: Transaction<ReadLease<B>>,
    ) -> Result<u64, (NoMemory, Transaction<ReadLease<B>>)>
        requires able { IsAbleTo lock.now self.old }
        ensures carried { IfOk result (λ given. Carries self.old self.new stamp given step txn) }
        ensures back { IfErr result (λ back. (back.1 ≡ txn) × (self.new ≡ self.old)) }
    {
        let mut clock = Clock { step, stamp };
        match send_one(rt, lock, &mut self.pass, &mut clock, step, txn) {
            Ok(_) => Ok(clock.stamp),
            Err(back) => Err(back),
        }
    }
}

/// The place of the courier of this number.
fn place_of<B: TableName>(couriers: &[Courier<B>], by: u32) -> Option<usize>
    ensures { result ≡ position (is_courier by) couriers.now }
{
    for place in 0..couriers.len() {
        let courier = &couriers[place];
        if courier.by == by {
            return Some(place);
        }
    }
    None
}

/// The oldest of what is left.
fn next_left<B: TableName>(
    held: &mut Option<Arrived<ReadLease<B>>>,
    rest: &mut IntoIter<Arrived<ReadLease<B>>>,
) -> Option<Arrived<ReadLease<B>>>
    ensures left { option_to_list held.old ++ into_iter_items rest.old ≡ option_to_list result ++ into_iter_items rest.new }
    ensures held { held.new ≡ None }
    ensures none { result ≡ None → into_iter_items rest.new ≡ [] }
{
    match held.take() {
        Some(oldest) => Some(oldest),
        None => rest.next(),
    }
}

impl<B: TableName> Inbox<B> {
    /// An inbox of this taker, without senders.
    pub(crate) fn of(alloc: Global, taker: Taker<ReadLease<B>, Brand>) -> Inbox<B>
        ensures taker { result.taker ≡ taker }
        ensures empty { IsEmpty result }
    {
        Inbox {
            taker,
            senders: 0,
            couriers: Vec::new(alloc),
            held: None,
            rest: Vec::new(alloc).into_iter(),
        }
    }

    /// A sender for a caller, whose pass stays here. There are at most 64.
    pub(crate) fn admit(
        &mut self,
        intake: &Intake<ReadLease<B>, Brand>,
        by: u32,
        pass: ArrivalsSeat<B>,
    ) -> Result<Sender<ReadLease<B>>, NoMemory>
        requires own { self.old.taker.intake ≡ intake.now }
        requires fresh { Contains self.old.taker.made by → ⊥ }
        requires count { self.old.senders ≡ length self.old.taker.made }
        ensures admits { IfOk result (λ sender. Admits by pass self.old self.new) }
        ensures given { IfOk result (λ sender. sender ≡ new_sender intake.now (record { 0 = by })) }
    {
        if self.senders >= MOST_SENDERS {
            return Err(NoMemory);
        }
        self.couriers.push(Courier { by, pass })?;
        let sender = self.taker.sender(intake, ActorId(by))?;
        self.senders += 1;
        Ok(sender)
    }

    /// Puts the oldest of what is left among the arrivals, in its sender's name. False where
    /// nothing is left. Out of memory leaves it the oldest of what is left.
    fn forward<R: Wait>(
        &mut self,
        rt: &R,
        lock: &CallLock<StampedArrivals<B>>,
        last: &mut Clock,
    ) -> Result<bool, NoMemory>
        requires own { IsInbox lock.now self.old }
        requires couriers { HasCouriers last.old self.old }
        ensures own { IsInbox lock.now self.new }
        ensures couriers { HasCouriers last.new self.new }
        ensures taker { self.new.taker ≡ self.old.taker }
        ensures last { IsLater last.old last.new }
        ensures fewer { IfOk result (λ more. more ≡ true → length (left_of self.new) < length (left_of self.old)) }
        ensures none { IfOk result (λ more. more ≡ false → left_of self.new ≡ []) }
    {
        let Some(oldest) = next_left(&mut self.held, &mut self.rest) else {
            return Ok(false);
        };
        let Arrived {
            number,
            actor,
            step,
            txn,
        } = oldest;
        let Some(place) = place_of(&self.couriers, actor.0) else {
            unreachable!()
        };
        let stamp = last.stamp.max(self.taker.newest());
        match self.couriers[place].carry(rt, lock, stamp, step, txn) {
            Ok(given) => {
                last.stamp = given;
                Ok(true)
            }
            Err((NoMemory, txn)) => {
                self.held = Some(Arrived {
                    number,
                    actor,
                    step,
                    txn,
                });
                Err(NoMemory)
            }
        }
    }

    /// Puts all that is left among the arrivals.
    fn forward_left<R: Wait>(
        &mut self,
        rt: &R,
        lock: &CallLock<StampedArrivals<B>>,
        last: &mut Clock,
    ) -> Result<(), NoMemory>
        requires own { IsInbox lock.now self.old }
        requires couriers { HasCouriers last.old self.old }
        ensures own { IsInbox lock.now self.new }
        ensures couriers { HasCouriers last.new self.new }
        ensures taker { self.new.taker ≡ self.old.taker }
        ensures last { IsLater last.old last.new }
        ensures none { OnOk result (left_of self.new ≡ []) }
    {
        while self.forward(rt, lock, last)? {}
        Ok(())
    }

    /// Takes what was sent, at most 4,096, and puts it among the arrivals, behind what a refusal
    /// left. True where it took as many. Out of memory keeps what was taken and is not among them
    /// yet.
    pub(crate) fn bring<R: Wait>(
        &mut self,
        rt: &R,
        intake: &Intake<ReadLease<B>, Brand>,
        lock: &CallLock<StampedArrivals<B>>,
        last: &mut Clock,
    ) -> Result<bool, NoMemory>
        requires own { IsInbox lock.now self.old }
        requires couriers { HasCouriers last.old self.old }
        requires intake { self.old.taker.intake ≡ intake.now }
        ensures own { IsInbox lock.now self.new }
        ensures couriers { HasCouriers last.new self.new }
        ensures same { IsSameInbox self.old self.new }
        ensures last { IsLater last.old last.new }
        ensures none { OnOk result (left_of self.new ≡ []) }
        ensures more { OnOk result (GaveMore self.old.taker self.new.taker) }
        ensures dry { IfOk result (λ full. full ≡ false → HasAll self.new.taker) }
    {
        self.forward_left(rt, lock, last)?;
        let list = self.taker.take(intake, rt)?;
        let full = list.len() == MOST_TAKEN;
        self.rest = list.into_iter();
        self.forward_left(rt, lock, last)?;
        Ok(full)
    }

    /// Takes all that was sent, and puts it among the arrivals.
    fn drain<R: Wait>(
        &mut self,
        rt: &R,
        intake: &Intake<ReadLease<B>, Brand>,
        lock: &CallLock<StampedArrivals<B>>,
        last: &mut Clock,
    ) -> Result<(), NoMemory>
        requires own { IsInbox lock.now self.old }
        requires couriers { HasCouriers last.old self.old }
        requires intake { self.old.taker.intake ≡ intake.now }
        ensures own { IsInbox lock.now self.new }
        ensures couriers { HasCouriers last.new self.new }
        ensures same { IsSameInbox self.old self.new }
        ensures last { IsLater last.old last.new }
        ensures none { OnOk result (left_of self.new ≡ []) }
        ensures dry { OnOk result (HasAll self.new.taker) }
    {
        for _ in rt.forever() {
            if !self.bring(rt, intake, lock, last)? {
                return Ok(());
            }
        }
        unreachable!()
    }
}

impl<B: TableName> Inbox<B> {
    /// The taker hears what a caller sent, where it has a sender.
    fn hear(&mut self, intake: &Intake<ReadLease<B>, Brand>, at_intake: &mut AtIntake<B>)
        requires own { self.old.taker.intake ≡ intake.now }
        requires theirs { SendsTo intake.now at_intake.old }
        ensures hears { Hears self.old self.new }
        ensures same { at_intake.new ≡ at_intake.old }
        ensures heard { IsHeard self.new.taker at_intake.old }
    {
        if let AtIntake::Sends(outbox) = at_intake {
            self.taker.hear(intake, &mut outbox.sender);
        }
    }

    /// The taker hears what each of these callers sent.
    fn hear_each(&mut self, intake: &Intake<ReadLease<B>, Brand>, ends: &mut [Seats<B>])
        requires own { self.old.taker.intake ≡ intake.now }
        requires theirs { AllByRecursion (λ seats. SendsTo intake.now seats.intake) ends.old }
        ensures hears { Hears self.old self.new }
        ensures same { ends.new ≡ ends.old }
        ensures heard { AllByRecursion (λ seats. IsHeard self.new.taker seats.intake) ends.old }
    {
        for place in 0..ends.len() {
            self.hear(intake, &mut ends[place].intake);
        }
    }

    /// Gives a caller with a sender its pass back, once all that it sent is among the arrivals.
    fn reunite<R: Wait>(
        &mut self,
        rt: &R,
        locks: &Locks<B>,
        intake: &Intake<ReadLease<B>, Brand>,
        seats: &mut Seats<B>,
    ) -> Result<(), NoMemory>
        requires may { MayReunite locks.now intake.now self.old }
        requires theirs { MaySend B.table locks.now seats.old }
        requires heard { IsHeard self.old.taker seats.old.intake }
        ensures may { MayReunite locks.now intake.now self.new }
        ensures taker { self.new.taker ≡ self.old.taker }
        ensures whole { OnOk result (AreWhole B.table locks.now seats.new) }
        ensures reunites { OnOk result (Reunites locks.now seats.old seats.new) }
    {
        let AtIntake::Sends(outbox) = &mut seats.intake else {
            unreachable!()
        };
        self.taker.compare(intake, rt, &mut outbox.sender);
        let Some(place) = place_of(&self.couriers, seats.by) else {
            return Err(NoMemory);
        };
        let Courier { by: _, pass } = self.couriers.remove(place);
        seats.arrivals = Shown::of(&pass);
        seats.pass = Some(pass);
        seats.intake = AtIntake::Nothing;
        Ok(())
    }

    /// Gives each of these callers its pass back.
    fn reunite_each<R: Wait>(
        &mut self,
        rt: &R,
        locks: &Locks<B>,
        intake: &Intake<ReadLease<B>, Brand>,
        ends: &mut [Seats<B>],
    ) -> Result<(), NoMemory>
        requires may { MayReunite locks.now intake.now self.old }
        requires theirs { AllByRecursion (MaySend B.table locks.now) ends.old }
        requires heard { AllByRecursion (λ seats. IsHeard self.old.taker seats.intake) ends.old }
        ensures may { MayReunite locks.now intake.now self.new }
        ensures taker { self.new.taker ≡ self.old.taker }
        ensures whole { OnOk result (AllByRecursion (AreWhole B.table locks.now) ends.new) }
        ensures reunites { OnOk result (AllZip (Reunites locks.now) ends.old ends.new) }
    {
        for place in 0..ends.len() {
            self.reunite(rt, locks, intake, &mut ends[place])?;
        }
        Ok(())
    }

    /// Puts all that these callers sent among the arrivals, and gives each its pass back.
    pub(crate) fn finish<R: Wait>(
        &mut self,
        rt: &R,
        locks: &Locks<B>,
        intake: &Intake<ReadLease<B>, Brand>,
        last: &mut Clock,
        ends: &mut [Seats<B>],
    ) -> Result<(), NoMemory>
        requires own { IsInbox locks.now.arrivals self.old }
        requires couriers { HasCouriers last.old self.old }
        requires same { self.old.taker.intake ≡ intake.now }
        requires intake { locks.now.intake ≡ Some intake.now }
        requires theirs { AllByRecursion (MaySend B.table locks.now) ends.old }
        ensures own { IsInbox locks.now.arrivals self.new }
        ensures intake { self.new.taker.intake ≡ self.old.taker.intake }
        ensures made { self.new.taker.made ≡ self.old.taker.made }
        ensures last { IsLater last.old last.new }
        ensures whole { OnOk result (AllByRecursion (AreWhole B.table locks.now) ends.new) }
        ensures reunites { OnOk result (AllZip (Reunites locks.now) ends.old ends.new) }
    {
        self.hear_each(intake, ends);
        self.drain(rt, intake, &locks.arrivals, last)?;
        self.reunite_each(rt, locks, intake, ends)
    }
}
