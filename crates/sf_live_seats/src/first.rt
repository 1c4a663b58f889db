//! The first caller's seats, which the compositor has: seats for the actors are split off them
//! before threads start, and taken in again once these are joined.
ghost use Rattle.std.specs.Prelude.{◌≡◌, length, map, vec_len, IfOk, OnOk};
ghost use Rattle.std.specs.List.{AllByRecursion, AllZip};
ghost use Rattle.sf_calls.specs.Passes.{given, giving};
ghost use Rattle.sf_live_seats.specs.First.{HandsOut, MayHandOut};
ghost use Rattle.sf_live_seats.specs.Passes.{IsAt, IsFirstPass, KeepsOwn, MayGive, all_met};

use crate::arrivals_seat::ArrivalsSeat;
use crate::at_intake::AtIntake;
use crate::clock::Clock;
use crate::locks::{Locks, QueueLock};
use crate::outbox::Outbox;
use crate::queue_seat::QueueSeat;
use crate::seats::{Seats, SeatsParts};
use crate::shown::Shown;
use sf_base::NoMemory;
use sf_turns::TableName;
use std::alloc::Global;
use std::snapshot::Snapshot;
use std::sync::Wait;

/// The first caller's seats. They give seats to other callers, and take them in again.
#[derive(Drop)]
pub struct FirstSeats<B: TableName> {
    pub seats: Seats<B>,
    // Those that were taken in, for proofs alone.
    pub(crate) took: Vec<Snapshot<Seats<B>>>,
}

/// A pass for a caller, of each of the first ones.
fn split_passes<B: TableName>(
    alloc: Global,
    locks: &[QueueLock<B>],
    firsts: &mut [QueueSeat<B>],
    by: u32,
) -> Result<Vec<QueueSeat<B>>, NoMemory>
    requires own { AllZip IsAt locks.now firsts.old }
    requires long { length locks.now ≡ length firsts.old }
    requires first { AllByRecursion (MayGive by) firsts.old }
    ensures gives { OnOk result (firsts.new ≡ map (giving by) firsts.old) }
    ensures given { IfOk result (λ passes. passes.items ≡ map (given by) firsts.old) }
{
    let mut passes = Vec::new(alloc);
    for place in 0..firsts.len() {
        let pass = firsts[place].split(&locks[place], by);
        passes.push(pass)?;
    }
    Ok(passes)
}

/// What a caller is given at the arrivals: its pass, or a sender where this is an inbox, where the pass
/// stays then.
fn hand_out<B: TableName>(
    locks: &Locks<B>,
    first: &mut AtIntake<B>,
    by: u32,
    pass: ArrivalsSeat<B>,
) -> Result<(Option<ArrivalsSeat<B>>, AtIntake<B>), NoMemory>
    requires may { MayHandOut locks.now by first.old }
    ensures { IfOk result (λ given. HandsOut by pass first.old first.new given.0 given.1) }
{
    match first {
        AtIntake::Takes(inbox) => {
            let Some(intake) = &locks.intake else {
                unreachable!()
            };
            let sender = inbox.admit(intake, by, pass)?;
            Ok((None, AtIntake::Sends(Outbox { sender, count: 0 })))
        }
        AtIntake::Nothing => Ok((Some(pass), AtIntake::Nothing)),
        AtIntake::Sends(_) | AtIntake::Finished => unreachable!(),
    }
}

/// Takes a caller's passes in.
fn meet_passes<B: TableName>(
    locks: &[QueueLock<B>],
    firsts: &mut [QueueSeat<B>],
    passes: Vec<QueueSeat<B>>,
)
    requires own { AllZip IsAt locks.now firsts.old }
    requires theirs { AllZip IsAt locks.now passes.items }
    requires long { (length locks.now ≡ length firsts.old) × (vec_len passes ≡ length firsts.old) }
    requires first { AllByRecursion IsFirstPass firsts.old }
    ensures met { firsts.new ≡ all_met firsts.old passes.items }
    ensures own_calls { AllZip KeepsOwn firsts.old firsts.new }
{
    let mut passes = passes.into_iter();
    for place in 0..firsts.len() {
        let Some(pass) = passes.next() else {
            unreachable!()
        };
        firsts[place].meet(&locks[place], pass);
    }
}

impl<B: TableName> FirstSeats<B> {
    ghost use Rattle.std.specs.Prelude.{◌≡◌, ◌<◌, [], ◌∷◌, length, Contains, IfOk};
    ghost use Rattle.sf_live_seats.specs.First.{Gives, IsFirst, IsGiven, KnowsNothing, Meets, gave_of};
    ghost use Rattle.sf_live_seats.specs.Reuniting.{Finishes, Reunites};
    ghost use Rattle.sf_live_seats.specs.Seats.{AreSeats, AreWhole, MaySend};

    /// The first caller's seats, which gave none yet.
    pub(crate) fn of(alloc: Global, seats: Seats<B>) -> FirstSeats<B>
        ensures seats { result.seats ≡ seats }
        ensures took { result.took.items ≡ [] }
    {
        FirstSeats {
            seats,
            took: Vec::new(alloc),
        }
    }

    /// Seats for another caller, who was given none yet. The first caller called nothing yet either.
    pub fn split(&mut self, alloc: Global, locks: &Locks<B>, by: u32) -> Result<Seats<B>, NoMemory>
        requires first { IsFirst B.table locks.now self.old }
        requires fresh { Contains (self.old.seats.by ∷ gave_of self.old) by → ⊥ }
        requires unused { KnowsNothing self.old.seats }
        ensures first { IfOk result (λ seats. IsFirst B.table locks.now self.new) }
        ensures gives { IfOk result (λ seats. Gives by self.old self.new) }
        ensures seats { IfOk result (AreSeats B.table locks.now) }
        ensures given { IfOk result (IsGiven by self.old.seats) }
    {
        let seats = &mut self.seats;
        let queues = split_passes(alloc, &locks.queues, &mut seats.queues, by)?;
        let turns = seats.turns.split()?;
        let Some(first_pass) = &mut seats.pass else {
            unreachable!()
        };
        let pass = first_pass.split(&locks.arrivals, by);
        seats.arrivals = Shown::of(first_pass);
        let arrivals = Shown::of(&pass);
        let (pass, intake) = hand_out(locks, &mut seats.intake, by, pass)?;
        Ok(Seats {
            by,
            last: Clock {
                step: 0,
                stamp: seats.last.stamp,
            },
            queues,
            arrivals,
            pass,
            intake,
            times: seats.times.split(&locks.times),
            turns,
        })
    }

    /// Takes a caller's seats in, which then are one less out.
    pub fn meet(&mut self, locks: &Locks<B>, seats: Seats<B>) -> Result<(), NoMemory>
        requires first { IsFirst B.table locks.now self.old }
        requires theirs { AreWhole B.table locks.now seats }
        requires out { length self.old.took.items < length (gave_of self.old) }
        ensures first { IfOk result (λ done. IsFirst B.table locks.now self.new) }
        ensures meets { IfOk result (λ done. Meets seats self.old self.new) }
    {
        let kept = Snapshot::of(&seats);
        self.took.push(kept)?;
        let SeatsParts {
            by: _,
            last,
            queues,
            arrivals: _,
            pass,
            intake: _,
            times,
            turns,
        } = seats.into_parts();
        let first = &mut self.seats;
        first.last.stamp = first.last.stamp.max(last.stamp);
        meet_passes(&locks.queues, &mut first.queues, queues);
        let Some(pass) = pass else { unreachable!() };
        let Some(first_pass) = &mut first.pass else {
            unreachable!()
        };
        first_pass.meet(&locks.arrivals, pass);
        first.arrivals = Shown::of(first_pass);
        first.times.join(&locks.times, times);
        first.turns.join(turns);
        Ok(())
    }

    /// Puts all that was sent through the intake among the arrivals, once nobody sends, and gives
    /// these callers, to each of which it made a sender, their passes back. Nothing is done where
    /// there is no intake. A sender that is left out leaves its caller without a pass: nothing is
    /// taken from the intake from then on, and a further call is refused as out of memory.
    pub fn finish<R: Wait>(
        &mut self,
        locks: &Locks<B>,
        rt: &R,
        ends: &mut [Seats<B>],
    ) -> Result<(), NoMemory>
        requires first { IsFirst B.table locks.now self.old }
        requires theirs { AllByRecursion (MaySend B.table locks.now) ends.old }
        ensures first { IfOk result (λ done. IsFirst B.table locks.now self.new) }
        ensures finishes { IfOk result (λ done. Finishes self.old self.new) }
        ensures whole { IfOk result (λ done. AllByRecursion (AreWhole B.table locks.now) ends.new) }
        ensures reunites { IfOk result (λ done. AllZip (Reunites locks.now) ends.old ends.new) }
    {
        let Some(intake) = &locks.intake else {
            return Ok(());
        };
        let seats = &mut self.seats;
        let AtIntake::Takes(inbox) = &mut seats.intake else {
            return Err(NoMemory);
        };
        inbox.finish(rt, locks, intake, &mut seats.last, ends)?;
        seats.intake = AtIntake::Finished;
        Ok(())
    }
}
