//! A run in threads, from the first to the last: seats are given out, threads are started, visits
//! are made while they run, all are joined, and their seats are taken in. `sf_live` calls it.
ghost use Rattle.std.specs.Prelude.{◌≡◌, ◌+◌, ◌≤◌, [], ◌∷◌, ◌⊎◌, length, map, Err, IfErr, IfOk, IfSome, IsErr, IsOk, None};
ghost use Rattle.std.specs.List.{AllByRecursion, AllZip};
ghost use Rattle.std.specs.List.Sorted.{IsStrictlyIncreasing};
ghost use Rattle.sf_live_seats.specs.First.{HasAll, IsFirst, KnowsNothing, gave_of};
ghost use Rattle.sf_live_seats.specs.Seats.{MaySend};
ghost use Rattle.sf_live_threads.specs.Seating.{HoldsOnceSeated, IsNewcomer, number_of};
ghost use Rattle.sf_live_threads.specs.SeatedActors.{MayTryNext};
ghost use Rattle.sf_live_threads.specs.Backs.{AllCame};
ghost use Rattle.sf_live_threads.specs.inner.Tasks.{GivesWhole, IsFitTask, Stays};
ghost use Rattle.sf_live_threads.specs.Meeting.{MeetsReunited, as_returned, seats_of};
ghost use Rattle.sf_live_threads.specs.Returns.{Returns};
ghost use Rattle.sf_live_threads.specs.Visits.{Attends, HasLeft, HasLeftOrIs};
ghost use Rattle.sf_live_threads.specs.declared.run.Stopped.TheVariants as stopped;

use crate::all_returned::{AllReturned, gather};
use crate::here::try_here;
use crate::pacing::{Host, Pacing};
use crate::seated_actor::SeatedActor;
use crate::seating::seat_actors;
use crate::task::Task;
use crate::threads::{bring_back, send_all};
use crate::visit::{Ended, Look, Visit};
use sf_actor_steps::Actor;
use sf_base::NoMemory;
use sf_io::Gate;
use sf_live_seats::{FirstSeats, Locks};
use sf_live_watch::Watch;
use sf_picture::Picture;
use sf_turns::TableName;
use std::alloc::Global;
use std::sync::Wait;
use std::thread;
use std::thread::Threads;

/// Why a run in threads came to no end.
#[derive(Clone, Copy)]
pub enum Stopped {
    NoMemory,
    /// The visitor could do no more.
    Ended,
}

impl From<NoMemory> for Stopped {
    ghost use Rattle.std.specs.Prelude.{◌≡◌};
    ghost use Rattle.sf_live_threads.specs.declared.run.Stopped.TheVariants as stopped;

    ghost from_gives = { λ _ why. why ≡ stopped.NoMemory };

    fn from(_: NoMemory) -> Stopped {
        Stopped::NoMemory
    }
}

/// Visits whenever something was done, until all threads rest. Seated actors that are here are tried
/// meanwhile.
fn attend<'s, R: Threads + Wait + Sync, G: Gate, B: TableName, V: Visit<R, B>>(
    pacing: &Pacing<R, G>,
    locks: &Locks<B>,
    pictures: &[Picture],
    first: FirstSeats<B>,
    visitor: &mut V,
    tasks: Vec<Task<'s, B>>,
) -> Result<(FirstSeats<B>, Vec<Task<'s, B>>), Stopped>
    requires first { IsFirst B.table locks.now first }
    requires kept { (start : V) × V.keeps start visitor.old locks.now first }
    requires fit { AllByRecursion (IsFitTask B.table locks.now pictures.now) tasks.items }
    ensures attended { (start : V) → V.keeps start visitor.old locks.now first
        → IfOk result (λ rest. Attends (V.keeps start) B.table locks.now first rest.0 visitor.new) }
    ensures left { (start : V) → V.keeps start visitor.old locks.now first → IfErr result (HasLeft (V.keeps start) (V.ended start) locks.now visitor.new) }
    ensures tasks { IfOk result (λ rest. AllZip (Stays B.table locks.now pictures.now) tasks.entry.items rest.1.items) }
{
    let mut first = first;
    let mut tasks = tasks;
    for _ in pacing.rt.forever() {
        if !pacing.watch.next(pacing.rt) {
            return Ok((first, tasks));
        }
        let Some(tried) = try_here(pacing, locks, pictures, tasks) else {
            return Err(Stopped::NoMemory);
        };
        tasks = tried;
        let look = Look {
            watch: pacing.watch,
        };
        match visitor.visit(pacing.rt, locks, &mut first, &look) {
            Ok(goes_on) => look.end(goes_on),
            Err(Ended) => return Err(Stopped::Ended),
        }
    }
    unreachable!()
}

/// Visits until all rest, where all were sent.
fn attend_sent<'s, R: Threads + Wait + Sync, G: Gate, B: TableName, V: Visit<R, B>>(
    pacing: &Pacing<R, G>,
    locks: &Locks<B>,
    pictures: &[Picture],
    first: FirstSeats<B>,
    visitor: &mut V,
    sent: Option<Vec<Task<'s, B>>>,
) -> Result<(FirstSeats<B>, Vec<Task<'s, B>>), Stopped>
    requires first { IsFirst B.table locks.now first }
    requires kept { (start : V) × V.keeps start visitor.old locks.now first }
    requires fit { IfSome sent (λ tasks. AllByRecursion (IsFitTask B.table locks.now pictures.now) tasks.items) }
    ensures attended { (start : V) → V.keeps start visitor.old locks.now first
        → IfOk result (λ rest. Attends (V.keeps start) B.table locks.now first rest.0 visitor.new) }
    ensures left { (start : V) → V.keeps start visitor.old locks.now first → IfErr result (HasLeft (V.keeps start) (V.ended start) locks.now visitor.new) }
    ensures tasks { IfOk result (λ rest. IfSome sent.entry (λ tasks. AllZip (Stays B.table locks.now pictures.now) tasks.items rest.1.items)) }
    ensures none { sent.entry ≡ None → IsErr result }
{
    let Some(tasks) = sent else {
        return Err(Stopped::NoMemory);
    };
    attend(pacing, locks, pictures, first, visitor, tasks)
}

/// Joins all threads, where all rest.
fn join_all<R: Threads, B: TableName>(
    rt: &R,
    alloc: Global,
    rest: Result<(FirstSeats<B>, Vec<Task<B>>), Stopped>,
) -> Result<(FirstSeats<B>, Vec<SeatedActor<B>>), Stopped>
    ensures first { IfOk result (λ back. IfOk rest.entry (λ out. back.0 ≡ out.0)) }
    ensures came { IfOk result (λ back. IfOk rest.entry (λ out. AllZip (GivesWhole B.table) out.1.items back.1.items)) }
    ensures rested { IfOk result (λ _. IsOk rest.entry) }
    ensures left { IfErr result (λ why. (IsOk rest.entry × (why ≡ stopped.NoMemory)) ⊎ (rest.entry ≡ Err why)) }
{
    match rest {
        Ok((first, tasks)) => match bring_back(rt, alloc, tasks) {
            Some(seated_actors) => Ok((first, seated_actors)),
            None => Err(Stopped::NoMemory),
        },
        Err(why) => Err(why),
    }
}

/// Each seated actor in a thread of its own, until all rest. The visitor comes back on every way.
fn crowd<
    R: Threads + Wait + Sync,
    G: Gate + Sync,
    B: TableName + Send + Sync,
    V: Visit<R, B> + Drop,
>(
    pacing: &Pacing<R, G>,
    locks: &Locks<B>,
    pictures: &[Picture],
    first: FirstSeats<B>,
    visitor: V,
    seated_actors: Vec<SeatedActor<B>>,
) -> (V, Result<(FirstSeats<B>, Vec<SeatedActor<B>>), Stopped>)
    requires first { IsFirst B.table locks.now first }
    requires kept { (start : V) × V.keeps start visitor locks.now first }
    requires few { length seated_actors.items ≤ 64 }
    requires may_try_next { AllByRecursion (MayTryNext B.table locks.now pictures.now) seated_actors.items }
    ensures attended { (start : V) → V.keeps start visitor locks.now first → IfOk result.1 (λ rest. Attends (V.keeps start) B.table locks.now first rest.0 result.0) }
    ensures left { (start : V) → V.keeps start visitor locks.now first → IfErr result.1 (HasLeft (V.keeps start) (V.ended start) locks.now result.0) }
    ensures came { IfOk result.1 (λ rest. AllCame B.table locks.now pictures.now seated_actors.items rest.1.items) }
{
    thread::scope(
        thread::scope_env(),
        pacing.rt,
        move |scope| -> (V, Result<(FirstSeats<B>, Vec<SeatedActor<B>>), Stopped>)
            requires first { IsFirst B.table locks.now first }
            requires kept { (start : V) × V.keeps start visitor locks.now first }
            requires few { length seated_actors.items ≤ 64 }
            requires may_try_next { AllByRecursion (MayTryNext B.table locks.now pictures.now) seated_actors.items }
            ensures attended { (start : V) → V.keeps start visitor locks.entry.now first
                → IfOk result.1 (λ rest. Attends (V.keeps start) B.table locks.entry.now first rest.0 result.0) }
            ensures left { (start : V) → V.keeps start visitor locks.entry.now first → IfErr result.1 (HasLeft (V.keeps start) (V.ended start) locks.entry.now result.0) }
            ensures came { IfOk result.1 (λ rest. AllCame B.table locks.entry.now pictures.entry.now seated_actors.items rest.1.items) }
        {
            let mut visitor = visitor;
            let sent = send_all(scope, pacing, locks, pictures, seated_actors);
            let rest = attend_sent(pacing, locks, pictures, first, &mut visitor, sent);
            pacing.watch.stop();
            (visitor, join_all(pacing.rt, pacing.alloc, rest))
        },
    )
}

/// Takes in the seats of all that came back.
fn take_in<R: Wait, B: TableName>(
    rt: &R,
    alloc: Global,
    locks: &Locks<B>,
    attended: FirstSeats<B>,
    back: Vec<SeatedActor<B>>,
) -> Result<AllReturned<B>, Stopped>
    requires first { IsFirst B.table locks.now attended }
    requires theirs { AllByRecursion (MaySend B.table locks.now) (map seats_of back.items) }
    requires out { length attended.took.items + length back.items ≤ length (gave_of attended) }
    ensures first { IfOk result (λ all_returned. IsFirst B.table locks.now all_returned.first) }
    ensures met { IfOk result (λ all_returned. MeetsReunited locks.now attended (map seats_of back.items) all_returned.first) }
    ensures returned { IfOk result (λ all_returned. all_returned.returned.items ≡ map as_returned back.items) }
    ensures no_memory { IfErr result (λ why. why ≡ stopped.NoMemory) }
{
    let (first, returned) = gather(rt, alloc, locks, attended, back)?;
    Ok(AllReturned { first, returned })
}

/// Each actor is given seats, and goes through its script in a thread of its own, up to where none can
/// go on. Meanwhile the visitor has the first seats, and visits whenever something was done; it comes
/// back on every way. Then all seats are taken in. An actor for which no thread can be started is
/// tried between visits.
pub fn run_actors<
    R: Threads + Wait + Sync,
    G: Gate + Sync,
    B: TableName + Send + Sync,
    V: Visit<R, B> + Drop,
>(
    host: Host<R, G>,
    locks: &Locks<B>,
    pictures: &[Picture],
    first: FirstSeats<B>,
    actors: Vec<Actor<B>>,
    visitor: V,
) -> (V, Result<AllReturned<B>, Stopped>)
    requires first { IsFirst B.table locks.now first }
    requires none { gave_of first ≡ [] }
    requires unused { KnowsNothing first.seats }
    requires few { length actors.items ≤ 64 }
    requires rising { IsStrictlyIncreasing (first.seats.by ∷ map number_of actors.items) }
    requires newcomers { AllByRecursion (IsNewcomer B.table locks.now pictures.now first.seats) actors.items }
    requires kept { HoldsOnceSeated B.table locks.now first (map number_of actors.items) (V.keeps visitor visitor locks.now) }
    ensures first { IfOk result.1 (λ all_returned. IsFirst B.table locks.now all_returned.first) }
    ensures all { IfOk result.1 (λ all_returned. HasAll all_returned.first) }
    ensures returns { IfOk result.1 (Returns (V.keeps visitor) B.table locks.now pictures.now first actors.items result.0) }
    ensures left { IfErr result.1 (HasLeftOrIs (V.keeps visitor) (V.ended visitor) locks.now visitor result.0) }
{
    let Host { rt, alloc, gate } = host;
    let (after_seating, seated_actors) = match seat_actors(alloc, locks, first, actors) {
        Ok(after_seating) => after_seating,
        Err(_) => return (visitor, Err(Stopped::NoMemory)),
    };
    let watch = Watch::new(seated_actors.len());
    let pacing = Pacing {
        rt,
        alloc,
        gate,
        watch: &watch,
    };
    let (visitor, rest) = crowd(
        &pacing,
        locks,
        pictures,
        after_seating,
        visitor,
        seated_actors,
    );
    match rest {
        Ok((attended, back)) => (visitor, take_in(rt, alloc, locks, attended, back)),
        Err(why) => (visitor, Err(why)),
    }
}
