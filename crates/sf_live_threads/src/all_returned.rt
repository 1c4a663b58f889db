//! After the threads are joined: the first seats take in the seats of all actors, who then stand by
//! rising number.
ghost use Rattle.std.specs.Prelude.{◌≡◌, ◌+◌, ◌≤◌, length, map, IfOk};
ghost use Rattle.std.specs.List.{AllByRecursion};
ghost use Rattle.sf_live_seats.specs.First.{IsFirst, gave_of};
ghost use Rattle.sf_live_seats.specs.Seats.{AreWhole, MaySend};
ghost use Rattle.sf_live_threads.specs.Meeting.{MeetsEach, MeetsReunited, as_returned, seats_of};

use crate::gates::Gates;
use crate::seated_actor::SeatedActor;
use sf_actor_steps::Actor;
use sf_base::NoMemory;
use sf_live_seats::{FirstSeats, Locks, Seats};
use sf_turns::TableName;
use std::alloc::Global;
use std::sync::Wait;

/// An actor whose seats were taken in, with the gates that it passed.
#[derive(Drop)]
pub struct ReturnedActor<B: TableName> {
    pub actor: Actor<B>,
    pub gates: Gates,
}

/// The first seats, after they took all others in, and the actors by rising number.
#[derive(Drop)]
pub struct AllReturned<B: TableName> {
    pub first: FirstSeats<B>,
    pub returned: Vec<ReturnedActor<B>>,
}

/// The actors with the gates that they passed, and the seats of each.
fn parts<B: TableName>(
    alloc: Global,
    seated_actors: Vec<SeatedActor<B>>,
) -> Result<(Vec<ReturnedActor<B>>, Vec<Seats<B>>), NoMemory>
    ensures returned { IfOk result (λ parts. parts.0.items ≡ map as_returned seated_actors.items) }
    ensures ends { IfOk result (λ parts. parts.1.items ≡ map seats_of seated_actors.items) }
{
    let mut returned = Vec::new(alloc);
    let mut ends = Vec::new(alloc);
    for seated_actor in seated_actors {
        let SeatedActor {
            actor,
            seats,
            gates,
        } = seated_actor;
        returned.push(ReturnedActor { actor, gates })?;
        ends.push(seats)?;
    }
    Ok((returned, ends))
}

/// Takes seats in, one after the other.
fn meet_each<B: TableName>(
    locks: &Locks<B>,
    first: FirstSeats<B>,
    reunited: Vec<Seats<B>>,
) -> Result<FirstSeats<B>, NoMemory>
    requires first { IsFirst B.table locks.now first }
    requires theirs { AllByRecursion (AreWhole B.table locks.now) reunited.items }
    requires out { length first.took.items + length reunited.items ≤ length (gave_of first) }
    ensures first { IfOk result (λ all. IsFirst B.table locks.now all) }
    ensures met { IfOk result (λ all. MeetsEach first reunited.items all) }
{
    let mut first = first;
    for seats in reunited {
        first.meet(locks, seats)?;
    }
    Ok(first)
}

/// Takes the seats of all actors in, once all that they sent was taken.
pub(crate) fn gather<R: Wait, B: TableName>(
    rt: &R,
    alloc: Global,
    locks: &Locks<B>,
    first: FirstSeats<B>,
    seated_actors: Vec<SeatedActor<B>>,
) -> Result<(FirstSeats<B>, Vec<ReturnedActor<B>>), NoMemory>
    requires first { IsFirst B.table locks.now first }
    requires theirs { AllByRecursion (MaySend B.table locks.now) (map seats_of seated_actors.items) }
    requires out { length first.took.items + length seated_actors.items ≤ length (gave_of first) }
    ensures first { IfOk result (λ gathered. IsFirst B.table locks.now gathered.0) }
    ensures met { IfOk result (λ gathered. MeetsReunited locks.now first (map seats_of seated_actors.items) gathered.0) }
    ensures returned { IfOk result (λ gathered. gathered.1.items ≡ map as_returned seated_actors.items) }
{
    let (returned, mut ends) = parts(alloc, seated_actors)?;
    let mut first = first;
    first.finish(locks, rt, &mut ends)?;
    let first = meet_each(locks, first, ends)?;
    Ok((first, returned))
}
