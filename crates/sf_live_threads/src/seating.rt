//! Seats for each actor, split off the first caller's before any thread starts.
ghost use Rattle.std.specs.Prelude.{◌≡◌, [], ◌∷◌, map, IfOk};
ghost use Rattle.std.specs.List.{AllZip};
ghost use Rattle.std.specs.List.Sorted.{IsStrictlyIncreasing};
ghost use Rattle.sf_live_seats.specs.First.{IsFirst, KnowsNothing, gave_of};
ghost use Rattle.sf_live_threads.specs.Seating.{GetsSeats, GivesEach, number_of};

use crate::gates::Gates;
use crate::seated_actor::SeatedActor;
use sf_actor_steps::Actor;
use sf_base::NoMemory;
use sf_live_seats::{FirstSeats, Locks};
use sf_turns::TableName;
use std::alloc::Global;

/// Gives each actor seats of its own.
pub(crate) fn seat_actors<B: TableName>(
    alloc: Global,
    locks: &Locks<B>,
    first: FirstSeats<B>,
    actors: Vec<Actor<B>>,
) -> Result<(FirstSeats<B>, Vec<SeatedActor<B>>), NoMemory>
    requires first { IsFirst B.table locks.now first }
    requires none { gave_of first ≡ [] }
    requires unused { KnowsNothing first.seats }
    requires rising { IsStrictlyIncreasing (first.seats.by ∷ map number_of actors.items) }
    ensures first { IfOk result (λ after_seating. IsFirst B.table locks.now after_seating.0) }
    ensures gives { IfOk result (λ after_seating. GivesEach first (map number_of actors.items) after_seating.0) }
    ensures seated_actors { IfOk result (λ after_seating. AllZip (GetsSeats B.table locks.now first.seats) actors.items after_seating.1.items) }
{
    let mut first = first;
    let mut seated_actors = Vec::new(alloc);
    for actor in actors {
        let seats = first.split(alloc, locks, actor.number())?;
        let seated_actor = SeatedActor {
            actor,
            seats,
            gates: Gates::new(),
        };
        if seated_actors.push(seated_actor).is_err() {
            return Err(NoMemory);
        }
    }
    Ok((first, seated_actors))
}
