//! One try of an actor's next step in its thread: behind its gate, over its own seats, with a note
//! of what it did.
ghost use Rattle.std.specs.Prelude.{IfOk};
ghost use Rattle.sf_live_threads.specs.SeatedActors.{MayTryNext, TriesNext};

use crate::pacing::Pacing;
use crate::seated_actor::SeatedActor;
use sf_actor_steps::Stepped;
use sf_base::NoMemory;
use sf_io::Gate;
use sf_live_seats::{Locks, Noted, SharedDesk};
use sf_picture::Picture;
use sf_turns::TableName;
use std::sync::Wait;

/// One try of a seated actor's next step, over its own seats, and what it did at what all share. Before
/// a step's first try the gate is passed. One that found no memory does no more steps.
pub(crate) fn try_next<R: Wait, G: Gate, B: TableName>(
    pacing: &Pacing<R, G>,
    locks: &Locks<B>,
    pictures: &[Picture],
    seated_actor: SeatedActor<B>,
) -> (SeatedActor<B>, Result<Stepped, NoMemory>, Noted)
    requires { MayTryNext B.table locks.now pictures.now seated_actor }
    ensures { IfOk result.1 (TriesNext B.table locks.now pictures.now seated_actor result.0) }
{
    let SeatedActor {
        mut actor,
        seats,
        gates,
    } = seated_actor;
    let gates = gates.ready(pacing.rt, pacing.gate, &actor);
    let mut desk = SharedDesk::new(pacing.rt, locks, seats);
    let stepped = actor.try_step(&mut desk, pictures);
    let (seats, noted) = desk.into_parts();
    let seated_actor = SeatedActor {
        actor,
        seats,
        gates,
    };
    (seated_actor, stepped, noted)
}
