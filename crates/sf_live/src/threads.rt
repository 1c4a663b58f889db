//! Where the threads of a live run are joined: the locks are closed, and the actors come together
//! over a desk of one thread.
ghost use Rattle.std.specs.Prelude.{◌≡◌, ℕ, All, map, IfOk};
ghost use Rattle.sf_calls.specs.Histories.{IsLegal};
ghost use Rattle.sf_live_compositor.specs.sf_surface.Histories.{Answers};
ghost use Rattle.sf_live_compositor.specs.sf_surface.Objects.{ObjectOf, mark_of};
ghost use Rattle.sf_live_compositor.specs.sf_actor.Desks.{KnowsAll, mark_among};
ghost use Rattle.sf_live_compositor.specs.sf_actor.Plain.{home_of, view_of};
ghost use Rattle.sf_live_compositor.specs.sf_live_seats.First.{HasAll, IsFirst};
ghost use Rattle.sf_live_compositor.specs.sf_live_threads.Meeting.{as_returned};
ghost use Rattle.sf_live.specs.inner.Threads.{BringsTogether, HasRun, RunOf, returned_actor, returned_gates};

use sf_base::{Items, NoMemory};
use sf_calls::Object;
use sf_live_compositor::{
    Actor, ActorSet, AllReturned, Desk, Gates, Lease, Locks, PlainDesk, QueueObject, ReadLease,
    ReturnedActor,
};
use sf_picture::Picture;
use sf_turns::TableName;
use std::alloc::Global;

/// The actors of a scene after all threads are joined, over the desk of one thread, and the gates that
/// each passed, by rising number.
#[derive(Drop)]
pub(crate) struct Joined<B: TableName> {
    pub(crate) actor_set: ActorSet<B>,
    pub(crate) gates: Vec<Gates>,
}

/// States that each queue's calls are legal. It does nothing: each queue keeps this of itself.
fn legal_each<B: TableName>(queues: &[QueueObject<B>])
    ensures { All (λ (object : ObjectOf B). IsLegal (Answers (mark_of object)) object.calls) queues.now }
{
    for object in queues {
        object.legal();
    }
}

/// States that a desk of one thread knows all that happened, and that its calls are legal. It does
/// nothing.
fn tell<B: TableName>(desk: &PlainDesk<B>)
    ensures knows { KnowsAll (view_of desk.now) }
    ensures legal { (queue : ℕ) → IsLegal (Answers (mark_among (home_of desk.now).marks queue)) ((view_of desk.now).calls queue) }
{
    desk.exact();
    legal_each(&desk.queues);
}

/// The actors that came back, and the gates that they passed.
fn returned_parts<B: TableName>(
    alloc: Global,
    returned: Vec<ReturnedActor<B>>,
) -> Result<(Vec<Actor<B>>, Vec<Gates>), NoMemory>
    ensures actors { IfOk result (λ parts. parts.0.items ≡ map returned_actor returned.items) }
    ensures gates { IfOk result (λ parts. parts.1.items ≡ map returned_gates returned.items) }
{
    let mut actors = Vec::new(alloc);
    let mut gates = Vec::new(alloc);
    for one in returned {
        let ReturnedActor {
            actor,
            gates: passed,
        } = one;
        actors.push(actor)?;
        gates.push(passed)?;
    }
    Ok((actors, gates))
}

/// Closes the locks, and brings the actors together over the desk that is left.
pub(crate) fn bring_together<B: TableName>(
    alloc: Global,
    pictures: Items<Picture>,
    locks: Locks<B>,
    all_returned: AllReturned<B>,
) -> Result<Joined<B>, NoMemory>
    requires first { IsFirst B.table locks all_returned.first }
    requires all { HasAll all_returned.first }
    requires ran { (run : RunOf B) × HasRun ⟦<ReadLease<B> as Lease>⟧ B.table run locks pictures all_returned }
    ensures together { BringsTogether ⟦<ReadLease<B> as Lease>⟧ B.table locks pictures all_returned result }
{
    let AllReturned { first, returned } = all_returned;
    let (actors, gates) = returned_parts(alloc, returned)?;
    let desk = locks.close(alloc, first)?;
    tell(&desk);
    Ok(Joined {
        actor_set: ActorSet::resume(pictures, actors, desk),
        gates,
    })
}
