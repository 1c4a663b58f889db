//! Actors for which no thread could be started: they stay with the starter, which tries their steps
//! between its visits.
ghost use Rattle.std.specs.Prelude.{IfSome};
ghost use Rattle.std.specs.List.{AllByRecursion, AllZip};
ghost use Rattle.sf_live_threads.specs.declared.seated_actor.SeatedActor.{SeatedActor as SeatedActorIn};
ghost use Rattle.sf_live_threads.specs.Backs.{IfWhole, IsFit};
ghost use Rattle.sf_live_threads.specs.inner.Tasks.{IsFitTask, Stays};

use crate::pacing::Pacing;
use crate::seated_actor::Back;
use crate::task::Task;
use crate::try_next::try_next;
use sf_actor_steps::Stepped;
use sf_io::Gate;
use sf_live_seats::Locks;
use sf_picture::Picture;
use sf_turns::TableName;
use std::sync::Wait;

/// What is here of a seated actor has one try of its next step, unless it found no memory.
fn try_back<R: Wait, G: Gate, B: TableName>(
    pacing: &Pacing<R, G>,
    locks: &Locks<B>,
    pictures: &[Picture],
    back: Back<B>,
) -> Back<B>
    requires { IsFit B.table locks.now pictures.now back }
    ensures fit { IsFit B.table locks.now pictures.now result }
    ensures same { (sent : SeatedActorIn B) → IfWhole B.table locks.now pictures.now sent back → IfWhole B.table locks.now pictures.now sent result }
{
    let seated_actor = match back {
        Back::Spent(seated_actor) => return Back::Spent(seated_actor),
        Back::Whole(seated_actor) => seated_actor,
    };
    let (seated_actor, stepped, noted) = try_next(pacing, locks, pictures, seated_actor);
    match stepped {
        Ok(Stepped::Done) => {
            pacing.watch.tell_done(pacing.rt, noted.effect());
            Back::Whole(seated_actor)
        }
        Ok(Stepped::NotYet | Stepped::Ended) => Back::Whole(seated_actor),
        Err(_) => {
            pacing.watch.stop();
            Back::Spent(seated_actor)
        }
    }
}

/// A seated actor that is here has one try of its next step.
fn try_one<'s, R: Wait, G: Gate, B: TableName>(
    pacing: &Pacing<R, G>,
    locks: &Locks<B>,
    pictures: &[Picture],
    task: Task<'s, B>,
) -> Task<'s, B>
    requires { IsFitTask B.table locks.now pictures.now task }
    ensures { Stays B.table locks.now pictures.now task.entry result }
{
    match task {
        Task::Away(handle) => Task::Away(handle),
        Task::Here(back) => Task::Here(try_back(pacing, locks, pictures, back)),
    }
}

/// Each seated actor that is here has one try. Where none is, nothing is done.
pub(crate) fn try_here<'s, R: Wait, G: Gate, B: TableName>(
    pacing: &Pacing<R, G>,
    locks: &Locks<B>,
    pictures: &[Picture],
    tasks: Vec<Task<'s, B>>,
) -> Option<Vec<Task<'s, B>>>
    requires { AllByRecursion (IsFitTask B.table locks.now pictures.now) tasks.items }
    ensures { IfSome result (λ tried. AllZip (Stays B.table locks.now pictures.now) tasks.entry.items tried.items) }
{
    if tasks.iter().all(|task| matches!(task, Task::Away(_))) {
        return Some(tasks);
    }
    let mut tried = Vec::new(pacing.alloc);
    for task in tasks {
        let task = try_one(pacing, locks, pictures, task);
        if tried.push(task).is_err() {
            return None;
        }
    }
    Some(tried)
}
