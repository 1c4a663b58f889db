//! Starts a thread for each seated actor, and joins them. An actor whose thread can't be started
//! stays here.
ghost use Rattle.std.specs.Prelude.{◌<◌, ◌≤◌, length, IfSome};
ghost use Rattle.std.specs.List.{AllByRecursion, AllZip};
ghost use Rattle.sf_live_threads.specs.Backs.{IfWhole};
ghost use Rattle.sf_live_threads.specs.SeatedActors.{MayTryNext};
ghost use Rattle.sf_live_threads.specs.inner.Tasks.{AreTasks, Gives, GivesWhole, IsTask};

use crate::pacing::Pacing;
use crate::seated_actor::{Back, SeatedActor};
use crate::task::{Brings, Task};
use crate::work::work;
use sf_io::Gate;
use sf_live_seats::Locks;
use sf_picture::Picture;
use sf_turns::TableName;
use std::alloc::Global;
use std::snapshot::Snapshot;
use std::sync::Wait;
use std::thread::{Scope, Threads};

/// Starts a thread for a seated actor, or keeps it here where none can be started. `index` is the
/// actor's at the watch.
pub(crate) fn send<'s, E, R: Wait + Sync, G: Gate + Sync, B: TableName + Send + Sync + 's>(
    scope: &Scope<'s, E>,
    pacing: &'s Pacing<'s, R, G>,
    locks: &'s Locks<B>,
    pictures: &'s [Picture],
    index: usize,
    seated_actor: SeatedActor<B>,
) -> Task<'s, B>
    requires index { index < 64 }
    requires may_try_next { MayTryNext B.table locks.now pictures.now seated_actor }
    ensures { IsTask B.table locks.now pictures.now seated_actor result }
{
    let promise = Brings {
        locks,
        pictures,
        sent: Snapshot::of(&seated_actor),
    };
    let started = scope.spawn_with(
        promise,
        move || -> Back<B>
            requires index { index < 64 }
            requires may_try_next { MayTryNext B.table locks.now pictures.now seated_actor }
            ensures { IfWhole B.table locks.entry.now pictures.entry.now seated_actor result }
        { work(pacing, locks, pictures, index, seated_actor) },
    );
    match started {
        Ok(handle) => Task::Away(handle),
        Err(refused) => {
            pacing.watch.turn_away(pacing.rt, index);
            Task::Here((refused.value)())
        }
    }
}

/// Starts a thread for each seated actor.
pub(crate) fn send_all<'s, E, R: Wait + Sync, G: Gate + Sync, B: TableName + Send + Sync + 's>(
    scope: &Scope<'s, E>,
    pacing: &'s Pacing<'s, R, G>,
    locks: &'s Locks<B>,
    pictures: &'s [Picture],
    seated_actors: Vec<SeatedActor<B>>,
) -> Option<Vec<Task<'s, B>>>
    requires few { length seated_actors.items ≤ 64 }
    requires may_try_next { AllByRecursion (MayTryNext B.table locks.now pictures.now) seated_actors.items }
    ensures { IfSome result (λ tasks. AreTasks B.table locks.now pictures.now seated_actors.items tasks.items) }
{
    let mut tasks = Vec::new(pacing.alloc);
    for seated_actor in seated_actors {
        let index = tasks.len();
        let task = send(scope, pacing, locks, pictures, index, seated_actor);
        if tasks.push(task).is_err() {
            return None;
        }
    }
    Some(tasks)
}

/// What comes back of a seated actor.
pub(crate) fn back<R: Threads, B: TableName>(rt: &R, task: Task<B>) -> Back<B>
    ensures { Gives B.table task.entry result }
{
    match task {
        Task::Away(handle) => handle.join(rt),
        Task::Here(back) => back,
    }
}

/// Joins all threads. Nothing comes back where one found no memory.
pub(crate) fn bring_back<R: Threads, B: TableName>(
    rt: &R,
    alloc: Global,
    tasks: Vec<Task<B>>,
) -> Option<Vec<SeatedActor<B>>>
    ensures { IfSome result (λ seated_actors. AllZip (GivesWhole B.table) tasks.entry.items seated_actors.items) }
{
    let mut seated_actors = Vec::new(alloc);
    for task in tasks {
        let Back::Whole(seated_actor) = back(rt, task) else {
            return None;
        };
        if seated_actors.push(seated_actor).is_err() {
            return None;
        }
    }
    Some(seated_actors)
}
