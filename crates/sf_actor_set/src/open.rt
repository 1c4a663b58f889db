//! How a scene's queues and actors are begun, by rising number, each actor with its share of the
//! permits.
ghost use Rattle.std.specs.Prelude.{◌≡◌, ◌≤◌, length, map, take, drop, All, IfOk};
ghost use Rattle.std.specs.List.{AllZip};
ghost use Rattle.sf_actor_steps.specs.sf_script_scene.Ranges.{IsQueue};
ghost use Rattle.sf_actor_steps.specs.sf_script_scene.declared.step.ActorScript.{ActorScript as Script};
ghost use Rattle.sf_actor_steps.specs.sf_script_scene.declared.declarations.QueueDecl.{QueueDecl as Decl};
ghost use Rattle.sf_actor_steps.specs.sf_actor.Tries.{dequeues_in};
ghost use Rattle.sf_actor_steps.specs.Actors.{IsActor, new_actor};
ghost use Rattle.sf_actor_set.specs.Opening.{IsSortedFrom, OpensActors, OpensQueues, new_actors, new_queue};
ghost use Rattle.sf_actor_set.specs.Scripts.{permits_of};

use crate::permits::dequeues;
use sf_actor_steps::{Actor, ActorScript, QueueDecl, QueueObject, Stock, TableName};
use sf_base::{NoMemory, QueueId};
use sf_commit::Painted;
use std::alloc::Global;

/// The declared queues by rising number.
fn rising_queues(alloc: Global, queues: &[QueueDecl]) -> Result<Vec<QueueDecl>, NoMemory>
    ensures { IfOk result (λ rising. IsSortedFrom (λ (queue : Decl). queue.number) queues.now rising.items) }
{
    let mut rising = Vec::new(alloc);
    rising.extend_from_slice(queues)?;
    rising.sort_by_key(|queue| queue.number)?;
    Ok(rising)
}

/// These queues, without calls.
fn open_each<B: TableName>(
    alloc: Global,
    queues: &[QueueDecl],
) -> Result<Vec<QueueObject<B>>, NoMemory>
    requires sizes { All IsQueue queues.now }
    ensures { IfOk result (λ objects. objects.items ≡ map new_queue queues.now) }
{
    let mut objects = Vec::new(alloc);
    for queue in queues {
        let number = QueueId(queue.number);
        objects.push(QueueObject::new(alloc, number, queue.width, queue.height)?)?;
    }
    Ok(objects)
}

/// The declared queues without calls, by rising number.
pub fn open_queues<B: TableName>(
    alloc: Global,
    queues: &[QueueDecl],
) -> Result<Vec<QueueObject<B>>, NoMemory>
    requires sizes { All IsQueue queues.now }
    ensures { IfOk result (λ objects. OpensQueues queues.now objects.items) }
{
    let rising = rising_queues(alloc, queues)?;
    open_each(alloc, &rising)
}

/// The scripts by rising number.
fn rising_scripts(scripts: Vec<ActorScript>) -> Result<Vec<ActorScript>, NoMemory>
    ensures { IfOk result (λ rising. IsSortedFrom (λ (script : Script). script.number) scripts.items rising.items) }
{
    let mut rising = scripts;
    rising.sort_by_key(|script| script.number)?;
    Ok(rising)
}

/// An actor that has done nothing, with a permit for each of its dequeues.
fn open_actor<B: TableName>(
    alloc: Global,
    script: ActorScript,
    stock: &mut Stock<Painted>,
) -> Result<Actor<B>, NoMemory>
    requires own { stock.old.table ≡ B.table }
    requires few { length script.steps ≤ 4096 }
    requires enough { dequeues_in script.steps ≤ length stock.old.buffers }
    ensures actor { IfOk result (λ actor. IsActor B.table actor (new_actor script (take (dequeues_in script.steps) stock.old.buffers))) }
    ensures rest { IfOk result (λ _. stock.new ≡ record stock.old { buffers = drop (dequeues_in script.steps) stock.old.buffers }) }
{
    let share = stock.cut(dequeues(script.steps.as_slice()) as u32)?;
    match Actor::new(alloc, script, share) {
        Ok(actor) => Ok(actor),
        Err(_) => Err(NoMemory),
    }
}

/// An actor for each script, each with its share of the stock.
fn open_each_actor<B: TableName>(
    alloc: Global,
    scripts: Vec<ActorScript>,
    stock: &mut Stock<Painted>,
) -> Result<Vec<Actor<B>>, NoMemory>
    requires own { stock.old.table ≡ B.table }
    requires few { All (λ (script : Script). length script.steps ≤ 4096) scripts.items }
    requires enough { permits_of scripts.items ≤ length stock.old.buffers }
    ensures { IfOk result (λ actors. AllZip (IsActor B.table) actors.items (new_actors scripts.items stock.old.buffers)) }
{
    let mut actors = Vec::new(alloc);
    for script in scripts {
        actors.push(open_actor(alloc, script, stock)?)?;
    }
    Ok(actors)
}

/// The actors, by rising number, each with its share of the stock.
pub fn open_actors<B: TableName>(
    alloc: Global,
    scripts: Vec<ActorScript>,
    stock: Stock<Painted>,
) -> Result<Vec<Actor<B>>, NoMemory>
    requires own { stock.table ≡ B.table }
    requires few { All (λ (script : Script). length script.steps ≤ 4096) scripts.items }
    requires enough { permits_of scripts.items ≤ length stock.buffers }
    ensures { IfOk result (λ actors. OpensActors B.table scripts.items stock.buffers actors.items) }
{
    let rising = rising_scripts(scripts)?;
    let mut stock = stock;
    open_each_actor(alloc, rising, &mut stock)
}
