//! What ends the records of a run, behind its last vsync: what arrived, the history of each queue,
//! what is held, who is stuck, and that nothing more comes. Plays and live runs write it alike.
ghost use Rattle.std.specs.Prelude.{◌≡◌, ◌≤◌, ◌∷◌, ◌++◌, [], All, IfOk, OnOk, length, map, option_to_list};
ghost use Rattle.sf_play.specs.sf_record.declared.record.Record.TheVariants as rec;
ghost use Rattle.sf_play.specs.law_played.Progress.{held_shown};
ghost use Rattle.sf_play.specs.sf_play_report.Closings.{history_of};
ghost use Rattle.sf_play_write.specs.Closings.{closing_of, stuck_at, stuck_entry};
ghost use Rattle.sf_play_write.specs.Writing.{Wrote};
ghost use Rattle.sf_play.specs.sf_actor_steps.declared.actor.Actor.{Actor as ActorIn};

use crate::writing::write_made;
use sf_base::{Items, NoMemory};
use sf_io::Sink;
use sf_play::{
    Actor, Hold, Player, QueueObject, Record, RunFault, StuckEntry, TableName, arrivals_record,
    held_record, history_record,
};
use std::alloc::Global;

/// An actor that has not done all its steps, with its next one.
fn stuck_entry<B: TableName>(actor: &Actor<B>) -> Option<StuckEntry>
    requires { length actor.now.script.steps ≤ 4294967295 }
    ensures { result ≡ stuck_entry actor.now }
{
    if actor.is_ended() {
        return None;
    }
    Some(StuckEntry {
        actor: actor.number(),
        step: actor.replies().len() as u32 + 1,
    })
}

/// Adds the entry of an actor that has not done all its steps.
fn push_stuck<B: TableName>(list: &mut Vec<StuckEntry>, actor: &Actor<B>) -> Result<(), NoMemory>
    requires { length actor.now.script.steps ≤ 4294967295 }
    ensures { OnOk result (list.new.items ≡ list.old.items ++ option_to_list (stuck_entry actor.now)) }
{
    match stuck_entry(actor) {
        Some(entry) => {
            list.push(entry)?;
            Ok(())
        }
        None => Ok(()),
    }
}

/// The record of who is stuck.
fn stuck_record<B: TableName>(alloc: Global, actors: &[Actor<B>]) -> Result<Record, NoMemory>
    requires { All (λ (actor : ActorIn B). length actor.script.steps ≤ 4294967295) actors.now }
    ensures { IfOk result (λ written. written ≡ rec.Stuk (stuck_at actors.now)) }
{
    let mut list = Vec::new(alloc);
    for actor in actors {
        push_stuck(&mut list, actor)?;
    }
    Ok(Record::Stuk(Items::new(list)))
}

/// Writes the records of the histories of queues.
fn write_histories<K: Sink, B: TableName>(
    alloc: Global,
    sink: &mut K,
    queues: &[QueueObject<B>],
) -> Result<(), RunFault>
    ensures { Wrote K.taken K.faults sink.old sink.new result (map rec.Hist (map history_of queues.now)) }
{
    for queue in queues {
        let made = history_record(alloc, queue);
        match write_made(alloc, sink, made) {
            Ok(()) => {}
            Err(fault) => return Err(fault),
        }
    }
    Ok(())
}

/// Writes what follows the histories: what is held, who is stuck, and that nothing more comes.
fn write_rest<K: Sink, B: TableName>(
    alloc: Global,
    sink: &mut K,
    held: &[(u32, Hold)],
    actors: &[Actor<B>],
) -> Result<(), RunFault>
    requires { All (λ (actor : ActorIn B). length actor.script.steps ≤ 4294967295) actors.now }
    ensures { Wrote K.taken K.faults sink.old sink.new result (rec.Hold (map held_shown held.now) ∷ rec.Stuk (stuck_at actors.now) ∷ rec.Done ∷ []) }
{
    match write_made(alloc, sink, held_record(alloc, held)) {
        Ok(()) => {}
        Err(fault) => return Err(fault),
    }
    match write_made(alloc, sink, stuck_record(alloc, actors)) {
        Ok(()) => {}
        Err(fault) => return Err(fault),
    }
    write_made(alloc, sink, Ok(Record::Done))
}

/// Writes the records that end a play: what arrived, the history of each queue, what is held and who
/// is stuck.
pub fn write_closing<K: Sink, B: TableName>(
    alloc: Global,
    sink: &mut K,
    player: &Player<B>,
) -> Result<(), RunFault>
    requires { All (λ (actor : ActorIn B). length actor.script.steps ≤ 4294967295) player.now.play.actor_set.actors }
    ensures { Wrote K.taken K.faults sink.old sink.new result (closing_of player.now) }
{
    let actor_set = player.actor_set();
    let desk = actor_set.desk();
    match write_made(alloc, sink, arrivals_record(alloc, desk.arrivals.entries())) {
        Ok(()) => {}
        Err(fault) => return Err(fault),
    }
    match write_histories(alloc, sink, desk.queues.as_slice()) {
        Ok(()) => {}
        Err(fault) => return Err(fault),
    }
    write_rest(alloc, sink, player.held(), actor_set.actors())
}
