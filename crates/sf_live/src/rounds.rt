//! The end of a live run, on one thread: rounds up to the first in which nothing is done, with a
//! gate before each step, then the replies to all steps and the records that end the run.
ghost use Rattle.std.specs.Prelude.{◌≡◌, ◌<◌, ◌≤◌, ◌++◌, true, All, IfOk, OnOk, length, map};
ghost use Rattle.sf_live.specs.inner.Rounds.{
  ActionEnded,
  EndsShown,
  HasShownSome,
  MayWriteAction,
  NextEnded,
  PassesFor,
  RoundsEnded,
  all_reply_records,
  run_at,
};
ghost use Rattle.sf_live_compositor.specs.sf_play.Going.{fuel_of};
ghost use Rattle.sf_live_compositor.specs.sf_play.Players.{home_in};
ghost use Rattle.sf_live_compositor.specs.sf_play.Actions.{next_tried};
ghost use Rattle.sf_live_compositor.specs.sf_record.declared.record.Record.TheVariants as rec;
ghost use Rattle.sf_live_compositor.specs.law_played.Replies.{reply_shown};
ghost use Rattle.sf_script_scene.specs.Scene.{SceneValue};
ghost use Rattle.sf_live_compositor.specs.sf_play_write.Closings.{closing_of};
ghost use Rattle.sf_live_compositor.specs.sf_play_write.Writing.{Wrote};
ghost use Rattle.sf_live_compositor.specs.sf_actor_steps.declared.actor.Actor.{Actor as ActorIn};
ghost use Rattle.sf_live_compositor.specs.sf_live_threads.Gates.{HavePassed};

use crate::resuming::Resumed;
use sf_io::{Gate, Sink};
use sf_live_compositor::{
    Action, Actor, Engine, Gates, Player, Reply, RunFault, Screens, Shows, reply_record,
    show_vsync, write_closing, write_made,
};
use sf_turns::TableName;
use std::alloc::Global;
use std::sync::Wait;
use std::thread::Threads;

/// Before the step that the next action tries, the gate is passed for its actor, once for each step.
#[tactic(auto, using(crate::proofs::GateLemmas::as_many))]
fn pass_gate<R: Wait, G: Gate, B: TableName>(
    rt: &R,
    gate: &G,
    gates: &mut [Gates],
    player: &Player<B>,
)
    requires few { All (λ (actor : ActorIn B). length actor.script.steps ≤ 4294967295) player.now.play.actor_set.actors }
    requires gates { HavePassed player.now.play.actor_set.actors gates.old }
    ensures passed { PassesFor (next_tried player.now) player.now.play.actor_set.actors gates.old gates.new }
{
    if let Some(place) = player.next_actor() {
        gates[place] = gates[place].ready(rt, gate, &player.actor_set().actors()[place]);
    }
}

/// Writes the records of an action, if it is a vsync.
fn write_action<R: Threads + Sync, K: Sink, B: TableName>(
    engine: &Engine<R>,
    sink: &mut K,
    shows: &Shows,
    screens: &mut Screens,
    player: &Player<B>,
    action: Action,
) -> Result<(), RunFault>
    requires timelines { All (λ timeline. (1 ≤ timeline) × (timeline ≤ 64)) shows.now.timelines.items }
    requires may { (scene : SceneValue) × MayWriteAction scene shows.now.plan action player.now }
    ensures { ActionEnded shows.now action (run_at K.taken K.faults sink.old screens.old player.now)
        (run_at K.taken K.faults sink.new screens.new player.now) result }
{
    match action {
        Action::Vsync(report) => show_vsync(
            engine,
            sink,
            shows,
            screens,
            player.handler(),
            report.into_report(),
        ),
        Action::Step(_) | Action::Idle | Action::End => Ok(()),
    }
}

/// Does the next action of a run, for which its gate is passed before, and writes the records of its
/// vsync; whether it was not the end.
fn show_action<R: Threads + Wait + Sync, K: Sink, G: Gate, B: TableName>(
    engine: &Engine<R>,
    sink: &mut K,
    shows: &Shows,
    screens: &mut Screens,
    gate: &G,
    run: &mut Resumed<B>,
) -> Result<bool, RunFault>
    requires gates { HavePassed run.old.player.play.actor_set.actors run.old.gates.items }
    requires shown { HasShownSome B.table shows.now (run_at K.taken K.faults sink.old screens.old run.old.player) }
    ensures ended { NextEnded B.table shows.now (run_at K.taken K.faults sink.old screens.old run.old.player)
        (run_at K.taken K.faults sink.new screens.new run.new.player) result }
    ensures gates { IfOk result (λ _. HavePassed run.new.player.play.actor_set.actors run.new.gates.items) }
    ensures less { IfOk result (λ goes_on. goes_on ≡ true → fuel_of run.new.player < fuel_of run.old.player) }
    ensures told { IfOk result (λ _. (home_in run.new.player.play).tells ≡ (home_in run.old.player.play).tells) }
{
    pass_gate(engine.rt, gate, &mut run.gates, &run.player);
    let action = match run.player.next() {
        Ok(action) => action,
        Err(_) => return Err(RunFault::NoMemory),
    };
    let goes_on = !action.is_end();
    match write_action(engine, sink, shows, screens, &run.player, action) {
        Ok(()) => Ok(goes_on),
        Err(fault) => Err(fault),
    }
}

/// Does the rounds of a run up to its end, and writes their vsyncs.
fn show_rounds<R: Threads + Wait + Sync, K: Sink, G: Gate, B: TableName>(
    engine: &Engine<R>,
    sink: &mut K,
    shows: &Shows,
    screens: &mut Screens,
    gate: &G,
    run: &mut Resumed<B>,
) -> Result<(), RunFault>
    requires gates { HavePassed run.old.player.play.actor_set.actors run.old.gates.items }
    requires shown { HasShownSome B.table shows.now (run_at K.taken K.faults sink.old screens.old run.old.player) }
    ensures ended { RoundsEnded B.table shows.now (run_at K.taken K.faults sink.old screens.old run.old.player)
        (run_at K.taken K.faults sink.new screens.new run.new.player) result }
    ensures told { OnOk result ((home_in run.new.player.play).tells ≡ (home_in run.old.player.play).tells) }
{
    'actions: loop {
        match show_action(engine, sink, shows, screens, gate, run) {
            Ok(true) => {}
            Ok(false) => return Ok(()),
            Err(fault) => return Err(fault),
        }
    }
}

/// Writes the records of replies, one after another.
fn write_each_reply<K: Sink>(alloc: Global, sink: &mut K, replies: &[Reply]) -> Result<(), RunFault>
    ensures { Wrote K.taken K.faults sink.old sink.new result (map rec.Repl (map reply_shown replies.now)) }
{
    for reply in replies {
        match write_made(alloc, sink, reply_record(alloc, reply)) {
            Ok(()) => {}
            Err(fault) => return Err(fault),
        }
    }
    Ok(())
}

/// Writes the records of the replies to all steps, by actor and step.
fn write_replies<K: Sink, B: TableName>(
    alloc: Global,
    sink: &mut K,
    actors: &[Actor<B>],
) -> Result<(), RunFault>
    ensures { Wrote K.taken K.faults sink.old sink.new result (all_reply_records actors.now) }
{
    for actor in actors {
        match write_each_reply(alloc, sink, actor.replies()) {
            Ok(()) => {}
            Err(fault) => return Err(fault),
        }
    }
    Ok(())
}

/// Writes what follows the last vsync of a run: the replies to all steps, and the records that end it.
fn write_rest<K: Sink, B: TableName>(
    alloc: Global,
    sink: &mut K,
    player: &Player<B>,
) -> Result<(), RunFault>
    requires { All (λ (actor : ActorIn B). length actor.script.steps ≤ 4294967295) player.now.play.actor_set.actors }
    ensures { Wrote K.taken K.faults sink.old sink.new result (all_reply_records player.now.play.actor_set.actors ++ closing_of player.now) }
{
    match write_replies(alloc, sink, player.actor_set().actors()) {
        Ok(()) => {}
        Err(fault) => return Err(fault),
    }
    write_closing(alloc, sink, player)
}

/// Does the rounds of a run that a player goes on with, up to its end. Each vsync is written as it
/// comes, behind those that were written before; behind the last one come the replies to all steps,
/// by actor and step, and the records that end the run. After a fault of the sink, or running out
/// of memory, the sink has a prefix of these.
pub(crate) fn write_rounds<R: Threads + Wait + Sync, K: Sink, G: Gate, B: TableName>(
    engine: &Engine<R>,
    sink: &mut K,
    shows: &Shows,
    screens: &mut Screens,
    gate: &G,
    run: &mut Resumed<B>,
) -> Result<(), RunFault>
    requires gates { HavePassed run.old.player.play.actor_set.actors run.old.gates.items }
    requires shown { HasShownSome B.table shows.now (run_at K.taken K.faults sink.old screens.old run.old.player) }
    ensures { EndsShown B.table shows.now (run_at K.taken K.faults sink.old screens.old run.old.player) result (K.taken sink.new) (K.faults sink.new) }
{
    match show_rounds(engine, sink, shows, screens, gate, run) {
        Ok(()) => {}
        Err(fault) => return Err(fault),
    }
    write_rest(engine.alloc, sink, &run.player)
}
