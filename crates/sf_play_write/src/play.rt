//! A whole play: the record that it begins with, one action of the player after another with the
//! records of what it did, and the records that end it. It is what `sf_app` calls for a scene that
//! is played on one thread.
ghost use Rattle.std.specs.Prelude.{◌≡◌, ◌≤◌, [], All, true};
ghost use Rattle.sf_play.specs.sf_actor_set.Scripts.{permits_of};
ghost use Rattle.sf_play.specs.law_played.Frames.{plan_of};
ghost use Rattle.sf_play.specs.law_played.Played.{opening};
ghost use Rattle.sf_play.specs.sf_script_scene.Scene.{SceneValue};
ghost use Rattle.sf_play_write.specs.Runs.{PlayEnded};
ghost use Rattle.sf_play_write.specs.inner.Rows.{ActionEnded, IsReady, MayShowAction, newest_shown};
ghost use Rattle.sf_play_write.specs.Writing.{Wrote};
ghost use Rattle.sf_play.specs.sf_turns.Counts.{range};

use crate::closing::write_closing;
use crate::shows::Shows;
use crate::vsync::show_vsync;
use crate::writing::write_made;
use sf_io::Sink;
use sf_output_screen::{Engine, Painted, Screens};
use sf_play::{
    Action, Player, Record, Reply, RunFault, Scene, SceneHeader, Stock, TableName, TurnSeat,
    reply_record,
};
use std::alloc::Global;
use std::thread::Threads;

/// The record that a play begins with.
pub fn opening(scene: &Scene) -> Record
    ensures { result ≡ opening scene.now }
{
    Record::Scen(SceneHeader {
        version: scene.version,
        width: scene.width,
        height: scene.height,
        period: scene.period,
    })
}

/// Writes the record of the newest of these replies, if there is one.
fn write_newest<K: Sink>(alloc: Global, sink: &mut K, replies: &[Reply]) -> Result<(), RunFault>
    ensures { Wrote K.taken K.faults sink.old sink.new result (newest_shown replies.now) }
{
    match replies {
        [.., newest] => write_made(alloc, sink, reply_record(alloc, newest)),
        [] => Ok(()),
    }
}

/// Writes what an action shows: the reply to a step, or what a vsync committed, with what it shows.
fn write_action<R: Threads + Sync, K: Sink, B: TableName>(
    engine: &Engine<R>,
    sink: &mut K,
    shows: &Shows,
    screens: &mut Screens,
    player: &Player<B>,
    action: Action,
) -> Result<(), RunFault>
    requires timelines { All (λ timeline. (1 ≤ timeline) × (timeline ≤ 64)) shows.now.timelines.items }
    requires may { (scene : SceneValue) × (shows.now.plan ≡ plan_of scene) × MayShowAction scene action player.now }
    ensures { ActionEnded K.taken K.faults shows.now player.now action (sink.old, screens.old) (sink.new, screens.new) result }
{
    match action {
        Action::Step(place) => write_newest(
            engine.alloc,
            sink,
            player.actor_set().actors()[place].replies(),
        ),
        Action::Vsync(report) => show_vsync(
            engine,
            sink,
            shows,
            screens,
            player.handler(),
            report.into_report(),
        ),
        Action::Idle => Ok(()),
        Action::End => Ok(()),
    }
}

/// Writes the record that a play begins with, does its actions up to its end, each with the records of
/// what it shows, and writes its closing records.
fn write_play<R: Threads + Sync, K: Sink, B: TableName>(
    engine: &Engine<R>,
    sink: &mut K,
    first: Record,
    shows: &Shows,
    player: &mut Player<B>,
) -> Result<(), RunFault>
    requires ready { (scene : SceneValue) × IsReady B.table scene shows.now first player.old }
    ensures { (scene : SceneValue) → IsReady B.table scene shows.now first player.old
        → PlayEnded K.taken K.faults sink.old sink.new result scene }
{
    match write_made(engine.alloc, sink, Ok(first)) {
        Ok(()) => {}
        Err(fault) => return Err(fault),
    }
    let mut screens = Screens::new(engine.alloc);
    'actions: loop {
        let action = match player.next() {
            Ok(action) => action,
            Err(_) => return Err(RunFault::NoMemory),
        };
        let is_last = action.is_end();
        match write_action(engine, sink, shows, &mut screens, player, action) {
            Ok(()) => {}
            Err(fault) => return Err(fault),
        }
        if is_last {
            return write_closing(engine.alloc, sink, player);
        }
    }
}

/// Plays a scene over buffers of the table that B names, and writes the records of its play. The
/// workers of the engine compose each frame; the records are those of the scene, whatever their
/// number is. It takes the seat and the whole stock of the turns, with a permit for each dequeue.
/// After a fault of the sink, or running out of memory, the sink has a prefix of these records.
pub fn show_play<R: Threads + Sync, K: Sink, B: TableName>(
    engine: &Engine<R>,
    sink: &mut K,
    scene: Scene,
    seat: TurnSeat<Painted>,
    stock: Stock<Painted>,
) -> Result<(), RunFault>
    requires own { (seat.table ≡ B.table) × (stock.table ≡ B.table) }
    requires first { (seat.is_first ≡ true) × (seat.out ≡ 0) }
    requires fresh { seat.leaves ≡ [] }
    requires whole { stock.buffers ≡ range 0 (permits_of scene.actors) }
    requires sized { permits_of scene.actors ≤ B.table.slots }
    ensures { PlayEnded K.taken K.faults sink.old sink.new result scene }
{
    let shows = match Shows::of_scene(engine.alloc, &scene) {
        Ok(shows) => shows,
        Err(_) => return Err(RunFault::NoMemory),
    };
    let first = opening(&scene);
    match Player::<B>::new(engine.alloc, scene, seat, stock) {
        Ok(mut player) => {
            let written = write_play(engine, sink, first, &shows, &mut player);
            player.finish();
            written
        }
        Err(_) => Err(RunFault::NoMemory),
    }
}
