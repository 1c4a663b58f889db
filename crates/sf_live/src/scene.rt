//! A whole live run: it is opened, its threads run and are joined, and rounds end it. `live` and
//! `live_queue` are what `sf_app` calls; they differ in how transactions arrive.
ghost use Rattle.std.specs.Prelude.{ℕ, List, [], ◌∷◌, true, false, Option};
ghost use Rattle.sf_live_compositor.specs.law_played.Played.{opening};
ghost use Rattle.sf_script_scene.specs.Scene.{SceneValue};
ghost use Rattle.sf_live_compositor.specs.sf_play_write.Writing.{Writes};
ghost use Rattle.sf_live_compositor.specs.sf_live_threads.Gates.{HavePassed};
ghost use Rattle.sf_live.specs.Openings.{MayStart};
ghost use Rattle.sf_live.specs.inner.Rounds.{EndsShown, HasShownSome, run_at};
ghost use Rattle.sf_live.specs.inner.Running.{EndsBegun, EndsOpened, MayRun};
ghost use Rattle.sf_live.specs.Runs.{LiveEnded, MayLive};

use crate::opening::{Opened, Turns, open};
use crate::resuming::{Resumed, go_on};
use crate::rounds::write_rounds;
use crate::running::run_threads;
use sf_base::Items;
use sf_io::{Gate, Sink};
use sf_live_compositor::{
    Compositor, Decider, Engine, Handler, ReadLease, RunFault, Screens, Shows, opening, write_made,
};
use sf_picture::Painted;
use sf_script_scene::{Pick, Scene, most_layers};
use sf_turns::{Stock, TableName, TurnSeat};
use std::sync::Wait;
use std::thread::Threads;

/// What a live run goes by besides its actors.
pub(crate) struct Setup<B: TableName> {
    /// What its vsyncs show.
    pub(crate) shows: Shows,
    /// Between two vsyncs, in nanoseconds.
    pub(crate) period: u64,
    /// The scene's order, which a live run does not follow.
    pub(crate) order: Items<Pick>,
    /// What decides in its vsyncs.
    pub(crate) handler: Handler<ReadLease<B>>,
}

/// Goes on by rounds with a run whose actors are together again, up to its end.
fn run_rounds<R: Threads + Wait + Sync, K: Sink, G: Gate, B: TableName>(
    engine: &Engine<R>,
    sink: &mut K,
    gate: &G,
    shows: &Shows,
    screens: Screens,
    run: Resumed<B>,
) -> Result<(), RunFault>
    requires gates { HavePassed run.player.play.actor_set.actors run.gates.items }
    requires shown { HasShownSome B.table shows.now (run_at K.taken K.faults sink.old screens run.player) }
    ensures { EndsShown B.table shows.now (run_at K.taken K.faults sink.old screens run.player) result (K.taken sink.new) (K.faults sink.new) }
{
    let mut screens = screens;
    let mut run = run;
    let written = write_rounds(engine, sink, shows, &mut screens, gate, &mut run);
    let Resumed { player, gates: _ } = run;
    player.finish();
    written
}

/// Runs a scene that is opened, and whose first record is written: in threads, and then by rounds.
fn run_opened<R: Threads + Wait + Sync, K: Sink, G: Gate + Sync, B: TableName + Send + Sync>(
    engine: &Engine<R>,
    sink: &mut K,
    gate: &G,
    setup: Setup<B>,
    opened: Opened<B>,
) -> Result<(), RunFault>
    requires may { MayStart B.table opened }
    requires starts { (scene : SceneValue) × (start : Option (List ℕ)) × MayRun B.table scene start (K.taken sink.old) setup opened }
    ensures { EndsOpened B.table setup opened result (K.taken sink.old) (K.taken sink.new) (K.faults sink.old) (K.faults sink.new) }
{
    let Setup {
        shows,
        period,
        order,
        handler,
    } = setup;
    let compositor = Compositor {
        alloc: engine.alloc,
        workers: engine.workers,
        period,
        shows,
        sink,
        screens: Screens::new(engine.alloc),
        due: None,
        decider: Decider { handler },
        vsyncs: 0,
        fault: None,
    };
    let (compositor, joined) = run_threads(engine.rt, engine.alloc, gate, opened, compositor);
    let Compositor {
        alloc: _,
        workers: _,
        period: _,
        shows,
        sink,
        screens,
        due,
        decider,
        vsyncs,
        fault: _,
    } = compositor;
    drop(due);
    match joined {
        Ok(joined) => {
            let handler = decider.into_handler();
            let resumed = go_on(engine.alloc, period, order, joined, handler, vsyncs);
            run_rounds(engine, sink, gate, &shows, screens, resumed)
        }
        Err(fault) => Err(fault),
    }
}

/// Runs a scene whose first record is written.
fn run_scene<R: Threads + Wait + Sync, K: Sink, G: Gate + Sync, B: TableName + Send + Sync>(
    engine: &Engine<R>,
    sink: &mut K,
    gate: &G,
    scene: Scene,
    turns: Turns,
    tells: bool,
) -> Result<(), RunFault>
    requires may { MayLive B.table scene turns.seat turns.stock }
    requires begun { (start : Option (List ℕ)) × Writes start (K.taken sink.old) (opening scene ∷ []) }
    ensures { EndsBegun tells scene result (K.taken sink.old) (K.taken sink.new) (K.faults sink.old) (K.faults sink.new) }
{
    let Ok(shows) = Shows::of_scene(engine.alloc, &scene) else {
        return Err(RunFault::NoMemory);
    };
    let Scene {
        version,
        width,
        height,
        period,
        queues,
        pictures,
        actors,
        order,
        ..
    } = scene;
    let Ok(opened) = open::<B>(
        engine.alloc,
        queues.as_slice(),
        pictures,
        actors,
        turns,
        tells,
    ) else {
        return Err(RunFault::NoMemory);
    };
    let Ok(handler) = Handler::<ReadLease<B>>::with_limit(
        engine.alloc,
        width,
        height,
        most_layers(version),
    ) else {
        return Err(RunFault::NoMemory);
    };
    let setup = Setup {
        shows,
        period,
        order,
        handler,
    };
    run_opened(engine, sink, gate, setup, opened)
}

/// Runs a scene live, where senders learn their places, or send through an intake.
fn live_by<R: Threads + Wait + Sync, K: Sink, G: Gate + Sync, B: TableName + Send + Sync>(
    engine: &Engine<R>,
    sink: &mut K,
    gate: &G,
    scene: Scene,
    turns: Turns,
    tells: bool,
) -> Result<(), RunFault>
    requires { MayLive B.table scene turns.seat turns.stock }
    ensures { LiveEnded tells scene result (K.taken sink.old) (K.taken sink.new) (K.faults sink.old) (K.faults sink.new) }
{
    match write_made(engine.alloc, sink, Ok(opening(&scene))) {
        Ok(()) => {}
        Err(fault) => return Err(fault),
    }
    run_scene::<R, K, G, B>(engine, sink, gate, scene, turns, tells)
}

/// Runs a scene with each actor in a thread of its own, over buffers of the table that B names, and
/// writes the records of the run: those of vsyncs as they come, and behind them the replies, by
/// actor and step. The gate is passed once for each step, before its first try. The workers of the
/// engine compose each frame. It takes the seat and the whole stock of the turns, with a permit for
/// each dequeue. After a fault of the sink, or running out of memory, the sink has a prefix of the
/// scene's record and whole vsyncs, or, once all vsyncs are written, of all records of the run.
pub fn live<R: Threads + Wait + Sync, K: Sink, G: Gate + Sync, B: TableName + Send + Sync>(
    engine: &Engine<R>,
    sink: &mut K,
    gate: &G,
    scene: Scene,
    seat: TurnSeat<Painted>,
    stock: Stock<Painted>,
) -> Result<(), RunFault>
    requires { MayLive B.table scene seat stock }
    ensures { LiveEnded true scene result (K.taken sink.old) (K.taken sink.new) (K.faults sink.old) (K.faults sink.new) }
{
    live_by::<R, K, G, B>(engine, sink, gate, scene, Turns { seat, stock }, true)
}

/// The same, where transactions arrive through a queue that takes them without a lock: their sender
/// does not learn their place, and the reply to each `apply` that sends one has the value 0.
pub fn live_queue<R: Threads + Wait + Sync, K: Sink, G: Gate + Sync, B: TableName + Send + Sync>(
    engine: &Engine<R>,
    sink: &mut K,
    gate: &G,
    scene: Scene,
    seat: TurnSeat<Painted>,
    stock: Stock<Painted>,
) -> Result<(), RunFault>
    requires { MayLive B.table scene seat stock }
    ensures { LiveEnded false scene result (K.taken sink.old) (K.taken sink.new) (K.faults sink.old) (K.faults sink.new) }
{
    live_by::<R, K, G, B>(engine, sink, gate, scene, Turns { seat, stock }, false)
}
