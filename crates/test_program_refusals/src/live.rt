//! Live runs, with and without a queue of arrivals.
ghost use Rattle.std.specs.Prelude.{true, false, OnOk};
ghost use Rattle.sf_app.specs.sf_live.Runs.{MayLive, WroteLive};

use sf_app::{Engine, RunFault, Scene, Stock, TableName, TurnSeat, live_by_lock, live_by_queue};
use sf_io::{Gate, Sink};
use sf_picture::Painted;
use std::sync::Wait;
use std::thread::Threads;

/// A live run that is whole has written records that mean what such a run of its scene means.
pub fn live_means<R: Threads + Wait + Sync, K: Sink, G: Gate + Sync, B: TableName + Send + Sync>(
    engine: &Engine<R>,
    sink: &mut K,
    gate: &G,
    scene: Scene,
    seat: TurnSeat<Painted>,
    stock: Stock<Painted>,
) -> Result<(), RunFault>
    requires { MayLive B.table scene seat stock }
    ensures ok { OnOk result (WroteLive true scene (K.taken sink.old) (K.taken sink.new)) }
{
    live_by_lock::<R, K, G, B>(engine, sink, gate, scene, seat, stock)
}

/// So has one whose transactions arrive through a queue, where no sender learns its place.
pub fn live_queue_means<
    R: Threads + Wait + Sync,
    K: Sink,
    G: Gate + Sync,
    B: TableName + Send + Sync,
>(
    engine: &Engine<R>,
    sink: &mut K,
    gate: &G,
    scene: Scene,
    seat: TurnSeat<Painted>,
    stock: Stock<Painted>,
) -> Result<(), RunFault>
    requires { MayLive B.table scene seat stock }
    ensures ok { OnOk result (WroteLive false scene (K.taken sink.old) (K.taken sink.new)) }
{
    live_by_queue::<R, K, G, B>(engine, sink, gate, scene, seat, stock)
}
