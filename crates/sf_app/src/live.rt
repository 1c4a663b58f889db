//! The step from the command to a live run: it opens the table of turns, and hands the scene to
//! `sf_live`.
ghost use Rattle.std.specs.Prelude.{not};
ghost use Rattle.sf_live.specs.Runs.{LiveEnded};
ghost use Rattle.sf_app_options.specs.Options.{is_queue};

use crate::turns::turns_for;
use sf_app_options::Intake;
use sf_base::NoMemory;
use sf_io::{Gate, Sink};
use sf_live::Engine;
use sf_record_sums::RunFault;
use sf_script_scene::Scene;
use std::marker::Brand;
use std::sync::Wait;
use std::thread::Threads;

/// Plays a scene live, each actor in a thread of its own with its gate before each step, and writes
/// the records of that run; transactions arrive under a lock or through a queue.
/// It may wait for the actors' threads.
pub fn live<R: Threads + Wait + Sync, K: Sink, G: Gate + Sync>(
    engine: &Engine<R>,
    sink: &mut K,
    gate: &G,
    scene: Scene,
    intake: Intake,
) -> Result<(), RunFault>
    ensures { LiveEnded (not (is_queue intake)) scene result (K.taken sink.old) (K.taken sink.new) (K.faults sink.old) (K.faults sink.new) }
{
    match turns_for(engine.alloc, &scene) {
        Ok((seat, stock)) => match intake {
            Intake::Lock => {
                sf_live::live::<R, K, G, Brand>(engine, sink, gate, scene, seat, stock)
            }
            Intake::Queue => sf_live::live_queue::<R, K, G, Brand>(
                engine, sink, gate, scene, seat, stock,
            ),
        },
        Err(NoMemory) => Err(RunFault::NoMemory),
    }
}
