//! The step from the command to a play: it opens the table of turns, and hands the scene to
//! `sf_play_write`.
ghost use Rattle.sf_live.specs.sf_play_write.Runs.{PlayEnded};

use crate::turns::turns_for;
use sf_base::NoMemory;
use sf_io::Sink;
use sf_live::{Engine, show_play};
use sf_record_sums::RunFault;
use sf_script_scene::Scene;
use std::marker::Brand;
use std::thread::Threads;

/// Plays a scene, and writes the records of its play. They are the same for every number of workers.
pub fn play<R: Threads + Sync, K: Sink>(
    engine: &Engine<R>,
    sink: &mut K,
    scene: Scene,
) -> Result<(), RunFault>
    ensures { PlayEnded K.taken K.faults sink.old sink.new result scene }
{
    match turns_for(engine.alloc, &scene) {
        Ok((seat, stock)) => show_play::<R, K, Brand>(engine, sink, scene, seat, stock),
        Err(NoMemory) => Err(RunFault::NoMemory),
    }
}
