//! A play whose records are summed up instead of written: they go into sums, of which one record is
//! written at the end.
ghost use Rattle.sf_app.specs.Shown.{SumEnded};

use crate::play::play;
use sf_io::Sink;
use sf_live::Engine;
use sf_record_sums::{Record, RunFault, Tally, write_record};
use sf_script_scene::Scene;
use std::thread::Threads;

/// Plays a scene into sums, and writes the one record of what the records of its play come to. Where
/// the play does not come to its end, nothing is written.
pub fn sum_up<R: Threads + Sync, K: Sink>(
    engine: &Engine<R>,
    sink: &mut K,
    scene: Scene,
) -> Result<(), RunFault>
    ensures { SumEnded scene result (K.taken sink.old) (K.taken sink.new) (K.faults sink.old) (K.faults sink.new) }
{
    let mut tally = Tally::new();
    match play(engine, &mut tally, scene) {
        Ok(()) => write_record(engine.alloc, sink, &Record::Summ(tally.summary())),
        // The tally takes all that is written to it.
        Err(_) => Err(RunFault::NoMemory),
    }
}
