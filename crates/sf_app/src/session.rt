//! The public call `run`, which the headline is about, and what leads from the words of a command
//! to its status: words, script, scene, then a play or a live run.
ghost use Rattle.std.specs.Prelude.{◌≡◌, ◌≤◌, ◌⊎◌, ℕ, List, Some, Ok, Err, map};
ghost use Rattle.std.specs.String.{string_bytes};
ghost use Rattle.sf_io.specs.Causes.{Rose};
ghost use Rattle.sf_app_options.specs.Options.{options_of};
ghost use Rattle.sf_app_options.specs.declared.options.Options.{Options as OptionsValue};
ghost use Rattle.sf_script_scene.specs.Scene.{SceneValue};
ghost use Rattle.law_generated.specs.sf_script.Parse.{parsed_of};
ghost use Rattle.law_generated.specs.sf_script.declared.fault.ScriptFault.{ScriptFault};
ghost use Rattle.sf_app.specs.Statuses.{MeansScript, RunEnded, ScriptEnded, ShownEnded, status_of};
ghost use Rattle.sf_app.specs.Words.{IsTold};

use crate::live::live;
use crate::play::play;
use crate::scene::{SceneFault, scene_asked};
use crate::summary::sum_up;
use law_generated::ScriptFault;
use sf_app_options::{Options, OptionsFault, Run};
use sf_io::{Gate, Sink, Source};
use sf_live::{Engine, Workers};
use sf_record_sums::{Record, RunFault, write_record};
use sf_script_scene::Scene;
use std::alloc::Global;
use std::sync::Wait;
use std::thread::Threads;

/// The status of a run whose records were written whole.
const DONE: u8 = 0;

/// The status of a run that was not begun, since its words are wrong.
const WRONG_WORDS: u8 = 1;

/// The status of a run whose script is no scene.
const NO_SCENE: u8 = 2;

/// The status of a run whose source failed.
const READ_FAILED: u8 = 3;

/// The status of a run whose sink failed.
const WRITE_FAILED: u8 = 4;

/// The status of a run that found no memory.
const NO_MEMORY: u8 = 5;

/// The status of a run that wrote all, or ended with a fault.
fn status_of(ended: Result<(), RunFault>) -> u8
    ensures { result ≡ status_of ended }
{
    match ended {
        Ok(()) => DONE,
        Err(RunFault::WriteFault) => WRITE_FAILED,
        Err(RunFault::NoMemory) => NO_MEMORY,
    }
}

/// Writes the place of a script's fault.
fn refuse<K: Sink>(alloc: Global, sink: &mut K, fault: ScriptFault) -> u8
    ensures { (options : OptionsValue)
        → ScriptEnded options (Err fault) result (K.taken sink.old) (K.taken sink.new) (K.faults sink.old) (K.faults sink.new) }
{
    let record = Record::Sflt(fault);
    match write_record(alloc, sink, &record) {
        Ok(()) => NO_SCENE,
        Err(RunFault::WriteFault) => WRITE_FAILED,
        Err(RunFault::NoMemory) => NO_MEMORY,
    }
}

/// Plays a scene, live if the options ask for it, and writes what shows its run.
fn show_run<R: Threads + Wait + Sync, K: Sink, G: Gate + Sync>(
    rt: &R,
    alloc: Global,
    options: Options,
    sink: &mut K,
    gate: &G,
    scene: Scene,
) -> Result<(), RunFault>
    requires some { 1 ≤ options.workers }
    requires few { options.workers ≤ 16 }
    ensures { ShownEnded options scene result (K.taken sink.old) (K.taken sink.new) (K.faults sink.old) (K.faults sink.new) }
{
    let engine = Engine {
        rt,
        alloc,
        workers: Workers::new(options.workers),
    };
    match options.run {
        Run::Live => live(&engine, sink, gate, scene, options.intake),
        Run::Play | Run::Gen if options.summary => sum_up(&engine, sink, scene),
        Run::Play | Run::Gen => play(&engine, sink, scene),
    }
}

/// Does what the words ask.
fn follow<R: Threads + Wait + Sync, S: Source, K: Sink, G: Gate + Sync>(
    rt: &R,
    alloc: Global,
    words: &[String],
    source: &mut S,
    sink: &mut K,
    gate: &G,
) -> u8
    ensures { let asked = options_of (map string_bytes words.now) in
        RunEnded S.left S.faults K.taken K.faults asked result source.old source.new sink.old sink.new }
{
    let options = match Options::read(alloc, words) {
        Ok(options) => options,
        Err(OptionsFault::WrongWords) => return WRONG_WORDS,
        Err(OptionsFault::NoMemory) => return NO_MEMORY,
    };
    match scene_asked(alloc, options, source) {
        Ok(scene) => status_of(show_run(rt, alloc, options, sink, gate, scene)),
        Err(SceneFault::Script(fault)) => refuse(alloc, sink, fault),
        Err(SceneFault::ReadFailed) => READ_FAILED,
        Err(SceneFault::NoMemory) => NO_MEMORY,
    }
}

/// Does what the words ask: reads a script from the source, or generates one, plays it, in turns or
/// live, and writes the records of the run to the sink, or of a play the one record that sums them
/// up. The answer is the status of the program:
///
/// | Status | Meaning |
/// |---|---|
/// | 0 | the script was read to its end and is a scene, or was generated, and what shows its run was written |
/// | 1 | the words are wrong. Nothing is read or written |
/// | 2 | the bytes are no scene, or more than 1,048,576; the record SFLT was written |
/// | 3 | the source failed; nothing is written |
/// | 4 | the sink failed |
/// | 5 | out of memory; no clause says when memory is short |
///
/// Whatever the status is, what a play of a scene wrote is a prefix of the records of its play, or of
/// the record that sums them up. What a live run wrote is a prefix of the scene's record and whole
/// vsyncs, each with the results that its tree gives, or, once all vsyncs are written, of all records
/// of the run.
/// What is said of bytes holds where source and sink say what theirs are.
///
/// A live run asks the gate before each step of an actor, and may wait for the actors' threads; a play
/// does neither.
pub fn run<R: Threads + Wait + Sync, S: Source, K: Sink, G: Gate + Sync>(
    rt: &R,
    alloc: Global,
    words: &[String],
    source: &mut S,
    sink: &mut K,
    gate: &G,
) -> u8
    // What is written shows records that stand to the script's scene as those of a played run do,
    // and of a play as what happened in order; with a queue of arrivals a sender does not learn its
    // place.
    ensures means { let asked = options_of (map string_bytes words.now) in
        result ≡ 0 → MeansScript asked (S.left source.old) (S.left source.new) (K.taken sink.old) (K.taken sink.new) }

    // What each status says, and what was read and written whatever it is.
    ensures ended { let asked = options_of (map string_bytes words.now) in
        RunEnded S.left S.faults K.taken K.faults asked result source.old source.new sink.old sink.new }

    // Right words, a known script, and no count of faults that rose: the run is whole, or the
    // script refused, unless memory runs out.
    ensures complete { (options : OptionsValue) (bytes : List ℕ) (scene : SceneValue) → options_of (map string_bytes words.now) ≡ Some options
        → IsTold options (S.left source.old) bytes → parsed_of bytes ≡ Ok scene
        → ¬ Rose (S.faults source.old) (S.faults source.new) → ¬ Rose (K.faults sink.old) (K.faults sink.new) → (result ≡ 0) ⊎ (result ≡ 5) }
    ensures complete_refusal { (options : OptionsValue) (bytes : List ℕ) (fault : ScriptFault) → options_of (map string_bytes words.now) ≡ Some options
        → IsTold options (S.left source.old) bytes → parsed_of bytes ≡ Err fault
        → ¬ Rose (S.faults source.old) (S.faults source.new) → ¬ Rose (K.faults sink.old) (K.faults sink.new) → (result ≡ 2) ⊎ (result ≡ 5) }
{
    follow(rt, alloc, words, source, sink, gate)
}
