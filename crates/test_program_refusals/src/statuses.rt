//! The run of the whole program, by its statuses.
ghost use Rattle.std.specs.Prelude.{◌≡◌, None, map};
ghost use Rattle.std.specs.String.{string_bytes};
ghost use Rattle.sf_io.specs.Causes.{Rose};
ghost use Rattle.sf_app.specs.sf_app_options.Options.{options_of};
ghost use Rattle.sf_app.specs.Statuses.{RefusedScript};

use sf_app::run;
use sf_io::{Gate, Sink, Source};
use std::alloc::Global;
use std::sync::Wait;
use std::thread::Threads;

/// Each status of a run has its cause: wrong words, a script that is no scene, a source or a sink
/// that failed.
pub fn run_has_causes<R: Threads + Wait + Sync, S: Source, K: Sink, G: Gate + Sync>(
    rt: &R,
    alloc: Global,
    words: &[String],
    source: &mut S,
    sink: &mut K,
    gate: &G,
) -> u8
    ensures usage { result ≡ 1 → options_of (map string_bytes words.now) ≡ None }
    ensures refused { result ≡ 2
        → RefusedScript (options_of (map string_bytes words.now)) (S.left source.old) (S.left source.new) (K.taken sink.old) (K.taken sink.new) }
    ensures read_failed { result ≡ 3 → Rose (S.faults source.old) (S.faults source.new) }
    ensures write_failed { result ≡ 4 → Rose (K.faults sink.old) (K.faults sink.new) }
{
    run(rt, alloc, words, source, sink, gate)
}
