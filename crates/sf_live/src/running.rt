//! The middle of a live run: each actor in a thread of its own, the compositor beside them, up to
//! where no thread can go on.
ghost use Rattle.std.specs.Prelude.{◌≡◌, Some, IfErr};
ghost use Rattle.sf_live_compositor.specs.sf_record.declared.encode.RunFault.TheVariants.{WriteFault};
ghost use Rattle.sf_script_scene.specs.Scene.{SceneValue};
ghost use Rattle.sf_live_compositor.specs.sf_live_threads.declared.run.Stopped.TheVariants as stopped;
ghost use Rattle.sf_live.specs.Openings.{IsOpen, MayStart};
ghost use Rattle.sf_live.specs.inner.Running.{ComesTogether, Starts, WasCut};

use crate::opening::Opened;
use crate::threads::{Joined, bring_together};
use sf_io::{Gate, Sink};
use sf_live_compositor::{
    Compositor, Ended, Host, Lease, ReadLease, RunFault, Stopped, run_actors,
};
use sf_turns::TableName;
use std::alloc::Global;
use std::sync::Wait;
use std::thread::Threads;

/// Why a run in threads came to no end: out of memory, unless the compositor ended it for a fault of
/// its sink.
fn fault_of(why: Stopped, fault: Option<RunFault>) -> RunFault
    ensures { result ≡ WriteFault → (why ≡ stopped.Ended) × (fault ≡ Some WriteFault) }
{
    match (why, fault) {
        (Stopped::Ended, Some(RunFault::WriteFault)) => RunFault::WriteFault,
        _ => RunFault::NoMemory,
    }
}

/// Each actor of a scene goes through its script in a thread of its own, while the compositor makes
/// its vsyncs; and once none can go on they are brought together. The compositor comes back on every
/// way.
pub(crate) fn run_threads<
    'a,
    R: Threads + Wait + Sync,
    K: Sink,
    G: Gate + Sync,
    B: TableName + Send + Sync,
>(
    rt: &R,
    alloc: Global,
    gate: &G,
    opened: Opened<B>,
    compositor: Compositor<'a, K, B>,
) -> (Compositor<'a, K, B>, Result<Joined<B>, RunFault>)
    requires may { MayStart B.table opened }
    requires starts { (scene : SceneValue) × IsOpen scene B.table opened × Starts scene compositor }
    ensures together { ComesTogether K.taken K.faults ⟦<ReadLease<B> as Lease>⟧ B.table opened compositor.entry result.0 result.1 }
    ensures cut { IfErr result.1 (WasCut K.taken K.faults ⟦<ReadLease<B> as Lease>⟧ B.table compositor.entry result.0) }
{
    let Opened {
        pictures,
        actors,
        locks,
        first,
    } = opened;
    let host = Host { rt, alloc, gate };
    let (mut compositor, all_returned) = run_actors(
        host,
        &locks,
        pictures.as_slice(),
        first,
        actors,
        compositor,
    );
    match all_returned {
        Ok(all_returned) => {
            match compositor.settle(rt) {
                Ok(()) => {}
                Err(Ended) => {
                    let fault = fault_of(Stopped::Ended, compositor.fault);
                    return (compositor, Err(fault));
                }
            }
            match bring_together(alloc, pictures, locks, all_returned) {
                Ok(joined) => (compositor, Ok(joined)),
                Err(_) => (compositor, Err(RunFault::NoMemory)),
            }
        }
        Err(why) => {
            let fault = fault_of(why, compositor.fault);
            (compositor, Err(fault))
        }
    }
}
