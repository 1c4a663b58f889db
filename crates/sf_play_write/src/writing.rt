//! Writes a record that had to be made first, for whatever here makes records in memory.
ghost use Rattle.std.specs.Prelude.{◌≡◌, ◌≤◌, ◌∷◌, [], IfOk, IsErrOf};
ghost use Rattle.sf_io.specs.Causes.{Rose};
ghost use Rattle.sf_play.specs.sf_record.declared.record.Record.{Record as RecordValue};
ghost use Rattle.sf_play_write.specs.Writing.{Wrote};

use sf_base::NoMemory;
use sf_io::Sink;
use sf_play::{Record, RunFault, write_record};
use std::alloc::Global;

/// Writes a record that was made, if memory allowed.
pub fn write_made<K: Sink>(
    alloc: Global,
    sink: &mut K,
    made: Result<Record, NoMemory>,
) -> Result<(), RunFault>
    ensures wrote { (shown : RecordValue) → IfOk made (λ it. it ≡ shown) → Wrote K.taken K.faults sink.old sink.new result (shown ∷ []) }
    ensures later { K.faults sink.old ≤ K.faults sink.new }
    ensures failed { IsErrOf result RunFault.WriteFault → Rose (K.faults sink.old) (K.faults sink.new) }
{
    match made {
        Ok(record) => write_record(alloc, sink, &record),
        Err(_) => Err(RunFault::NoMemory),
    }
}
