//! The 64 counters themselves, which the threads of a run share.
ghost use Rattle.std.specs.Prelude.{◌≡◌, IfOk};
ghost use Rattle.sf_times.specs.Seats.{opened};

use crate::protocol::{CountersRise, Knows};
use crate::seat::TimeSeat;
use atomic_table::Table;
use sf_base::NoMemory;
use std::alloc::Global;
use std::marker::Model;

/// 64 counters, shared by reference among threads. Contracts see which table they lie in.
pub struct Timelines {
    pub(crate) table: Table<(), Knows, (), CountersRise, Global>,
}

impl Model for Timelines {
    ghost use Rattle.std.specs.Prelude.{◌≡◌};
    ghost use Rattle.atomic_table.specs.Seated.{TableId, table_id_coded};

    ghost Value = { TableId };

    ghost coded = { table_id_coded };

    ghost view = { λ t. t.table.shared.table_id };

    // The word t is the counter of timeline t, and the word 0 is no counter: seats are split and
    // joined by steps on it.
    ghost invariant = { λ t. t.table.shared.table_id.words ≡ 65 };
}

impl Timelines {
    /// 64 counters at 0, and the first seat. Its only error is out of memory.
    pub fn open(alloc: Global) -> Result<(Timelines, TimeSeat), NoMemory>
        ensures table { IfOk result (λ opened. opened.1.table ≡ opened.0) }
        ensures first { IfOk result (λ r. r.1.knows ≡ opened) }
    {
        match Table::of_words(alloc, &[0; 65], &()) {
            Ok((table, seat)) => Ok((Timelines { table }, TimeSeat { seat })),
            Err(_) => Err(NoMemory),
        }
    }
}

impl Drop for Timelines {
    fn drop(self) {
        let Timelines { table: _ } = self;
    }
}
