//! What a turn carries beside its seat, in one block of memory.
ghost use Rattle.std.specs.Prelude.{◌≡◌, false, None};

use crate::stamped::Stamped;
use crate::turn_table::TurnTable;
use std::sync::Arc;

/// What a turn has beside its seat, in one block of memory that goes with it from hand to hand.
pub(crate) struct Parts<P: Stamped> {
    pub(crate) table: Arc<TurnTable<P>>,
    pub(crate) buffer: u32,
    pub(crate) number: u64,
    pub(crate) expects: P::Stamp,
    /// What it promised to leave, once the next turn was issued.
    pub(crate) promises: Option<P::Stamp>,
    pub(crate) loads: u64,
    pub(crate) shown: bool,
}

/// The parts of a turn that no load was made for.
pub(crate) fn first_parts<P: Stamped>(
    table: Arc<TurnTable<P>>,
    buffer: u32,
    number: u64,
    expects: P::Stamp,
) -> Parts<P>
    ensures { result ≡ record { table = table; buffer = buffer; number = number; expects = expects; promises = None; loads = 0; shown = false } }
{
    Parts {
        table,
        buffer,
        number,
        expects,
        promises: None,
        loads: 0,
        shown: false,
    }
}

impl<P: Stamped> Drop for Parts<P> {
    fn drop(self) {
        let Parts {
            table: _,
            buffer: _,
            number: _,
            expects: _,
            promises: _,
            loads: _,
            shown: _,
        } = self;
    }
}
