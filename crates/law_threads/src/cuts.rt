//! A law about all callers together: what each event keeps holds after all of them.
ghost use Rattle.law_threads.specs.Cuts.{HasLedger, many_of, state_at};
ghost use Rattle.law_threads.specs.Callers.{StampedRun};

use sf_turns::TableName;

/// Where each event of each caller keeps the ledger wherever it is next, the ledger of all callers
/// together stands after the whole run.
pub fn what_each_event_keeps_holds_at_the_end<B: TableName>()
    ensures { (run : StampedRun B) → HasLedger (state_at run.whole (many_of run.whole) run.lasts) }
{}
