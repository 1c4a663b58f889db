//! A law about transactions on their way: what was sent arrives by the call that puts it among the
//! arrivals.
ghost use Rattle.std.specs.Prelude.{length};
ghost use Rattle.law_draws.specs.sf_token.Arrivals.{sent};
ghost use Rattle.law_threads.specs.Cuts.{GoesForward, HasLedger};
ghost use Rattle.law_threads.specs.Callers.{SendingCall, arrival_by};

use sf_turns::TableName;

/// What is on its way is put among the arrivals by the call on them that sends it, wherever that is
/// the next one: what waited on its way waits there, and nothing else changes.
pub fn what_is_on_its_way_arrives<B: TableName>()
    ensures { (sending : SendingCall B) → GoesForward sending.whole HasLedger (arrival_by sending) (0, length sending.history) }
{}
