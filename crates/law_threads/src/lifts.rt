//! Laws that lift a try from what its actor's desk knew to the state of all callers.
ghost use Rattle.std.specs.Prelude.{List};
ghost use Rattle.law_draws.specs.sf_surface.Tokens.{ReadLeaseOf};
ghost use Rattle.law_threads.specs.Cuts.{HasLedger};
ghost use Rattle.law_threads.specs.Lifts.{LiftsCall};
ghost use Rattle.law_threads.specs.Callers.{AreLegal, CalledTry, ComesKeeping, DoneTry};

use sf_turns::TableName;

/// A try that made a call, over whatever its actor's desk knew, keeps the ledger of all callers
/// together, wherever that call is the next one on its queue.
pub fn a_call_is_lifted<B: TableName>()
    ensures { (call : CalledTry B) (on : List ReadLeaseOf) → LiftsCall call.run.whole HasLedger call.before.by.0 call.was call.is on call.old call.new }
{}

/// Any try that was done, over whatever its actor's desk knew, keeps the ledger of all callers
/// together, wherever its calls are the next ones on their queues; what it sent is on its way then.
pub fn a_done_try_is_lifted<B: TableName>()
    ensures { (done : DoneTry B) → AreLegal done.run → ComesKeeping done HasLedger }
{}
