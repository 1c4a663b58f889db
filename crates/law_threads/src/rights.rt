//! Laws that rights, makers and draws stand along that order, and at the join.
ghost use Rattle.law_draws.specs.Standing.{RightsStand};
ghost use Rattle.law_threads.specs.Rights.{calls_in};
ghost use Rattle.law_threads.specs.Callers.{ComesKeeping, TryOfScene};
ghost use Rattle.law_threads.specs.TiedJoins.{JoinsDraws, JoinsLedger, JoinsMakers, KeepAtJoin, TiedJoin};

use law_draws::{Lease, ReadLease};
use sf_turns::TableName;

/// Any try that was done keeps, with the ledger, that makers are followed and draws are placed,
/// wherever its calls are the next ones on their queues; what it sent is on its way then.
pub fn a_done_try_leaves_rights_standing<B: TableName>()
    ensures { (of : TryOfScene B) → ComesKeeping of.done (RightsStand of.scene (calls_in of.done.run.whole)) }
{}

/// At the join of a run in threads the ledger of rights stands, makers are followed, and, where the
/// actors and their calls are as they should be and all that left is known, draws are in turn.
pub fn rights_stand_at_a_join_that_is_tied<B: TableName>()
    ensures ledger { (of : TiedJoin B ⟦<ReadLease<B> as Lease>⟧) → JoinsLedger of.join }
    ensures makers { (of : TiedJoin B ⟦<ReadLease<B> as Lease>⟧) → JoinsMakers of.join }
    ensures draws { (of : TiedJoin B ⟦<ReadLease<B> as Lease>⟧) → KeepAtJoin of.join → JoinsDraws of.join }
{}
