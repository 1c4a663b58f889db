//! Laws about the join of a run in threads: its ledger of rights stands, and its vsyncs are in
//! order.
ghost use Rattle.law_threads.specs.Members.{AreTied, stamps};
ghost use Rattle.law_threads.specs.TiedJoins.{HasBounds, JoinsLedger, StampedLog, TiedJoin};

use law_draws::{Lease, ReadLease};
use sf_turns::TableName;

/// At the join of a run in threads the ledger of rights stands, over the desk that is left, the
/// actors as they came back, and the compositor, where what `AreTied` says holds too.
pub fn the_ledger_stands_at_a_join_that_is_tied<B: TableName>()
    ensures { (of : TiedJoin B ⟦<ReadLease<B> as Lease>⟧) → JoinsLedger of.join }
{}

/// The calls of vsyncs have stamps between bounds that rise with their numbers, where what the
/// compositor's seats knew, with stamps, is how the histories of the whole run began.
pub fn vsyncs_are_in_order<B: TableName>()
    ensures { (log : StampedLog B ⟦<ReadLease<B> as Lease>⟧) → HasBounds log }
{}
