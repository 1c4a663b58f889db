//! What threads did, up to where they are joined, is in one order: that of the stamps of their calls.
//! No vsync of it passes over an arrival.
#![tactic(auto)]

ghost use Rattle.law_live_order.specs.Happened.{JoinsInOneOrder, JoinsPassNone};

pub use law_joins::{
    a_run_in_threads_goes_on, buffers_among_threads_have_their_pictures, what_threads_did_is_played,
};
use law_threads::{Lease, ReadLease, TableName};

/// The calls, the arrivals and the vsyncs of a run in threads, up to its join, are in one order, however
/// transactions arrive. Where they do not come through an intake, a sender's later calls come after what
/// it sent, too. And none of its vsyncs passes over an arrival that could commit.
pub fn what_threads_did_is_in_one_order<B: TableName>()
    ensures order { JoinsInOneOrder B ⟦<ReadLease<B> as Lease>⟧ B.table }
    ensures none { JoinsPassNone B ⟦<ReadLease<B> as Lease>⟧ B.table }
{}
