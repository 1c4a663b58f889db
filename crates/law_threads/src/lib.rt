//! What a run in threads means: the calls of all callers, brought into one order by their stamps,
//! are a run of one thread, as far as the rights to pixels go. It is stated in specs/; here are laws.
#![tactic(auto)]

mod arrives;
mod cuts;
mod forwards;
mod joins;
mod lifts;
mod orders;
mod rights;

pub use arrives::what_is_on_its_way_arrives;
pub use cuts::what_each_event_keeps_holds_at_the_end;
pub use forwards::what_was_sent_may_arrive_later;
pub use joins::{the_ledger_stands_at_a_join_that_is_tied, vsyncs_are_in_order};
pub use law_draws::{Lease, ReadLease};
pub use lifts::{a_call_is_lifted, a_done_try_is_lifted};
pub use orders::calls_come_in_one_order;
pub use rights::{a_done_try_leaves_rights_standing, rights_stand_at_a_join_that_is_tied};
pub use sf_turns::TableName;
