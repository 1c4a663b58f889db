//! What is reported of a run: the report of a vsync, what it shows as views, and the records of a
//! reply, of a vsync and its commits, of what arrived, of a queue's calls, and of what is held.
#![tactic(auto)]

mod closing;
mod commit;
mod plan;
mod reply;
mod report;
mod sourced;
mod sourcing;

pub use closing::{arrivals_record, held_record, history_record};
pub use commit::{commit_record, vsync_record};
pub use law_played::{
    Commit, Committed, Handler, Hit, Hold, Lease, Plan, QueueObject, ReadLease, Record, Release,
    Reply, RunFault, SceneHeader, Stepped, Stock, StuckEntry, TableName, TurnSeat, write_image,
    write_record,
};
pub use plan::plan_of;
pub use reply::reply_record;
pub use report::VsyncReport;
pub use sourced::SourcedView;
pub use sourcing::sourced_views;
