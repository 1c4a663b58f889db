//! The compositor between two vsyncs: it takes the transactions that arrived, and at each vsync
//! commits those that are ready, takes their buffers, and releases the buffers that no layer shows
//! any more. A buffer on a layer stays entered for reading, and its
//! pixels can be lent while the next vsync is decided.
#![tactic(auto)]

mod commit;
mod decide;
mod finish;
mod follow;
mod handler;
mod held;
mod keeping;
mod lending;
mod note;
mod on;
mod opening;
mod receive;
mod settle;
mod sources;
mod stage;
mod vsync;

pub use handler::Handler;
pub use lending::Contents;
pub use sf_commit_next::{
    Arrivals, ArriveCall, ArriveReply, Arrived, ArrvEntry, Batch, CallFault, Hold, Lease, Object,
    Outcome,
};
pub use sf_view::sf_picture::{Painted, Picture};
pub use vsync::{Commit, Committed, Release, Vsync};
