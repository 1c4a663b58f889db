//! The compositor as one call: [`run`] reads its words and a script, plays it and writes the records
//! of the run, or what they come to.
//!
//! This is the whole way of a frame, from bytes to bytes: `sf_app_options` reads the words; `sf_script`
//! reads a scene, or `sf_script_generate` makes one; `sf_play` picks its actors and vsyncs in turn, or
//! `sf_live` runs each actor in a thread of its own; and `sf_play_write` writes to a sink of `sf_io` the
//! records of what they did, or `sf_record_sums` sums them up.
#![tactic(auto)]

mod laws;
mod live;
mod play;
mod scene;
mod session;
mod summary;
mod turns;
mod words;

pub use laws::{callers_are_known, one_play};
pub use session::run;
pub use sf_live::{
    Engine, Stock, TableName, TurnSeat, live as live_by_lock, live_queue as live_by_queue,
};
pub use sf_record_sums::{HistoryEntry, QueueHistory, Record, RunFault, StuckEntry, write_record};
pub use sf_script_scene::Scene;
