//! What the records of a run come to, from their bytes as they are written: of the records themselves
//! nothing is kept.
#![tactic(auto)]

mod past;
mod progress;
mod tally;

pub use sf_record::{HistoryEntry, QueueHistory, Record, RunFault, StuckEntry, write_record};
pub use tally::Tally;
