//! What a run shows: its records, the events that they come from, and their bytes. A record is a
//! tag of four bytes, the length of its body and the body; all numbers are big-endian.
#![tactic(auto)]

mod encode;
mod event;
mod laws;
mod record;

pub use encode::{RunFault, write_all, write_image, write_record};
pub use event::{Event, VsyncRecords, records};
pub use laws::{bytes_determine_records, records_are_read_back};
pub use record::{
    ArrivalEntry, CommitRecord, CommittedBuffer, Frame, HeldEntry, HistoryEntry, Hit,
    NumberedFrame, QueueHistory, Record, ReplyRecord, SceneHeader, StuckEntry, Summary,
    TimelineValue, VsyncHeader,
};
pub use sf_output;
