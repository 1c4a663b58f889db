//! How long a queue's history is in bytes.
use sf_app::{HistoryEntry, QueueHistory, Record, write_record};
use sf_base::Items;
use sf_io::MemSink;
use std::alloc::Global;
use std::io;

/// How many bytes a history of so many calls has, the number of each call instead of its step.
pub fn history_length(alloc: Global, calls: u32) -> io::Result<usize> {
    let mut entries = Vec::new(alloc);
    for step in 0..calls {
        entries.push(HistoryEntry {
            caller: 1,
            step,
            kind: 5,
            status: 13,
            slot: u32::MAX,
            frame: 0,
        })?;
    }
    let history = Record::Hist(QueueHistory {
        queue: 1,
        entries: Items::new(entries),
    });
    let mut sink = MemSink::new(alloc, Vec::new(alloc));
    match write_record(alloc, &mut sink, &history) {
        Ok(()) => Ok(sink.bytes().len()),
        Err(_) => Err(io::Error::from(io::ErrorKind::OutOfMemory)),
    }
}
