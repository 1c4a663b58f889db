//! What frames are composed with.
use crate::workers::Workers;
use std::alloc::Global;

/// What frames are composed with: threads, memory, and workers.
#[derive(Drop)]
pub struct Engine<'a, R> {
    /// Starts threads.
    pub rt: &'a R,
    pub alloc: Global,
    /// How many compose a frame at most.
    pub workers: Workers,
}
