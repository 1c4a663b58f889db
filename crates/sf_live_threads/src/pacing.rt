//! What the threads of a run are started with and wait with: no clause speaks of it.
use sf_live_watch::Watch;
use std::alloc::Global;

/// What a run in threads is given: the handle to start threads and to wait with, an allocator, and the
/// gate that is passed before each step.
#[derive(Drop)]
pub struct Host<'a, R, G> {
    pub rt: &'a R,
    pub alloc: Global,
    pub gate: &'a G,
}

/// What each thread of a run has to wait with, and the starter too: the handle, the gate that is passed
/// before each step, and the watch over all threads. It has the run's allocator besides.
#[derive(Drop)]
pub(crate) struct Pacing<'a, R, G> {
    pub(crate) rt: &'a R,
    pub(crate) alloc: Global,
    pub(crate) gate: &'a G,
    pub(crate) watch: &'a Watch,
}
