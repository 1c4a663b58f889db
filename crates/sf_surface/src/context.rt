//! What the calls on the slots are made with, beside what each of them brings.
use sf_base::{ActorId, QueueId};
use std::alloc::Global;

/// Who makes a call, the number of the queue that it is made on, and where memory comes from.
#[derive(Clone, Copy)]
pub(crate) struct Context {
    pub(crate) alloc: Global,
    pub(crate) by: ActorId,
    pub(crate) queue: QueueId,
}
