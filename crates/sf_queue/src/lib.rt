//! The producer's calls on a BufferQueue: connecting, dequeueing, requesting, queueing, cancelling,
//! detaching and attaching buffers, and the producer's limits. A refused call changes nothing and
//! hands back what came with it. No call takes memory.
#![tactic(auto)]

mod connection;
mod leases;
mod lending;
mod limits;
mod queueing;

pub use connection::{connect, disconnect};
pub use leases::{cancel, cancel_allowed, detach, detach_allowed, lent_refusal, request};
pub use lending::{Chosen, Dequeued, attach, choose, dequeue, dequeue_chosen};
pub use limits::{set_async, set_max_dequeued};
pub use queueing::{QueueOrder, queue, queue_allowed, queue_refusal};
