//! The consumer's calls on a BufferQueue: acquiring and releasing frames, detaching and
//! attaching buffers, the consumer's limit, and giving the queue up. A refused call changes nothing
//! and hands back what came with it. No call takes memory.
#![tactic(auto)]

mod acquiring;
mod leases;
mod limits;

pub use acquiring::{Acquired, acquire};
pub use leases::{attach_read, detach_read, release};
pub use limits::{abandon, set_max_acquired};
