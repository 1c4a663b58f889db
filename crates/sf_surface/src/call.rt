//! The sixteen calls on a queue with the tokens that they bring, and their replies with the tokens
//! that these give.
use crate::token::{Ending, Loose, Owing, ReadLease, WriteLease};
use sf_base::{Fence, Items, QStatus, Rect};
use sf_turns::sf_picture::{Painted, Picture};
use sf_turns::{Permit, TableName};

/// A call on a queue, with the tokens that it brings.
#[derive(Drop)]
pub enum QCall<B: TableName> {
    /// Makes the caller the queue's producer.
    Connect,
    Disconnect,
    MaxDequeued(u32),
    Async(bool),
    /// Lends a buffer of this size in pixels, 0 by 0 for the queue's default size. Where it needs a
    /// new buffer, the permit makes it. `wait` asks to wait for a free slot.
    Dequeue {
        width: u32,
        height: u32,
        wait: bool,
        permit: Permit<Painted>,
    },
    /// Makes the lent buffer known to its producer.
    Request(WriteLease<B>),
    /// Queues a lent buffer as a frame that shows this picture, drawn already or promised, with its
    /// desired present time in nanoseconds, the part of the buffer to show, and the acquire fence.
    Queue {
        lease: WriteLease<B>,
        picture: Picture,
        time: Option<u64>,
        crop: Rect,
        fence: Fence,
    },
    /// Gives a lent buffer back unqueued, with the fence to wait for before it is written again.
    Cancel(WriteLease<B>, Fence),
    /// Takes a lent buffer out of the queue.
    Detach(WriteLease<B>),
    /// Puts a loose buffer into the queue, lent to its producer.
    Attach(Loose<B>),
    MaxAcquired(u32),
    Abandon,
    /// Takes the frame in front, for the present time that is expected, in nanoseconds, 0 for none.
    Acquire(u64),
    /// Gives a frame's buffer back, with the fence to wait for before it is written again.
    Release(ReadLease<B>, Fence),
    /// Takes a frame's buffer out of the queue.
    DetachRead(ReadLease<B>),
    /// Puts a loose buffer into the queue, held by its consumer.
    AttachRead(Loose<B>),
}

/// The token that a reply gives: the one that the call made, or the one that a refused call brought.
#[derive(Drop)]
pub enum Gives<B: TableName> {
    Nothing,
    Write(WriteLease<B>),
    Owes(Owing<B>),
    Read(ReadLease<B>),
    Free(Loose<B>),
}

/// The reply to a call.
pub struct QReply<B: TableName> {
    pub status: QStatus,
    /// What records show of a call that was done.
    pub values: Items<u64>,
    pub gives: Gives<B>,
    /// The drawing that ends, where a drawn lease was queued, cancelled or detached.
    pub ends: Option<Ending<B>>,
    /// The permit of a dequeue that made no new buffer.
    pub spare: Option<Permit<Painted>>,
}
