//! Calls on a queue and their replies as plain data, without rights: what a queue's history keeps,
//! and what contracts say of calls.
use crate::item::PlainItem;
use crate::slot::Held;
use sf_base::{ActorId, Fence, QStatus, Rect, SlotId};

/// What a call says of a write lease.
#[derive(Drop)]
pub struct WriteToken {
    pub slot: SlotId,
    pub held: Held,
    pub requested: bool,
    /// The fence that came with the buffer.
    pub fence: Fence,
    /// Whether the buffer was drawn.
    pub drawn: bool,
}

/// What a call says of a read lease.
#[derive(Drop)]
pub struct ReadToken {
    pub slot: SlotId,
    pub frame: u64,
    pub held: Held,
    pub picture: u32,
    pub crop: Rect,
    pub fence: Fence,
}

/// A call on a queue as a history keeps it, without rights.
#[derive(Drop)]
pub enum PlainCall {
    Connect,
    Disconnect,
    MaxDequeued(u32),
    Async(bool),
    /// Width and height both 0 mean the default size; `wait` asks to wait for a free slot.
    Dequeue {
        width: u32,
        height: u32,
        wait: bool,
    },
    Request(WriteToken),
    /// The picture's number and size, the present time, the crop and the acquire fence.
    Queue {
        lease: WriteToken,
        picture: u32,
        width: u32,
        height: u32,
        time: Option<u64>,
        crop: Rect,
        fence: Fence,
    },
    Cancel(WriteToken, Fence),
    Detach(WriteToken),
    /// The loose buffer: its number in the queue that it came from, and its size.
    Attach(Held),
    MaxAcquired(u32),
    Abandon,
    /// The expected present time in nanoseconds, 0 where none is named.
    Acquire(u64),
    Release(ReadToken, Fence),
    DetachRead(ReadToken),
    AttachRead(Held),
}

/// What a call answered, without rights.
#[derive(Drop)]
pub enum PlainReply {
    Refused(QStatus),
    Done,
    /// A write lease, and whether its buffer is new.
    Dequeued {
        slot: SlotId,
        held: Held,
        requested: bool,
        reallocated: bool,
        fence: Fence,
    },
    Requested(Held),
    /// The frame's number.
    Queued(u64),
    /// Of both attach calls.
    Attached(SlotId, Held),
    /// The item, and how many were dropped before it.
    Acquired(PlainItem, u32),
}

/// A call with its reply, as a history keeps it.
#[derive(Drop)]
pub struct Entry {
    /// The actor, or 0 for the compositor.
    pub caller: ActorId,
    /// The actor's step, or the compositor's vsync number.
    pub step: u32,
    pub call: PlainCall,
    pub reply: PlainReply,
}
