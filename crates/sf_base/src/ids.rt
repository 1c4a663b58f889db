//! The numbers of queues, slots, actors, layers, tokens and timelines, each a type of its own.

/// The number of a BufferQueue, 1 to 16.
#[derive(Clone, Copy, Debug, PartialEq, Eq)]
pub struct QueueId(pub u32);

/// The number of a slot of a queue, 0 to 63.
#[derive(Clone, Copy)]
pub struct SlotId(pub u32);

/// The number that stands for no slot, in calls that name none and in records.
pub const NO_SLOT: SlotId = SlotId(4_294_967_295);

/// The number of an actor, that is, of a client of queues and transactions, from 1. The
/// compositor itself is 0 where it calls a queue.
#[derive(Clone, Copy)]
pub struct ActorId(pub u32);

/// The number of a layer, 1 or more.
#[derive(Clone, Copy, Debug, PartialEq, Eq)]
pub struct LayerId(pub u32);

/// The number of an apply token: transactions of one token commit in the order of their arrival.
#[derive(Clone, Copy)]
pub struct TokenId(pub u32);

/// The number of a timeline, 1 to 64.
#[derive(Clone, Copy, Debug)]
pub struct TimelineId(pub u32);
