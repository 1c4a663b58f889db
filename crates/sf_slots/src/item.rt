//! A queued frame between its producer and its consumer, with and without the right to its pixels.
use crate::slot::Held;
use sf_base::{Fence, Rect, SlotId};

/// A queued frame that waits for the consumer, with the right to read its pixels.
#[derive(Drop)]
pub struct Item<R> {
    pub slot: SlotId,
    pub held: Held,
    /// The frame's number in its queue, from 1.
    pub frame: u64,
    /// The number of the picture that its pixels show.
    pub picture: u32,
    /// The desired present time in nanoseconds, None where it is automatic.
    pub time: Option<u64>,
    /// Whether the next frame takes this one's place.
    pub droppable: bool,
    /// The acquire fence that the producer named.
    pub fence: Fence,
    pub crop: Rect,
    pub right: R,
}

/// A queued frame without its right.
#[derive(Drop)]
pub struct PlainItem {
    pub slot: SlotId,
    pub held: Held,
    pub frame: u64,
    pub picture: u32,
    pub time: Option<u64>,
    pub droppable: bool,
    pub fence: Fence,
    pub crop: Rect,
}
