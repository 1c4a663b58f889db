//! What is known of one slot: where its buffer is, which buffer that is, and its frame.
ghost use Rattle.std.specs.Prelude.{◌≡◌};

use sf_base::Fence;

/// Where a slot's buffer is: in the queue, lent to the producer, in an item, or with the consumer.
#[derive(Clone, Copy, Debug)]
pub enum SlotState {
    Free,
    Dequeued,
    Queued,
    Acquired,
}

/// A buffer: its number in its queue, from 1, and its size in pixels.
#[derive(Clone, Copy)]
pub struct Held {
    pub number: u64,
    pub width: u32,
    pub height: u32,
}

/// What is known of a slot, apart from the right to its pixels.
#[derive(Drop)]
pub struct Slot {
    pub state: SlotState,
    /// Its buffer, if it has one.
    pub held: Option<Held>,
    /// Whether the producer has requested the buffer.
    pub requested: bool,
    /// The number of the last frame queued from it; 0 before the first, and where the consumer
    /// attached its buffer since.
    pub frame: u64,
    /// The fence to wait for before the buffer's next use.
    pub fence: Fence,
}

impl Slot {
    ghost use Rattle.sf_slots.specs.Told.{is_in, is_bare};

    /// Whether the slot is in this state.
    pub fn is_in(&self, state: SlotState) -> bool
        ensures { result ≡ is_in state self.now }
    {
        match (self.state, state) {
            (SlotState::Free, SlotState::Free)
            | (SlotState::Dequeued, SlotState::Dequeued)
            | (SlotState::Queued, SlotState::Queued)
            | (SlotState::Acquired, SlotState::Acquired) => true,
            _ => false,
        }
    }

    /// Whether the slot is free and has no buffer.
    pub fn is_bare(&self) -> bool
        ensures { result ≡ is_bare self.now }
    {
        self.is_in(SlotState::Free) && self.held.is_none()
    }
}
