//! The statuses of calls on a queue, with their numbers in records.
ghost use Rattle.std.specs.Prelude.{◌≡◌};
ghost use Rattle.sf_base.specs.Statuses.{number_of};

/// What a call on a BufferQueue answers. `Ok` is no refusal.
#[derive(Clone, Copy, Debug)]
pub enum QStatus {
    /// The call was done.
    Ok,
    /// The slot's frame number is another than the one that the caller names.
    Stale,
    /// There is no item to acquire.
    NoBuffer,
    /// The first item is not due yet.
    PresentLater,
    /// The queue is abandoned, or the caller is not the connected producer.
    NoInit,
    /// A value is out of its range, or a slot is not in the state that the call needs.
    BadValue,
    /// A limit of the queue is reached, or the call is not allowed now.
    InvalidOperation,
    /// No usable slot is free for a producer now.
    WouldBlock,
    /// No usable slot is free for a consumer.
    NoSlot,
}

impl QStatus {
    /// The number of this status in records.
    pub fn number(self) -> u32
        ensures { result ≡ number_of self }
    {
        match self {
            QStatus::Ok => 0,
            QStatus::Stale => 1,
            QStatus::NoBuffer => 2,
            QStatus::PresentLater => 3,
            QStatus::NoInit => 10,
            QStatus::BadValue => 11,
            QStatus::InvalidOperation => 12,
            QStatus::WouldBlock => 13,
            QStatus::NoSlot => 14,
        }
    }
}
