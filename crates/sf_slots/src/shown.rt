//! What a record shows of a call in a queue's history: the numbers of its kind, status, slot and
//! frame.
ghost use Rattle.std.specs.Prelude.{◌≡◌};

use crate::calls::{Entry, PlainCall, PlainReply};
use sf_base::{NO_SLOT, SlotId};

impl Entry {
    ghost use Rattle.sf_slots.specs.Shown.{kind_number, status_shown, slot_shown, frame_shown};

    /// The number of the call's kind in records, from 1 (connect) to 16 (attach of a read buffer), in
    /// the order of `PlainCall`'s variants.
    pub fn kind(&self) -> u32
        ensures { result ≡ kind_number self.now.call }
    {
        match &self.call {
            PlainCall::Connect => 1,
            PlainCall::Disconnect => 2,
            PlainCall::MaxDequeued(_) => 3,
            PlainCall::Async(_) => 4,
            PlainCall::Dequeue { .. } => 5,
            PlainCall::Request(_) => 6,
            PlainCall::Queue { .. } => 7,
            PlainCall::Cancel(..) => 8,
            PlainCall::Detach(_) => 9,
            PlainCall::Attach(_) => 10,
            PlainCall::MaxAcquired(_) => 11,
            PlainCall::Abandon => 12,
            PlainCall::Acquire(_) => 13,
            PlainCall::Release(..) => 14,
            PlainCall::DetachRead(_) => 15,
            PlainCall::AttachRead(_) => 16,
        }
    }

    /// The number of the reply's status in records, 0 where the call was done.
    pub fn status(&self) -> u32
        ensures { result ≡ status_shown self.now.reply }
    {
        match &self.reply {
            PlainReply::Refused(status) => status.number(),
            _ => 0,
        }
    }

    /// The slot that the call names or got, or `NO_SLOT`.
    pub fn slot(&self) -> SlotId
        ensures { result.0 ≡ slot_shown self.now.call self.now.reply }
    {
        match (&self.call, &self.reply) {
            (PlainCall::Request(lease), _)
            | (PlainCall::Queue { lease, .. }, _)
            | (PlainCall::Cancel(lease, _), _)
            | (PlainCall::Detach(lease), _) => lease.slot,
            (PlainCall::Release(lease, _), _) | (PlainCall::DetachRead(lease), _) => lease.slot,
            (_, PlainReply::Dequeued { slot, .. }) | (_, PlainReply::Attached(slot, _)) => *slot,
            (_, PlainReply::Acquired(item, _)) => item.slot,
            _ => NO_SLOT,
        }
    }

    /// The frame that the call names or got, or 0.
    pub fn frame(&self) -> u64
        ensures { result ≡ frame_shown self.now.call self.now.reply }
    {
        match (&self.call, &self.reply) {
            (PlainCall::Release(lease, _), _) | (PlainCall::DetachRead(lease), _) => lease.frame,
            (_, PlainReply::Queued(frame)) => *frame,
            (_, PlainReply::Acquired(item, _)) => item.frame,
            _ => 0,
        }
    }
}
