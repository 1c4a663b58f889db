//! What the record HIST shows of a call and of its reply, from the tokens that they have.
ghost use Rattle.std.specs.Prelude.{◌≡◌, Some, None, false};
ghost use Rattle.sf_surface.specs.Named.{got_slot, named_of, second_or, shown_with};

use crate::call::{Gives, QCall, QReply};
use crate::entry::{HistEntry, Named};
use crate::plain::{named_slot, queued_slot};
use sf_base::{QueueId, SlotId};
use sf_turns::TableName;

/// What the history shows of a call that names a slot, and no frame.
fn names(kind: u32, slot: SlotId) -> Named
    ensures { result ≡ record { kind = kind; slot = Some slot; frame = 0; gets_frame = false } }
{
    Named {
        kind,
        slot: Some(slot),
        frame: 0,
        gets_frame: false,
    }
}

/// What it shows of a call that names no slot.
fn gets(kind: u32, gets_frame: bool) -> Named
    ensures { result ≡ record { kind = kind; slot = None; frame = 0; gets_frame = gets_frame } }
{
    Named {
        kind,
        slot: None,
        frame: 0,
        gets_frame,
    }
}

/// What a queue's history shows of a call before it is made.
pub(crate) fn named_of<B: TableName>(queue: QueueId, call: &QCall<B>) -> Named
    ensures { result ≡ named_of queue call.now }
{
    match call {
        QCall::Connect => gets(1, false),
        QCall::Disconnect => gets(2, false),
        QCall::MaxDequeued(_) => gets(3, false),
        QCall::Async(_) => gets(4, false),
        QCall::Dequeue { .. } => gets(5, false),
        QCall::Request(lease) => names(6, named_slot(queue, lease.queue, lease.slot)),
        QCall::Queue { lease, picture, .. } => Named {
            kind: 7,
            slot: Some(queued_slot(queue, lease, picture)),
            frame: 0,
            gets_frame: true,
        },
        QCall::Cancel(lease, _) => names(8, named_slot(queue, lease.queue, lease.slot)),
        QCall::Detach(lease) => names(9, named_slot(queue, lease.queue, lease.slot)),
        QCall::Attach(_) => gets(10, false),
        QCall::MaxAcquired(_) => gets(11, false),
        QCall::Abandon => gets(12, false),
        QCall::Acquire(_) => gets(13, true),
        QCall::Release(lease, _) => Named {
            kind: 14,
            slot: Some(named_slot(queue, lease.queue, lease.slot)),
            frame: lease.frame,
            gets_frame: false,
        },
        QCall::DetachRead(lease) => Named {
            kind: 15,
            slot: Some(named_slot(queue, lease.queue, lease.slot)),
            frame: lease.frame,
            gets_frame: false,
        },
        QCall::AttachRead(_) => gets(16, false),
    }
}

/// The slot of a lease that a reply gives.
fn got_slot<B: TableName>(gives: &Gives<B>) -> SlotId
    ensures { result ≡ got_slot gives.now }
{
    match gives {
        Gives::Write(lease) => lease.slot,
        Gives::Read(lease) => lease.slot,
        _ => SlotId(u32::MAX),
    }
}

/// The second of the values, 0 where there is none.
fn second_or_zero(values: &[u64]) -> u64
    ensures { result ≡ second_or 0 values.now }
{
    match values {
        [_, second, ..] => *second,
        _ => 0,
    }
}

/// The entry of a call with its reply.
pub(crate) fn shown<B: TableName>(by: u32, step: u32, named: Named, reply: &QReply<B>) -> HistEntry
    ensures { result ≡ shown_with by step named reply.now }
{
    let slot = match named.slot {
        Some(slot) => slot,
        None => got_slot(&reply.gives),
    };
    HistEntry {
        caller: by,
        step,
        kind: named.kind,
        status: reply.status.number(),
        slot: slot.0,
        frame: if named.gets_frame {
            second_or_zero(reply.values.as_slice())
        } else {
            named.frame
        },
    }
}
