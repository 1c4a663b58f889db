//! What calls say of tokens, as plain data, for the history and for the queue's own tests.
ghost use Rattle.std.specs.Prelude.{◌≡◌};
ghost use Rattle.sf_surface.specs.Calls.{named_slot, queued_slot, queued_token, read_token, shows_other, write_token};
ghost use Rattle.sf_surface.specs.Pictures.{same_picture};
ghost use Rattle.sf_surface.specs.Tokens.{is_drawn};

use crate::token::{ReadLease, WriteLease};
use crate::work::Work;
use sf_base::{QueueId, SlotId};
use sf_slots::Held;
use sf_turns::TableName;
use sf_turns::sf_picture::Picture;

/// What a lease says of its buffer to a queue.
#[derive(Clone, Copy)]
pub(crate) struct Said {
    pub(crate) slot: SlotId,
    pub(crate) held: Held,
}

/// What a lease says of its frame to a queue.
#[derive(Clone, Copy)]
pub(crate) struct SaidFrame {
    pub(crate) slot: SlotId,
    pub(crate) frame: u64,
    pub(crate) held: Held,
}

/// Whether two pictures are the same.
pub(crate) fn is_same(a: &Picture, b: &Picture) -> bool
    ensures { result ≡ same_picture a.now b.now }
{
    a.is_same(b)
}

/// The slot that a token names here: none where it is of another queue.
pub(crate) fn named_slot(queue: QueueId, of: QueueId, slot: SlotId) -> SlotId
    ensures { result ≡ named_slot queue of slot }
{
    if of.0 == queue.0 {
        slot
    } else {
        SlotId(u32::MAX)
    }
}

/// Whether another picture than this one was drawn.
fn shows_other(work: &Work, picture: &Picture) -> bool
    ensures { result ≡ shows_other work.now picture.now }
{
    match work {
        Work::Fresh(_) => false,
        Work::Drawn(_, pixels) => !is_same(pixels.picture(), picture),
    }
}

/// What a call says of a lease to write.
pub(crate) fn said_of<B: TableName>(queue: QueueId, lease: &WriteLease<B>) -> Said
    ensures slot { result.slot ≡ (write_token queue lease.now).slot }
    ensures held { result.held ≡ (write_token queue lease.now).held }
{
    Said {
        slot: named_slot(queue, lease.queue, lease.slot),
        held: lease.held,
    }
}

/// The slot that a call names that queues a lease with this picture: none where another was drawn.
pub(crate) fn queued_slot<B: TableName>(
    queue: QueueId,
    lease: &WriteLease<B>,
    picture: &Picture,
) -> SlotId
    ensures { result ≡ queued_slot queue lease.now picture.now }
{
    if shows_other(&lease.work, picture) {
        SlotId(u32::MAX)
    } else {
        named_slot(queue, lease.queue, lease.slot)
    }
}

/// What a call says of a lease that it queues.
pub(crate) fn queued_said<B: TableName>(
    queue: QueueId,
    lease: &WriteLease<B>,
    picture: &Picture,
) -> Said
    ensures slot { result.slot ≡ (queued_token queue lease.now picture.now).slot }
    ensures held { result.held ≡ (queued_token queue lease.now picture.now).held }
{
    Said {
        slot: queued_slot(queue, lease, picture),
        held: lease.held,
    }
}

/// What a call says of a lease to read.
pub(crate) fn read_said<B: TableName>(queue: QueueId, lease: &ReadLease<B>) -> SaidFrame
    ensures slot { result.slot ≡ (read_token queue lease.now).slot }
    ensures frame { result.frame ≡ lease.now.frame }
    ensures held { result.held ≡ (read_token queue lease.now).held }
{
    SaidFrame {
        slot: named_slot(queue, lease.queue, lease.slot),
        frame: lease.frame,
        held: lease.held,
    }
}
