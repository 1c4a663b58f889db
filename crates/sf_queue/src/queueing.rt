//! A frame leaves the producer for the consumer: it is refused, or stands in line.
ghost use Rattle.std.specs.Prelude.{◌≡◌, ◌<◌, ◌-◌, ◌^◌, OnOk, OnErr, IfErr, IfOk, None, ◌+◌, ◌+ℤ◌, pos, int_le};
ghost use Rattle.sf_slots.specs.declared.calls.PlainCall.TheVariants as call;
ghost use Rattle.sf_slots.specs.declared.calls.PlainReply.TheVariants as reply;
ghost use Rattle.sf_slots.specs.Queue.{told_of, enqueued, IsSound};
ghost use Rattle.sf_slots.specs.Replies.{refusal_of, refused_or, is_crop_of};
ghost use Rattle.sf_slots.specs.Effects.{refusal_in, refusal_with};
ghost use Rattle.sf_queue.specs.Leases.{lease_of, meant, ContinuesFor, IsLentThere};
ghost use Rattle.sf_queue.specs.Orders.{queue_call, order_call, call_of, item_of};

use crate::leases::lent_to;
use sf_base::{ActorId, Fence, QStatus, Rect, SlotId};
use sf_slots::{Held, Item, Slots};

/// A frame to queue: the slot and buffer that it was drawn into, or will be, the number and size of
/// its picture in pixels, its desired present time in nanoseconds, its acquire fence, the same fence
/// once more for the slot to keep, the part of the buffer to show, and the right to read its pixels.
#[derive(Drop)]
pub struct QueueOrder<R> {
    pub slot: SlotId,
    pub buffer: u64,
    pub picture: u32,
    pub width: u32,
    pub height: u32,
    pub time: Option<u64>,
    pub fence: Fence,
    pub kept: Fence,
    pub crop: Rect,
    pub right: R,
}

/// The size of a frame's picture in pixels, and the part of it to show.
#[derive(Clone, Copy)]
struct CroppedSize {
    width: u32,
    height: u32,
    crop: Rect,
}

/// Whether a coordinate is not before the buffer's first.
fn is_from_start(at: i32) -> bool
    ensures { result ≡ int_le (pos 0) at }
{
    0 <= at
}

/// Whether a span ends in the buffer.
fn ends_within(start: i32, extent: u32, limit: u32) -> bool
    ensures { result ≡ int_le (start +ℤ pos extent) (pos limit) }
{
    i64::from(start) + i64::from(extent) <= i64::from(limit)
}

/// Whether the crop has a point and lies in the buffer.
fn is_crop_of(held: &Held, crop: Rect) -> bool
    ensures { result ≡ is_crop_of held.now crop }
{
    (1 <= crop.width && 1 <= crop.height)
        && ((is_from_start(crop.x) && is_from_start(crop.y))
            && (ends_within(crop.x, crop.width, held.width)
                && ends_within(crop.y, crop.height, held.height)))
}

/// The buffer that a frame may be queued from, whose picture has this size and this crop.
fn queueable<R: Drop>(
    q: &Slots<R>,
    by: ActorId,
    slot: SlotId,
    buffer: u64,
    size: CroppedSize,
) -> Result<Held, QStatus>
    ensures refusal { refusal_in result ≡ refusal_of (told_of q.now) by (queue_call (lease_of (told_of q.now) slot buffer) size.width size.height size.crop) }
    ensures there { IfOk result (IsLentThere (told_of q.now) slot buffer) }
    ensures sound { IsSound q.now }
{
    match lent_to(q, by, slot, buffer) {
        Ok(held) => {
            if !q.slot(slot).requested {
                Err(QStatus::BadValue)
            } else if !(size.width == held.width && size.height == held.height) {
                Err(QStatus::BadValue)
            } else if !is_crop_of(&held, size.crop) {
                Err(QStatus::BadValue)
            } else {
                Ok(held)
            }
        }
        Err(refused) => Err(refused),
    }
}

/// The refusal that queueing a frame would get.
pub fn queue_refusal<R: Drop>(
    q: &Slots<R>,
    by: ActorId,
    slot: SlotId,
    buffer: u64,
    width: u32,
    height: u32,
    crop: Rect,
) -> Option<QStatus>
    ensures { result ≡ refusal_of (told_of q.now) by (queue_call (lease_of (told_of q.now) slot buffer) width height crop) }
{
    let size = CroppedSize {
        width,
        height,
        crop,
    };
    match queueable(q, by, slot, buffer, size) {
        Ok(_) => None,
        Err(refused) => Some(refused),
    }
}

/// Queues a frame and answers its number, which is one more than that of the frame before. In
/// asynchronous mode the frame gives way to the next one: a new frame takes the place of a last one
/// that was queued so, whose slot is freed with its fence and its right.
///
/// NoInit on an abandoned queue, and to another than the connected producer; BadValue where the slot
/// is not lent with this buffer, or the buffer is not requested, or the picture has another size, or
/// the crop is empty or reaches beyond the buffer. A refusal hands the order back.
pub fn queue<R: Drop>(
    q: &mut Slots<R>,
    by: ActorId,
    order: QueueOrder<R>,
) -> Result<u64, (QStatus, QueueOrder<R>)>
    requires numbered { q.old.settings.frames < 2 ^ 64 - 1 }
    requires kept { order.kept ≡ order.fence }
    ensures refusal { refusal_with result ≡ refusal_of (told_of q.old) by (order_call (told_of q.old) order) }
    ensures back { IfErr result (λ refused. refused.1 ≡ order) }
    ensures frame { IfOk result (λ frame. frame ≡ q.old.settings.frames + 1) }
    ensures unchanged { OnErr result (q.new ≡ q.old) }
    ensures done { OnOk result (q.new ≡ enqueued q.old (item_of q.old order)) }
    ensures history { ContinuesFor q.old q.new by order.slot order.buffer (call_of order)
        (refused_or (refusal_with result) (reply.Queued (q.old.settings.frames + 1))) }
{
    let size = CroppedSize {
        width: order.width,
        height: order.height,
        crop: order.crop,
    };
    match queueable(q, by, order.slot, order.buffer, size) {
        Ok(held) => Ok(put(q, order, held)),
        Err(refused) => Err((refused, order)),
    }
}

/// Queues a frame from the buffer in its slot, and answers its number.
fn put<R: Drop>(q: &mut Slots<R>, order: QueueOrder<R>, held: Held) -> u64
    requires numbered { q.old.settings.frames < 2 ^ 64 - 1 }
    requires kept { order.kept ≡ order.fence }
    requires lent { IsLentThere (told_of q.old) order.slot order.buffer held }
    ensures frame { result ≡ q.old.settings.frames + 1 }
    ensures done { q.new ≡ enqueued q.old (item_of q.old order) }
{
    let settings = q.settings();
    let frame = settings.frames + 1;
    let QueueOrder {
        slot,
        buffer: _,
        picture,
        width: _,
        height: _,
        time,
        fence,
        kept,
        crop,
        right,
    } = order;
    let item = Item {
        slot,
        held,
        frame,
        picture,
        time,
        droppable: settings.asynchronous,
        fence,
        crop,
        right,
    };
    let _ = q.enqueue(item, kept);
    frame
}

/// Queues a frame that is known not to be refused, as `queue_refusal` says, and answers its number.
/// It does what `queue` does.
pub fn queue_allowed<R: Drop>(q: &mut Slots<R>, by: ActorId, order: QueueOrder<R>) -> u64
    requires numbered { q.old.settings.frames < 2 ^ 64 - 1 }
    requires kept { order.kept ≡ order.fence }
    requires allowed { refusal_of (told_of q.old) by (order_call (told_of q.old) order) ≡ None }
    ensures frame { result ≡ q.old.settings.frames + 1 }
    ensures done { q.new ≡ enqueued q.old (item_of q.old order) }
    ensures history { ContinuesFor q.old q.new by order.slot order.buffer (call_of order) (reply.Queued (q.old.settings.frames + 1)) }
{
    match lent_to(q, by, order.slot, order.buffer) {
        Ok(held) => put(q, order, held),
        Err(_) => unreachable!(),
    }
}
