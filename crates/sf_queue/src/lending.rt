//! A buffer comes to the producer: it is dequeued, or a buffer of its own is attached.
ghost use Rattle.std.specs.Prelude.{◌≡◌, ◌<◌, ◌≤◌, ◌-◌, ◌^◌, OnOk, OnErr, IfErr, IfOk, None, Some, true, false, is_some, if◌then◌else◌};
ghost use Rattle.sf_slots.specs.declared.calls.PlainCall.TheVariants as call;
ghost use Rattle.sf_slots.specs.Tells.{Continues};
ghost use Rattle.std.specs.Prelude.{ℕ, Bool};
ghost use Rattle.sf_slots.specs.declared.slot.SlotState.TheVariants as state;
ghost use Rattle.sf_slots.specs.Queue.{told_of, slot_in, right_in, next_held, lent, seated, IsSound};
ghost use Rattle.sf_slots.specs.Told.{slot_for};
ghost use Rattle.sf_slots.specs.Replies.{refusal_of, is_producer_full, is_wrong_size, size_asked, has_size};
ghost use Rattle.sf_slots.specs.Effects.{refusal_in, refusal_with};
ghost use Rattle.sf_queue.specs.Lending.{IsSlotFor, IsChosen, takes_fresh, sized, dequeue_reply, dequeued_reply, attach_reply, IsGiven};

use crate::connection::is_producer;
use sf_base::{ActorId, Fence, QStatus, SlotId};
use sf_slots::{Held, Settings, SlotState, Slots};

/// A buffer that is lent to the producer: its slot, its number and size, whether it is new, the fence
/// to wait for before it is written, the right to write it, and the right to the buffer that it took
/// the place of.
#[derive(Drop)]
pub struct Dequeued<R> {
    pub slot: SlotId,
    pub held: Held,
    pub reallocated: bool,
    pub fence: Fence,
    pub right: R,
    pub old: Option<R>,
}

/// Whether the producer holds as many buffers as it may. Before anything was queued it may hold more.
fn is_producer_full<R: Drop>(q: &Slots<R>) -> bool
    ensures { result ≡ is_producer_full (told_of q.now) }
{
    let settings = q.settings();
    settings.queued && settings.max_dequeued <= q.count(SlotState::Dequeued)
}

/// Whether no buffer of this size can be asked for.
fn is_wrong_size(width: u32, height: u32) -> bool
    ensures { result ≡ is_wrong_size width height }
{
    (width == 0 && height != 0) || ((width != 0 && height == 0) || (512 < width || 512 < height))
}

/// The size that is asked for, where 0 by 0 means the default.
fn size_asked(settings: &Settings, width: u32, height: u32) -> (u32, u32)
    ensures { result ≡ size_asked settings.now width height }
{
    if width == 0 && height == 0 {
        (settings.width, settings.height)
    } else {
        (width, height)
    }
}

/// Whether there is a buffer, of this width and height.
fn has_size(held: Option<Held>, size: (u32, u32)) -> bool
    ensures { result ≡ has_size held size }
{
    match held {
        Some(held) => held.width == size.0 && held.height == size.1,
        None => false,
    }
}

/// The slot to lend for a dequeue of this size.
fn slot_to_dequeue<R: Drop>(
    q: &Slots<R>,
    by: ActorId,
    width: u32,
    height: u32,
) -> Result<SlotId, QStatus>
    ensures refusal { refusal_in result ≡ refusal_of (told_of q.now) by (call.Dequeue width height false) }
    ensures chosen { IfOk result (IsSlotFor true q.now) }
    ensures sound { IsSound q.now }
{
    let settings = q.settings();
    if settings.abandoned || !is_producer(settings.connected, by) {
        return Err(QStatus::NoInit);
    }
    if is_wrong_size(width, height) {
        return Err(QStatus::BadValue);
    }
    if is_producer_full(q) {
        return Err(QStatus::InvalidOperation);
    }
    match q.next_free(true) {
        Some(slot) => Ok(slot),
        None => Err(QStatus::WouldBlock),
    }
}

/// What a dequeue that is not refused lends.
#[derive(Clone, Copy)]
pub struct Chosen {
    pub slot: SlotId,
    /// The size that is asked for, in pixels.
    pub width: u32,
    pub height: u32,
    /// Whether it needs a new buffer: where the slot has none, or one of another size.
    pub needs: bool,
    /// Whether the buffer in the slot is requested.
    pub requested: bool,
}

/// The refusal that a dequeue would get, or what it lends.
pub fn choose<R: Drop>(
    q: &Slots<R>,
    by: ActorId,
    width: u32,
    height: u32,
) -> Result<Chosen, QStatus>
    ensures refusal { refusal_in result ≡ refusal_of (told_of q.now) by (call.Dequeue width height false) }
    ensures chosen { IfOk result (IsChosen q.now by width height) }
{
    let slot = slot_to_dequeue(q, by, width, height)?;
    let size = size_asked(&q.settings(), width, height);
    let known = q.slot(slot);
    Ok(Chosen {
        slot,
        width: size.0,
        height: size.1,
        needs: !has_size(known.held, size),
        requested: known.requested,
    })
}

/// Lends the producer a buffer of this size in pixels, 0 by 0 for the queue's default size: that of
/// the slot freed longest ago, or else one in the lowest slot without a buffer. Where the slot's
/// buffer has another size, or there is none, `fresh` becomes the right to a new buffer, with no
/// fence, and the right to the one that goes comes back as `old`. Otherwise the right that lay in the
/// slot comes with the fence that it stored.
///
/// NoInit on an abandoned queue, and to another than the connected producer; BadValue where one side
/// alone is 0, or one exceeds 512; InvalidOperation where something was queued since the connection
/// and the producer holds as many buffers as it may; WouldBlock where no slot that may be used is
/// free. A refusal hands `fresh` back.
pub fn dequeue<R: Drop>(
    q: &mut Slots<R>,
    by: ActorId,
    width: u32,
    height: u32,
    fresh: Option<R>,
) -> Result<Dequeued<R>, (QStatus, Option<R>)>
    requires fresh { is_some fresh ≡ takes_fresh (told_of q.old) by width height }
    requires numbered { q.old.settings.buffers < 2 ^ 64 - 1 }
    ensures refusal { refusal_with result ≡ refusal_of (told_of q.old) by (call.Dequeue width height false) }
    ensures back { IfErr result (λ refused. refused.1 ≡ fresh) }
    ensures unchanged { OnErr result (q.new ≡ q.old) }
    ensures given { IfOk result (IsGiven q.old q.new width height fresh) }
    ensures history { (wait : Bool) →
        Continues q.old q.new by (call.Dequeue width height wait) (dequeue_reply q.old result) }
{
    match choose(q, by, width, height) {
        Ok(chosen) => Ok(dequeue_chosen(q, by, width, height, chosen, fresh)),
        Err(refused) => Err((refused, fresh)),
    }
}

/// Lends the buffer that `choose` returned. It does what `dequeue` does.
pub fn dequeue_chosen<R: Drop>(
    q: &mut Slots<R>,
    by: ActorId,
    width: u32,
    height: u32,
    chosen: Chosen,
    fresh: Option<R>,
) -> Dequeued<R>
    requires chosen { IsChosen q.old by width height chosen }
    requires fresh { is_some fresh ≡ chosen.needs }
    requires numbered { q.old.settings.buffers < 2 ^ 64 - 1 }
    ensures given { IsGiven q.old q.new width height fresh result }
    ensures history { (wait : Bool) →
        Continues q.old q.new by (call.Dequeue width height wait) (dequeued_reply q.old result) }
{
    let slot = chosen.slot;
    let known = q.held(slot);
    let (right, fence) = q.lend(slot);
    match (fresh, right, known) {
        (Some(right), old, _) => Dequeued {
            slot,
            held: q.seat(slot, chosen.width, chosen.height, false),
            reallocated: true,
            fence: Fence::none(),
            right,
            old,
        },
        (None, Some(right), Some(held)) => Dequeued {
            slot,
            held,
            reallocated: false,
            fence,
            right,
            old: None,
        },
        _ => unreachable!(),
    }
}

/// The slot for a buffer of the producer's own.
fn slot_to_attach<R: Drop>(q: &Slots<R>, by: ActorId) -> Result<SlotId, QStatus>
    ensures refusal { refusal_in result ≡ refusal_of (told_of q.now) by (call.Attach (sized 0 0)) }
    ensures chosen { IfOk result (IsSlotFor false q.now) }
    ensures sound { IsSound q.now }
{
    let settings = q.settings();
    if settings.abandoned || !is_producer(settings.connected, by) {
        return Err(QStatus::NoInit);
    }
    if is_producer_full(q) {
        return Err(QStatus::InvalidOperation);
    }
    match q.next_free(false) {
        Some(slot) => Ok(slot),
        None => Err(QStatus::WouldBlock),
    }
}

/// Puts a buffer of the producer's own, of this size in pixels, into a free slot, which is lent to the
/// producer then, requested and with no fence: the lowest one without a buffer, or else the one freed
/// longest ago, whose buffer is dropped.
///
/// NoInit on an abandoned queue, and to another than the connected producer; InvalidOperation where
/// something was queued since the connection and the producer holds as many buffers as it may;
/// WouldBlock where no slot that may be used is free.
pub fn attach<R: Drop>(
    q: &mut Slots<R>,
    by: ActorId,
    width: u32,
    height: u32,
) -> Result<(SlotId, Held), QStatus>
    requires wide { 1 ≤ width }
    requires narrow { width ≤ 512 }
    requires high { 1 ≤ height }
    requires low { height ≤ 512 }
    requires numbered { q.old.settings.buffers < 2 ^ 64 - 1 }
    ensures refusal { refusal_in result ≡ refusal_of (told_of q.old) by (call.Attach (sized width height)) }
    ensures slot { IfOk result (λ given. slot_for false (told_of q.old) ≡ Some given.0.0) }
    ensures held { IfOk result (λ given. given.1 ≡ next_held q.old width height) }
    ensures unchanged { OnErr result (q.new ≡ q.old) }
    ensures done { IfOk result (λ given. q.new ≡ seated (lent q.old given.0.0) given.0.0 width height true) }
    ensures history { (number : ℕ) →
        Continues q.old q.new by (call.Attach (record { number = number; width = width; height = height }))
        (attach_reply result) }
{
    match slot_to_attach(q, by) {
        Ok(slot) => {
            let _ = q.lend(slot);
            let held = q.seat(slot, width, height, true);
            Ok((slot, held))
        }
        Err(refused) => Err(refused),
    }
}
