//! What the consumer does with a frame that it holds: release it to the queue, or detach it; and a
//! buffer of its own is attached.
ghost use Rattle.std.specs.Prelude.{◌≡◌, ℕ, ◌<◌, ◌≤◌, ◌-◌, ◌^◌, OnOk, OnErr, IfErr, IfOk, Some, None, false};
ghost use Rattle.sf_slots.specs.declared.calls.PlainCall.TheVariants as call;
ghost use Rattle.sf_base.specs.declared.ids.ActorId.{ActorId};
ghost use Rattle.sf_slots.specs.declared.calls.PlainReply.TheVariants as reply;
ghost use Rattle.sf_slots.specs.declared.slot.SlotState.TheVariants as state;
ghost use Rattle.sf_slots.specs.Queue.{told_of, slot_in, returned, cleared, taken, seated, next_held, IsSound};
ghost use Rattle.sf_slots.specs.Told.{slot_at, slot_for};
ghost use Rattle.sf_slots.specs.Replies.{refusal_of, refused_or, is_consumer_full};
ghost use Rattle.sf_slots.specs.Tells.{Continues};
ghost use Rattle.sf_slots.specs.Effects.{refusal_in, refusal_with, nobody};
ghost use Rattle.sf_consume.specs.Reads.{lease_of, sized, attach_reply, ContinuesFor, IsTakenThere};
ghost use Rattle.sf_base.specs.Fences.{no_points};

use sf_base::{Fence, QStatus, SlotId};
use sf_slots::{Held, SlotState, Slots};

/// Whether the slot is with the consumer, for the frame that it names.
fn refused_read<R: Drop>(q: &Slots<R>, slot: SlotId, frame: u64) -> Option<QStatus>
    ensures refusal { result ≡ refusal_of (told_of q.now) nobody (call.DetachRead (lease_of (told_of q.now) slot frame)) }
    ensures there { result ≡ None → IsTakenThere (told_of q.now) slot }
    ensures sound { IsSound q.now }
{
    if q.settings().abandoned {
        return Some(QStatus::NoInit);
    }
    if 64 <= slot.0 {
        return Some(QStatus::BadValue);
    }
    let known = q.slot(slot);
    if known.frame != frame {
        Some(QStatus::Stale)
    } else if known.is_in(SlotState::Acquired) && known.held.is_some() {
        None
    } else {
        Some(QStatus::BadValue)
    }
}

/// Gives an acquired buffer back, with its right and a fence: the slot is free, stores the fence and
/// stands last in the freed list.
///
/// NoInit on an abandoned queue; BadValue where there is no such slot; Stale where the slot's frame
/// number is another; BadValue where the slot is not acquired. A refusal hands right and fence back.
pub fn release<R: Drop>(
    q: &mut Slots<R>,
    slot: SlotId,
    frame: u64,
    right: R,
    fence: Fence,
) -> Result<(), (QStatus, (R, Fence))>
    ensures refusal { refusal_with result ≡ refusal_of (told_of q.old) nobody (call.Release (lease_of (told_of q.old) slot frame) fence) }
    ensures back { IfErr result (λ refused. refused.1 ≡ (right, fence)) }
    ensures unchanged { OnErr result (q.new ≡ q.old) }
    ensures done { OnOk result (q.new ≡ returned q.old slot.0 right fence) }
    ensures history { ContinuesFor q.old q.new slot frame (λ lease. call.Release lease fence) (refused_or (refusal_with result) reply.Done) }
{
    match refused_read(q, slot, frame) {
        Some(refused) => Err((refused, (right, fence))),
        None => {
            q.free(slot, right, fence);
            Ok(())
        }
    }
}

/// Takes an acquired buffer out of the queue: the slot is free and has no buffer. The right stays
/// with the caller.
///
/// NoInit on an abandoned queue; BadValue where there is no such slot; Stale where the slot's frame
/// number is another; BadValue where the slot is not acquired.
pub fn detach_read<R: Drop>(q: &mut Slots<R>, slot: SlotId, frame: u64) -> Result<(), QStatus>
    ensures refusal { refusal_in result ≡ refusal_of (told_of q.old) nobody (call.DetachRead (lease_of (told_of q.old) slot frame)) }
    ensures unchanged { OnErr result (q.new ≡ q.old) }
    ensures done { OnOk result (q.new ≡ cleared q.old slot.0) }
    ensures history { ContinuesFor q.old q.new slot frame (λ lease. call.DetachRead lease) (refused_or (refusal_in result) reply.Done) }
{
    match refused_read(q, slot, frame) {
        Some(refused) => Err(refused),
        None => {
            let _ = q.clear(slot);
            Ok(())
        }
    }
}

/// Whether the consumer holds one buffer more than its limit.
pub(crate) fn is_consumer_full<R: Drop>(q: &Slots<R>) -> bool
    ensures { result ≡ is_consumer_full (told_of q.now) }
{
    q.settings().max_acquired + 1 <= q.count(SlotState::Acquired)
}

/// Puts a buffer of the consumer's own, of this size in pixels, into a free slot, which is acquired
/// then: the lowest one without a buffer, or else the one freed longest ago, whose buffer is dropped.
///
/// NoInit on an abandoned queue; InvalidOperation where the consumer holds one buffer more than its
/// limit; NoSlot where no slot that may be used is free.
pub fn attach_read<R: Drop>(
    q: &mut Slots<R>,
    width: u32,
    height: u32,
) -> Result<(SlotId, Held), QStatus>
    requires wide { 1 ≤ width }
    requires narrow { width ≤ 512 }
    requires high { 1 ≤ height }
    requires low { height ≤ 512 }
    requires numbered { q.old.settings.buffers < 2 ^ 64 - 1 }
    ensures refusal { refusal_in result ≡ refusal_of (told_of q.old) nobody (call.AttachRead (sized width height)) }
    ensures slot { IfOk result (λ given. slot_for false (told_of q.old) ≡ Some given.0.0) }
    ensures held { IfOk result (λ given. given.1 ≡ next_held q.old width height) }
    ensures unchanged { OnErr result (q.new ≡ q.old) }
    ensures done { IfOk result (λ given. q.new ≡ seated (taken q.old given.0.0) given.0.0 width height false) }
    ensures history { (by : ActorId) (number : ℕ) →
        Continues q.old q.new by (call.AttachRead (record { number = number; width = width; height = height }))
        (attach_reply result) }
{
    if q.settings().abandoned {
        return Err(QStatus::NoInit);
    }
    if is_consumer_full(q) {
        return Err(QStatus::InvalidOperation);
    }
    match q.next_free(false) {
        Some(slot) => {
            let _ = q.hold(slot);
            let held = q.seat(slot, width, height, false);
            Ok((slot, held))
        }
        None => Err(QStatus::NoSlot),
    }
}
