//! What a producer does with a buffer that it was lent, other than to queue it: request it, cancel
//! it, detach it.
ghost use Rattle.std.specs.Prelude.{◌≡◌, ◌<◌, OnOk, OnErr, IfErr, IfOk, Option, Some, None, false, true, MatchOption};
ghost use Rattle.sf_slots.specs.declared.calls.PlainCall.TheVariants as call;
ghost use Rattle.sf_slots.specs.declared.calls.PlainReply.TheVariants as reply;
ghost use Rattle.sf_slots.specs.declared.slot.SlotState.TheVariants as state;
ghost use Rattle.sf_slots.specs.Queue.{told_of, slot_in, marked, returned, cleared, IsSound};
ghost use Rattle.sf_slots.specs.Told.{slot_at};
ghost use Rattle.sf_slots.specs.Replies.{refusal_of, refused_or, is_lent};
ghost use Rattle.sf_slots.specs.Effects.{refusal_in, refusal_with};
ghost use Rattle.sf_queue.specs.Leases.{lease_of, lent_call, meant, ContinuesByLease, ContinuesFor, FindsLent, IsLentThere};
ghost use Rattle.sf_base.specs.Fences.{no_points};

use crate::connection::is_producer;
use sf_base::{ActorId, Fence, QStatus, SlotId};
use sf_slots::{Held, SlotState, Slots};

/// The buffer of a slot that is lent to the producer with the buffer of this number.
fn find_lent<R: Drop>(q: &Slots<R>, slot: SlotId, buffer: u64) -> Option<Held>
    requires { IsSound q.now }
    ensures { FindsLent (told_of q.now) slot buffer result }
{
    if slot.0 >= 64 {
        return None;
    }
    let known = q.slot(slot);
    match known.held {
        Some(held) if known.is_in(SlotState::Dequeued) && held.number == buffer => Some(held),
        _ => None,
    }
}

/// The buffer that the producer means, if the slot is lent with it.
pub(crate) fn lent_to<R: Drop>(
    q: &Slots<R>,
    by: ActorId,
    slot: SlotId,
    buffer: u64,
) -> Result<Held, QStatus>
    ensures refusal { refusal_in result ≡ refusal_of (told_of q.now) by (call.Cancel (lease_of (told_of q.now) slot buffer) no_points) }
    ensures there { IfOk result (IsLentThere (told_of q.now) slot buffer) }
    ensures sound { IsSound q.now }
{
    let settings = q.settings();
    if settings.abandoned || !is_producer(settings.connected, by) {
        return Err(QStatus::NoInit);
    }
    match find_lent(q, slot, buffer) {
        Some(held) => Ok(held),
        None => Err(QStatus::BadValue),
    }
}

/// The same, where the buffer has to be requested.
fn requested_by<R: Drop>(
    q: &Slots<R>,
    by: ActorId,
    slot: SlotId,
    buffer: u64,
) -> Result<Held, QStatus>
    ensures refusal { refusal_in result ≡ refusal_of (told_of q.now) by (call.Detach (lease_of (told_of q.now) slot buffer)) }
    ensures there { IfOk result (IsLentThere (told_of q.now) slot buffer) }
    ensures sound { IsSound q.now }
{
    match lent_to(q, by, slot, buffer) {
        Ok(held) => {
            if q.slot(slot).requested {
                Ok(held)
            } else {
                Err(QStatus::BadValue)
            }
        }
        Err(refused) => Err(refused),
    }
}

/// The refusal that cancelling a lent slot would get, or detaching it where `requested` is true.
pub fn lent_refusal<R: Drop>(
    q: &Slots<R>,
    by: ActorId,
    slot: SlotId,
    buffer: u64,
    requested: bool,
) -> Option<QStatus>
    ensures { result ≡ refusal_of (told_of q.now) by (lent_call requested (lease_of (told_of q.now) slot buffer)) }
{
    let found = if requested {
        requested_by(q, by, slot, buffer)
    } else {
        lent_to(q, by, slot, buffer)
    };
    found.err()
}

/// Shows the producer which buffer is in a slot that is lent to it, and marks it as requested.
///
/// NoInit on an abandoned queue, and to another than the connected producer; BadValue where the slot
/// is not lent with this buffer.
pub fn request<R: Drop>(
    q: &mut Slots<R>,
    by: ActorId,
    slot: SlotId,
    buffer: u64,
) -> Result<Held, QStatus>
    ensures refusal { refusal_in result ≡ refusal_of (told_of q.old) by (call.Request (lease_of (told_of q.old) slot buffer)) }
    ensures held { IfOk result (λ held. held ≡ meant (told_of q.old) slot buffer) }
    ensures unchanged { OnErr result (q.new ≡ q.old) }
    ensures done { OnOk result (q.new ≡ marked q.old slot.0) }
    ensures history { ContinuesByLease q.old q.new by slot buffer (λ lease. call.Request lease)
        (λ lease. refused_or (refusal_in result) (reply.Requested lease.held)) }
{
    match lent_to(q, by, slot, buffer) {
        Ok(held) => {
            q.mark_requested(slot);
            Ok(held)
        }
        Err(refused) => Err(refused),
    }
}

/// Gives a lent buffer back unqueued, with its right and a fence: the slot is free, stores the fence
/// and stands last in the freed list.
///
/// NoInit on an abandoned queue, and to another than the connected producer; BadValue where the slot
/// is not lent with this buffer. A refusal hands right and fence back.
pub fn cancel<R: Drop>(
    q: &mut Slots<R>,
    by: ActorId,
    slot: SlotId,
    buffer: u64,
    right: R,
    fence: Fence,
) -> Result<(), (QStatus, (R, Fence))>
    ensures refusal { refusal_with result ≡ refusal_of (told_of q.old) by (call.Cancel (lease_of (told_of q.old) slot buffer) fence) }
    ensures back { IfErr result (λ refused. refused.1 ≡ (right, fence)) }
    ensures unchanged { OnErr result (q.new ≡ q.old) }
    ensures done { OnOk result (q.new ≡ returned q.old slot.0 right fence) }
    ensures history { ContinuesFor q.old q.new by slot buffer (λ lease. call.Cancel lease fence) (refused_or (refusal_with result) reply.Done) }
{
    match lent_to(q, by, slot, buffer) {
        Ok(_) => {
            q.free(slot, right, fence);
            Ok(())
        }
        Err(refused) => Err((refused, (right, fence))),
    }
}

/// Takes a lent and requested buffer out of the queue: the slot is free and has no buffer. The right
/// stays with the caller.
///
/// NoInit on an abandoned queue, and to another than the connected producer; BadValue where the slot
/// is not lent with this buffer, or the buffer is not requested.
pub fn detach<R: Drop>(
    q: &mut Slots<R>,
    by: ActorId,
    slot: SlotId,
    buffer: u64,
) -> Result<(), QStatus>
    ensures refusal { refusal_in result ≡ refusal_of (told_of q.old) by (call.Detach (lease_of (told_of q.old) slot buffer)) }
    ensures unchanged { OnErr result (q.new ≡ q.old) }
    ensures done { OnOk result (q.new ≡ cleared q.old slot.0) }
    ensures history { ContinuesFor q.old q.new by slot buffer (λ lease. call.Detach lease) (refused_or (refusal_in result) reply.Done) }
{
    match requested_by(q, by, slot, buffer) {
        Ok(_) => {
            let _ = q.clear(slot);
            Ok(())
        }
        Err(refused) => Err(refused),
    }
}

/// Gives back a lent buffer that is known not to be refused, as `lent_refusal` says. It does what
/// `cancel` does.
pub fn cancel_allowed<R: Drop>(
    q: &mut Slots<R>,
    by: ActorId,
    slot: SlotId,
    buffer: u64,
    right: R,
    fence: Fence,
)
    requires { refusal_of (told_of q.old) by (lent_call false (lease_of (told_of q.old) slot buffer)) ≡ None }
    ensures done { q.new ≡ returned q.old slot.0 right fence }
    ensures history { ContinuesFor q.old q.new by slot buffer (λ lease. call.Cancel lease fence) reply.Done }
{
    match cancel(q, by, slot, buffer, right, fence) {
        Ok(()) => {}
        Err(_) => unreachable!(),
    }
}

/// Takes out a lent buffer that is known not to be refused, as `lent_refusal` says. It does what
/// `detach` does.
pub fn detach_allowed<R: Drop>(q: &mut Slots<R>, by: ActorId, slot: SlotId, buffer: u64)
    requires { refusal_of (told_of q.old) by (lent_call true (lease_of (told_of q.old) slot buffer)) ≡ None }
    ensures done { q.new ≡ cleared q.old slot.0 }
    ensures history { ContinuesFor q.old q.new by slot buffer (λ lease. call.Detach lease) reply.Done }
{
    match detach(q, by, slot, buffer) {
        Ok(()) => {}
        Err(_) => unreachable!(),
    }
}
