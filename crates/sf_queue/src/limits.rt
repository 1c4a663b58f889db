//! The producer's settings: how many buffers it may hold, and whether a new frame takes the place
//! of a waiting one.
ghost use Rattle.std.specs.Prelude.{◌≡◌, None, OnOk, OnErr, false};
ghost use Rattle.sf_base.specs.declared.ids.ActorId.{ActorId};
ghost use Rattle.sf_slots.specs.declared.calls.PlainCall.TheVariants as call;
ghost use Rattle.sf_slots.specs.declared.calls.PlainReply.TheVariants as reply;
ghost use Rattle.sf_slots.specs.Queue.{told_of, configured};
ghost use Rattle.sf_slots.specs.Replies.{refusal_of, refused_or};
ghost use Rattle.sf_slots.specs.Told.{forbids, usable};
ghost use Rattle.sf_slots.specs.Tells.{Continues};
ghost use Rattle.sf_slots.specs.Effects.{refusal_in, nobody};

use sf_base::QStatus;
use sf_slots::{Settings, SlotState, Slots};

/// The first cause that is met: abandoned; not 1 to 63; fewer than are dequeued; the slots do not
/// allow it.
fn max_dequeued_refusal<R: Drop>(q: &Slots<R>, n: u32) -> Option<QStatus>
    ensures refusal { result ≡ refusal_of (told_of q.now) nobody (call.MaxDequeued n) }
    ensures allowed { result ≡ None → forbids (told_of q.now) (usable (record q.now.settings { max_dequeued = n })) ≡ false }
{
    let settings = q.settings();
    if settings.abandoned {
        Some(QStatus::NoInit)
    } else if n < 1 || n > 63 {
        Some(QStatus::BadValue)
    } else if n < q.count(SlotState::Dequeued) {
        Some(QStatus::BadValue)
    } else if q.forbids(settings.max_acquired, n, settings.asynchronous) {
        Some(QStatus::BadValue)
    } else {
        None
    }
}

/// Sets how many buffers the producer may hold.
///
/// NoInit on an abandoned queue; BadValue where the number is not 1 to 63, or is below the number of
/// buffers that the producer holds, or would make more than 64 slots usable, or would leave a slot
/// that is not free outside the usable ones.
pub fn set_max_dequeued<R: Drop>(q: &mut Slots<R>, n: u32) -> Result<(), QStatus>
    ensures refusal { refusal_in result ≡ refusal_of (told_of q.old) nobody (call.MaxDequeued n) }
    ensures unchanged { OnErr result (q.new ≡ q.old) }
    ensures done { OnOk result (q.new ≡ configured q.old (record q.old.settings { max_dequeued = n })) }
    ensures history { (by : ActorId) →
        Continues q.old q.new by (call.MaxDequeued n) (refused_or (refusal_in result) reply.Done) }
{
    if let Some(refused) = max_dequeued_refusal(q, n) {
        return Err(refused);
    }
    let settings = q.settings();
    q.configure(Settings {
        max_dequeued: n,
        ..settings
    });
    Ok(())
}

/// The first cause that is met: abandoned; the slots do not allow it.
fn async_refusal<R: Drop>(q: &Slots<R>, on: bool) -> Option<QStatus>
    ensures refusal { result ≡ refusal_of (told_of q.now) nobody (call.Async on) }
    ensures allowed { result ≡ None → forbids (told_of q.now) (usable (record q.now.settings { asynchronous = on })) ≡ false }
{
    let settings = q.settings();
    if settings.abandoned {
        Some(QStatus::NoInit)
    } else if q.forbids(settings.max_acquired, settings.max_dequeued, on) {
        Some(QStatus::BadValue)
    } else {
        None
    }
}

/// Sets whether a frame takes the place of the one that waits before it.
///
/// NoInit on an abandoned queue; BadValue where the mode would make more than 64 slots usable, or
/// would leave a slot that is not free outside the usable ones.
pub fn set_async<R: Drop>(q: &mut Slots<R>, on: bool) -> Result<(), QStatus>
    ensures refusal { refusal_in result ≡ refusal_of (told_of q.old) nobody (call.Async on) }
    ensures unchanged { OnErr result (q.new ≡ q.old) }
    ensures done { OnOk result (q.new ≡ configured q.old (record q.old.settings { asynchronous = on })) }
    ensures history { (by : ActorId) →
        Continues q.old q.new by (call.Async on) (refused_or (refusal_in result) reply.Done) }
{
    if let Some(refused) = async_refusal(q, on) {
        return Err(refused);
    }
    let settings = q.settings();
    q.configure(Settings {
        asynchronous: on,
        ..settings
    });
    Ok(())
}
