//! A producer connects to the queue, before all its other calls, and disconnects.
ghost use Rattle.std.specs.Prelude.{◌≡◌, ◌<◌, ◌-◌, OnOk, OnErr, Some, None, false};
ghost use Rattle.sf_base.specs.declared.ids.ActorId.{ActorId};
ghost use Rattle.sf_slots.specs.declared.calls.PlainCall.TheVariants as call;
ghost use Rattle.sf_slots.specs.declared.calls.PlainReply.TheVariants as reply;
ghost use Rattle.sf_slots.specs.Queue.{told_of, configured, IsSound};
ghost use Rattle.sf_slots.specs.Replies.{refusal_of, refused_or, is_producer};
ghost use Rattle.sf_slots.specs.Tells.{Continues};
ghost use Rattle.sf_slots.specs.Effects.{refusal_in, disconnected, vacated, vacated_all, all_vacated};
ghost use Rattle.std.specs.List.{range_with_len};

use sf_base::{ActorId, QStatus, SlotId};
use sf_slots::{Settings, SlotState, Slots};

/// Whether the caller is the connected producer.
pub(crate) fn is_producer(connected: Option<ActorId>, by: ActorId) -> bool
    ensures { result ≡ is_producer connected by }
{
    match connected {
        Some(producer) => producer.0 == by.0,
        None => false,
    }
}

/// The first cause that is met: abandoned; connected already.
fn connect_refusal<R: Drop>(q: &Slots<R>, by: ActorId) -> Option<QStatus>
    ensures { result ≡ refusal_of (told_of q.now) by call.Connect }
{
    let settings = q.settings();
    if settings.abandoned {
        Some(QStatus::NoInit)
    } else if settings.connected.is_some() {
        Some(QStatus::BadValue)
    } else {
        None
    }
}

/// Makes the caller the queue's producer. Nothing counts as queued then.
///
/// NoInit on an abandoned queue; BadValue where somebody is connected.
pub fn connect<R: Drop>(q: &mut Slots<R>, by: ActorId) -> Result<(), QStatus>
    ensures refusal { refusal_in result ≡ refusal_of (told_of q.old) by call.Connect }
    ensures unchanged { OnErr result (q.new ≡ q.old) }
    ensures done { OnOk result (q.new ≡ configured q.old (record q.old.settings { connected = Some by; queued = false })) }
    ensures history { Continues q.old q.new by call.Connect (refused_or (refusal_in result) reply.Done) }
{
    if let Some(refused) = connect_refusal(q, by) {
        return Err(refused);
    }
    let settings = q.settings();
    q.configure(Settings {
        connected: Some(by),
        queued: false,
        ..settings
    });
    Ok(())
}

/// The one cause: abandoned, or the caller is not the connected producer.
fn disconnect_refusal<R: Drop>(q: &Slots<R>, by: ActorId) -> Option<QStatus>
    ensures refusal { result ≡ refusal_of (told_of q.now) by call.Disconnect }
    ensures sound { IsSound q.now }
{
    let settings = q.settings();
    if settings.abandoned || !is_producer(settings.connected, by) {
        Some(QStatus::NoInit)
    } else {
        None
    }
}

/// Takes the buffer out of a slot that is free or lent.
fn vacate<R: Drop>(q: &mut Slots<R>, slot: SlotId)
    requires { slot.0 < 64 }
    ensures { q.new ≡ vacated q.old slot.0 }
{
    match q.state(slot) {
        SlotState::Free | SlotState::Dequeued => {
            let _ = q.clear(slot);
        }
        SlotState::Queued | SlotState::Acquired => {}
    }
}

/// Goes through the slots and takes their buffers out.
fn vacate_all<R: Drop>(q: &mut Slots<R>)
    ensures { q.new ≡ vacated_all q.old (range_with_len 0 64) }
{
    for slot in 0..64u32 {
        vacate(q, SlotId(slot));
    }
}

/// Takes the buffers out of every slot that is free or lent.
fn vacate_every<R: Drop>(q: &mut Slots<R>)
    ensures { q.new ≡ all_vacated q.old }
{
    vacate_all(q);
}

/// Ends the producer's connection. Free and lent slots lose their buffers, no buffer counts as
/// requested, and queued and acquired slots stay.
///
/// NoInit on an abandoned queue, and to another than the connected producer.
pub fn disconnect<R: Drop>(q: &mut Slots<R>, by: ActorId) -> Result<(), QStatus>
    ensures refusal { refusal_in result ≡ refusal_of (told_of q.old) by call.Disconnect }
    ensures unchanged { OnErr result (q.new ≡ q.old) }
    ensures done { OnOk result (q.new ≡ disconnected q.old) }
    ensures history { Continues q.old q.new by call.Disconnect (refused_or (refusal_in result) reply.Done) }
{
    if let Some(refused) = disconnect_refusal(q, by) {
        return Err(refused);
    }
    vacate_every(q);
    q.unmark_all();
    let settings = q.settings();
    q.configure(Settings {
        connected: None,
        ..settings
    });
    Ok(())
}
