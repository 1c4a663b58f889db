//! The consumer's limit, and how it gives the queue up.
ghost use Rattle.std.specs.Prelude.{◌≡◌, None, OnOk, OnErr, false};
ghost use Rattle.sf_slots.specs.declared.calls.PlainCall.TheVariants as call;
ghost use Rattle.sf_base.specs.declared.ids.ActorId.{ActorId};
ghost use Rattle.sf_slots.specs.declared.calls.PlainReply.TheVariants as reply;
ghost use Rattle.sf_slots.specs.Queue.{told_of, configured, given_up};
ghost use Rattle.sf_slots.specs.Replies.{refusal_of, refused_or};
ghost use Rattle.sf_slots.specs.Told.{forbids, usable};
ghost use Rattle.sf_slots.specs.Tells.{Continues};
ghost use Rattle.sf_slots.specs.Effects.{refusal_in, nobody};

use sf_base::QStatus;
use sf_slots::{Settings, Slots};

/// The first cause that is met: abandoned; not 1 to 62; a producer is connected; the slots do not
/// allow it.
fn max_acquired_refusal<R: Drop>(q: &Slots<R>, n: u32) -> Option<QStatus>
    ensures refusal { result ≡ refusal_of (told_of q.now) nobody (call.MaxAcquired n) }
    ensures allowed { result ≡ None → forbids (told_of q.now) (usable (record q.now.settings { max_acquired = n })) ≡ false }
{
    let settings = q.settings();
    if settings.abandoned {
        Some(QStatus::NoInit)
    } else if n < 1 || n > 62 {
        Some(QStatus::BadValue)
    } else if settings.connected.is_some() {
        Some(QStatus::InvalidOperation)
    } else if q.forbids(n, settings.max_dequeued, settings.asynchronous) {
        Some(QStatus::BadValue)
    } else {
        None
    }
}

/// Sets how many buffers the consumer may hold before it acquires one more.
///
/// NoInit on an abandoned queue; BadValue where the number is not 1 to 62; InvalidOperation while a
/// producer is connected; BadValue where it would make more than 64 slots usable, or would leave a
/// slot that is not free outside the usable ones.
pub fn set_max_acquired<R: Drop>(q: &mut Slots<R>, n: u32) -> Result<(), QStatus>
    ensures refusal { refusal_in result ≡ refusal_of (told_of q.old) nobody (call.MaxAcquired n) }
    ensures unchanged { OnErr result (q.new ≡ q.old) }
    ensures done { OnOk result (q.new ≡ configured q.old (record q.old.settings { max_acquired = n })) }
    ensures history { (by : ActorId) →
        Continues q.old q.new by (call.MaxAcquired n) (refused_or (refusal_in result) reply.Done) }
{
    if let Some(refused) = max_acquired_refusal(q, n) {
        return Err(refused);
    }
    let settings = q.settings();
    q.configure(Settings {
        max_acquired: n,
        ..settings
    });
    Ok(())
}

/// Gives the queue up for good: all slots are free and without buffers, there are no items, and
/// every later call answers NoInit.
///
/// NoInit where the queue is abandoned already.
pub fn abandon<R: Drop>(q: &mut Slots<R>) -> Result<(), QStatus>
    ensures refusal { refusal_in result ≡ refusal_of (told_of q.old) nobody call.Abandon }
    ensures unchanged { OnErr result (q.new ≡ q.old) }
    ensures done { OnOk result (q.new ≡ given_up q.old) }
    ensures history { (by : ActorId) →
        Continues q.old q.new by call.Abandon (refused_or (refusal_in result) reply.Done) }
{
    if q.settings().abandoned {
        return Err(QStatus::NoInit);
    }
    q.abandon();
    Ok(())
}
