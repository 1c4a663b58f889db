//! A frame comes to the consumer: the first in line that is not late, where it is due.
ghost use Rattle.std.specs.Prelude.{◌≡◌, ◌<◌, ◌+◌, OnErr, IfOk, Some, None, true, not, ◌||◌, is_none, length, slice_get};
ghost use Rattle.sf_slots.specs.declared.calls.PlainCall.TheVariants as call;
ghost use Rattle.sf_base.specs.declared.ids.ActorId.{ActorId};
ghost use Rattle.sf_slots.specs.Queue.{told_of, IsSound};
ghost use Rattle.sf_slots.specs.Replies.{refusal_of, is_due_if_there, front_after_drops};
ghost use Rattle.sf_slots.specs.Tells.{Continues};
ghost use Rattle.sf_slots.specs.Effects.{refusal_in, nobody};
ghost use Rattle.sf_consume.specs.Acquiring.{second_time, goes_first, is_front_due, acquire_reply, Drops, IsAcquired};

use crate::leases::is_consumer_full;
use sf_base::QStatus;
use sf_slots::{Item, Slots};

/// A frame that the consumer holds, and how many frames were dropped before it.
#[derive(Drop)]
pub struct Acquired<R> {
    pub item: Item<R>,
    pub dropped: u32,
}

/// A second, in nanoseconds: a time further off than this is no real present time.
const SECOND: u128 = 1_000_000_000;

/// Whether the first item is dropped: its time is explicit, and that of the next one has come, and
/// not more than a second ago.
fn drops_front<R: Drop>(q: &Slots<R>, expected: u64) -> bool
    ensures { result ≡ goes_first expected (slice_get q.now.items 0) (second_time q.now.items) }
{
    match (q.front(), q.second_time()) {
        (Some(front), Some(time)) => {
            front.time.is_some()
                && (expected != 0
                    && (time <= expected && u128::from(expected) <= u128::from(time) + SECOND))
        }
        _ => false,
    }
}

/// Whether the first item is due: no time is expected, or its time has come, or lies more than a
/// second ahead.
fn front_is_due<R: Drop>(q: &Slots<R>, expected: u64) -> bool
    ensures { result ≡ is_front_due expected (slice_get q.now.items 0) }
{
    match q.front() {
        Some(front) => {
            let time = front.time.unwrap_or(0);
            expected == 0 || (time <= expected || u128::from(expected) + SECOND < u128::from(time))
        }
        None => true,
    }
}

/// Drops items from the front while they are late, and answers how many.
fn drop_late<R: Drop>(q: &mut Slots<R>, expected: u64) -> u32
    ensures { Drops expected q.old q.new result }
{
    let _count = q.len();
    let mut dropped = 0;
    while drops_front(q, expected) {
        q.drop_front();
        dropped += 1;
    }
    dropped
}

/// Whether an item waits.
fn has_items<R: Drop>(q: &Slots<R>) -> bool
    ensures value { result ≡ not (is_none (slice_get (told_of q.now).items 0)) }
    ensures there { result ≡ true → 0 < length q.now.items }
{
    0 < q.len()
}

fn either(goes: bool, due: bool) -> bool
    ensures { result ≡ (goes || due) }
{
    goes || due
}

/// Whether the item that would be acquired is not due. After a drop it always is.
fn is_early<R: Drop>(q: &Slots<R>, expected: u64) -> bool
    ensures { result ≡ not (is_due_if_there expected (front_after_drops expected (told_of q.now))) }
{
    !either(drops_front(q, expected), front_is_due(q, expected))
}

/// The first cause that is met: abandoned; the consumer holds one buffer more than its limit; no
/// item; the item is not due.
fn acquire_refusal<R: Drop>(q: &Slots<R>, expected: u64) -> Option<QStatus>
    ensures refusal { result ≡ refusal_of (told_of q.now) nobody (call.Acquire expected) }
    ensures there { result ≡ None → 0 < length q.now.items }
    ensures sound { IsSound q.now }
{
    if q.settings().abandoned {
        Some(QStatus::NoInit)
    } else if is_consumer_full(q) {
        Some(QStatus::InvalidOperation)
    } else if !has_items(q) {
        Some(QStatus::NoBuffer)
    } else if is_early(q, expected) {
        Some(QStatus::PresentLater)
    } else {
        None
    }
}

/// Takes the first item that is not late, for the present time that is expected, in nanoseconds, 0
/// where none is. Items in front of it are dropped: an item with a time of its own goes where the
/// time of the next one has come, not more than a second ago. The slots of dropped items are freed
/// with their fences and their rights.
///
/// NoInit on an abandoned queue; InvalidOperation where the consumer holds one buffer more than its
/// limit; NoBuffer where no item waits; PresentLater where the first item's time lies ahead, but not
/// more than a second.
pub fn acquire<R: Drop>(q: &mut Slots<R>, expected: u64) -> Result<Acquired<R>, QStatus>
    ensures refusal { refusal_in result ≡ refusal_of (told_of q.old) nobody (call.Acquire expected) }
    ensures unchanged { OnErr result (q.new ≡ q.old) }
    ensures given { IfOk result (IsAcquired q.old q.new expected) }
    ensures history { (by : ActorId) →
        Continues q.old q.new by (call.Acquire expected) (acquire_reply result) }
{
    if let Some(refused) = acquire_refusal(q, expected) {
        return Err(refused);
    }
    let dropped = drop_late(q, expected);
    let item = q.take_front();
    Ok(Acquired { item, dropped })
}
