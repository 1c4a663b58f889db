//! From a call to the function that makes it on the slots: each call of an actor or of the
//! compositor comes through here.
ghost use Rattle.std.specs.Prelude.{◌≡◌, ◌<◌, ◌-◌, ◌^◌, vec_capacity};
ghost use Rattle.sf_calls.specs.Outcomes.{IfDone, IfNotYet, IfNoMemory};
ghost use Rattle.sf_slots.specs.Queue.{IsSound};
ghost use Rattle.sf_surface.specs.Histories.{HasNotWaited};
ghost use Rattle.sf_surface.specs.Inside.{HasDefaultSize, HasRoomFor};
ghost use Rattle.sf_surface.specs.Marks.{PermitFits, outcome_of};
ghost use Rattle.sf_surface.specs.Objects.{AreRights, Does, WaitsForSlot};

use crate::attaching::attach;
use crate::call::{QCall, QReply};
use crate::cancelling::cancel;
use crate::connecting::{connect, disconnect};
use crate::consuming::{acquire, attach_read, detach_read, release};
use crate::context::Context;
use crate::detaching::detach;
use crate::lending::{DequeueInput, dequeue};
use crate::queueing::{QueueInput, queue};
use crate::requesting::request;
use crate::settings::{abandon, set_async, set_max_acquired, set_max_dequeued};
use crate::values::Room;
use sf_base::NoMemory;
use sf_calls::Outcome;
use sf_slots::Slots;
use sf_turns::sf_picture::Painted;
use sf_turns::{TableName, Turn};

/// The outcome of a call that finds no memory or is done.
fn outcome<B: TableName>(
    tried: Result<QReply<B>, (NoMemory, QCall<B>)>,
) -> Outcome<QCall<B>, QReply<B>>
    ensures { result ≡ outcome_of tried }
{
    match tried {
        Ok(reply) => Outcome::Done(reply),
        Err((_, call)) => Outcome::NoMemory(call),
    }
}

/// Makes a call on the slots. A dequeue that may wait is not made where no slot is free.
pub(crate) fn dispatch<B: TableName>(
    slots: &mut Slots<Turn<Painted>>,
    context: Context,
    call: QCall<B>,
    room: Room,
) -> Outcome<QCall<B>, QReply<B>>
    requires number { context.queue ≡ slots.old.number }
    requires buffers { slots.old.settings.buffers < 2 ^ 64 - 1 }
    requires frames { slots.old.settings.frames < 2 ^ 64 - 1 }
    requires sized { HasDefaultSize slots.old.settings }
    requires sound { IsSound slots.old }
    requires rights { AreRights B.table slots.old }
    requires permit { PermitFits B.table call }
    requires room { HasRoomFor slots.old call (vec_capacity room.values) }
    ensures done { IfDone result (Does B.table slots.old slots.new context.by call) }
    ensures waited { IfDone result (HasNotWaited call) }
    ensures not_yet { IfNotYet result (WaitsForSlot slots.old slots.new context.by call) }
    ensures no_memory { IfNoMemory result (λ back. (back ≡ call) × (slots.new ≡ slots.old)) }
{
    let Context {
        by,
        queue: number,
        ..
    } = context;
    match call {
        QCall::Connect => Outcome::Done(connect(slots, by, room)),
        QCall::Disconnect => Outcome::Done(disconnect(slots, by, room)),
        QCall::MaxDequeued(n) => Outcome::Done(set_max_dequeued(slots, by, n, room)),
        QCall::Async(on) => Outcome::Done(set_async(slots, by, on, room)),
        QCall::Dequeue {
            width,
            height,
            wait,
            permit,
        } => {
            let input = DequeueInput {
                width,
                height,
                wait,
            };
            dequeue(slots, context, input, permit, room)
        }
        QCall::Request(lease) => Outcome::Done(request(slots, by, number, lease, room)),
        QCall::Queue {
            lease,
            picture,
            time,
            crop,
            fence,
        } => {
            let input = QueueInput {
                picture,
                time,
                crop,
                fence,
            };
            outcome(queue(slots, context, lease, input, room))
        }
        QCall::Cancel(lease, fence) => outcome(cancel(slots, context, lease, fence, room)),
        QCall::Detach(lease) => outcome(detach(slots, context, lease, room)),
        QCall::Attach(loose) => Outcome::Done(attach(slots, by, number, loose, room)),
        QCall::MaxAcquired(n) => Outcome::Done(set_max_acquired(slots, by, n, room)),
        QCall::Abandon => Outcome::Done(abandon(slots, by, room)),
        QCall::Acquire(expected) => Outcome::Done(acquire(slots, by, number, expected, room)),
        QCall::Release(lease, fence) => {
            Outcome::Done(release(slots, by, number, lease, fence, room))
        }
        QCall::DetachRead(lease) => Outcome::Done(detach_read(slots, by, number, lease, room)),
        QCall::AttachRead(loose) => Outcome::Done(attach_read(slots, by, number, loose, room)),
    }
}
