//! The calls that set a queue's limits and its mode, or give it up.
ghost use Rattle.sf_slots.specs.Queue.{IsSound};
ghost use Rattle.sf_surface.specs.declared.call.QCall.TheVariants as call;
ghost use Rattle.sf_surface.specs.Objects.{Does};

use crate::call::{QCall, QReply};
use crate::replies::answer;
use crate::values::Room;
use sf_base::ActorId;
use sf_slots::Slots;
use sf_turns::sf_picture::Painted;
use sf_turns::{TableName, Turn};

/// Sets how many buffers the producer may hold.
pub(crate) fn set_max_dequeued<B: TableName>(
    slots: &mut Slots<Turn<Painted>>,
    by: ActorId,
    n: u32,
    room: Room,
) -> QReply<B>
    requires sound { IsSound slots.old }
    ensures { Does B.table slots.old slots.new by (call.MaxDequeued n) result }
{
    answer(
        sf_queue::set_max_dequeued(slots, n),
        QCall::MaxDequeued(n),
        room,
    )
}

/// Sets whether a new frame takes the place of one that waits.
pub(crate) fn set_async<B: TableName>(
    slots: &mut Slots<Turn<Painted>>,
    by: ActorId,
    on: bool,
    room: Room,
) -> QReply<B>
    requires sound { IsSound slots.old }
    ensures { Does B.table slots.old slots.new by (call.Async on) result }
{
    answer(sf_queue::set_async(slots, on), QCall::Async(on), room)
}

/// Sets how many buffers the consumer may hold.
pub(crate) fn set_max_acquired<B: TableName>(
    slots: &mut Slots<Turn<Painted>>,
    by: ActorId,
    n: u32,
    room: Room,
) -> QReply<B>
    requires sound { IsSound slots.old }
    ensures { Does B.table slots.old slots.new by (call.MaxAcquired n) result }
{
    answer(
        sf_consume::set_max_acquired(slots, n),
        QCall::MaxAcquired(n),
        room,
    )
}

/// Gives the queue up for good.
pub(crate) fn abandon<B: TableName>(
    slots: &mut Slots<Turn<Painted>>,
    by: ActorId,
    room: Room,
) -> QReply<B>
    requires sound { IsSound slots.old }
    ensures { Does B.table slots.old slots.new by call.Abandon result }
{
    answer(sf_consume::abandon(slots), QCall::Abandon, room)
}
