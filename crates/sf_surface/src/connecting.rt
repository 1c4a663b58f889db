//! The calls by which a producer connects and disconnects.
ghost use Rattle.sf_slots.specs.Queue.{IsSound};
ghost use Rattle.sf_surface.specs.declared.call.QCall.TheVariants as call;
ghost use Rattle.sf_surface.specs.Objects.{Does};

use crate::call::{QCall, QReply};
use crate::replies::answer;
use crate::values::Room;
use sf_base::ActorId;
use sf_slots::Slots;
use sf_turns::sf_picture::Painted;
use sf_turns::{TableName, Turn};

/// Makes the caller the producer.
pub(crate) fn connect<B: TableName>(
    slots: &mut Slots<Turn<Painted>>,
    by: ActorId,
    room: Room,
) -> QReply<B>
    requires sound { IsSound slots.old }
    ensures { Does B.table slots.old slots.new by call.Connect result }
{
    answer(sf_queue::connect(slots, by), QCall::Connect, room)
}

/// Ends the producer's connection.
pub(crate) fn disconnect<B: TableName>(
    slots: &mut Slots<Turn<Painted>>,
    by: ActorId,
    room: Room,
) -> QReply<B>
    requires sound { IsSound slots.old }
    ensures { Does B.table slots.old slots.new by call.Disconnect result }
{
    answer(sf_queue::disconnect(slots, by), QCall::Disconnect, room)
}
