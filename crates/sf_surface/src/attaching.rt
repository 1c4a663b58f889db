//! The call by which a loose buffer comes into the queue, lent to its producer.
ghost use Rattle.std.specs.Prelude.{◌≡◌, ◌<◌, ◌-◌, ◌^◌};
ghost use Rattle.sf_slots.specs.Queue.{IsSound};
ghost use Rattle.sf_surface.specs.declared.call.QCall.TheVariants as call;
ghost use Rattle.sf_surface.specs.Hands.{attached_lease};
ghost use Rattle.sf_surface.specs.Inside.{IsSameSize};
ghost use Rattle.sf_surface.specs.Objects.{Does};

use crate::call::{Gives, QCall, QReply};
use crate::replies::{gives, refused};
use crate::token::{Loose, WriteLease};
use crate::values::Room;
use crate::work::Work;
use sf_base::{ActorId, Fence, QueueId, SlotId};
use sf_slots::{Held, Slots};
use sf_turns::sf_picture::Painted;
use sf_turns::{TableName, Turn};

/// A loose buffer as a lease to write, in the slot where it is now.
fn attached<B: TableName>(
    queue: QueueId,
    slot: SlotId,
    held: Held,
    loose: Loose<B>,
) -> WriteLease<B>
    requires { IsSameSize held loose.held }
    ensures { result ≡ attached_lease queue slot held loose }
{
    let Loose { held: _, turn, of } = loose;
    WriteLease {
        queue,
        slot,
        held,
        requested: true,
        fence: Fence::none(),
        work: Work::Fresh(turn),
        of,
    }
}

/// Puts a loose buffer into the queue, lent to its producer.
pub(crate) fn attach<B: TableName>(
    slots: &mut Slots<Turn<Painted>>,
    by: ActorId,
    queue: QueueId,
    loose: Loose<B>,
    room: Room,
) -> QReply<B>
    requires number { queue ≡ slots.old.number }
    requires numbered { slots.old.settings.buffers < 2 ^ 64 - 1 }
    requires sound { IsSound slots.old }
    ensures { Does B.table slots.old slots.new by (call.Attach loose) result }
{
    match sf_queue::attach(slots, by, loose.held.width, loose.held.height) {
        Ok((slot, held)) => gives(
            room.two(slot.0 as u64, held.number),
            Gives::Write(attached(queue, slot, held, loose)),
        ),
        Err(cause) => refused(cause, QCall::Attach(loose), room),
    }
}
