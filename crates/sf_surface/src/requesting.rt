//! The call by which a producer asks which buffer is in its slot.
ghost use Rattle.std.specs.Prelude.{◌≡◌, true};
ghost use Rattle.sf_slots.specs.Queue.{IsSound};
ghost use Rattle.sf_surface.specs.declared.call.QCall.TheVariants as call;
ghost use Rattle.sf_surface.specs.Objects.{Does};

use crate::call::{Gives, QCall, QReply};
use crate::held::{has_buffer, unlent_refusal};
use crate::plain::said_of;
use crate::replies::{gives, refused};
use crate::token::WriteLease;
use crate::values::Room;
use sf_base::{ActorId, QueueId};
use sf_slots::Slots;
use sf_turns::sf_picture::Painted;
use sf_turns::{TableName, Turn};

/// Makes the lent buffer known to its producer.
pub(crate) fn request<B: TableName>(
    slots: &mut Slots<Turn<Painted>>,
    by: ActorId,
    queue: QueueId,
    lease: WriteLease<B>,
    room: Room,
) -> QReply<B>
    requires number { queue ≡ slots.old.number }
    requires sound { IsSound slots.old }
    ensures { Does B.table slots.old slots.new by (call.Request lease) result }
{
    let said = said_of(queue, &lease);
    if !has_buffer(slots, said.slot, said.held) {
        return refused(unlent_refusal(slots, by), QCall::Request(lease), room);
    }
    match sf_queue::request(slots, by, said.slot, said.held.number) {
        Ok(_) => {
            let held = lease.held;
            gives(
                room.four(
                    lease.slot.0 as u64,
                    held.number,
                    held.width as u64,
                    held.height as u64,
                ),
                Gives::Write(requested(lease)),
            )
        }
        Err(cause) => refused(cause, QCall::Request(lease), room),
    }
}

/// A lease with its buffer requested.
fn requested<B: TableName>(lease: WriteLease<B>) -> WriteLease<B>
    ensures { result ≡ record lease { requested = true } }
{
    let WriteLease {
        queue,
        slot,
        held,
        requested: _,
        fence,
        work,
        of,
    } = lease;
    WriteLease {
        queue,
        slot,
        held,
        requested: true,
        fence,
        work,
        of,
    }
}
