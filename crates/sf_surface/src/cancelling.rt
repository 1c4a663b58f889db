//! The call by which a lent buffer comes back unqueued, drawn or not.
ghost use Rattle.std.specs.Prelude.{◌≡◌, IfOk, IfErr, OnErr};
ghost use Rattle.sf_slots.specs.Queue.{IsSound};
ghost use Rattle.sf_surface.specs.declared.call.QCall.TheVariants as call;
ghost use Rattle.sf_surface.specs.Objects.{Does};

use crate::call::{Gives, QCall, QReply};
use crate::context::Context;
use crate::held::{has_buffer, unlent_refusal};
use crate::plain::said_of;
use crate::replies::refused;
use crate::rights::{Finished, finish};
use crate::token::WriteLease;
use crate::values::Room;
use sf_base::{Fence, NoMemory, QStatus};
use sf_queue::{cancel_allowed, lent_refusal};
use sf_slots::Slots;
use sf_turns::sf_picture::Painted;
use sf_turns::{TableName, Turn};

/// Gives a lent buffer back unqueued.
pub(crate) fn cancel<B: TableName>(
    slots: &mut Slots<Turn<Painted>>,
    context: Context,
    lease: WriteLease<B>,
    fence: Fence,
    room: Room,
) -> Result<QReply<B>, (NoMemory, QCall<B>)>
    requires number { context.queue ≡ slots.old.number }
    requires sound { IsSound slots.old }
    ensures done { IfOk result (Does B.table slots.old slots.new context.by (call.Cancel lease fence)) }
    ensures unchanged { OnErr result (slots.new ≡ slots.old) }
    ensures back { IfErr result (λ back. back.1 ≡ call.Cancel lease fence) }
{
    let Context { alloc, by, queue } = context;
    let said = said_of(queue, &lease);
    if !has_buffer(slots, said.slot, said.held) {
        let cause = unlent_refusal(slots, by);
        return Ok(refused(cause, QCall::Cancel(lease, fence), room));
    }
    if let Some(cause) = lent_refusal(slots, by, said.slot, said.held.number, false) {
        return Ok(refused(cause, QCall::Cancel(lease, fence), room));
    }
    match finish(alloc, lease) {
        Ok(
            Finished {
                held: _,
                heir,
                ends,
            },
        ) => {
            cancel_allowed(slots, by, said.slot, said.held.number, heir, fence);
            Ok(QReply {
                status: QStatus::Ok,
                values: room.none(),
                gives: Gives::Nothing,
                ends,
                spare: None,
            })
        }
        Err((no_memory, lease)) => Err((no_memory, QCall::Cancel(lease, fence))),
    }
}
