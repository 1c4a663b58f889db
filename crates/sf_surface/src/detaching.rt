//! The call by which a lent buffer leaves the queue as a loose one.
ghost use Rattle.std.specs.Prelude.{◌≡◌, IfOk, IfErr, OnErr};
ghost use Rattle.sf_slots.specs.Queue.{IsSound};
ghost use Rattle.sf_surface.specs.declared.call.QCall.TheVariants as call;
ghost use Rattle.sf_surface.specs.Objects.{Does};

use crate::call::{Gives, QCall, QReply};
use crate::context::Context;
use crate::held::{has_buffer, unlent_refusal};
use crate::plain::said_of;
use crate::replies::refused;
use crate::rights::{Finished, finish};
use crate::token::{Loose, WriteLease};
use crate::values::Room;
use sf_base::{NoMemory, QStatus};
use sf_queue::{detach_allowed, lent_refusal};
use sf_slots::Slots;
use sf_turns::sf_picture::Painted;
use sf_turns::{TableName, Turn};
use std::marker::PhantomData;

/// Takes a lent buffer out of the queue.
pub(crate) fn detach<B: TableName>(
    slots: &mut Slots<Turn<Painted>>,
    context: Context,
    lease: WriteLease<B>,
    room: Room,
) -> Result<QReply<B>, (NoMemory, QCall<B>)>
    requires number { context.queue ≡ slots.old.number }
    requires sound { IsSound slots.old }
    ensures done { IfOk result (Does B.table slots.old slots.new context.by (call.Detach lease)) }
    ensures unchanged { OnErr result (slots.new ≡ slots.old) }
    ensures back { IfErr result (λ back. back.1 ≡ call.Detach lease) }
{
    let Context { alloc, by, queue } = context;
    let said = said_of(queue, &lease);
    if !has_buffer(slots, said.slot, said.held) {
        let cause = unlent_refusal(slots, by);
        return Ok(refused(cause, QCall::Detach(lease), room));
    }
    if let Some(cause) = lent_refusal(slots, by, said.slot, said.held.number, true) {
        return Ok(refused(cause, QCall::Detach(lease), room));
    }
    match finish(alloc, lease) {
        Ok(Finished { held, heir, ends }) => {
            detach_allowed(slots, by, said.slot, said.held.number);
            Ok(QReply {
                status: QStatus::Ok,
                values: room.none(),
                gives: Gives::Free(Loose {
                    held,
                    turn: heir,
                    of: PhantomData,
                }),
                ends,
                spare: None,
            })
        }
        Err((no_memory, lease)) => Err((no_memory, QCall::Detach(lease))),
    }
}
