//! The call that queues a lent buffer as a frame: what was drawn goes to the consumer, or the
//! drawing is owed from then on.
ghost use Rattle.std.specs.Prelude.{◌≡◌, ◌<◌, ◌-◌, ◌^◌, IfOk, IfErr, OnErr};
ghost use Rattle.sf_slots.specs.Queue.{IsSound};
ghost use Rattle.sf_surface.specs.declared.call.QCall.TheVariants as call;
ghost use Rattle.sf_surface.specs.Objects.{Does};

use crate::call::{Gives, QCall, QReply};
use crate::context::Context;
use crate::held::{has_buffer, unlent_refusal};
use crate::plain::queued_said;
use crate::replies::refused;
use crate::rights::{Promised, promise};
use crate::token::{Owing, WriteLease};
use crate::values::Room;
use sf_base::{Fence, NoMemory, QStatus, Rect};
use sf_queue::{QueueOrder, queue_allowed, queue_refusal};
use sf_slots::Slots;
use sf_turns::sf_picture::{Painted, Picture};
use sf_turns::{TableName, Turn};
use std::marker::PhantomData;

/// What a frame is queued with: the picture that it shows, drawn already or promised, its desired
/// present time in nanoseconds, the part of the buffer to show, and the acquire fence.
#[derive(Drop)]
pub(crate) struct QueueInput {
    pub(crate) picture: Picture,
    pub(crate) time: Option<u64>,
    pub(crate) crop: Rect,
    pub(crate) fence: Fence,
}

/// The call with what it brought, for a reply or an error that hands it back.
fn queue_call<B: TableName>(
    lease: WriteLease<B>,
    picture: Picture,
    time: Option<u64>,
    crop: Rect,
    fence: Fence,
) -> QCall<B>
    ensures { result ≡ call.Queue lease picture time crop fence }
{
    QCall::Queue {
        lease,
        picture,
        time,
        crop,
        fence,
    }
}

/// Queues a lent buffer as a frame that shows the picture.
pub(crate) fn queue<B: TableName>(
    slots: &mut Slots<Turn<Painted>>,
    context: Context,
    lease: WriteLease<B>,
    input: QueueInput,
    room: Room,
) -> Result<QReply<B>, (NoMemory, QCall<B>)>
    requires number { context.queue ≡ slots.old.number }
    requires numbered { slots.old.settings.frames < 2 ^ 64 - 1 }
    requires sound { IsSound slots.old }
    ensures done { IfOk result (Does B.table slots.old slots.new context.by (call.Queue lease input.picture input.time input.crop input.fence)) }
    ensures unchanged { OnErr result (slots.new ≡ slots.old) }
    ensures back { IfErr result (λ back. back.1 ≡ call.Queue lease input.picture input.time input.crop input.fence) }
{
    let Context { alloc, by, queue } = context;
    let QueueInput {
        picture,
        time,
        crop,
        fence,
    } = input;
    let said = queued_said(queue, &lease, &picture);
    if !has_buffer(slots, said.slot, said.held) {
        let cause = unlent_refusal(slots, by);
        let call = queue_call(lease, picture, time, crop, fence);
        return Ok(refused(cause, call, room));
    }
    let (number, width, height) = (picture.number, picture.width, picture.height);
    let refusal = queue_refusal(slots, by, said.slot, said.held.number, width, height, crop);
    if let Some(cause) = refusal {
        let call = queue_call(lease, picture, time, crop, fence);
        return Ok(refused(cause, call, room));
    }
    let Ok(kept) = fence.copy(alloc) else {
        let call = queue_call(lease, picture, time, crop, fence);
        return Err((NoMemory, call));
    };
    let Promised {
        slot,
        fence: own,
        heir,
        owed,
        ends,
    } = match promise(lease, picture) {
        Ok(promised) => promised,
        Err((no_memory, lease, picture)) => {
            let call = queue_call(lease, picture, time, crop, fence);
            return Err((no_memory, call));
        }
    };
    let order = QueueOrder {
        slot: said.slot,
        buffer: said.held.number,
        picture: number,
        width,
        height,
        time,
        fence,
        kept,
        crop,
        right: heir,
    };
    let frame = queue_allowed(slots, by, order);
    Ok(QReply {
        status: QStatus::Ok,
        values: room.two(slot.0 as u64, frame),
        gives: match owed {
            Some(turn) => Gives::Owes(Owing {
                queue,
                slot,
                frame,
                fence: own,
                turn,
                of: PhantomData,
            }),
            None => Gives::Nothing,
        },
        ends,
        spare: None,
    })
}
