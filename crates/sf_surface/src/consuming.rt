//! The calls of the consumer: a frame is acquired as a lease to read, released or detached, and a
//! loose buffer is attached.
ghost use Rattle.std.specs.Prelude.{◌≡◌, ◌<◌, ◌-◌, ◌^◌, All, vec_capacity};
ghost use Rattle.sf_slots.specs.Queue.{plain_item, IsSound};
ghost use Rattle.sf_surface.specs.declared.call.QCall.TheVariants as call;
ghost use Rattle.sf_surface.specs.Hands.{IsRoomFor, own_lease, taken_lease};
ghost use Rattle.sf_surface.specs.Inside.{IsSameSize};
ghost use Rattle.sf_surface.specs.Objects.{AreRights, Does, IsFitItem};

use crate::call::{Gives, QCall, QReply};
use crate::held::{has_buffer, untaken_refusal};
use crate::plain::read_said;
use crate::replies::{gives, refused};
use crate::token::{Loose, ReadLease};
use crate::values::Room;
use sf_base::{ActorId, Fence, QueueId, Rect, SlotId};
use sf_slots::{Held, Item, Slots};
use sf_turns::sf_picture::Painted;
use sf_turns::{TableName, Turn};
use std::marker::PhantomData;

/// A frame as a lease to read.
fn taken<B: TableName>(queue: QueueId, item: Item<Turn<Painted>>) -> ReadLease<B>
    requires { IsFitItem B.table item }
    ensures { result ≡ taken_lease queue (plain_item item) item.right }
{
    let Item {
        slot,
        held,
        frame,
        picture,
        time: _,
        droppable: _,
        fence,
        crop,
        right,
    } = item;
    ReadLease {
        queue,
        slot,
        frame,
        held,
        picture,
        crop,
        fence,
        turn: right,
        of: PhantomData,
    }
}

/// Takes the frame in front.
pub(crate) fn acquire<B: TableName>(
    slots: &mut Slots<Turn<Painted>>,
    by: ActorId,
    queue: QueueId,
    expected: u64,
    room: Room,
) -> QReply<B>
    requires number { queue ≡ slots.old.number }
    requires rights { AreRights B.table slots.old }
    requires sound { IsSound slots.old }
    requires room { All (λ item. IsRoomFor item.fence (vec_capacity room.values)) slots.old.items }
    ensures { Does B.table slots.old slots.new by (call.Acquire expected) result }
{
    match sf_consume::acquire(slots, expected) {
        Ok(acquired) => {
            let lease = taken(queue, acquired.item);
            gives(
                room.four_with(
                    lease.slot.0 as u64,
                    lease.frame,
                    lease.picture as u64,
                    acquired.dropped as u64,
                    &lease.fence,
                ),
                Gives::Read(lease),
            )
        }
        Err(cause) => refused(cause, QCall::Acquire(expected), room),
    }
}

/// Gives a frame's buffer back.
pub(crate) fn release<B: TableName>(
    slots: &mut Slots<Turn<Painted>>,
    by: ActorId,
    queue: QueueId,
    lease: ReadLease<B>,
    fence: Fence,
    room: Room,
) -> QReply<B>
    requires number { queue ≡ slots.old.number }
    requires sound { IsSound slots.old }
    ensures { Does B.table slots.old slots.new by (call.Release lease fence) result }
{
    let said = read_said(queue, &lease);
    if !has_buffer(slots, said.slot, said.held) {
        let cause = untaken_refusal(slots, said.slot, said.frame);
        return refused(cause, QCall::Release(lease, fence), room);
    }
    let ReadLease {
        queue: of_queue,
        slot,
        frame,
        held,
        picture,
        crop,
        fence: own,
        turn,
        of,
    } = lease;
    match sf_consume::release(slots, said.slot, said.frame, turn, fence) {
        Ok(()) => gives(room.none(), Gives::Nothing),
        Err((cause, (turn, fence))) => {
            let lease = ReadLease {
                queue: of_queue,
                slot,
                frame,
                held,
                picture,
                crop,
                fence: own,
                turn,
                of,
            };
            refused(cause, QCall::Release(lease, fence), room)
        }
    }
}

/// Takes a frame's buffer out of the queue.
pub(crate) fn detach_read<B: TableName>(
    slots: &mut Slots<Turn<Painted>>,
    by: ActorId,
    queue: QueueId,
    lease: ReadLease<B>,
    room: Room,
) -> QReply<B>
    requires number { queue ≡ slots.old.number }
    requires sound { IsSound slots.old }
    ensures { Does B.table slots.old slots.new by (call.DetachRead lease) result }
{
    let said = read_said(queue, &lease);
    if !has_buffer(slots, said.slot, said.held) {
        let cause = untaken_refusal(slots, said.slot, said.frame);
        return refused(cause, QCall::DetachRead(lease), room);
    }
    match sf_consume::detach_read(slots, said.slot, said.frame) {
        Ok(()) => gives(room.none(), Gives::Free(loosened(lease))),
        Err(cause) => refused(cause, QCall::DetachRead(lease), room),
    }
}

/// The buffer of a lease, out of its queue.
fn loosened<B: TableName>(lease: ReadLease<B>) -> Loose<B>
    ensures { result ≡ record { held = lease.held; turn = lease.turn } }
{
    let ReadLease {
        queue: _,
        slot: _,
        frame: _,
        held,
        picture: _,
        crop: _,
        fence: _,
        turn,
        of,
    } = lease;
    Loose { held, turn, of }
}

/// A loose buffer as a lease of the consumer's own, in the slot where it is now.
fn owned<B: TableName>(queue: QueueId, slot: SlotId, held: Held, loose: Loose<B>) -> ReadLease<B>
    requires { IsSameSize held loose.held }
    ensures { result ≡ own_lease queue slot held loose }
{
    let Loose { held: _, turn, of } = loose;
    ReadLease {
        queue,
        slot,
        frame: 0,
        held,
        picture: 0,
        crop: Rect {
            x: 0,
            y: 0,
            width: 0,
            height: 0,
        },
        fence: Fence::none(),
        turn,
        of,
    }
}

/// Puts a loose buffer into the queue, held by its consumer.
pub(crate) fn attach_read<B: TableName>(
    slots: &mut Slots<Turn<Painted>>,
    by: ActorId,
    queue: QueueId,
    loose: Loose<B>,
    room: Room,
) -> QReply<B>
    requires number { queue ≡ slots.old.number }
    requires numbered { slots.old.settings.buffers < 2 ^ 64 - 1 }
    requires sound { IsSound slots.old }
    ensures { Does B.table slots.old slots.new by (call.AttachRead loose) result }
{
    match sf_consume::attach_read(slots, loose.held.width, loose.held.height) {
        Ok((slot, held)) => gives(
            room.one(slot.0 as u64),
            Gives::Read(owned(queue, slot, held, loose)),
        ),
        Err(cause) => refused(cause, QCall::AttachRead(loose), room),
    }
}
