//! The call that dequeues: a buffer is lent with the right to its pixels, a new one where there is
//! none of the size.
ghost use Rattle.std.specs.Prelude.{◌≡◌, ◌≢◌, ℕ, ◌<◌, ◌≤◌, ◌-◌, ◌^◌, IfOk, IfErr, Some, None, true, false, vec_capacity, if◌then◌else◌};
ghost use Rattle.sf_base.specs.declared.status.QStatus.TheVariants.{WouldBlock};
ghost use Rattle.sf_calls.specs.Outcomes.{IfDone, IfNotYet, IfNoMemory};
ghost use Rattle.sf_slots.specs.Queue.{told_of, slot_in, IsSound};
ghost use Rattle.sf_slots.specs.Told.{slot_for};
ghost use Rattle.sf_turns.specs.Views.{first_turn};
ghost use Rattle.sf_surface.specs.declared.call.QCall.TheVariants as call;
ghost use Rattle.sf_surface.specs.Hands.{IsRoomFor, blank_of, lent_reply};
ghost use Rattle.sf_surface.specs.Inside.{HasDefaultSize, sized_buffer};
ghost use Rattle.sf_surface.specs.Objects.{AreRights, Does, WaitsForSlot};
ghost use Rattle.sf_surface.specs.Tokens.{IsRightOf};

use crate::call::{Gives, QCall, QReply};
use crate::context::Context;
use crate::replies::refused;
use crate::token::WriteLease;
use crate::values::Room;
use crate::work::Work;
use sf_base::{QStatus, QueueId};
use sf_calls::Outcome;
use sf_queue::{Dequeued, choose, dequeue_chosen};
use sf_slots::Slots;
use sf_turns::sf_picture::{Painted, blank, paint};
use sf_turns::{Permit, TableName, Turn};
use std::alloc::Global;
use std::marker::PhantomData;

/// What a producer asks of a dequeue: a buffer of this size in pixels, 0 by 0 for the queue's default
/// size, and whether to wait for a free slot.
#[derive(Clone, Copy)]
pub(crate) struct DequeueInput {
    pub(crate) width: u32,
    pub(crate) height: u32,
    pub(crate) wait: bool,
}

/// The first right to a new buffer of this size, transparent black. Out of memory hands the permit
/// back.
fn open(
    alloc: Global,
    permit: Permit<Painted>,
    width: u32,
    height: u32,
) -> Result<Turn<Painted>, Permit<Painted>>
    requires wide { 1 ≤ width }
    requires narrow { width ≤ 512 }
    requires high { 1 ≤ height }
    requires low { height ≤ 512 }
    ensures ok { IfOk result (λ turn. turn ≡ first_turn permit (blank_of (sized_buffer width height))) }
    ensures back { IfErr result (λ back. back ≡ permit) }
{
    let pixels = match paint(alloc, blank(alloc, width, height)) {
        Ok(pixels) => pixels,
        Err(_) => return Err(permit),
    };
    match permit.open(pixels) {
        Ok(turn) => Ok(turn),
        Err((_, permit, _)) => Err(permit),
    }
}

/// The reply to a dequeue that lent a buffer, from a slot whose buffer was requested or not.
fn lends<B: TableName>(
    queue: QueueId,
    given: Dequeued<Turn<Painted>>,
    was_requested: bool,
    spare: Option<Permit<Painted>>,
    room: Room,
) -> QReply<B>
    requires right { IsRightOf B.table given.held given.right }
    requires room { IsRoomFor given.fence (vec_capacity room.values) }
    ensures { result ≡ lent_reply queue given (if given.reallocated then false else was_requested) spare }
{
    let Dequeued {
        slot,
        held,
        reallocated,
        fence,
        right,
        old: _,
    } = given;
    QReply {
        status: QStatus::Ok,
        values: room.three_with(slot.0 as u64, held.number, reallocated as u64, &fence),
        gives: Gives::Write(WriteLease {
            queue,
            slot,
            held,
            requested: if reallocated { false } else { was_requested },
            fence,
            work: Work::Fresh(right),
            of: PhantomData,
        }),
        ends: None,
        spare,
    }
}

/// Lends a buffer: a new one where there is none of the size, with transparent black pixels.
pub(crate) fn dequeue<B: TableName>(
    slots: &mut Slots<Turn<Painted>>,
    context: Context,
    input: DequeueInput,
    permit: Permit<Painted>,
    room: Room,
) -> Outcome<QCall<B>, QReply<B>>
    requires number { context.queue ≡ slots.old.number }
    requires numbered { slots.old.settings.buffers < 2 ^ 64 - 1 }
    requires sized { HasDefaultSize slots.old.settings }
    requires rights { AreRights B.table slots.old }
    requires table { permit.table ≡ B.table }
    requires sound { IsSound slots.old }
    requires room { (s : ℕ) → slot_for true (told_of slots.old) ≡ Some s → IsRoomFor (slot_in slots.old s).fence (vec_capacity room.values) }
    ensures done { IfDone result (Does B.table slots.old slots.new context.by (call.Dequeue input.width input.height input.wait permit)) }
    ensures waited { IfDone result (λ reply. input.wait ≡ true → reply.status ≢ WouldBlock) }
    ensures not_yet { IfNotYet result (WaitsForSlot slots.old slots.new context.by (call.Dequeue input.width input.height input.wait permit)) }
    ensures no_memory { IfNoMemory result (λ back. (back ≡ call.Dequeue input.width input.height input.wait permit) × (slots.new ≡ slots.old)) }
{
    let Context { alloc, by, queue } = context;
    let DequeueInput {
        width,
        height,
        wait,
    } = input;
    match choose(slots, by, width, height) {
        Err(cause) => {
            let call = QCall::Dequeue {
                width,
                height,
                wait,
                permit,
            };
            match cause {
                QStatus::WouldBlock if wait => Outcome::NotYet(call),
                _ => Outcome::Done(refused(cause, call, room)),
            }
        }
        Ok(chosen) if chosen.needs => match open(alloc, permit, chosen.width, chosen.height) {
            Ok(turn) => {
                let given = dequeue_chosen(slots, by, width, height, chosen, Some(turn));
                Outcome::Done(lends(queue, given, chosen.requested, None, room))
            }
            Err(permit) => Outcome::NoMemory(QCall::Dequeue {
                width,
                height,
                wait,
                permit,
            }),
        },
        Ok(chosen) => {
            let given = dequeue_chosen(slots, by, width, height, chosen, None);
            Outcome::Done(lends(queue, given, chosen.requested, Some(permit), room))
        }
    }
}
