//! The queue as an object: it takes one call after the other and keeps the history of them, under a
//! lock in a live run and without one in a play.
ghost use Rattle.std.specs.Prelude.{◌≡◌, ℕ, ◌≤◌, IfOk, OnOk, Some, true, false, vec_capacity};
ghost use Rattle.sf_base.specs.Fences.{no_points};
ghost use Rattle.sf_slots.specs.Queue.{slot_in, told_of};
ghost use Rattle.sf_slots.specs.Told.{slot_for};
ghost use Rattle.sf_surface.specs.Inside.{HasRoomFor};
ghost use Rattle.sf_surface.specs.Kept.{HasRoom, calls_in};

use crate::call::{QCall, QReply};
use crate::context::Context;
use crate::dispatch::dispatch;
use crate::entry::HistEntry;
use crate::history::History;
use crate::mark::QueueMark;
use crate::shown::named_of;
use crate::values::Room;
use sf_base::{ActorId, NoMemory, QueueId};
use sf_calls::{Object, Outcome};
use sf_slots::Slots;
use sf_turns::sf_picture::Painted;
use sf_turns::{TableName, Turn};
use std::alloc::Global;
use std::marker::Model;
use std::snapshot::Snapshot;

/// A BufferQueue with the history of its calls.
pub struct QueueObject<B: TableName> {
    alloc: Global,
    number: QueueId,
    // In a block of its own, so that a queue that is moved under its lock is small.
    slots: Box<Slots<Turn<Painted>>>,
    history: History<B>,
}

impl<B: TableName> Model for QueueObject<B> {
    ghost use Rattle.sf_surface.specs.Kept.{calls_in};
    ghost use Rattle.sf_surface.specs.Objects.{ObjectOf, IsKept};

    ghost Value = { ObjectOf B };

    ghost view = { λ o. record { queue = o.slots.value; calls = calls_in o.history } };

    ghost invariant = { λ o. IsKept B.table o.number o.history.shown.items (record { queue = o.slots.value; calls = calls_in o.history }) };
}

/// Whether the fence of the slot that a dequeue lends may have points.
fn next_may_have_points(slots: &Slots<Turn<Painted>>) -> bool
    ensures { result ≡ false → (s : ℕ) → slot_for true (told_of slots.now) ≡ Some s → (slot_in slots.now s).fence ≡ no_points }
{
    match slots.next_free(true) {
        Some(slot) => !slots.slot(slot).fence.is_none(),
        None => false,
    }
}

/// Whether the reply to a call may have points.
fn may_tell_points<B: TableName>(slots: &Slots<Turn<Painted>>, call: &QCall<B>) -> bool
    ensures { (n : ℕ) → (result ≡ true → 132 ≤ n) → HasRoomFor slots.now call.now n }
{
    match call {
        QCall::Dequeue { .. } => next_may_have_points(slots),
        QCall::Acquire(_) => slots.has_points(),
        _ => false,
    }
}

/// Makes room for one more call in a history, and for the values of its reply.
fn ready<B: TableName>(
    history: &mut History<B>,
    alloc: Global,
    has_points: bool,
) -> Result<Room, NoMemory>
    ensures shown { history.new.shown.items ≡ history.old.shown.items }
    ensures calls { calls_in history.new ≡ calls_in history.old }
    ensures room { OnOk result (HasRoom history.new) }
    ensures points { IfOk result (λ room. has_points ≡ true → 132 ≤ vec_capacity room.values) }
{
    history.reserve()?;
    Room::new(alloc, has_points)
}

impl<B: TableName> QueueObject<B> {
    ghost use Rattle.std.specs.Prelude.{◌≡◌, ◌≤◌, [], IfOk};
    ghost use Rattle.sf_slots.specs.Queue.{empty_queue};
    ghost use Rattle.sf_surface.specs.Histories.{told};
    ghost use Rattle.sf_surface.specs.Objects.{IsObject, mark_of};
    ghost use Rattle.sf_surface.specs.Shown.{entries_of};

    /// A queue without calls. Width and height are the default size of its buffers, in pixels.
    pub fn new(
        alloc: Global,
        queue: QueueId,
        width: u32,
        height: u32,
    ) -> Result<QueueObject<B>, NoMemory>
        requires wide { 1 ≤ width }
        requires narrow { width ≤ 512 }
        requires high { 1 ≤ height }
        requires low { height ≤ 512 }
        ensures { IfOk result (λ object. object ≡ record { queue = empty_queue queue width height; calls = [] }) }
    {
        let Ok(slots) = Box::new(alloc, Slots::new(alloc, queue, width, height)?) else {
            return Err(NoMemory);
        };
        Ok(QueueObject {
            alloc,
            number: queue,
            slots,
            history: History::new(alloc),
        })
    }

    /// The number of the queue.
    pub fn queue(&self) -> QueueId
        ensures { result ≡ self.now.queue.number }
    {
        self.number
    }

    /// The calls as records show them, in the order in which they were made.
    pub fn entries(&self) -> &[HistEntry]
        ensures shown { result.now ≡ entries_of (told (mark_of self.now) self.now.calls) }
        ensures kept { IsObject B.table self.now }
    {
        &self.history.shown
    }
}

impl<B: TableName> Object for QueueObject<B> {
    ghost use Rattle.std.specs.Prelude.{◌≡◌};
    ghost use Rattle.sf_surface.specs.Histories.{Answers};
    ghost use Rattle.sf_surface.specs.Marks.{PermitFits, SpareFits};
    ghost use Rattle.sf_surface.specs.Objects.{mark_of};

    type Call = (u32, QCall<B>);

    type Reply = QReply<B>;

    type PlainCall = (u32, QCall<B>);

    type PlainReply = QReply<B>;

    type Mark = QueueMark;

    ghost history = { λ o. o.calls };

    ghost mark = { mark_of };

    ghost plain_call = { λ c. c };

    ghost plain_reply = { λ r. r };

    ghost call_fits = { λ m c. PermitFits B.table c.1 };

    ghost reply_fits = { λ m r. SpareFits B.table r };

    ghost answers = { Answers };

    fn legal(&self) {
        let _ = &self.slots;
    }

    /// Makes a call for a step of an actor, or for a vsync where the caller is 0, and keeps it in
    /// the history. A token of another queue, and a lease that is queued with another picture than
    /// was drawn in it, count as ones that name no slot; a token whose buffer is not the one in its
    /// slot, by number and size, means no buffer there. A refused call hands back what it brought.
    /// A dequeue that may wait is not made where no slot is free. Where memory runs out the call
    /// comes back and nothing is kept.
    fn apply(&mut self, by: u32, call: (u32, QCall<B>)) -> Outcome<(u32, QCall<B>), QReply<B>> {
        let (step, asked) = call;
        let has_points = may_tell_points(&self.slots, &asked);
        let Ok(room) = ready(&mut self.history, self.alloc, has_points) else {
            return Outcome::NoMemory((step, asked));
        };
        let _settings = self.slots.settings();
        let named = named_of(self.number, &asked);
        let kept = Snapshot::of(&asked);
        let context = Context {
            alloc: self.alloc,
            by: ActorId(by),
            queue: self.number,
        };
        match dispatch(&mut self.slots, context, asked, room) {
            Outcome::Done(reply) => {
                self.history.put(by, step, named, kept, &reply);
                Outcome::Done(reply)
            }
            Outcome::NotYet(asked) => Outcome::NotYet((step, asked)),
            Outcome::NoMemory(asked) => Outcome::NoMemory((step, asked)),
        }
    }
}

impl<B: TableName> Drop for QueueObject<B> {
    fn drop(self) {
        let QueueObject {
            alloc: _,
            number: _,
            slots: _,
            history: _,
        } = self;
    }
}
