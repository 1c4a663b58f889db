//! The whole of a queue: slots, waiting items, freed buffers and settings, with the moves of one
//! slot. The producer's calls in `sf_queue` and the consumer's in `sf_consume` are made of these.
ghost use Rattle.std.specs.Prelude.{◌≡◌, ◌<◌, ◌≤◌, ◌+◌, [], ◌∷◌, ◌++◌, IfOk, IsSome};
ghost use Rattle.std.specs.Prelude.{length, map, replicate, take, slice_index_or, true, false, ◌-◌, ◌^◌, count_by};
ghost use Rattle.sf_slots.specs.declared.slot.SlotState.TheVariants as state;
ghost use Rattle.sf_slots.specs.Told.{unused, usable, count_in, is_in, forbids};
ghost use Rattle.sf_slots.specs.Queue.{Queue, IsSound, slot_in, right_in, told_of, empty_queue, lent, taken, seated, next_held, marked, returned, cleared, emptied, IsOut};

use crate::item::Item;
use crate::rings::{push, put_right, remove, take_right};
use crate::settings::Settings;
use crate::slot::{Held, Slot, SlotState};
use circular_buffer::HeapCircularBuffer;
use sf_base::{Fence, NoMemory, QueueId, SlotId};
use std::alloc::Global;
use std::marker::Model;
use std::mem;

/// A BufferQueue: 64 slots, the items that wait for the consumer, the freed buffers and the
/// settings. The right `R` to a buffer's pixels lies in its slot while that is free, in its item while
/// it is queued, and with whom the slot was given to while it is out; the moves hand rights in and out.
/// Only `new` takes memory.
pub struct Slots<R> {
    pub(crate) number: QueueId,
    pub(crate) slots: Vec<Slot>,
    pub(crate) rights: Vec<Option<R>>,
    pub(crate) freed: HeapCircularBuffer<u32>,
    pub(crate) items: HeapCircularBuffer<Item<R>>,
    pub(crate) settings: Settings,
}

impl<R> Model for Slots<R> {
    ghost use Rattle.std.specs.Prelude.{◌≡◌};
    ghost use Rattle.sf_slots.specs.Queue.{Queue, IsSound, HasRoom};

    ghost Value = { Queue R };

    ghost view = { λ q. record {
      number = q.number;
      slots = q.slots.items;
      rights = q.rights.items;
      freed = q.freed.items;
      items = q.items.items;
      settings = q.settings;
    } };

    ghost invariant = { λ q. HasRoom q.freed.capacity q.items.capacity (record {
      number = q.number;
      slots = q.slots.items;
      rights = q.rights.items;
      freed = q.freed.items;
      items = q.items.items;
      settings = q.settings;
    }) };
}

/// How many slots with numbers below this are in a state.
fn count_below(slots: &[Slot], end: usize, state: SlotState) -> usize
    requires { end ≤ length slots.now }
    ensures { result ≡ count_by (is_in state) (take end slots.now) }
{
    slots[..end].iter().filter(|slot| slot.is_in(state)).count()
}

/// Takes the buffer out of a slot.
pub(crate) fn empty(slot: &mut Slot)
    ensures { slot.new ≡ emptied slot.old }
{
    slot.state = SlotState::Free;
    slot.held = None;
    slot.requested = false;
    slot.fence = Fence::none();
}

/// A slot as it is at first: free and without a buffer.
fn unused() -> Slot
    ensures { result ≡ unused }
{
    Slot {
        state: SlotState::Free,
        held: None,
        requested: false,
        frame: 0,
        fence: Fence::none(),
    }
}

/// The slots as they are at first: free and without buffers.
fn unused_slots(alloc: Global) -> Result<Vec<Slot>, NoMemory>
    ensures { IfOk result (λ slots. slots.items ≡ replicate 64 unused) }
{
    let mut slots = Vec::with_capacity(alloc, 64)?;
    for _ in 0..64u32 {
        slots.push(unused())?;
    }
    Ok(slots)
}

/// No rights yet.
fn no_rights<R: Drop>(alloc: Global) -> Result<Vec<Option<R>>, NoMemory>
    ensures { IfOk result (λ rights. rights.items ≡ replicate 64 None) }
{
    let mut rights = Vec::with_capacity(alloc, 64)?;
    for _ in 0..64u32 {
        rights.push(None)?;
    }
    Ok(rights)
}

impl<R: Drop> Slots<R> {
    /// A queue whose slots are free and without buffers. It lets the consumer and the producer hold
    /// one buffer each, is not asynchronous and has no producer. Width and height are its default
    /// size, in pixels.
    pub fn new(alloc: Global, queue: QueueId, width: u32, height: u32) -> Result<Slots<R>, NoMemory>
        requires wide { 1 ≤ width }
        requires narrow { width ≤ 512 }
        requires high { 1 ≤ height }
        requires low { height ≤ 512 }
        ensures { IfOk result (λ q. q ≡ empty_queue queue width height) }
    {
        Ok(Slots {
            number: queue,
            slots: unused_slots(alloc)?,
            rights: no_rights(alloc)?,
            freed: HeapCircularBuffer::with_capacity(alloc, 64)?,
            items: HeapCircularBuffer::with_capacity(alloc, 64)?,
            settings: Settings {
                width,
                height,
                max_acquired: 1,
                max_dequeued: 1,
                asynchronous: false,
                connected: None,
                abandoned: false,
                queued: false,
                frames: 0,
                buffers: 0,
            },
        })
    }

    /// The settings and the counters.
    pub fn settings(&self) -> Settings
        ensures same { result ≡ self.now.settings }
        ensures sound { IsSound self.now }
        ensures allowed { forbids (told_of self.now) (usable self.now.settings) ≡ false }
    {
        self.settings
    }

    /// All that is known of a slot, apart from its right.
    pub fn slot(&self, slot: SlotId) -> &Slot
        requires { slot.0 < 64 }
        ensures { result.now ≡ slot_in self.now slot.0 }
    {
        &self.slots[slot.0 as usize]
    }

    /// The state of a slot.
    pub fn state(&self, slot: SlotId) -> SlotState
        requires { slot.0 < 64 }
        ensures { result ≡ (slot_in self.now slot.0).state }
    {
        self.slots[slot.0 as usize].state
    }

    /// The buffer of a slot, if it has one.
    pub fn held(&self, slot: SlotId) -> Option<Held>
        requires { slot.0 < 64 }
        ensures { result ≡ (slot_in self.now slot.0).held }
    {
        self.slots[slot.0 as usize].held
    }

    /// Whether a slot's buffer counts as requested.
    pub fn requested(&self, slot: SlotId) -> bool
        requires { slot.0 < 64 }
        ensures { result ≡ (slot_in self.now slot.0).requested }
    {
        self.slots[slot.0 as usize].requested
    }

    /// The frame number of a slot, 0 before its first frame.
    pub fn frame(&self, slot: SlotId) -> u64
        requires { slot.0 < 64 }
        ensures { result ≡ (slot_in self.now slot.0).frame }
    {
        self.slots[slot.0 as usize].frame
    }

    /// How many slots are in a state. Those that may not be used are free.
    pub fn count(&self, state: SlotState) -> u32
        ensures { result ≡ count_in state (told_of self.now) }
    {
        if let SlotState::Free = state {
            return count_below(&self.slots, 64, state) as u32;
        }
        count_below(&self.slots, self.usable() as usize, state) as u32
    }

    /// How many slots may be used, those with the lowest numbers.
    pub fn usable(&self) -> u32
        ensures value { result ≡ usable self.now.settings }
        ensures within { result ≤ 64 }
    {
        self.settings.usable()
    }

    /// How many items wait.
    pub fn len(&self) -> u32
        ensures { result ≡ length self.now.items }
    {
        self.items.len() as u32
    }

    /// Lends a free slot that may be used to the producer. Its right, where it has a buffer, and its stored fence come
    /// out.
    pub fn lend(&mut self, slot: SlotId) -> (Option<R>, Fence)
        requires usable { slot.0 < usable self.old.settings }
        requires free { (slot_in self.old slot.0).state ≡ state.Free }
        ensures right { result.0 ≡ right_in self.old slot.0 }
        ensures fence { result.1 ≡ (slot_in self.old slot.0).fence }
        ensures after { self.new ≡ lent self.old slot.0 }
    {
        let right = take_right(&mut self.rights, slot.0);
        let lent = &mut self.slots[slot.0 as usize];
        let fence = mem::replace(&mut lent.fence, Fence::none());
        lent.state = SlotState::Dequeued;
        remove(&mut self.freed, slot.0);
        (right, fence)
    }

    /// Gives a free slot that may be used to the consumer, with frame number 0 and no fence. Its right, where it has a
    /// buffer, comes out.
    pub fn hold(&mut self, slot: SlotId) -> Option<R>
        requires usable { slot.0 < usable self.old.settings }
        requires free { (slot_in self.old slot.0).state ≡ state.Free }
        ensures right { result ≡ right_in self.old slot.0 }
        ensures after { self.new ≡ taken self.old slot.0 }
    {
        let right = take_right(&mut self.rights, slot.0);
        let taken = &mut self.slots[slot.0 as usize];
        taken.state = SlotState::Acquired;
        taken.frame = 0;
        taken.fence = Fence::none();
        remove(&mut self.freed, slot.0);
        right
    }

    /// Puts the queue's next buffer, of this size in pixels, into a slot that is out.
    pub fn seat(&mut self, slot: SlotId, width: u32, height: u32, requested: bool) -> Held
        requires below { slot.0 < 64 }
        requires numbered { self.old.settings.buffers < 2 ^ 64 - 1 }
        requires out { IsOut (slot_in self.old slot.0).state }
        ensures held { result ≡ next_held self.old width height }
        ensures after { self.new ≡ seated self.old slot.0 width height requested }
    {
        self.settings.buffers += 1;
        let held = Held {
            number: self.settings.buffers,
            width,
            height,
        };
        let seated = &mut self.slots[slot.0 as usize];
        seated.held = Some(held);
        seated.requested = requested;
        held
    }

    /// Notes that the producer requested the buffer of a slot that is lent to it.
    pub fn mark_requested(&mut self, slot: SlotId)
        requires below { slot.0 < 64 }
        requires lent { (slot_in self.old slot.0).state ≡ state.Dequeued }
        ensures { self.new ≡ marked self.old slot.0 }
    {
        self.slots[slot.0 as usize].requested = true;
    }

    /// Takes back the buffer of a slot that is out: the slot is free, holds the right and the fence,
    /// and stands last in the freed list.
    pub fn free(&mut self, slot: SlotId, right: R, fence: Fence)
        requires below { slot.0 < 64 }
        requires out { IsOut (slot_in self.old slot.0).state }
        requires buffer { IsSome (slot_in self.old slot.0).held }
        ensures { self.new ≡ returned self.old slot.0 right fence }
    {
        let freed = &mut self.slots[slot.0 as usize];
        freed.state = SlotState::Free;
        freed.fence = fence;
        put_right(&mut self.rights, slot.0, right);
        push(&mut self.freed, slot.0);
    }

    /// Takes the buffer out of a slot that is not queued: the slot is free, without a buffer and a
    /// stored fence. The right that lay in it comes out.
    pub fn clear(&mut self, slot: SlotId) -> Option<R>
        requires below { slot.0 < 64 }
        requires other { (slot_in self.old slot.0).state ≡ state.Queued → ⊥ }
        ensures right { result ≡ right_in self.old slot.0 }
        ensures after { self.new ≡ cleared self.old slot.0 }
    {
        let right = take_right(&mut self.rights, slot.0);
        empty(&mut self.slots[slot.0 as usize]);
        remove(&mut self.freed, slot.0);
        right
    }
}

impl<R: Drop> Drop for Slots<R> {
    fn drop(self) {
        let Slots {
            number: _,
            slots: _,
            rights: _,
            freed: _,
            items: _,
            settings: _,
        } = self;
    }
}
