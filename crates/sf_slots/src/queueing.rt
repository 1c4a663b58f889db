//! The line of frames that wait for the consumer: a frame enters behind the others or in the place
//! of the last one, and leaves in front.
ghost use Rattle.std.specs.Prelude.{◌≡◌, ◌<◌, ◌≤◌, ◌+◌, ◌-◌, ◌^◌, [], ◌∷◌};
ghost use Rattle.std.specs.Prelude.{◌++◌, ℕ, All, IsFalse, length, slice_get, slice_set, slice_index_or, drop, unwrap_or};
ghost use Rattle.std.specs.Option.{option_copied, option_map};
ghost use Rattle.circular_buffer.specs.Buffer.{buffer};
ghost use Rattle.sf_slots.specs.declared.slot.SlotState.TheVariants as state;
ghost use Rattle.sf_base.specs.Fences.{no_points};
ghost use Rattle.sf_slots.specs.Told.{unused};
ghost use Rattle.sf_slots.specs.declared.item.Item.{Item};
ghost use Rattle.sf_slots.specs.Queue.{Queue, slot_in, last_in, is_droppable, replacing, slot_replaced, appended, enqueued, handed_over, dropping, IsLentWith};

use crate::item::Item;
use crate::rings::{push, put_right};
use crate::slot::{Slot, SlotState};
use crate::slots::Slots;
use circular_buffer::HeapCircularBuffer;
use sf_base::{Fence, SlotId};

/// Whether one of these items has a fence with points.
fn any_points<R>(items: &[Item<R>]) -> bool
    ensures { IsFalse result → All (λ item. item.fence ≡ no_points) items.now }
{
    for item in items {
        if !item.fence.is_none() {
            return true;
        }
    }
    false
}

/// Frees an item's slot, which keeps its fence and gets the item's right back.
fn keep_back<R: Drop>(
    slots: &mut Vec<Slot>,
    rights: &mut Vec<Option<R>>,
    freed: &mut HeapCircularBuffer<u32>,
    item: Item<R>,
)
    requires slot { item.slot.0 < length slots.old.items }
    requires right { item.slot.0 < length rights.old.items }
    requires room { length freed.old.items < freed.old.capacity }
    ensures slots { slots.new.items ≡ slice_set slots.old.items item.slot.0 (record (slice_index_or slots.old.items item.slot.0 unused) { state = state.Free }) }
    ensures rights { rights.new.items ≡ slice_set rights.old.items item.slot.0 (Some item.right) }
    ensures freed { freed.new ≡ buffer (freed.old.items ++ item.slot.0 ∷ []) freed.old.capacity }
{
    let Item {
        slot,
        held: _,
        frame: _,
        picture: _,
        time: _,
        droppable: _,
        fence: _,
        crop: _,
        right,
    } = item;
    slots[slot.0 as usize].state = SlotState::Free;
    put_right(rights, slot.0, right);
    push(freed, slot.0);
}

/// Puts an item last into a list that has room for it.
fn push_item<R: Drop>(items: &mut HeapCircularBuffer<Item<R>>, item: Item<R>)
    requires { length items.old.items < items.old.capacity }
    ensures { items.new ≡ buffer (items.old.items ++ item ∷ []) items.old.capacity }
{
    let _ = items.push_back(item);
}

impl<R: Drop> Slots<R> {
    /// The first item.
    pub fn front(&self) -> Option<&Item<R>>
        ensures { option_copied result ≡ slice_get self.now.items 0 }
    {
        self.items.front()
    }

    /// Whether an item has a fence with points.
    pub fn has_points(&self) -> bool
        ensures { IsFalse result → All (λ item. item.fence ≡ no_points) self.now.items }
    {
        let (front, back) = self.items.as_slices();
        any_points(front) || any_points(back)
    }

    /// The present time of the second item, 0 where it is automatic.
    pub fn second_time(&self) -> Option<u64>
        ensures { result ≡ option_map (λ item. unwrap_or item.time 0) (slice_get self.now.items 1) }
    {
        match self.items.get(1) {
            Some(item) => Some(item.time.unwrap_or(0)),
            None => None,
        }
    }

    /// Gives the first item to the consumer: its slot is acquired and stores no fence.
    pub fn take_front(&mut self) -> Item<R>
        requires { 0 < length self.old.items }
        ensures item { slice_get self.old.items 0 ≡ Some result }
        ensures after { self.new ≡ handed_over self.old result }
    {
        match self.items.pop_front() {
            Some(item) => {
                let slot = &mut self.slots[item.slot.0 as usize];
                slot.state = SlotState::Acquired;
                slot.fence = Fence::none();
                item
            }
            None => unreachable!(),
        }
    }

    /// Drops the first item: its slot is free, holds the item's right, keeps its fence and stands
    /// last in the freed list.
    pub fn drop_front(&mut self)
        requires { 0 < length self.old.items }
        ensures { (item : Item R) → slice_get self.old.items 0 ≡ Some item → self.new ≡ dropping self.old item }
    {
        match self.items.pop_front() {
            Some(item) => keep_back(&mut self.slots, &mut self.rights, &mut self.freed, item),
            None => unreachable!(),
        }
    }

    /// Whether the last item gives way to a new one.
    fn has_droppable_last(&self) -> bool
        ensures { result ≡ is_droppable (last_in self.now.items) }
    {
        match self.items.back() {
            Some(last) => last.droppable,
            None => false,
        }
    }

    /// Frees the slot of a droppable last item, which keeps its fence and gets its right back.
    fn replace_last(&mut self) -> Option<SlotId>
        ensures slot { result ≡ slot_replaced (last_in self.old.items) }
        ensures after { self.new ≡ replacing self.old (last_in self.old.items) }
        ensures others { (s : ℕ) → (slot_in self.old s).state ≡ state.Dequeued → slot_in self.new s ≡ slot_in self.old s }
    {
        if !self.has_droppable_last() {
            return None;
        }
        match self.items.pop_back() {
            Some(last) => {
                let slot = last.slot;
                keep_back(&mut self.slots, &mut self.rights, &mut self.freed, last);
                Some(slot)
            }
            None => None,
        }
    }

    /// Queues an item from its slot, behind the others.
    fn append(&mut self, item: Item<R>, kept: Fence)
        requires kept { kept ≡ item.fence }
        requires below { item.slot.0 < 64 }
        requires lent { IsLentWith self.old item.slot.0 item.held }
        requires numbered { self.old.settings.frames < 2 ^ 64 - 1 }
        ensures { self.new ≡ appended self.old item }
    {
        let slot = &mut self.slots[item.slot.0 as usize];
        slot.state = SlotState::Queued;
        slot.frame = item.frame;
        slot.fence = kept;
        self.settings.queued = true;
        self.settings.frames += 1;
        push_item(&mut self.items, item);
    }

    /// Queues an item from its slot, which is lent to the producer with the item's buffer: in the place
    /// of the last item, where that is droppable, or else behind it. The item has the next frame number
    /// and is droppable exactly in asynchronous mode. The slot of an item that is replaced is free,
    /// holds its right, keeps its fence, since the write may still be owed, and stands last in the
    /// freed list; it is the answer. `kept` is the item's fence once more, for the slot to keep.
    pub fn enqueue(&mut self, item: Item<R>, kept: Fence) -> Option<SlotId>
        requires kept { kept ≡ item.fence }
        requires below { item.slot.0 < 64 }
        requires lent { IsLentWith self.old item.slot.0 item.held }
        requires numbered { self.old.settings.frames < 2 ^ 64 - 1 }
        requires next { item.frame ≡ self.old.settings.frames + 1 }
        requires mode { item.droppable ≡ self.old.settings.asynchronous }
        ensures replaced { result ≡ slot_replaced (last_in self.old.items) }
        ensures after { self.new ≡ enqueued self.old item }
    {
        let replaced = self.replace_last();
        self.append(item, kept);
        replaced
    }
}
