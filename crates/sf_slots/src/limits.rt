//! How many slots may be used: a free one is found, limits and mode are set, slots outside lose
//! their buffers, and the queue is given up.
ghost use Rattle.std.specs.Prelude.{◌≡◌, ◌<◌, ◌≤◌, ◌-◌, ℕ, Option, None, IfSome, is_some, false, length, map, slice_get, take, drop, not, ◌^◌};
ghost use Rattle.std.specs.List.{position, range_with_len, list_any};
ghost use Rattle.std.specs.Option.{option_map};
ghost use Rattle.sf_slots.specs.declared.slot.SlotState.TheVariants as state;
ghost use Rattle.sf_slots.specs.Told.{usable, usable_with, forbids, has_free, is_in, is_bare, lowest_bare, slot_for};
ghost use Rattle.sf_slots.specs.Queue.{Queue, IsFreeSlot, IsSound, slot_in, told_of, emptied, unmarked, retired, retired_all, configured, given_up, without_marks};

use crate::rings::take_right;
use crate::settings::Settings;
use crate::slot::{Slot, SlotState};
use crate::slots::{Slots, empty};
use circular_buffer::HeapCircularBuffer;
use sf_base::SlotId;

/// The place of the first free slot without a buffer, of those that may be used.
fn first_bare(slots: &[Slot], usable: usize) -> Option<usize>
    requires { usable ≤ length slots.now }
    ensures { result ≡ position is_bare (take usable slots.now) }
{
    slots[..usable].iter().position(|slot| slot.is_bare())
}

/// A slot's buffer does not count as requested.
fn unmark(slot: &mut Slot)
    ensures { slot.new ≡ unmarked slot.old }
{
    slot.requested = false;
}

/// Forgets of all 64 slots that their buffers were requested.
fn unmark_slots(slots: &mut Vec<Slot>)
    requires { length slots.old.items ≡ 64 }
    ensures { slots.new.items ≡ map unmarked slots.old.items }
{
    for at in 0..64u32 {
        unmark(&mut slots[at as usize]);
    }
}

/// Takes the buffers out of all 64 slots.
fn empty_slots(slots: &mut Vec<Slot>)
    requires { length slots.old.items ≡ 64 }
    ensures { slots.new.items ≡ map emptied slots.old.items }
{
    for at in 0..64u32 {
        empty(&mut slots[at as usize]);
    }
}

/// Lets the rights of all 64 slots go.
fn drop_rights<R: Drop>(rights: &mut Vec<Option<R>>)
    requires { length rights.old.items ≡ 64 }
    ensures { rights.new.items ≡ map (λ (right : Option R). None) rights.old.items }
{
    for at in 0..64u32 {
        let _ = take_right(rights, at);
    }
}

/// The first number of a list.
fn front_of(list: &HeapCircularBuffer<u32>) -> Option<u32>
    ensures { result ≡ slice_get list.now.items 0 }
{
    list.front().copied()
}

/// Whether a slot from this one on is not free.
fn any_busy(slots: &[Slot], start: usize) -> bool
    requires { start ≤ length slots.now }
    ensures { result ≡ list_any (λ slot. not (is_in state.Free slot)) (drop start slots.now) }
{
    slots
        .split_at(start)
        .1
        .iter()
        .any(|slot| !slot.is_in(SlotState::Free))
}

impl<R: Drop> Slots<R> {
    /// Whether these limits and this mode would make more slots usable than there are, or would leave
    /// a slot that is not free outside.
    pub fn forbids(&self, max_acquired: u32, max_dequeued: u32, asynchronous: bool) -> bool
        requires { usable_with max_acquired max_dequeued asynchronous < 2 ^ 32 }
        ensures { result ≡ forbids (told_of self.now) (usable_with max_acquired max_dequeued asynchronous) }
    {
        let usable = max_acquired + max_dequeued + u32::from(asynchronous);
        usable > 64 || any_busy(&self.slots, usable as usize)
    }

    /// The slot that was freed longest ago, of those with a buffer.
    fn first_freed(&self) -> Option<u32>
        ensures value { result ≡ slice_get self.now.freed 0 }
        ensures free { IfSome result (IsFreeSlot self.now) }
        ensures sound { IsSound self.now }
    {
        front_of(&self.freed)
    }

    /// The lowest free slot without a buffer, of those that may be used.
    fn lowest_bare(&self) -> Option<u32>
        ensures value { result ≡ lowest_bare (told_of self.now) }
        ensures free { IfSome result (IsFreeSlot self.now) }
        ensures sound { IsSound self.now }
    {
        match first_bare(&self.slots, self.usable() as usize) {
            Some(slot) => Some(slot as u32),
            None => None,
        }
    }

    /// The number of the free slot to use next.
    fn next_number(&self, with_buffer: bool) -> Option<u32>
        ensures value { result ≡ slot_for with_buffer (told_of self.now) }
        ensures free { IfSome result (IsFreeSlot self.now) }
        ensures sound { IsSound self.now }
    {
        if with_buffer {
            match self.first_freed() {
                Some(slot) => Some(slot),
                None => self.lowest_bare(),
            }
        } else {
            match self.lowest_bare() {
                Some(slot) => Some(slot),
                None => self.first_freed(),
            }
        }
    }

    /// The free slot to use next. With a buffer wanted it is the one freed longest ago, or else the
    /// lowest one without a buffer; otherwise the other way round. None exactly where no slot may be
    /// used and is free.
    pub fn next_free(&self, with_buffer: bool) -> Option<SlotId>
        ensures slot { option_map (λ s. s.0) result ≡ slot_for with_buffer (told_of self.now) }
        ensures free { IfSome result (λ s. IsFreeSlot self.now s.0) }
        ensures exact { is_some result ≡ has_free (told_of self.now) }
    {
        match self.next_number(with_buffer) {
            Some(slot) => Some(SlotId(slot)),
            None => None,
        }
    }

    /// Takes the buffer out of a slot, where that is free.
    fn retire(&mut self, slot: SlotId)
        requires { slot.0 < 64 }
        ensures { self.new ≡ retired self.old slot.0 }
    {
        if self.slots[slot.0 as usize].is_in(SlotState::Free) {
            let _ = self.clear(slot);
        }
    }

    /// Takes the buffers out of the free slots numbered from `start` and below `end`.
    fn retire_between(&mut self, start: u32, end: u32)
        requires { end ≤ 64 }
        ensures { self.new ≡ retired_all self.old (range_with_len start (end - start)) }
    {
        for slot in start..end {
            self.retire(SlotId(slot));
        }
    }

    /// Sets limits, mode and producer, where no more than 64 slots may be used then and no slot that is
    /// not free lies outside. Free slots that may no longer be used lose their buffers and stored
    /// fences. The counters stay.
    pub fn configure(&mut self, settings: Settings)
        requires allowed { forbids (told_of self.old) (usable settings) ≡ false }
        requires frames { settings.frames ≡ self.old.settings.frames }
        requires buffers { settings.buffers ≡ self.old.settings.buffers }
        ensures { self.new ≡ configured self.old settings }
    {
        let before = self.settings();
        self.retire_between(settings.usable(), before.usable());
        self.settings = settings;
    }

    /// Forgets which buffers were requested.
    pub fn unmark_all(&mut self)
        ensures { self.new ≡ without_marks self.old }
    {
        unmark_slots(&mut self.slots);
    }

    /// Gives the queue up: all slots are free, without buffers and stored fences, and there are no
    /// items.
    pub fn abandon(&mut self)
        ensures { self.new ≡ given_up self.old }
    {
        empty_slots(&mut self.slots);
        drop_rights(&mut self.rights);
        self.freed.clear();
        self.items.clear();
        self.settings.abandoned = true;
    }
}
