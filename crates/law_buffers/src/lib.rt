//! Where the buffers of a queue are, by the calls on it alone: each is in one place.
#![tactic(auto)]

ghost use Rattle.std.specs.Prelude.{◌≡◌, ℕ, Some};
ghost use Rattle.sf_slots.specs.Told.{slot_at};
ghost use Rattle.sf_slots.specs.declared.slot.Held.{Held as HeldValue};
ghost use Rattle.law_buffers.specs.Places.{IsSomewhere, IsThere, Place, RepliedCalls, told_after};

/// After any calls on a queue whose replies are those that its calls say, each buffer that one of
/// its slots has is in just one place: it lies in a free slot, or it is lent to the producer, or it
/// is in one frame that waits, or the consumer has it. This holds at each place of a history, since
/// what stands before it is such a history.
pub fn a_buffer_is_in_one_place()
    ensures one { (so : RepliedCalls) (number : ℕ) (place other : Place) → IsThere (told_after so) number place → IsThere (told_after so) number other
        → place ≡ other }
    ensures some { (so : RepliedCalls) (slot : ℕ) (held : HeldValue) → (slot_at (told_after so) slot).held ≡ Some held
        → IsSomewhere (told_after so) held.number }
{}
