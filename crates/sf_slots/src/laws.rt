//! Laws about queues and their histories, called for their clauses alone.
ghost use Rattle.std.specs.Prelude.{◌≡◌, ℕ, Bool, List, [], Some, is_some};
ghost use Rattle.std.specs.List.{Contains};
ghost use Rattle.sf_base.specs.declared.ids.ActorId.{ActorId};
ghost use Rattle.sf_base.specs.declared.ids.QueueId.{QueueId};
ghost use Rattle.sf_base.specs.declared.status.QStatus.{QStatus};
ghost use Rattle.sf_slots.specs.declared.calls.Entry.{Entry};
ghost use Rattle.sf_slots.specs.declared.calls.PlainCall.{PlainCall};
ghost use Rattle.sf_slots.specs.Told.{Told, slot_for, has_free};
ghost use Rattle.sf_slots.specs.Queue.{Queue, IsSound, empty_queue, told_of};
ghost use Rattle.sf_slots.specs.Refusals.{refusals_of};
ghost use Rattle.sf_slots.specs.Replies.{refusal_of};
ghost use Rattle.sf_slots.specs.Tells.{CameFromNew, IsItsHistory, IsToldBy};

/// A new queue is what a history without calls gives.
pub fn no_calls_tell_of_a_new_queue<R>()
    ensures { (number : QueueId) (width height : ℕ) →
        IsToldBy (empty_queue {R = R} number width height) width height [] }
{}

/// A call is refused only for a cause that the table of its refusals has.
pub fn refusals_are_listed()
    ensures { (told : Told) (caller : ActorId) (asked : PlainCall) (cause : QStatus) →
        refusal_of told caller asked ≡ Some cause → Contains (refusals_of asked) cause }
{}

/// A slot for a dequeue, and one for an attach, is found exactly where some slot may be used and is
/// free.
pub fn a_free_slot_is_found_where_there_is_one<R>()
    ensures { (q : Queue R) (with_buffer : Bool) → IsSound q →
        is_some (slot_for with_buffer (told_of q)) ≡ has_free (told_of q) }
{}

/// After every list of calls that a new queue came by, it is what its history gives, and each reply
/// was what the history before it gives.
pub fn calls_are_told_by_their_history<R>()
    ensures { (width height : ℕ) (history : List Entry) (after : Queue R) →
        CameFromNew after width height history → IsItsHistory after width height history }
{}
