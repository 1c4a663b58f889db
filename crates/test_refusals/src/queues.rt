//! Calls on a queue.
ghost use Rattle.std.specs.Prelude.{◌≡◌, ◌<◌, ◌-◌, ◌^◌, false, IfOk, is_some};
ghost use Rattle.sf_slots.specs.declared.calls.PlainCall.TheVariants as call;
ghost use Rattle.sf_slots.specs.Effects.{refusal_with};
ghost use Rattle.sf_slots.specs.Queue.{told_of};
ghost use Rattle.sf_slots.specs.Replies.{refusal_of};
ghost use Rattle.sf_queue.specs.Lending.{IsGiven, takes_fresh};

use sf_base::{ActorId, QStatus};
use sf_picture::Painted;
use sf_queue::{Dequeued, dequeue};
use sf_slots::Slots;
use sf_turns::Turn;
use std::alloc::Global;

/// A dequeue is refused exactly where the queue says so.
pub fn dequeue_is_refused<R: Drop>(
    q: &mut Slots<R>,
    by: ActorId,
    width: u32,
    height: u32,
    fresh: Option<R>,
) -> Result<Dequeued<R>, (QStatus, Option<R>)>
    requires fresh { is_some fresh ≡ takes_fresh (told_of q.old) by width height }
    requires numbered { q.old.settings.buffers < 2 ^ 64 - 1 }
    ensures refusal { refusal_with result ≡ refusal_of (told_of q.old) by (call.Dequeue width height false) }
{
    dequeue(q, by, width, height, fresh)
}

/// A dequeue gives the turn that lay in the slot, with the fence that the slot stored.
pub fn dequeue_gives_turns(
    _alloc: Global,
    queue: &mut Slots<Turn<Painted>>,
    by: ActorId,
    width: u32,
    height: u32,
    fresh: Option<Turn<Painted>>,
) -> Result<Dequeued<Turn<Painted>>, (QStatus, Option<Turn<Painted>>)>
    requires fresh { is_some fresh ≡ takes_fresh (told_of queue.old) by width height }
    requires numbered { queue.old.settings.buffers < 2 ^ 64 - 1 }
    ensures given { IfOk result (IsGiven queue.old queue.new width height fresh) }
{
    dequeue(queue, by, width, height, fresh)
}
