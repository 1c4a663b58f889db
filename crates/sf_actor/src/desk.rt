//! What an actor steps over, as a trait: the objects of one thread, or seats over what threads
//! share. All steps are written over it.
ghost use Rattle.std.specs.Prelude.{◌≡◌, ℕ, ◌-◌, ◌≤◌, true, IfOk, IfErr, slice_index};
ghost use Rattle.sf_base.specs.Points.{greatest, points_from};
ghost use Rattle.sf_token.specs.sf_calls.Calling.{IfFaultNoMemory, IfFaultNotYet};
ghost use Rattle.sf_surface.specs.Marks.{PermitFits, SpareFits};
ghost use Rattle.sf_times.specs.Seats.{all_loaded, raised};
ghost use Rattle.sf_surface.specs.sf_turns.Views.{Leaves};
ghost use Rattle.sf_actor.specs.Desks.{ChangesTimes, ChangesTurns, DeskHome, DeskView, IsAsBefore, KnowsAll, MadeCall, MadeSend, WaitsForCall, has_queue};

use crate::tokens::Tokens;
use sf_base::{ActorId, NoMemory, QueueId, Seen, TimelineId};
use sf_script_scene::sf_picture::Picture;
use sf_surface::DrawFault;
use sf_token::CallFault;
use std::alloc::Global;

/// What an actor steps over: queues to call, arrivals to send transactions to, timelines, and turns
/// at buffers. `K` has the types of the tokens. Contracts see what a desk has, which no call changes,
/// and what it knows.
pub trait Desk<K: Tokens> {
    ghost home: { Self → DeskHome };

    ghost view: { Self → DeskView K.Table };

    /// States that an exact desk knows all that happened. It does nothing: an exact desk keeps this
    /// of itself.
    fn exact(&self)
        ensures { (home self.now).is_exact ≡ true → KnowsAll (view self.now) };

    /// Makes a call on a queue, for a step of an actor, from 1.
    ///
    /// NotYet exactly where the queue answered so in this call. Where memory runs out the call
    /// comes back, and nothing was done.
    fn call(
        &mut self,
        by: ActorId,
        queue: QueueId,
        step: u32,
        call: K::Call,
    ) -> Result<K::Reply, CallFault<K::Call>>
        requires served { (home self.old).serves by.0 ≡ true }
        requires there { has_queue (home self.old) queue.0 ≡ true }
        requires permit { PermitFits K.table (K.call call) }
        ensures made { IfOk result (λ reply. MadeCall (home self.old) (view self.old) (view self.new) by.0 queue.0 (step, K.call call) (K.reply reply)) }
        ensures spare { IfOk result (λ reply. SpareFits K.table (K.reply reply)) }
        ensures not_yet { IfFaultNotYet result (λ back. (back ≡ call) × WaitsForCall (home self.old) (view self.old) (view self.new) by.0 queue.0 (step, K.call call)) }
        ensures no_memory { IfFaultNoMemory result (λ back. (back ≡ call) × IsAsBefore (view self.old) (view self.new)) }
        ensures home { home self.new ≡ home self.old };

    /// Sends a transaction, for a step of an actor, from 1. The number of the arrival, from 1, or 0
    /// where the desk reports no places. Out of memory the transaction comes back, and what the
    /// desk shows is as before.
    fn send(&mut self, by: ActorId, step: u32, txn: K::Sent) -> Result<u32, (NoMemory, K::Sent)>
        requires served { (home self.old).serves by.0 ≡ true }
        ensures sent { IfOk result (MadeSend (home self.old) (view self.old) (view self.new) by.0 step (K.sent txn)) }
        ensures back { IfErr result (λ back. (back.1 ≡ txn) × IsAsBefore (view self.old) (view self.new)) }
        ensures home { home self.new ≡ home self.old };

    /// Raises a timeline, 1 to 64, to the value, if it was lower.
    fn signal(&mut self, t: TimelineId, v: u64)
        requires low { 1 ≤ t.0 }
        requires high { t.0 ≤ 64 }
        ensures signalled { (view self.new).times ≡ raised (view self.old).times (t.0, v) }
        ensures times { ChangesTimes (view self.old) (view self.new) }
        ensures home { home self.new ≡ home self.old };

    /// The values of all 64 timelines, as loads of this call showed them: at least all that the desk
    /// knew, and exactly the greatest value signalled where it is exact.
    fn see(&mut self) -> Seen
        ensures shown { (view self.new).times ≡ all_loaded (view self.old).times (points_from 1 result.values) }
        ensures known { (t : ℕ) → 1 ≤ t → t ≤ 64 → greatest t (view self.old).times.known ≤ slice_index result.values (t - 1) }
        ensures signalled { (t : ℕ) → 1 ≤ t → t ≤ 64 → greatest t (view self.old).times.signals ≤ slice_index result.values (t - 1) }
        ensures exact { (home self.old).is_exact ≡ true → (t : ℕ) → 1 ≤ t → t ≤ 64
            → slice_index result.values (t - 1) ≡ greatest t (view self.old).times.signals }
        ensures times { ChangesTimes (view self.old) (view self.new) }
        ensures home { home self.new ≡ home self.old };

    /// Draws a picture in a lease, as `WriteLease::draw` does, through the desk's seat at the turns.
    fn paint(
        &mut self,
        alloc: Global,
        lease: K::Write,
        picture: &Picture,
        seen: &Seen,
    ) -> Result<K::Write, DrawFault<K::Write>>
        ensures draws { K.draws lease picture.now seen.now (view self.old).turns (view self.new).turns result }
        ensures turns { ChangesTurns (view self.old) (view self.new) }
        ensures home { home self.new ≡ home self.old };

    /// Draws what is owed, as `Owing::draw` does, through the desk's seat at the turns.
    fn pay(
        &mut self,
        alloc: Global,
        owing: K::Owed,
        picture: &Picture,
        seen: &Seen,
    ) -> Result<(), DrawFault<K::Owed>>
        ensures pays { K.pays owing picture.now seen.now (view self.old).turns (view self.new).turns result }
        ensures turns { ChangesTurns (view self.old) (view self.new) }
        ensures home { home self.new ≡ home self.old };

    /// Ends a drawing, as `Ending::end` does, through the desk's seat at the turns.
    fn end(&mut self, ending: K::Ends)
        ensures leaves { Leaves (view self.old).turns (K.ends ending).turn.buffer (K.ends ending).turn.number (view self.new).turns }
        ensures turns { ChangesTurns (view self.old) (view self.new) }
        ensures home { home self.new ≡ home self.old };
}
