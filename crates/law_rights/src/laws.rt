//! Laws about the ledger of rights to pixels: what a call, a try, a vsync or a release does to it,
//! and what it implies. They are called for their clauses alone.
ghost use Rattle.std.specs.Prelude.{◌≡◌, ℕ, ◌<◌, ◌≤◌, List, Contains, length};
ghost use Rattle.sf_actor_set.specs.sf_surface.Reading.{has_left};
ghost use Rattle.sf_actor_set.specs.sf_surface.Tokens.{ReadLeaseOf};
ghost use Rattle.sf_actor_set.specs.sf_actor.Desks.{DeskHome};
ghost use Rattle.sf_actor_set.specs.sf_actor.Known.{frame_of};
ghost use Rattle.sf_actor_set.specs.sf_actor.Rights.{turn_by};
ghost use Rattle.law_rights.specs.Queuing.{WasPaidFor};
ghost use Rattle.sf_actor_set.specs.sf_script_scene.Limits.{IsWithinLimits};
ghost use Rattle.sf_actor_set.specs.sf_script_scene.Scene.{SceneValue};
ghost use Rattle.law_played.specs.Runs.{written_in};
ghost use Rattle.sf_actor_set.specs.sf_actor.Draws.{IsInOrder};
ghost use Rattle.sf_actor_set.specs.sf_actor.Makers.{BufferOf, Run, followed};
ghost use Rattle.law_rights.specs.Stays.{AreStays, maker_of};
ghost use Rattle.law_rights.specs.Owed.{EntersLast, HasEarlier};
ghost use Rattle.law_rights.specs.Calls.{MovesRights};
ghost use Rattle.law_rights.specs.Ledgers.{IsLedger, Ledger};
ghost use Rattle.law_rights.specs.Loads.{IsQueuedFrame, WasAcquired, is_written};
ghost use Rattle.law_rights.specs.Moves.{MayMove, Move, Moves};
ghost use Rattle.law_rights.specs.States.{State, all_buffers, ledger_of};
ghost use Rattle.law_rights.specs.Vsyncs.{DecidesIn, IsOfTurns, ReleasesIn};
ghost use Rattle.law_rights.specs.CallChanges.{CallOfState, RepliedCall, TryOfState};
ghost use Rattle.law_rights.specs.DrawChanges.{EnteredDraw, LookedFrame, OwedFrame, QueuedTwice, ShortDraw, TwoDraws};
ghost use Rattle.law_rights.specs.RunChanges.{StepOfRun, VsyncOfRun, behind_vsync, run_behind};
ghost use Rattle.law_rights.specs.RunNow.{BeginsSo, HasActors, HasLedgerOf, IsLeft, KnownRun, RunNow, SceneRun, StandingRun, WasAcquiredNow};
ghost use Rattle.law_rights.specs.RunNow.{WasAcquiredIn, at_now, has_left_in, has_left_now, is_written_by, is_written_now, run_now, written_now};

use sf_actor_set::{Lease, ReadLease, TableName};

/// Whatever may happen to a ledger, it stays one.
pub fn a_move_keeps_a_ledger()
    ensures { (move : Move) (old new : Ledger) → IsLedger old → MayMove move old → Moves move old new → IsLedger new }
{}

/// Where all that left is known, a look at a frame that was queued shows whether the frame was
/// written.
pub fn a_look_tells_what_was_written()
    ensures { (look : LookedFrame) → has_left look.ledger.left (turn_by look.lease.turn) ≡ is_written look.ledger.written (frame_of look.lease) }
{}

/// A call on a queue uses up and makes rights as its move says, and makes no copy of any other: what
/// lies in the queue's slots and what the reply gives lay there, or came with the call.
pub fn a_call_moves_rights<B: TableName>()
    ensures { (call : RepliedCall B) → MovesRights call.mark call.earlier call.by call.step call.asked call.reply }
{}

/// A call of an actor or of the compositor keeps the ledger of a run.
pub fn a_call_keeps_the_ledger<B: TableName>()
    ensures { (call : CallOfState B) → IsLedger (ledger_of call.old) → IsLedger (ledger_of call.new) }
{}

/// Whatever a try of an actor's step comes to, in each of the forms of steps, it keeps the ledger of
/// a run.
pub fn a_try_keeps_the_ledger<B: TableName>()
    ensures { (tried : TryOfState B) → IsLedger (ledger_of tried.old) → IsLedger (ledger_of tried.new) }
{}

/// What a compositor decides and reads in a vsync keeps the ledger of a run.
pub fn a_vsync_keeps_the_ledger<B: TableName>()
    ensures turns { IsOfTurns ⟦<ReadLease<B> as Lease>⟧ }
    ensures keeps { (old new : State B) → DecidesIn ⟦<ReadLease<B> as Lease>⟧ old new → IsLedger (ledger_of old) → IsLedger (ledger_of new) }
{}

/// So does a frame's release behind it, whether the queue takes the frame or not.
pub fn a_release_keeps_the_ledger<B: TableName>()
    ensures { (home : DeskHome) (old new : State B) → ReleasesIn home old new → IsLedger (ledger_of old) → IsLedger (ledger_of new) }
{}

/// A frame that a call acquired was queued, so a look at it shows whether it was written.
pub fn an_acquired_frame_was_queued<B: TableName>()
    ensures { (state : State B) (lease : ReadLeaseOf) → WasAcquired state.marks state.view.calls lease → IsQueuedFrame (ledger_of state) lease }
{}

/// The ledger stands after a vsync, from taking what arrived to giving back what goes.
pub fn a_vsync_leaves_the_ledger_standing<B: TableName>()
    ensures { (one : VsyncOfRun B ⟦<ReadLease<B> as Lease>⟧) → HasLedgerOf one.buffers (behind_vsync one) }
{}

/// It stands where nothing has happened.
pub fn a_ledger_stands_at_the_beginning<B: TableName>()
    ensures { (buffers : ℕ) (now : RunNow B) → BeginsSo buffers now → HasLedgerOf buffers now }
{}

/// Where it stands, the permits that an actor has left made no buffer; and a look at a frame that
/// was acquired shows whether the frame was written.
pub fn a_standing_ledger_tells<B: TableName>()
    ensures unmade { (run : StandingRun B) (number : ℕ) → IsLeft run.now.ofs number → Contains (all_buffers run.now.home.marks run.now.view.calls) number → ⊥ }
    ensures looks { (run : KnownRun B) (lease : ReadLeaseOf) → let now = at_now run in
        WasAcquiredNow now lease → has_left_now now lease ≡ is_written_now now lease }
{}

/// It stands after a try of an actor's step.
pub fn a_step_leaves_the_ledger_standing<B: TableName>()
    ensures { (step : StepOfRun B) → HasLedgerOf step.buffers (run_behind step) }
{}

/// A look at a frame that was acquired shows whether the run has written it.
pub fn a_look_tells_what_a_run_has_written<B: TableName>()
    ensures same { (scene : SceneValue) (now : RunNow B) → IsWithinLimits scene → HasActors scene now → written_now now ≡ written_in scene (run_now now) }
    ensures tells { (run : SceneRun B) (lease : ReadLeaseOf) → IsWithinLimits run.scene → WasAcquiredIn run lease
        → has_left_in run lease ≡ is_written_by run lease }
{}

/// A draw that waits for an earlier turn at its pixels waits for a drawing that a name of an actor owes.
pub fn a_short_draw_waits_for_what_is_owed<B: TableName>()
    ensures { (draw : ShortDraw B) → HasEarlier (at_now draw.known).ofs draw.held }
{}

/// Each frame that was queued with an earlier turn at the pixels that a draw entered is written.
pub fn what_was_queued_before_a_draw_is_written<B: TableName>()
    ensures { (draw : EnteredDraw B) → let now = at_now draw.known in EntersLast now.home now.view (written_now now) draw.of.script.number draw.place }
{}

/// A buffer that is followed back through the attach calls that it was on comes to its maker.
pub fn a_buffer_is_followed_to_its_maker()
    ensures { (run : Run) (n : ℕ) (stay : BufferOf) (earlier : List BufferOf) → AreStays run stay earlier
        → length earlier ≤ n → followed n run stay ≡ maker_of stay earlier }
{}

/// Of two draws of one actor that enter pixels of one buffer, the later one has no earlier turn.
pub fn the_draws_of_an_actor_rise<B: TableName>()
    ensures { (draws : TwoDraws B) → IsInOrder draws.share.calls draws.place draws.later }
{}

/// A frame was queued by one step of one actor.
pub fn a_frame_is_queued_by_one_step<B: TableName>()
    ensures { (twice : QueuedTwice B) → (twice.of.script.number ≡ twice.other.script.number) × (twice.at.place ≡ twice.too.place) }
{}

/// A frame that was queued undrawn and is written was drawn by a step that paid what was owed.
pub fn what_was_owed_and_is_written_was_paid<B: TableName>()
    ensures { (owed : OwedFrame B) → WasPaidFor owed.ofs (owed.queue, owed.frame) }
{}
