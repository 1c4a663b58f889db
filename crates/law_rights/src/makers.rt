//! Laws about the makers of buffers: what a call does to the places of rights, and that each buffer
//! is followed back to the dequeue that made it.
ghost use Rattle.std.specs.Prelude.{◌≡◌, map, ℕ, ◌<◌, ◌≤◌, ◌⊎◌, List, Contains};
ghost use Rattle.sf_actor_set.specs.sf_surface.declared.mark.QueueMark.{QueueMark};
ghost use Rattle.sf_actor_set.specs.sf_surface.Histories.{Made};
ghost use Rattle.sf_actor_set.specs.sf_actor.Makers.{BufferOf, Run, followed};
ghost use Rattle.law_rights.specs.Ledgers.{IsLedger};
ghost use Rattle.law_rights.specs.Makers.{AreFollowed, GoesOn, MakersStand, Places, RightAt, Stays, WriteAt, places_of};
ghost use Rattle.law_rights.specs.MakerSteps.{RunTold};
ghost use Rattle.law_rights.specs.Older.{MakersTell};
ghost use Rattle.law_rights.specs.Places.{AttachesTo, MakesAt, QueuesAt, RestsAt, WasAt};
ghost use Rattle.law_rights.specs.PlaceTries.{ReturnsIn, TellsPlaces};
ghost use Rattle.law_rights.specs.States.{State, ledger_of};
ghost use Rattle.law_rights.specs.CallChanges.{AreFollowedOn, CallAtPlaces, CallOfRun, CameWith, DoesToPlaces, DoesWhatIsTold, StayFollowed, reply_of};
ghost use Rattle.law_rights.specs.CallChanges.{FollowedCall, FollowedMakers, FollowedMore, IsNewBy, IsThereBehind, MakesNumber};
ghost use Rattle.law_rights.specs.CallChanges.{MovedRight, NewAreThere, RepliedCall, ToldCall, TryOfState, WasNumbered, WasThereBefore};
ghost use Rattle.law_rights.specs.RunChanges.{VsyncOfRun, behind_vsync};
ghost use Rattle.law_rights.specs.RunNow.{BeginsSo, RunNow, state_now};

use sf_actor_set::{Lease, ReadLease, TableName};

/// Where the ledger of a state stands, and its makers are followed through a run, they determine
/// the turns at buffers.
pub fn makers_that_are_followed_tell<B: TableName>()
    ensures { (run : Run) (most : ℕ) (state : State B) → IsLedger (ledger_of state) → MakersStand run most state → MakersTell (followed most run) state.actors }
{}

/// Where a run goes on, its makers stay followed.
pub fn a_run_that_goes_on_keeps_makers()
    ensures { (so : FollowedMakers) (new : Run) (more : ℕ) → GoesOn so.run new → so.most ≤ more → AreFollowed new more so.stays so.places }
{}

/// Where nothing is queued and no buffer goes to a queue, they stay followed.
pub fn a_rest_keeps_makers()
    ensures { (so : FollowedMakers) (new : Places) → RestsAt so.places new → StayFollowed so new }
{}

/// Where a frame is queued, they stay followed.
pub fn a_queued_frame_keeps_makers()
    ensures { (so : FollowedMakers) (new : Places) (write : WriteAt) → QueuesAt write so.places new
        → Contains so.places.made write.write.turn.0 → StayFollowed so new }
{}

/// Where a loose buffer is attached, they stay followed.
pub fn an_attach_keeps_makers()
    ensures { (on : FollowedMore) (buffer : ℕ) (stay : BufferOf) → AttachesTo buffer stay on.so.run on.after on.so.places on.new → AreFollowedOn on }
{}

/// Where a buffer is made, they stay followed.
pub fn a_buffer_that_is_made_keeps_makers()
    ensures { (on : FollowedMore) (buffer : ℕ) (stay : BufferOf) → MakesAt buffer stay on.so.run on.after on.so.places on.new → AreFollowedOn on }
{}

/// Each right that lies in a queue after a call, or that its reply gives, lay there at the same place,
/// was brought, or is that of a buffer that came to the queue.
pub fn a_call_tells_places<B: TableName>()
    ensures { (call : RepliedCall B) (from : BufferOf) (right : RightAt) → IsThereBehind call from right → WasThereBefore call from right ⊎ CameWith call right }
{}

/// A call keeps makers followed, where it does to places and to the run what its move says.
pub fn a_call_keeps_makers<B: TableName>()
    ensures { (call : ToldCall B) → (next : Stays) × AreFollowed call.after call.more next call.new }
{}

/// A buffer that comes to a queue has a number that none before it had.
pub fn a_buffer_has_a_number_of_its_own<B: TableName>()
    ensures { (mark : QueueMark) (made : Made B) (earlier : List (Made B)) (number : ℕ)
        → MakesNumber mark earlier made number → WasNumbered mark earlier number → ⊥ }
{}

/// A run goes on with a call: what was made stays, and a buffer that comes to the queue is new there.
pub fn a_run_goes_on_with_a_call<B: TableName>()
    ensures { (call : CallOfRun B) → RunTold call.mark.queue call.made.call.1 (reply_of call) call.from call.before call.after }
{}

/// The places of a state's rights are those of the rights of its ledger, and so are those of its writes.
pub fn places_are_those_of_the_ledger<B: TableName>()
    ensures rights { (state : State B) → map (λ (right : RightAt). right.turn) (places_of state).live ≡ (ledger_of state).live }
    ensures writes { (state : State B) → map (λ (write : WriteAt). write.write) (places_of state).queued ≡ (ledger_of state).queued }
{}

/// Each right that lies somewhere after a call was at the same place before it, or is that of a buffer
/// that came to the queue.
pub fn rights_stay_where_they_were<B: TableName>()
    ensures { (call : CallAtPlaces B) (right : RightAt) → Contains (places_of call.new).live right → WasAt (places_of call.old) right ⊎ IsNewBy call right }
{}

/// A call does to the places of a state what its move says, where each right of a buffer that came
/// to the queue is there.
pub fn a_call_does_to_places_what_is_told<B: TableName>()
    ensures { (call : CallAtPlaces B) → IsLedger (ledger_of call.old) → NewAreThere call → DoesWhatIsTold call }
{}

/// Where the right of a loose buffer is given back at a place and comes to lie in no slot, it is the
/// only right of its buffer.
pub fn the_right_of_a_buffer_moves<B: TableName>()
    ensures { (moved : MovedRight B) → moved.right ≡ moved.now }
{}

/// A call leaves the makers of a state standing, over the run that has it.
pub fn a_call_leaves_makers_standing<B: TableName>()
    ensures { (followed : FollowedCall B) → MakersStand followed.after followed.more followed.call.new }
{}

/// Where nothing has happened, makers stand.
pub fn makers_stand_at_the_beginning<B: TableName>()
    ensures { (buffers : ℕ) (now : RunNow B) (run : Run) (most : ℕ) → BeginsSo buffers now → MakersStand run most (state_now now) }
{}

/// Whatever a try of an actor's step comes to, in each of the forms of steps: it made the step's call,
/// which did to the places of rights what calls do; or rights rest where they were, and frames that
/// the actor held go back to their queues.
pub fn a_try_does_to_places_what_is_told<B: TableName>()
    ensures { (tried : TryOfState B) → IsLedger (ledger_of tried.old) → DoesToPlaces tried }
{}

/// In a vsync rights rest where they were, or are handed on there; then what goes goes back.
pub fn a_vsync_does_to_places_what_is_told<B: TableName>()
    ensures tells { TellsPlaces ⟦<ReadLease<B> as Lease>⟧ }
    ensures returns { (one : VsyncOfRun B ⟦<ReadLease<B> as Lease>⟧) → ReturnsIn 0 one.vsync.number (state_now one.before) (state_now (behind_vsync one)) }
{}
