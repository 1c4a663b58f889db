//! Laws about the play of a scene, transition by transition: what a step or a vsync did is the next transition of the
//! play. They are called for their clauses alone.
ghost use Rattle.std.specs.Prelude.{◌≡◌, ◌⊎◌, [], ◌∷◌, Some, None};
ghost use Rattle.sf_script_scene.specs.Scene.{SceneValue};
ghost use Rattle.sf_script_scene.specs.declared.step.Step.{Step as StepValue};
ghost use Rattle.sf_record.specs.declared.event.Event.TheVariants as event;
ghost use Rattle.law_played.specs.Least.{least_events, least_scene};
ghost use Rattle.law_played.specs.Plays.{Comes, GoesOnTo, IsBegun, IsPlay, Playing, ScenePlay};
ghost use Rattle.law_played.specs.Replies.{reply_shown};
ghost use Rattle.law_played.specs.RunStates.{IsPlaysVsync, RunState, release_asked, with_call};
ghost use Rattle.law_played.specs.NextVsyncs.{VsyncOfPlay, gone_at, state_at};
ghost use Rattle.law_played.specs.SceneActors.{ReleasedFrame, run_after, run_before};
ghost use Rattle.law_played.specs.Transitions.{DoneAtDesk, IsNotReadyAt, PickedActor, StaysIdle, StepMore, next_step_of, next_transition};
ghost use Rattle.law_played.specs.Transitions.{reply_of_step, state_after, state_after_step, transition_at};

use sf_actor::TableName;
use sf_commit::Lease;

/// A scene has at most one play on one thread; of two that have begun one goes on with the other; and
/// one that has begun has begun still after its next step.
pub fn a_scene_has_one_play()
    ensures one { (scene : SceneValue) (play other : ScenePlay scene) → (play.events ≡ other.events) × (play.state ≡ other.state) }
    ensures begun { (scene : SceneValue) (some other : Playing) → IsBegun scene some → IsBegun scene other → Comes scene some other ⊎ Comes scene other some }
    ensures more { (scene : SceneValue) (playing next : Playing) → IsBegun scene playing → GoesOnTo scene playing next → IsBegun scene next }
{}

/// The least scene, whose actor is picked four times first, has a play, which shows the replies to its
/// four steps and one vsync with its pixels.
pub fn the_least_scene_has_a_play()
    ensures { (state : RunState) × IsPlay (record least_scene { order = record { actor = 1; times = 4 } ∷ [] }) least_events state }
{}

/// A vsync of a handler that has played so far is the next one of a play, where it saw the values that
/// were signalled so far and its looks showed exactly what is written so far.
pub fn a_vsync_is_the_next_of_a_play<L: Lease>()
    ensures { (vsync : VsyncOfPlay L.Lease)
        → IsPlaysVsync vsync.scene (state_at L.Lease vsync) vsync.told.commits vsync.new.tree (gone_at L.Lease vsync) vsync.told.held }
{}

/// A run in which an actor did one step more, while nobody else called or sent, is the state after the
/// actor's next transition, where the turn of a draw has come; and a transition in which an actor has ended, or is not ready, changes nothing.
pub fn a_step_is_the_next_of_a_play()
    ensures done { (more : StepMore) → next_transition more.actor
        ≡ record { events = event.Reply (reply_shown (reply_of_step more)) ∷ []; state = state_after_step more } }
    ensures ended { (actor : PickedActor) → next_step_of actor ≡ None → StaysIdle actor }
    ensures waits { (actor : PickedActor) (s : StepValue) → next_step_of actor ≡ Some s → IsNotReadyAt actor s → StaysIdle actor }
{}

/// Over an exact desk that reports places a step that an actor does is its next transition of the
/// play, where a buffer whose earlier turns have all left has no older draw that is owed.
pub fn a_done_step_is_a_transition<B: TableName>()
    ensures { (done : DoneAtDesk B) → transition_at done
        ≡ record { events = event.Reply (reply_shown done.reply) ∷ []; state = state_after done } }
{}

/// Over an exact desk a frame that the compositor releases is released by the call that a vsync of the
/// play makes next.
pub fn a_release_is_the_plays<B: TableName>()
    ensures { (given : ReleasedFrame B) → run_after given ≡ with_call given.scene 0 given.vsync (run_before given) (release_asked given.one) }
{}
