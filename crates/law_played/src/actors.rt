//! Laws about the actors of a run and their traces, called for their clauses alone.
ghost use Rattle.std.specs.Prelude.{ℕ, List};
ghost use Rattle.sf_commit.specs.sf_calls.Histories.{IsLegal};
ghost use Rattle.sf_actor.specs.sf_surface.Histories.{Answers, Made};
ghost use Rattle.sf_actor.specs.sf_surface.declared.mark.QueueMark.{QueueMark as Mark};
ghost use Rattle.law_played.specs.Acquired.{WasQueued};
ghost use Rattle.law_played.specs.Buffers.{ShowAsQueued};
ghost use Rattle.law_played.specs.Runs.{AreTraced};
ghost use Rattle.law_played.specs.SceneActors.{HaveCalls, KnowSignals, SceneActors, ShownBuffers, ShowsPictureOf, Taken, arrived_over, run_over};

use sf_actor::TableName;

/// Over a desk that knows all that happened, the actors of a scene have a run that is traced: each
/// actor's trace is one of its script, and its calls and arrivals are those of its steps.
pub fn actors_are_traced<B: TableName>()
    ensures { (actors : SceneActors B) → KnowSignals actors → AreTraced actors.home.tells actors.scene (run_over actors) (arrived_over actors) }
{}

/// A frame that was acquired was queued by a call on the same queue: its lease has the number of
/// the picture and the crop of that call, and expects that picture.
pub fn acquired_frames_were_queued<B: TableName>()
    ensures { (mark : Mark) (calls : List (Made B)) (taken : Taken calls) → IsLegal (Answers mark) calls → WasQueued calls taken.lease }
{}

/// Where the actors of a scene queue its pictures, a frame that was acquired shows the scene's
/// picture of its number.
pub fn acquired_frames_show_pictures<B: TableName>()
    ensures { (actors : SceneActors B) (queue : ℕ) (taken : Taken (actors.view.calls queue)) → HaveCalls actors → ShowsPictureOf actors taken.lease }
{}

/// Where commits show the buffers that arrivals brought, and the records of histories are those of
/// the desk's calls, each buffer of a commit has the picture and the crop of the step that queued its
/// frame.
pub fn buffers_show_as_queued<B: TableName>()
    ensures { (shown : ShownBuffers B) → ShowAsQueued shown.actors.scene shown.histories shown.commits }
{}
