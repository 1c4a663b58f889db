//! Laws by which the parts of a played run come together at its end. They are called for their
//! clauses alone.
ghost use Rattle.std.specs.Prelude.{List};
ghost use Rattle.sf_record.specs.declared.event.Event.{Event as EventValue};
ghost use Rattle.law_played.specs.Histories.{Released};
ghost use Rattle.law_played.specs.Played.{FitsWhere};
ghost use Rattle.law_played.specs.Replies.{AnswerSteps};
ghost use Rattle.law_played.specs.Telling.{AreNumbered, TellReplies};
ghost use Rattle.law_played.specs.SceneActors.{AreHistoriesOver, ArriveInOrderOver, HaveArrivals, HaveCalls, HaveReleases, SceneActors, ToldRun};
ghost use Rattle.law_played.specs.SceneActors.{arrived_over, entries_over, histories_over, run_over};

use sf_actor::TableName;

/// Where the replies among events are those of the actors, they are those to the steps of their
/// traces.
pub fn replies_answer_steps<B: TableName>()
    ensures { (actors : SceneActors B) (events : List EventValue) → TellReplies actors.ofs events → AnswerSteps actors.scene (run_over actors) events }
{}

/// Arrivals of the actors that are numbered come in their order.
pub fn arrivals_come_in_order<B: TableName>()
    ensures { (actors : SceneActors B) → HaveArrivals actors → AreNumbered actors.view.arrivals → ArriveInOrderOver actors (entries_over actors) }
{}

/// The calls of the actors, and the releases of the compositor, are the histories of the queues.
pub fn calls_are_histories<B: TableName>()
    ensures { (actors : SceneActors B) (released : List Released) → HaveCalls actors → HaveReleases actors released
        → AreHistoriesOver actors released (histories_over actors) }
{}

/// At the end of a run of the actors of a scene over a desk that knows all that happened, where
/// draws came in turn, what is shown fits their run, as far as the vsyncs, their commits and
/// frames, what is held and who is stuck do.
pub fn what_actors_tell_fits<B: TableName>()
    ensures { (told : ToldRun B) → let actors = told.actors in FitsWhere actors.home.tells actors.scene told.shows (run_over actors) (arrived_over actors) }
{}
