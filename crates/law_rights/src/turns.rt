//! Laws about draws: each enters pixels after those that were owed to them before.
ghost use Rattle.std.specs.Prelude.{◌<◌, ℕ};
ghost use Rattle.sf_actor_set.specs.sf_script_scene.Limits.{IsWithinLimits};
ghost use Rattle.sf_actor_set.specs.sf_actor.Holdings.{token_of};
ghost use Rattle.sf_actor_set.specs.sf_script_scene.Scene.{SceneValue};
ghost use Rattle.law_played.specs.Turns.{DrawAfterOwed};
ghost use Rattle.law_rights.specs.DrawChanges.{EnteringDraw, run_at, step_of_draw};
ghost use Rattle.law_rights.specs.RunChanges.{StepOfDraws, VsyncOfScene, behind_vsync, run_behind};
ghost use Rattle.law_rights.specs.RunNow.{BeginsSo, CallsAreThere, HasActors, HasDraws, IsInTurnNow, RunNow, run_now};

use sf_actor_set::{Lease, ReadLease, TableName};

/// A draw that enters pixels is in turn.
pub fn a_draw_that_enters_is_in_turn<B: TableName>()
    ensures { (draw : EnteringDraw B) → IsInTurnNow draw.alone.run.scene (run_at draw) (step_of_draw draw) (token_of draw.held) }
{}

/// What draws entered is in turn after a try of an actor's step.
pub fn a_step_leaves_draws_in_turn<B: TableName>()
    ensures { (draws : StepOfDraws B) → HasDraws draws.one.scene (run_behind draws.one.step) }
{}

/// So it is after a vsync.
pub fn a_vsync_leaves_draws_in_turn<B: TableName>()
    ensures { (vsync : VsyncOfScene B ⟦<ReadLease<B> as Lease>⟧) → HasDraws vsync.scene vsync.one.before → HasDraws vsync.scene (behind_vsync vsync.one) }
{}

/// Where it is, each draw that entered pixels came after those that were owed to them before.
pub fn draws_in_turn_come_after_what_was_owed<B: TableName>()
    ensures { (scene : SceneValue) (now : RunNow B) → IsWithinLimits scene → HasActors scene now → CallsAreThere now
        → HasDraws scene now → DrawAfterOwed scene (run_now now) }
{}

/// Where nothing has happened, all draws are in turn.
pub fn draws_stand_at_the_beginning<B: TableName>()
    ensures { (scene : SceneValue) (buffers : ℕ) (now : RunNow B) → BeginsSo buffers now → HasDraws scene now }
{}
