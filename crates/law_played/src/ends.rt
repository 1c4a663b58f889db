//! Laws about the end of a run: who is stuck there. They are called for their clauses alone.
ghost use Rattle.sf_script_scene.specs.Limits.{IsWithinLimits};
ghost use Rattle.law_played.specs.Stopping.{stuck_among};
ghost use Rattle.law_played.specs.Stuck.{AreStuck};
ghost use Rattle.law_played.specs.SceneActors.{IsNotReadyOver, LeftStep, NoneIsReady, SceneActors, run_over};

use sf_actor::TableName;

/// An actor whose step was left over an exact desk is not ready at it, in the run of the actors
/// then: no own test refuses the step, and a point is open, an older draw is owed, or no slot is
/// free.
pub fn a_step_that_was_left_is_not_ready<B: TableName>()
    ensures { (left : LeftStep B) → IsNotReadyOver left.actors left.old }
{}

/// Where each actor that has not done all its steps is not ready, they are the stuck ones, by rising
/// number, each with its next step.
pub fn actors_that_are_not_ready_are_stuck<B: TableName>()
    ensures { (actors : SceneActors B) → IsWithinLimits actors.scene → NoneIsReady actors
        → AreStuck actors.scene (run_over actors) (stuck_among actors.ofs) }
{}
