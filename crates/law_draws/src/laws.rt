//! Laws about draws and makers along any order of the calls, as a run in threads has it. They are
//! called for their clauses alone.
ghost use Rattle.std.specs.Prelude.{◌≡◌, ℕ};
ghost use Rattle.law_rights.specs.sf_script_scene.Limits.{IsWithinLimits};
ghost use Rattle.law_rights.specs.sf_script_scene.Scene.{SceneValue};
ghost use Rattle.law_rights.specs.sf_surface.Tokens.{ReadLeaseOf};
ghost use Rattle.law_rights.specs.PlaceTries.{ReturnsIn, ReturnsOne};
ghost use Rattle.law_draws.specs.Standing.{RightsStand};
ghost use Rattle.law_rights.specs.RunNow.{HasDraws, HasMakers, RunNow, SceneRun, at_now, state_now};
ghost use Rattle.law_draws.specs.Changes.{BegunRights, GivenTurns, HasRights, PlacesDraws, ReturnOfRights, StepOfRights};

use law_rights::TableName;

/// What a draw enters was given by one call, so with one turn.
pub fn one_turn_is_given_to_what_is_entered<B: TableName>()
    ensures { (turns : GivenTurns B) → turns.turn ≡ turns.other }
{}

/// Where all that left is known, draws that are placed are in turn: each earlier write has left, by a
/// step that is no later one of the same actor.
pub fn placed_draws_stand<B: TableName>()
    ensures { (run : SceneRun B) → IsWithinLimits run.scene → PlacesDraws run.scene (at_now run.known) → HasDraws run.scene (at_now run.known) }
{}

/// Where nothing has happened, the rights of a run stand.
pub fn rights_stand_at_the_beginning<B: TableName>()
    ensures { (begun : BegunRights B) → RightsStand begun.scene begun.calls (state_now begun.now) }
{}

/// They stand after a step of an actor, wherever it comes among those of others.
pub fn a_step_leaves_rights_standing<B: TableName>()
    ensures { (step : StepOfRights B) → RightsStand step.scene step.calls step.new }
{}

/// So they do where rights rest, and after frames that go back.
pub fn frames_that_go_back_leave_rights_standing<B: TableName>()
    ensures all { (back : ReturnOfRights B) (by step : ℕ) → ReturnsIn by step back.old back.new → RightsStand back.scene back.calls back.new }
    ensures one { (back : ReturnOfRights B) (by step : ℕ) (lease : ReadLeaseOf) → ReturnsOne by step lease back.old back.new
        → RightsStand back.scene back.calls back.new }
{}

/// Where they stand in the end, and all that left is known, makers are followed and draws are in turn.
pub fn rights_that_stand_in_the_end_tell<B: TableName>()
    ensures makers { (scene : SceneValue) (now : RunNow B) → HasRights scene now → HasMakers scene now }
    ensures draws { (run : SceneRun B) → IsWithinLimits run.scene → HasRights run.scene (at_now run.known) → HasDraws run.scene (at_now run.known) }
{}
