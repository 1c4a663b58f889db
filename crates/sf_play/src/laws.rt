//! Laws about players, called for their clauses alone: what a caller who plays or joins threads
//! learns of the run besides the clauses of `next`.
ghost use Rattle.std.specs.Prelude.{◌≤◌};
ghost use Rattle.atomic_table.specs.Seated.{TableId};
ghost use Rattle.sf_script_scene.specs.Scene.{SceneValue};
ghost use Rattle.sf_play.specs.Fuel.{HasNumbersLeft};
ghost use Rattle.sf_play.specs.Going.{EndsRun};
ghost use Rattle.sf_play.specs.LateReplies.{EndedRun, FitsLate, IsPlayedLate, StandsAtEnd};
ghost use Rattle.sf_play.specs.Players.{PlayOf, PlayerOf, SoFar, Stands};
ghost use Rattle.sf_play.specs.Actions.{StepsOnlyNext, TakenAction, TriesOnlyNext};

use sf_play_report::{Lease, ReadLease, TableName};

/// The rounds behind a run of a scene have vsyncs whose numbers fit 32 bits, where no more than 2^31
/// were made before.
pub fn the_vsyncs_of_rounds_can_be_numbered<B: TableName>()
    ensures { (table : TableId) (scene : SceneValue) (so : SoFar B) (play : PlayOf B) → Stands table scene so play → play.vsyncs ≤ 2147483648
        → HasNumbersLeft play }
{}

/// The actor that `Player::next_actor` names is the one whose step the next action tries, and no other
/// does a step.
pub fn the_next_actor_is_the_one_that_is_tried<B: TableName>()
    ensures tried { (action : TakenAction B ⟦<ReadLease<B> as Lease>⟧ B.table) → TriesOnlyNext B.table action.ofs action.old action.new action.came_to }
    ensures no_other { (action : TakenAction B ⟦<ReadLease<B> as Lease>⟧ B.table) → StepsOnlyNext action.old action.came_to }
{}

/// No matter which threads did the steps of a run: where a player that stands in it is at its end,
/// what was shown fits the run of the actors.
pub fn what_stands_at_its_end_fits<B: TableName>()
    ensures { (table : TableId) (scene : SceneValue) (so : SoFar B) (player : PlayerOf B) → StandsAtEnd table scene so player → EndsRun scene so player }
{}

/// So it does where the replies are shown behind the last vsync, by actor and step; these are the
/// records of a live run.
pub fn replies_may_be_shown_last<B: TableName>()
    ensures fits { (run : EndedRun B) → FitsLate run.scene run.so run.player }
    ensures live { (run : EndedRun B) → IsPlayedLate run.scene run.so run.player }
{}
