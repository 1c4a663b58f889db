//! A law about a look that shows that all earlier turns at pixels have left, called for its clauses
//! alone.
ghost use Rattle.std.specs.Prelude.{Contains};
ghost use Rattle.sf_actor_set.specs.sf_actor.Tries.{ActorOf};
ghost use Rattle.law_played.specs.Stepping.{TellsFirst};
ghost use Rattle.law_rights.specs.RunNow.{AloneRun, at_now, run_now};

use sf_actor_set::TableName;

/// Where a ledger stands, and its makers, a look that shows that all earlier turns at pixels have
/// left finds no older draw that is owed.
pub fn an_older_draw_has_not_left<B: TableName>()
    ensures { (alone : AloneRun B) (of : ActorOf B) → let now = at_now alone.run.known in Contains now.ofs of → TellsFirst alone.run.scene (run_now now) of now.view }
{}
