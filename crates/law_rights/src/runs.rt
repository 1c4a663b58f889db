//! Laws that makers stand from the begin of a run on, step by step and vsync by vsync.
ghost use Rattle.std.specs.Prelude.{Contains, map};
ghost use Rattle.std.specs.List.Sorted.{IsStrictlyIncreasing};
ghost use Rattle.sf_actor_set.specs.sf_actor.Tries.{ActorOf};
ghost use Rattle.law_played.specs.Actors.{number_of};
ghost use Rattle.law_played.specs.Turns.{maker_at};
ghost use Rattle.law_rights.specs.Older.{MakersTell};
ghost use Rattle.law_rights.specs.RunChanges.{StepOfScene, VsyncOfScene, behind_vsync, run_behind};
ghost use Rattle.law_rights.specs.RunNow.{FindsOlder, HasMakers, LookedDesk, LookedMakers, MadeRun, run_looked, run_now};

use sf_actor_set::{Lease, ReadLease, TableName};

/// Makers stand after a try of an actor's step.
pub fn a_step_leaves_makers_standing<B: TableName>()
    ensures { (one : StepOfScene B) → IsStrictlyIncreasing (map number_of one.step.ofs) → HasMakers one.scene (run_behind one.step) }
{}

/// So they do after a vsync.
pub fn a_vsync_leaves_makers_standing<B: TableName>()
    ensures { (vsync : VsyncOfScene B ⟦<ReadLease<B> as Lease>⟧) → HasMakers vsync.scene (behind_vsync vsync.one) }
{}

/// Where they stand, makers determine the turns at buffers, and where a look shows that an earlier
/// turn has not left, an older draw is owed.
pub fn standing_makers_tell<B: TableName>()
    ensures now { (run : MadeRun B) → MakersTell (maker_at run.scene (run_now run.now)) run.now.ofs }
    ensures looked { (run : MadeRun B) (desk : LookedDesk run.now) → MakersTell (maker_at run.scene (run_looked run.now desk)) run.now.ofs }
    ensures older { (looked : LookedMakers B) (of : ActorOf B) → Contains looked.made.now.ofs of → FindsOlder looked of }
{}
