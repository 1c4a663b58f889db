//! Nobody is passed over: what a vsync commits leaves nothing behind that could commit. The definition
//! stands in specs/; here are laws of what it refuses and of what it accepts.
#![tactic(auto)]

ghost use Rattle.std.specs.Prelude.{List};
ghost use Rattle.law_played.specs.sf_token.Pending.{Arrival};
ghost use Rattle.law_played.specs.sf_actor.Names.{FrameOf};
ghost use Rattle.law_played.specs.Stages.{VsyncAt};
ghost use Rattle.law_waits.specs.Leaving.{LeavesNone, LeavesNoneAt, LeavesReady};
ghost use Rattle.law_waits.specs.PassedOver.{both_arrived, none_left, passed_over};
ghost use Rattle.law_played.specs.sf_record.declared.record.CommitRecord.{CommitRecord};

/// A vsync does not leave behind an arrival that nothing holds, whatever writes it saw as ended. So a
/// later arrival does not commit before an earlier one of another token that could commit, as in the
/// example.
pub fn nobody_is_passed_over()
    ensures none { (arrivals : List (Arrival FrameOf)) (commits : List CommitRecord) (told : VsyncAt)
        → LeavesReady arrivals commits told → LeavesNoneAt arrivals commits told → ⊥ }
    ensures example { LeavesNone both_arrived passed_over → ⊥ }
{}

/// Arrivals that commit in their order leave nobody behind.
pub fn what_commits_in_order_leaves_none()
    ensures { LeavesNone both_arrived none_left }
{}
