//! Laws by which a player goes on from the join, with all rights of the run.
ghost use Rattle.std.specs.Prelude.{◌≤◌};
ghost use Rattle.law_threads.specs.sf_play.Standing.{IsStanding, StandsInRun};
ghost use Rattle.law_joins.specs.Fronts.{AllFronts};
ghost use Rattle.law_joins.specs.Joined.{JoinedRun, player_of, so_of};
ghost use Rattle.law_threads.specs.TiedJoins.{ThreadsJoin};

use law_threads::{Lease, ReadLease, TableName};

/// A run in threads goes on from its join by the rounds of a player, with all its rights, where no more
/// than 2^31 vsyncs were made.
pub fn a_run_in_threads_goes_on<B: TableName>()
    ensures in_run { (join : JoinedRun B ⟦<ReadLease<B> as Lease>⟧ B.table) → join.last.number ≤ 2147483648
        → StandsInRun B.table join.scene (so_of join) (player_of join) }
    ensures standing { (join : JoinedRun B ⟦<ReadLease<B> as Lease>⟧ B.table) → join.last.number ≤ 2147483648 → IsStanding B.table (player_of join) }
{}

/// What a compositor's seats knew behind each vsync, with stamps, is how the histories of the whole run
/// began.
pub fn what_a_compositor_knew_began_the_run<B: TableName>()
    ensures { (join : ThreadsJoin B ⟦<ReadLease<B> as Lease>⟧) → AllFronts ⟦<ReadLease<B> as Lease>⟧ join.table join.locks join.period join.joins.first join.joins.log }
{}
