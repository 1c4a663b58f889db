//! Laws about a run in threads at its join: what its compositor and its actors did there is a
//! played run so far.
ghost use Rattle.std.specs.Prelude.{◌≡◌, ℕ};
ghost use Rattle.law_threads.specs.sf_calls.Histories.{GoesOnWithout};
ghost use Rattle.law_threads.specs.sf_actor.Plain.{home_of, view_of as desk_view};
ghost use Rattle.law_threads.specs.sf_live_seats.Arriving.{ArrivalCalls};
ghost use Rattle.law_threads.specs.sf_live_seats.Seats.{view_of};
ghost use Rattle.law_threads.specs.sf_actor_set.Opening.{new_actors};
ghost use Rattle.law_threads.specs.law_played.Actors.{AreActors};
ghost use Rattle.law_threads.specs.law_played.Vsyncs.{vsyncs_in};
ghost use Rattle.law_threads.specs.sf_turns.Counts.{IsExact};
ghost use Rattle.law_threads.specs.sf_play.Players.{Stands};
ghost use Rattle.law_threads.specs.sf_play.Standing.{IsStanding, StandsInRun};
ghost use Rattle.law_joins.specs.Calls.{AreReleasesOn, IsGivenOn};
ghost use Rattle.law_joins.specs.SeatedActors.{WalkedBack};
ghost use Rattle.law_joins.specs.Logs.{HasTaken, HoldsLent, IsBegun, IsKnown};
ghost use Rattle.law_joins.specs.Logs.{OnlyFirstTakes};
ghost use Rattle.law_joins.specs.Joined.{HavePictures, JoinedRun, JoinsLedger, JoinsOver, JoinsRights, actors_of, player_of, reports_at, so_of};
ghost use Rattle.law_joins.specs.PlayedLogs.{FirstLog, JoinedLog, JoinedVsync, LentLog, MarkedQueue, PlayedSo, SawSignals, SentActors, SignalledLog, TakenSo, VsyncLog};
ghost use Rattle.law_joins.specs.PlayedLogs.{all_released, all_taken, arrivals_seen, calls_seen};

use law_threads::{Lease, ReadLease, TableName};

/// What a compositor's seats knew before a vsync is known wherever what they knew after it is.
pub fn what_seats_knew_is_known_at_the_join<B: TableName>()
    ensures { (vsync : JoinedVsync B ⟦<ReadLease<B> as Lease>⟧) → IsKnown vsync.joined vsync.arriving vsync.before.seats }
{}

/// What a compositor took among threads is what its log says, up to the last that it took; so it is
/// of all calls on the arrivals of the run, where nobody else takes.
pub fn what_was_taken_is_what_the_log_tells<B: TableName>()
    ensures log { (log : FirstLog B ⟦<ReadLease<B> as Lease>⟧) → HasTaken log.vsyncs.last.handler (arrivals_seen log.vsyncs) (all_taken log.vsyncs) }
    ensures joined { (so : TakenSo) (arriving : ArrivalCalls) → OnlyFirstTakes arriving → GoesOnWithout 0 so.calls arriving
        → HasTaken so.handler arriving so.taken }
{}

/// What a compositor's vsyncs saw of the timelines is 0 or what steps signalled, where its seats were
/// shown nothing else, and no value fell: so far they are vsyncs of the scene.
pub fn vsyncs_saw_what_steps_signalled<B: TableName>()
    ensures { (log : SignalledLog B ⟦<ReadLease<B> as Lease>⟧) → SawSignals log }
{}

/// The frames that a compositor among threads holds are ones that calls of the run gave, where what came
/// is.
pub fn what_a_compositor_holds_was_lent<B: TableName>()
    ensures { (log : LentLog B ⟦<ReadLease<B> as Lease>⟧) → HoldsLent log.joined log.vsyncs.last.handler }
{}

/// The vsyncs of a compositor among threads play what was sent: their commits are in order, each was ready
/// by what the run has written and signalled, and each frame shown is the one that is due.
pub fn vsyncs_among_threads_are_played<B: TableName>()
    ensures { (log : JoinedLog B ⟦<ReadLease<B> as Lease>⟧) → PlayedSo log }
{}

/// The calls of a compositor among threads are the releases of its vsyncs, in their order, on each declared
/// queue; and it makes no other calls.
pub fn a_compositor_calls_what_its_vsyncs_release<B: TableName>()
    ensures given { (log : JoinedLog B ⟦<ReadLease<B> as Lease>⟧) (queue : MarkedQueue)
        → IsGivenOn queue.marks (calls_seen log.vsyncs) (all_released log) queue.declared }
    ensures no_others { (vsyncs : VsyncLog B ⟦<ReadLease<B> as Lease>⟧) → IsBegun vsyncs.start → (queue : ℕ) → AreReleasesOn (calls_seen vsyncs queue) }
{}

/// At the join of a run in threads the actors that came back are those of the scene and keep what they keep
/// over the desk; all that left is known; and since its last vsync the compositor called nothing.
pub fn actors_keep_what_they_keep_at_the_join<B: TableName>()
    ensures actors { (join : JoinedRun B ⟦<ReadLease<B> as Lease>⟧ B.table) → AreActors join.scene (actors_of join) (home_of join.desk) (desk_view join.desk) }
    ensures over { (join : JoinedRun B ⟦<ReadLease<B> as Lease>⟧ B.table) → JoinsLedger join → JoinsOver join }
    ensures exact { (join : JoinedRun B ⟦<ReadLease<B> as Lease>⟧ B.table) → let turns = (desk_view join.desk).turns in IsExact B.table.slots turns.leaves turns.seen }
    ensures called { (join : JoinedRun B ⟦<ReadLease<B> as Lease>⟧ B.table) (queue : ℕ)
        → GoesOnWithout 0 ((view_of join.last.seats).calls queue) ((desk_view join.desk).calls queue) }
{}

/// At the join of a run in threads a player's invariant holds, where the ledger of rights stands: what was
/// shown is the beginning of a played run, whose vsyncs are those of the log.
pub fn what_threads_did_is_played<B: TableName>()
    ensures stands { (join : JoinedRun B ⟦<ReadLease<B> as Lease>⟧ B.table) → JoinsLedger join → Stands B.table join.scene (so_of join) (player_of join).play }
    ensures vsyncs { (join : JoinedRun B ⟦<ReadLease<B> as Lease>⟧ B.table) → vsyncs_in (so_of join).events ≡ reports_at join }
{}

/// So a player goes on with the run from there, where the makers of buffers and the draws of the run stand,
/// too, and no more than 2^31 vsyncs were made.
pub fn a_player_stands_at_the_join<B: TableName>()
    ensures in_run { (join : JoinedRun B ⟦<ReadLease<B> as Lease>⟧ B.table) → JoinsRights join → StandsInRun B.table join.scene (so_of join) (player_of join) }
    ensures standing { (join : JoinedRun B ⟦<ReadLease<B> as Lease>⟧ B.table) → JoinsRights join → IsStanding B.table (player_of join) }
{}

/// Seated actors that had done nothing when they were sent out in threads walked back by tries of their
/// steps: so they were given seats and came back as `Joins` has it.
pub fn seated_actors_walked_back<B: TableName>()
    ensures { (of : SentActors B B.table) → WalkedBack of.scene B.table of.locks (new_actors of.declared of.stock) of.back }
{}

/// After each vsync that was made while threads ran the buffers on layers have the scene's pictures of
/// their numbers, so what was written of it are images of these.
pub fn buffers_among_threads_have_their_pictures<B: TableName>()
    ensures { (join : JoinedRun B ⟦<ReadLease<B> as Lease>⟧ B.table) → HavePictures join }
{}
