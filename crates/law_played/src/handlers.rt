//! Laws about vsyncs: what a handler of `sf_commit` does is what the records of a played run may
//! say. They are called for their clauses alone.
ghost use Rattle.std.specs.Prelude.{◌≡◌, ℕ, ◌+◌, ◌<◌, ◌≤◌, ◌++◌, List, [], Option, length, map};
ghost use Rattle.sf_base.specs.Fences.{no_points};
ghost use Rattle.sf_base.specs.declared.fences.Seen.{Seen as SeenValue};
ghost use Rattle.sf_script_scene.specs.sf_picture.declared.picture.Picture.{Picture as PictureValue};
ghost use Rattle.sf_actor.specs.sf_surface.Reading.{plain_lease};
ghost use Rattle.sf_actor.specs.sf_surface.Tokens.{ReadLeaseOf};
ghost use Rattle.sf_commit.specs.sf_token.Pending.{Arrival, IsRisingFrom};
ghost use Rattle.sf_commit.specs.Handlers.{last_of};
ghost use Rattle.sf_commit.specs.Lending.{KeptRead};
ghost use Rattle.sf_script_scene.specs.Scene.{SceneValue};
ghost use Rattle.sf_actor.specs.Known.{AreAmong, Rise, frame_of, plain_arrival};
ghost use Rattle.sf_actor.specs.Names.{FrameOf};
ghost use Rattle.sf_actor.specs.Points.{reached_by};
ghost use Rattle.sf_actor.specs.Scripts.{with_points};
ghost use Rattle.sf_actor.specs.Written.{FrameNumber};
ghost use Rattle.sf_record.specs.declared.event.VsyncRecords.{VsyncRecords};
ghost use Rattle.law_played.specs.Commits.{CommitInOrder, seen_by};
ghost use Rattle.law_played.specs.Frames.{ShowImages};
ghost use Rattle.law_played.specs.Framing.{framed_arrival};
ghost use Rattle.law_played.specs.Histories.{released_in};
ghost use Rattle.law_played.specs.Holds.{AreHeld};
ghost use Rattle.law_played.specs.Progress.{AreWrittenToo};
ghost use Rattle.law_played.specs.Progress.{held_shown, released_by};
ghost use Rattle.law_played.specs.Seeing.{HasSeen};
ghost use Rattle.law_played.specs.Vsyncs.{commits_in};
ghost use Rattle.law_played.specs.NextVsyncs.{AddedVsync, AddsItsRound, AreNumberedFrom1, ComeSoFar, DecidedVsync, EyeKnows, EyeTells, GivesBackWhatGoes};
ghost use Rattle.law_played.specs.NextVsyncs.{HasCome, LastVsync, LendsOneFrame, LooksShow, LooksWrote, NextVsync, ReportedVsync, RunSoFar, ShowsDue, before_vsyncs};
ghost use Rattle.law_played.specs.NextVsyncs.{end_seen, first_handler, left_by, run_behind, run_with, that_lends, told_so_far, with_arrivals, with_pixels, with_written};
ghost use Rattle.law_played.specs.Seeing.{IsSo, SawGreatest, SeenSoFar, SeesMore, ShowsAllSeen, with_report};

use sf_commit::Lease;

/// A new handler has played nothing of a scene.
pub fn a_new_handler_has_played_nothing<L: Lease>()
    ensures { (run : RunSoFar L) (width height : ℕ) → HasCome (before_vsyncs run) (first_handler run width height) }
{}

/// A vsync of a handler that has played so far is as its record says: its commits are in order and
/// ready, and say their results, where what its looks showed to be written is written. What held a
/// transaction before it was committed in the same vsync was a barrier or backpressure, which do
/// not depend on what is written.
pub fn a_vsync_is_told<L: Lease>()
    ensures { (one : ReportedVsync L.Lease) → LooksWrote L.Lease one.next.run one.next.vsync → HasCome (run_with L.Lease one) one.next.vsync.new }
{}

/// The record of the vsyncs goes on by that one, with the tree that it leaves and the frames that
/// go with it.
pub fn a_vsync_adds_its_round<L: Lease>()
    ensures { (one : ReportedVsync L.Lease) → AddsItsRound L.Lease one }
{}

/// A vsync that commits nothing has no record: that of the vsyncs before stays, and the handler has
/// played so far still. It releases nothing.
pub fn a_silent_vsync_is_told<L: Lease>()
    ensures come { (next : NextVsync L.Lease) → next.vsync.told.commits ≡ [] → HasCome (run_behind L.Lease next) next.vsync.new }
    ensures told { (next : NextVsync L.Lease) → next.vsync.told.commits ≡ [] → told_so_far (run_behind L.Lease next) ≡ told_so_far next.run }
    ensures releases { (next : NextVsync L.Lease) → next.vsync.told.commits ≡ [] → next.vsync.told.releases ≡ [] }
{}

/// The last vsync commits nothing, no time holds a transaction, and its looks show what is written:
/// then what it reports as held is what is held at the end.
pub fn the_end_is_held<L: Lease>()
    ensures { (last : LastVsync L.Lease)
        → AreHeld (end_seen L.Lease last.next) (left_by L.Lease last.next) (map held_shown last.next.vsync.told.held) }
{}

/// Of a handler that has played so far the commits are in order, and each is ready at its place.
pub fn what_was_played_is_in_order<L: Lease>()
    ensures { (so : ComeSoFar L) → CommitInOrder so.run.arrivals so.run.written (commits_in so.run.vsyncs) (told_so_far so.run) }
{}

/// The record of the vsyncs stays where more arrives.
pub fn more_may_arrive<L: Lease>()
    ensures { (so : ComeSoFar L) (more : List (Arrival FrameOf)) → told_so_far (with_arrivals so.run more) ≡ told_so_far so.run }
{}

/// What was played was so, too, where more is written.
pub fn more_may_be_written<L: Lease>()
    ensures { (so : ComeSoFar L) (others : List FrameNumber) → AreWrittenToo so.run.written others → HasCome (with_written so.run others) so.handler }
{}

/// A handler that lends its pixels, or gets them back, has played so far still.
pub fn lending_plays_nothing<L: Lease>()
    ensures lends { (so : ComeSoFar L) (lent : Option (List PictureValue)) → HasCome so.run (that_lends so.handler lent) }
    ensures gives_back { (so : ComeSoFar L) (lent : Option (List PictureValue)) (kept : List (KeptRead L))
        → HasCome so.run (with_pixels so.handler lent kept) }
{}

/// The looks of a vsync show as written only what is written, where that holds of each write that
/// the eye knows to have ended; and exactly what is written, where an exact eye's ends say that.
pub fn looks_show_what_is_written<L: Lease>()
    ensures known { (run : RunSoFar L) (vsync : DecidedVsync L.Lease) → EyeKnows L.Lease run vsync → LooksWrote L.Lease run vsync }
    ensures exact { (run : RunSoFar L) (vsync : DecidedVsync L.Lease) → EyeTells L.Lease run vsync → LooksShow L.Lease run vsync }
{}

/// The releases of a vsync give back the frames that go, in their order.
pub fn releases_give_back_what_goes<L: Lease>()
    ensures { (frame : L → FrameOf) → LendsOneFrame L.Lease frame → (vsync : DecidedVsync L.Lease) → GivesBackWhatGoes L.Lease frame vsync }
{}

/// Where the record goes on by a vsync, so do the frames that were released, and the images that
/// were shown.
pub fn what_is_told_goes_on()
    ensures releases { (added : AddedVsync) → released_in added.later ≡ released_in added.told ++ released_by added.report added.gone }
    ensures images { (scene : SceneValue) (added : AddedVsync) → ShowImages scene added.told → ShowsDue scene added → ShowImages scene added.later }
{}

/// A record that shows of each declared timeline what was seen says what was seen, where nothing was
/// seen of the others; and the points that were signalled reach the greatest value of each timeline.
pub fn values_are_seen()
    ensures shown { (scene : SceneValue) (seen : SeenValue) (report : VsyncRecords) → ShowsAllSeen scene seen report → seen_by report ≡ seen }
    ensures reached { (seen : SeenValue) (points : List (ℕ × ℕ)) → SawGreatest seen points → reached_by (with_points no_points points) ≡ seen }
{}

/// The vsyncs so far are those of a scene still after one more of a greater number, where no value
/// fell; also while time goes on without a record, and where more was signalled.
pub fn vsyncs_go_on()
    ensures none { (scene : SceneValue) (signals : List (ℕ × ℕ)) (number : ℕ) (seen : SeenValue) → HasSeen scene signals [] number seen }
    ensures more { (so : SeenSoFar) (report : VsyncRecords) (later : SeenValue) → IsSo so → SeesMore so report later → IsSo (with_report so report later) }
    ensures silent { (so : SeenSoFar) (other : ℕ) (later : SeenValue) → IsSo so → so.number ≤ other → Rise so.seen later
        → IsSo (record so { number = other; seen = later }) }
    ensures signals { (so : SeenSoFar) (others : List (ℕ × ℕ)) → IsSo so → AreAmong so.signals others → IsSo (record so { signals = others }) }
{}

/// Where arrivals are numbered from 1 on, the later ones rise behind the earlier ones, up to their
/// count.
pub fn numbered_arrivals_rise<L: Lease>()
    ensures rise { (earlier arrived : List (Arrival L)) → AreNumberedFrom1 (earlier ++ arrived)
        → IsRisingFrom (length earlier) arrived (last_of (length earlier) arrived) }
    ensures last { (earlier arrived : List (Arrival L)) → AreNumberedFrom1 (earlier ++ arrived)
        → last_of (length earlier) arrived ≡ length (earlier ++ arrived) }
{}

/// A read lease names its frame by what stays of it where it is handed on; and an arrival with
/// frames in the place of its read leases is the plain one.
pub fn read_leases_tell_their_frames()
    ensures plain { (a b : ReadLeaseOf) → plain_lease a ≡ plain_lease b → frame_of a ≡ frame_of b }
    ensures arrivals { (arrived : List (Arrival ReadLeaseOf)) → map (framed_arrival frame_of) arrived ≡ map plain_arrival arrived }
{}
