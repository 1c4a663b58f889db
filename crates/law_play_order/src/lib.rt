//! The play of a scene happens in order: its calls, arrivals and vsyncs come as its turns do, and each
//! of its vsyncs commits all that could commit.
#![tactic(auto)]

ghost use Rattle.std.specs.Prelude.{true};
ghost use Rattle.law_order.specs.Order.{InOneOrder};
ghost use Rattle.law_played.specs.sf_script_scene.Limits.{IsWithinLimits};
ghost use Rattle.law_played.specs.Played.{records_of, vsyncs_told};
ghost use Rattle.law_waits.specs.Leaving.{LeavesNone};
ghost use Rattle.law_play_order.specs.Happening.{HappenedInOrder, ShownPlay, WholePlay, happened_by};

/// The calls, the arrivals and the vsyncs that the records of a play show are in one order: that of
/// its turns.
pub fn a_play_is_in_one_order()
    ensures { (play : WholePlay) → InOneOrder true (happened_by play) }
{}

/// No vsync of a play passes over an arrival: what it leaves behind its commits was held at its end.
pub fn a_play_passes_nobody_over()
    ensures { (play : WholePlay) → IsWithinLimits play.scene → LeavesNone play.state.arrivals (vsyncs_told play.scene play.state.arrivals play.events) }
{}

/// So what shows a play, and fits its run, happened in order.
pub fn what_shows_a_play_happened_in_order()
    ensures { (shown : ShownPlay) → HappenedInOrder true shown.scene (records_of shown.scene shown.shows) }
{}
