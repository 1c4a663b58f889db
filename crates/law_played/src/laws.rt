//! Laws about what a played run means, and runs for which it is computed.
ghost use Rattle.std.specs.Prelude.{◌≡◌, List, [], ◌∷◌, map};
ghost use Rattle.std.specs.List.{flat_map};
ghost use Rattle.sf_record.specs.declared.event.Event.{Event as EventValue};
ghost use Rattle.sf_record.specs.declared.record.CommitRecord.{CommitRecord};
ghost use Rattle.sf_script_scene.specs.Limits.{IsWithinLimits};
ghost use Rattle.sf_script_scene.specs.Scene.{SceneValue};
ghost use Rattle.sf_actor.specs.sf_slots.Tells.{AreReplies};
ghost use Rattle.sf_compose.specs.sf_tree.Trees.{TreeOf};
ghost use Rattle.sf_actor.specs.Written.{written_in};
ghost use Rattle.law_played.specs.Examples.{commits_due, pixel_queue, queue_calls, queue_history, queue_replies, queue_run, queue_trace, release_shown};
ghost use Rattle.law_played.specs.Examples.{replacing_arrivals, replacing_end, replacing_told, replacing_vsyncs};
ghost use Rattle.law_played.specs.Frames.{HasOneOutput, frame_after, shown_after};
ghost use Rattle.law_played.specs.Histories.{history_shown, released_in};
ghost use Rattle.law_played.specs.Holds.{AreHeld, uncommitted};
ghost use Rattle.law_played.specs.Least.{least_records, least_scene};
ghost use Rattle.law_played.specs.Played.{Played};
ghost use Rattle.law_played.specs.Replies.{replies_due};
ghost use Rattle.law_played.specs.Vsyncs.{commits_in};
ghost use Rattle.law_played.specs.ShownRuns.{AreAlike, IsFit, ShownRun, with_events};

/// What a run means leaves free in which order replies to different actors and vsyncs stand: where
/// each actor's replies and the vsyncs are the same, the same runs fit.
pub fn the_order_of_replies_is_free()
    ensures { (shown : ShownRun) (events : List EventValue) → AreAlike events shown.shows.events → IsFit shown → IsFit (with_events shown events) }
{}

/// A vsync of a scene without further displays, captures, hit tests, stacks and mirrors shows one
/// frame where a commit was not rejected, which is the painter's image of its tree, and nothing else.
/// Each scene of version 1 is such a scene.
pub fn a_scene_with_one_output_shows_its_frame()
    ensures shown { (scene : SceneValue) (commits : List CommitRecord) (tree : TreeOf) → HasOneOutput scene
        → shown_after scene commits tree ≡ frame_after scene commits tree }
    ensures version_1 { (scene : SceneValue) → IsWithinLimits scene → scene.version ≡ 1 → HasOneOutput scene }
{}

/// The records of the least scene, a red layer on a display of two pixels, are those of a played
/// run.
pub fn the_least_run_is_played()
    ensures { Played least_scene least_records }
{}

/// Of an actor that takes a buffer from a queue and shows it, the definitions give the records of
/// its replies and of the queue's history; its calls are legal, and its frame is written.
pub fn a_queue_is_told()
    ensures replies { replies_due queue_run 1 ≡ queue_replies }
    ensures history { history_shown queue_run pixel_queue ≡ queue_history }
    ensures legal { AreReplies 1 1 queue_calls }
    ensures written { written_in queue_trace ≡ (record { 0 = 1 }, 1) ∷ [] }
{}

/// Of frames that take one another's place on a layer, the definitions give the records of the
/// commits and what goes back: an unread frame with its point, a read one with none. What waits for
/// a frame that never comes is held.
pub fn replaced_frames_go_back()
    ensures commits { flat_map commits_due replacing_told ≡ commits_in replacing_vsyncs }
    ensures releases { map release_shown (released_in replacing_told) ≡ (1, 0, 1, 1 ∷ 1 ∷ []) ∷ (2, 1, 2, []) ∷ [] }
    ensures held { AreHeld replacing_end (uncommitted replacing_arrivals (commits_in replacing_vsyncs)) (record { arrival = 4; hold = 5; a = 1; b = 9 } ∷ []) }
{}
