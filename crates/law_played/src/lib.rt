//! What a played run means: a relation between a scene and the records of a run, which speaks of
//! these alone. It is stated in specs/, one question a module; here are laws about it, and what the
//! vsyncs of a handler bring to it.
#![tactic(auto)]

mod actors;
mod ends;
mod handlers;
mod laws;
mod ongoing;
mod plays;
mod telling;

pub use actors::{
    acquired_frames_show_pictures, acquired_frames_were_queued, actors_are_traced,
    buffers_show_as_queued,
};
pub use ends::{a_step_that_was_left_is_not_ready, actors_that_are_not_ready_are_stuck};
pub use handlers::{
    a_new_handler_has_played_nothing, a_silent_vsync_is_told, a_vsync_adds_its_round,
    a_vsync_is_told, lending_plays_nothing, looks_show_what_is_written, more_may_arrive,
    more_may_be_written, numbered_arrivals_rise, read_leases_tell_their_frames,
    releases_give_back_what_goes, the_end_is_held, values_are_seen, vsyncs_go_on,
    what_is_told_goes_on, what_was_played_is_in_order,
};
pub use laws::{
    a_queue_is_told, a_scene_with_one_output_shows_its_frame, replaced_frames_go_back,
    the_least_run_is_played, the_order_of_replies_is_free,
};
pub use ongoing::{
    a_play_ends, a_play_goes_on, a_play_has_records, a_scene_has_a_play, play_records_are_one,
};
pub use plays::{
    a_done_step_is_a_transition, a_release_is_the_plays, a_scene_has_one_play,
    a_step_is_the_next_of_a_play, a_vsync_is_the_next_of_a_play, the_least_scene_has_a_play,
};
pub use sf_actor::{HistEntry, QueueObject, ReadLease, Reply, Stepped, Stock, TableName, TurnSeat};
pub use sf_commit::{ArrvEntry, Commit, Committed, Handler, Hold, Lease, Release};
pub use sf_compose::{Content, Drawn, Shown, View};
pub use sf_output_plan::{CapturePlan, DisplayPlan, HitPlan, Plan, ViewsDue, views_due};
pub use sf_record::sf_output::{Image, ImageId, Output};
pub use sf_record::{
    ArrivalEntry, CommitRecord, CommittedBuffer, HeldEntry, HistoryEntry, Hit, QueueHistory,
    Record, ReplyRecord, RunFault, SceneHeader, StuckEntry, TimelineValue, VsyncHeader,
    write_image, write_record,
};
pub use sf_script_scene::{CaptureDecl, DisplayDecl, HitDecl, Scene};
pub use telling::{
    arrivals_come_in_order, calls_are_histories, replies_answer_steps, what_actors_tell_fits,
};
