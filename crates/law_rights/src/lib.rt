//! Where the rights to pixels lie in a run of one thread: each in one place, so that what a look at
//! a frame shows is whether the frame was written. It is stated in specs/, one question a module;
//! here are laws about it.
#![tactic(auto)]

mod firsts;
mod laws;
mod makers;
mod older;
mod runs;
mod turns;

pub use firsts::an_older_draw_has_not_left;
pub use laws::{
    a_buffer_is_followed_to_its_maker, a_call_keeps_the_ledger, a_call_moves_rights,
    a_frame_is_queued_by_one_step, a_ledger_stands_at_the_beginning,
    a_look_tells_what_a_run_has_written, a_look_tells_what_was_written, a_move_keeps_a_ledger,
    a_release_keeps_the_ledger, a_short_draw_waits_for_what_is_owed, a_standing_ledger_tells,
    a_step_leaves_the_ledger_standing, a_try_keeps_the_ledger, a_vsync_keeps_the_ledger,
    a_vsync_leaves_the_ledger_standing, an_acquired_frame_was_queued, the_draws_of_an_actor_rise,
    what_was_owed_and_is_written_was_paid, what_was_queued_before_a_draw_is_written,
};
pub use makers::{
    a_buffer_has_a_number_of_its_own, a_buffer_that_is_made_keeps_makers,
    a_call_does_to_places_what_is_told, a_call_keeps_makers, a_call_leaves_makers_standing,
    a_call_tells_places, a_queued_frame_keeps_makers, a_rest_keeps_makers,
    a_run_goes_on_with_a_call, a_run_that_goes_on_keeps_makers, a_try_does_to_places_what_is_told,
    a_vsync_does_to_places_what_is_told, an_attach_keeps_makers, makers_stand_at_the_beginning,
    makers_that_are_followed_tell, places_are_those_of_the_ledger, rights_stay_where_they_were,
    the_right_of_a_buffer_moves,
};
pub use older::an_earlier_turn_is_an_older_draw;
pub use runs::{
    a_step_leaves_makers_standing, a_vsync_leaves_makers_standing, standing_makers_tell,
};
pub use sf_actor_set::{Actor, ActorSet, Lease, ReadLease, TableName, permits_for};
pub use turns::{
    a_draw_that_enters_is_in_turn, a_step_leaves_draws_in_turn, a_vsync_leaves_draws_in_turn,
    draws_in_turn_come_after_what_was_owed, draws_stand_at_the_beginning,
};
