//! Where the threads of a run are joined, what a player keeps holds of the run so far: so its rounds go
//! on from there. What a joined run is stands in specs/; here are laws.
#![tactic(auto)]

mod laws;
mod rights;

pub use laws::{
    a_compositor_calls_what_its_vsyncs_release, a_player_stands_at_the_join,
    actors_keep_what_they_keep_at_the_join, buffers_among_threads_have_their_pictures,
    seated_actors_walked_back, vsyncs_among_threads_are_played, vsyncs_saw_what_steps_signalled,
    what_a_compositor_holds_was_lent, what_seats_knew_is_known_at_the_join,
    what_threads_did_is_played, what_was_taken_is_what_the_log_tells,
};
pub use rights::{a_run_in_threads_goes_on, what_a_compositor_knew_began_the_run};
