//! Draws come in turn where a run in threads is joined: what a draw saw of counts has no place in
//! the order of calls, but the seats that are joined know all that left. So what the order of calls
//! says of draws is kept along it without any count, and the rest follows at the end. It is stated
//! in specs/; here are laws about it.
#![tactic(auto)]

mod laws;

pub use law_rights::{Lease, ReadLease};
pub use laws::{
    a_step_leaves_rights_standing, frames_that_go_back_leave_rights_standing,
    one_turn_is_given_to_what_is_entered, placed_draws_stand, rights_stand_at_the_beginning,
    rights_that_stand_in_the_end_tell,
};
