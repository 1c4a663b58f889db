//! The play of a scene in one thread: a player does the picks of its order one at a time, then whole
//! rounds, up to the first round in which nothing is done; and what it shows is written as records.
//! A run whose actors did their steps in threads goes on by the same rounds.
#![tactic(auto)]

mod action;
mod actor_desk;
mod desk;
mod kept;
mod laws;
mod outcome;
mod place;
mod player;
mod vsync;

pub use action::{Action, is_time};
pub use desk::CompositorDesk;
pub use kept::KeptReport;
pub use law_rights::{Actor, ActorSet, permits_for};
pub use laws::{
    replies_may_be_shown_last, the_next_actor_is_the_one_that_is_tried,
    the_vsyncs_of_rounds_can_be_numbered, what_stands_at_its_end_fits,
};
pub use outcome::VsyncOutcome;
pub use place::Place;
pub use player::Player;
pub use sf_play_report::{
    Commit, Handler, Hit, Hold, Lease, Plan, QueueObject, Record, Reply, RunFault, SceneHeader,
    SourcedView, Stock, StuckEntry, TableName, TurnSeat, VsyncReport, arrivals_record,
    commit_record, held_record, history_record, plan_of, reply_record, sourced_views, vsync_record,
    write_image, write_record,
};
pub use sf_script_scene::Scene;
pub use vsync::vsync_over;
