//! A play as bytes: the records of what a player does, one after another, are written to a sink.
#![tactic(auto)]

mod closing;
mod composing;
mod play;
mod shows;
mod vsync;
mod writing;

pub use closing::write_closing;
pub use composing::{Beside, compose_beside, compose_views, is_worth};
pub use play::{opening, show_play};
pub use sf_output::{Image, ImageId, Output};
pub use sf_output_screen::{Engine, Screen, Screens, Workers};
pub use sf_play::{
    Action, ActorSet, CompositorDesk, Player, RunFault, SourcedView, VsyncOutcome, VsyncReport,
    is_time, permits_for, reply_record, vsync_over,
};
pub use shows::Shows;
pub use vsync::{show_vsync, vsync_views, write_vsync};
pub use writing::write_made;
