//! A compositor among threads: over the first caller's seats at what all share it commits what
//! arrived, vsync by vsync, and shows it, while the actors run in threads of their own.
#![tactic(auto)]

mod behind;
mod compositor;
mod decider;
mod seat_desk;
mod showing;
mod vsync;

pub use compositor::Compositor;
pub use decider::Decider;
pub use sf_live_threads::{
    Actor, AllReturned, Desk, Ended, FirstSeats, Gates, Handler, Host, Lease, Locks, PlainDesk,
    QueueObject, ReadLease, Reply, ReturnedActor, Stopped, run_actors,
};
pub use sf_play_write::{
    Action, ActorSet, Engine, Player, RunFault, Screens, Shows, Workers, opening, permits_for,
    reply_record, show_play, show_vsync, write_closing, write_made,
};
