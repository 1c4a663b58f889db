//! The actors of a scene in threads of their own. Each is given seats at what all share, and
//! tries one step after the other; one that can't go on sleeps until another one has done
//! something. Meanwhile the thread that started them, as a visitor, does its own part with the
//! first seats. Once all rest they are joined, and their seats are taken in.
#![tactic(auto)]

mod all_returned;
mod gates;
mod here;
mod laws;
mod pacing;
mod run;
mod seated_actor;
mod seating;
mod task;
mod threads;
mod try_next;
mod visit;
mod work;

pub use all_returned::{AllReturned, ReturnedActor};
pub use gates::Gates;
pub use laws::seats_do_what_steps_do;
pub use pacing::Host;
pub use run::{Stopped, run_actors};
pub use seated_actor::SeatedActor;
pub use sf_actor_steps::{
    Actor, Desk, Lease, PlainDesk, QCall, QueueObject, ReadLease, Reply, settle,
};
pub use sf_io::Sink;
pub use sf_live_seats::{Committed, FirstSeats, Handler, Locks, Release, Seats};
pub use sf_picture::Painted;
pub use sf_turns::TableName;
pub use visit::{Ended, Look, Visit};
