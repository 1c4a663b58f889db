//! A scene that is played live: each actor in a thread of its own over what all share, while the
//! compositor commits and shows, and the rounds of a play once no thread can go on.
#![tactic(auto)]

mod opening;
mod resuming;
mod rounds;
mod running;
mod scene;
mod threads;

pub use opening::{Opened, Turns, open};
pub use scene::{live, live_queue};
pub use sf_live_compositor::{Engine, Workers, permits_for, show_play};
pub use sf_turns::{Stock, TableName, TurnSeat, open_turns};
