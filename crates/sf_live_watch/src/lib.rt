//! A watch over threads that do steps beside each other: who is idle since when, and when all rest.
//! A thread that can't go on sleeps here until another one has done something that it waits for, or
//! until all are to stop; and the starter, the thread that started them, sleeps until there is
//! something new to look at. No fact rests on it: it says when to try again, and when to stop.
#![tactic(auto)]

mod kind;
mod news;
mod wait_point;
mod watch;

pub use news::{Awaited, Effect, Slots};
pub use watch::{MOST_WATCHED, Watch};
