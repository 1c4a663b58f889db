//! Timelines: 64 counters that only rise and that threads share, with a seat for each thread
//! through which it raises and observes them. Sync fences name points of these counters, so a
//! frame's acquire and release fences are signalled here. Each call is one atomic step on one
//! word (`join` and `see_all` are several): none waits, and none but `Timelines::open` takes
//! memory.
#![tactic(auto)]

mod protocol;
mod seat;
mod timelines;

pub use seat::TimeSeat;
pub use timelines::Timelines;
