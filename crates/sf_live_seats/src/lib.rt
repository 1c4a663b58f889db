//! What threads share, and what each brings. Each queue lies under a lock, and so do the arrivals;
//! all callers hold the locks and the timelines by reference. A caller has seats: a pass for each
//! lock, a seat at the timelines and one at the turns. The first caller's seats give seats to others
//! and take them in again; then the queues, the arrivals and the seats are a desk of one thread, and
//! what each caller knew goes on in what that desk knows.
#![tactic(auto)]

mod arrivals;
mod arrivals_seat;
mod at_intake;
mod clock;
mod compositing;
mod first;
mod inbox;
mod laws;
mod locks;
mod noted;
mod outbox;
mod queue_seat;
mod seats;
mod sending;
mod shared;
mod shown;

pub use arrivals::StampedArrivals;
pub use arrivals_seat::ArrivalsSeat;
pub use at_intake::AtIntake;
pub use clock::Clock;
pub use first::FirstSeats;
pub use inbox::{Courier, Inbox};
pub use laws::first_seats_stay_first;
pub use locks::{Locks, QueueLock};
pub use noted::Noted;
pub use outbox::Outbox;
pub use queue_seat::QueueSeat;
pub use seats::Seats;
pub use sf_commit::{Committed, Handler, Release};
pub use shared::SharedDesk;
pub use shown::Shown;
