//! Transactions that arrive without a lock: senders put them into a queue that threads share, and one
//! taker takes them out in one order, in which each sender's stand as it sent them.
//!
//! `specs/Rule.antt` says what holds of the queue and of all that senders and taker know between any
//! two atomic steps, `protocol` names each kind of step, and `steps` makes them.
#![tactic(auto)]

mod intake;
mod naming;
mod posted;
mod protocol;
mod sender;
mod steps;
mod taker;

pub use intake::Intake;
pub use sender::Sender;
pub use sf_token::{Arrivals, ArriveCall, ArriveReply, Arrived, Batch, Lease, Transaction};
pub use taker::Taker;
